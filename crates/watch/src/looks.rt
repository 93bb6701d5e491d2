//! What is asked whether an answer is still wanted.

ghost use Rattle.std.specs.Prelude.{◌≡◌, true, false, IfErr};

use crate::unanswered::CalledOff;

/// Can call a search off.
pub trait Watch {
    /// `wants` has said that the answer is not wanted.
    ghost has_said_no: { Self → Type 0 };

    /// Whether the answer is still wanted. After `false` the search is given up. While candidates are taken out of an index, it is
    /// asked before each set of a trigram and before two sets are joined or met, at each 16,384 numbers that are read, at each 1,024
    /// names that are passed, and at each 1,024 documents that are handed out. Then it is asked each 32,768 bytes that a simulation
    /// reads, and more often where a byte takes it many steps; and by crate `search` before each name that is matched, before and
    /// after a pattern is compiled, before each document, at the next 64 KiB or less within one, before each pass over a line that
    /// looks for a column or a span, and before each 64 KiB of text that is formed.
    fn wants(&mut self) -> bool
        ensures { result ≡ false → has_said_no self.new };
}

/// A watch that does nothing. The answer is always wanted.
#[derive(Drop)]
pub struct NoWatch;

impl Watch for NoWatch {
    ghost has_said_no = { λ _. ⊥ };

    fn wants(&mut self) -> bool
        ensures { result ≡ true }
    {
        true
    }
}

/// Asks whether the answer is still wanted. An `Err` means that it is not.
pub fn ask<W: Watch>(watch: &mut W) -> Result<(), CalledOff>
    ensures { IfErr result (λ _. W.has_said_no watch.new) }
{
    if watch.wants() {
        Ok(())
    } else {
        Err(CalledOff)
    }
}
