//! How much work lies between two looks.

ghost use Rattle.std.specs.Prelude.{IfErr};

use crate::looks::{Watch, ask};
use crate::unanswered::CalledOff;

/// When it is asked next whether the answer is still wanted, over work that goes step by step. No answer depends on it.
#[derive(Clone, Copy, Debug, PartialEq, Eq)]
pub struct Pace {
    /// How many steps lie between two looks.
    each: usize,
    /// How many steps are left until the next one.
    left: usize,
}

impl Pace {
    /// A look at each so many steps, or at each step if `steps` is 0. The first one comes after so many.
    pub fn each(steps: usize) -> Pace {
        let each = steps.max(1);
        Pace { each, left: each }
    }

    /// Asks whether the answer is still wanted, if it is time for that: a further step is done. An `Err` means that it is not wanted.
    #[inline(always)]
    pub fn look<W: Watch>(&mut self, watch: &mut W) -> Result<(), CalledOff>
        ensures { IfErr result (λ _. W.has_said_no watch.new) }
    {
        if self.left > 1 {
            self.left -= 1;
            return Ok(());
        }
        self.left = self.each;
        ask(watch)
    }

    /// The same, where so many further steps are done.
    pub fn look_after<W: Watch>(&mut self, steps: usize, watch: &mut W) -> Result<(), CalledOff>
        ensures { IfErr result (λ _. W.has_said_no watch.new) }
    {
        if steps < self.left {
            self.left -= steps;
            return Ok(());
        }
        self.left = self.each;
        ask(watch)
    }
}
