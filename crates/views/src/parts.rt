//! What is shown of documents that were searched together.

ghost use Rattle.std.specs.Prelude.{◌≡◌, ◌++◌, length};
ghost use Rattle.views.specs.Text.{text_of_hits};

use crate::places::{Lines, Places};
use std::marker::Model;

/// Some of the text of an answer. Its first bytes are formed already; of the rest the hits are known, whose lines are still to
/// be formed.
///
/// Contracts see it as the text.
#[derive(Debug, Drop)]
pub struct Passage {
    /// The first bytes, behind `from` bytes that are not shown.
    pub text: Vec<u8>,
    /// How many of the first bytes of `text` are not shown.
    pub from: usize,
    /// Where lines alone are shown, the hits that these lines are of; otherwise none.
    pub places: Places,
    /// How many of the hits have their lines in `text`, from the first on.
    pub formed: usize,
    /// Whether a zero byte comes after each name.
    pub zero: bool,
}

impl Model for Passage {
    ghost use Rattle.std.specs.Prelude.{◌++◌, List, ℕ, drop};
    ghost use Rattle.views.specs.Text.{text_of_hits};

    ghost Value = { List ℕ };

    ghost view = { λ p. drop p.from p.text.items ++ text_of_hits p.zero (drop p.formed p.places) };

    ghost use Rattle.views.specs.Private.Parts.{IsPart};

    ghost invariant = { λ p. IsPart p.text.items p.from p.places p.formed };
}

/// The text of a part.
#[derive(Drop)]
pub struct PassageText<'a> {
    /// The first bytes.
    pub formed: &'a [u8],
    /// The hits whose lines follow.
    pub lines: Lines<'a>,
    /// Whether these lines have a zero byte after the name.
    pub zero: bool,
}

impl Passage {
    /// The text: its first bytes, which are formed already, and the hits whose lines follow.
    pub fn text(&self) -> PassageText<'_>
        ensures { result.formed.now ++ text_of_hits result.zero result.lines ≡ self.now }
    {
        let (_, lines) = self.places.lines().split_at(self.formed);
        PassageText {
            formed: &self.text[self.from..],
            lines,
            zero: self.zero,
        }
    }
}
