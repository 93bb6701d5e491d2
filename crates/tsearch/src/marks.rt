//! What the entries of a session say of its status.

ghost use Rattle.std.specs.Prelude.{◌≡◌, ◌||◌, if◌then◌else◌};
ghost use Rattle.transcript.specs.Transcript.{is_refusal, has_hit};
ghost use Rattle.tsearch.specs.Private.Sinks.{marks_with, status_by};

use transcript::{Entry, has_hit, is_refusal};

/// Whether any entry so far refuses something, and whether any has a hit.
#[derive(Clone, Copy, Debug, PartialEq, Eq)]
pub(crate) struct Marks {
    /// Whether any entry refuses something.
    pub(crate) refused: bool,
    /// Whether any entry has a hit.
    pub(crate) hit: bool,
}

impl Marks {
    /// The marks after one more entry.
    pub(crate) fn with(self, entry: &Entry) -> Marks
        ensures { result ≡ marks_with self entry.now }
    {
        Marks {
            refused: self.refused || is_refusal(entry),
            hit: self.hit || has_hit(entry),
        }
    }

    /// The status of a session with these entries: 2 if anything was refused, otherwise 0 if some search has a hit, and
    /// otherwise 1.
    pub(crate) fn status(self) -> u8
        ensures { result ≡ status_by self }
    {
        if self.refused {
            2
        } else if self.hit {
            0
        } else {
            1
        }
    }
}
