//! What a publish hands out.

ghost use Rattle.std.specs.Prelude.{◌≡◌, length, MatchBool};
ghost use mathlib.Core.List.{IsPrefix};

use crate::batches::Front;
use std::marker::Model;

/// What a publish hands out: it tells what was published then. It can be lent to many readings at once.
///
/// Contracts see it as the opening and the commands that were published.
#[derive(Drop)]
pub struct Told {
    /// The front of the history that it hands out.
    pub(crate) front: Front,
}

impl Model for Told {
    ghost use Rattle.desk.specs.History.{Known};

    ghost Value = { Known };

    ghost view = { λ t. t.front };
}

impl Told {
    /// The number of commands that were published then, those of earlier publishes included.
    pub fn version(&self) -> u32
        ensures { result ≡ length self.now.commands }
    {
        self.front.version()
    }

    /// Whether the commands of this one are a beginning of those of the other, which is of the same opening. If they are
    /// not, those of the other are a beginning of them. It takes no memory and compares no command.
    pub fn begins(&self, other: &Told) -> bool
        requires { other.now.opening ≡ self.now.opening }
        ensures { MatchBool result (IsPrefix self.now.commands other.now.commands) (IsPrefix other.now.commands self.now.commands) }
    {
        self.front.begins(&other.front)
    }
}
