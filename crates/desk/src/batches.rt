//! The history of an opening: the commands that its publishes add, from the first one on.

ghost use Rattle.std.specs.Prelude.{◌≡◌, ◌⊎◌, [], ◌++◌, length, IfSome, MatchBool};
ghost use mathlib.Core.List.{IsPrefix};
ghost use Rattle.history.specs.History.{head_of};
ghost use Rattle.desk.specs.History.{known};

use documents::Command;
use logbook::Plain;
use std::marker::Model;

/// The commands that one publish adds. Contracts read an array as a list, of any length. No value of this type
/// is made.
pub type Batch = [Command; 0];

/// The head of the history. Only the writer has it.
pub type Head = history::Head<Batch>;

/// A beginning of the history of an opening, known to whoever has it. Contracts see it as the opening and
/// the commands.
#[derive(Drop)]
pub struct Front {
    /// The number of commands.
    version: u32,
    batches: history::Front<Batch>,
}

impl Model for Front {
    ghost use Rattle.std.specs.Prelude.{◌≡◌, length};
    ghost use Rattle.desk.specs.History.{Known, known};
    ghost use Rattle.desk.specs.Private.Batches.{joined};

    ghost Value = { Known };

    ghost view = { λ f. known f.batches.book (joined f.batches.entries) };

    ghost invariant = { λ f. f.version ≡ length (joined f.batches.entries) };
}

impl Front {
    /// A new opening: the head of its history, and the front with no commands.
    pub(crate) fn open() -> (Head, Front)
        ensures head { result.0 ≡ head_of result.1.opening }
        ensures empty { result.1.commands ≡ [] }
    {
        let (head, batches) = history::Front::open();
        (
            head,
            Front {
                version: 0,
                batches,
            },
        )
    }

    /// The number of commands.
    pub(crate) fn version(&self) -> u32
        ensures { result ≡ length self.now.commands }
    {
        self.version
    }

    /// A copy.
    pub(crate) fn again(&self) -> Front
        ensures { result ≡ self.now }
    {
        Front {
            version: self.version,
            batches: self.batches.again(),
        }
    }

    /// Whether this front is a beginning of the other. Of two fronts of one opening, if it is not, the other is
    /// a beginning of this one.
    pub(crate) fn begins(&self, other: &Front) -> bool
        requires { other.now.opening ≡ self.now.opening }
        ensures { MatchBool result (IsPrefix self.now.commands other.now.commands) (IsPrefix other.now.commands self.now.commands) }
    {
        self.batches.begins(&other.batches)
    }

    /// The longer of two fronts of one opening. The other one is a beginning of it.
    pub(crate) fn longer(&self, other: &Front) -> Front
        requires { other.now.opening ≡ self.now.opening }
        ensures one { (result ≡ self.now) ⊎ (result ≡ other.now) }
        ensures this { IsPrefix self.now.commands result.commands }
        ensures that { IsPrefix other.now.commands result.commands }
    {
        if self.begins(other) {
            other.again()
        } else {
            self.again()
        }
    }

    /// The front after one more batch, the one that `about` asks for. `version` is its number of commands. `None`
    /// if the history continues after this front, or the batches would not fit in 64 bits. The writer meets
    /// neither: only it has the head.
    pub(crate) fn with<X, M: Plain<X, Batch, u64>>(
        &self,
        head: &Head,
        about: &X,
        version: u32,
    ) -> Option<Front>
        requires opening { head.now ≡ head_of self.now.opening }
        requires version { version ≡ length (self.now.commands ++ M.ask about.now) }
        ensures { IfSome result (λ f. f ≡ known self.now.opening (self.now.commands ++ M.ask about.now)) }
    {
        let batches = self.batches.with::<X, M>(head, about)?;
        Some(Front { version, batches })
    }
}
