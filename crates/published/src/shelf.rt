//! The writer and the readings share an index and the history that it represents. There are two copies, and
//! each operation is carried out on both.

ghost use Rattle.std.specs.Prelude.{◌≡◌, ◌+◌, ◌^◌, ◌<◌, ◌≤◌, OnOk, OnErr, IfOk, IfSome, IfNone, MatchBool};
ghost use Rattle.documents.specs.declared.command.Command.TheVariants.{Put as put_command};
ghost use Rattle.documents.specs.State.{applied};
ghost use Rattle.published.specs.Private.Shelf.{command_of};

use crate::batches::Front;
use crate::incoming::Incoming;
use documents::{Corpus, Name};
use index::{Analysed, Index};
use left_right::Absorb;
use std::alloc::AllocError;
use std::thread::Threads;

/// How much work an operation without a body is, in bytes of bodies.
const LEAST_WORK: usize = 256;

/// The work of a part of a copy, in bytes of bodies: half of a piece.
const COPIES: usize = 32_768;

/// When the sets of its trigrams change for a document that is put or removed.
#[derive(Clone, Copy)]
pub(crate) enum Way {
    /// At once.
    AtOnce,
    /// At once, but those for new documents wait for `Shelf::fill`.
    Together,
    /// At once if they are few; otherwise they wait for `Shelf::fill_some` or `Shelf::fill`.
    InPieces,
}

/// A command whose name and body are shared by both copies.
#[derive(Drop)]
pub enum Update {
    /// A put of this name and body.
    Put(Name, Incoming),
    /// A remove of this name.
    Remove(Name),
    /// A remove of all names that begin with this prefix.
    RemoveUnder(Name),
    /// A copy of all documents whose names begin with the first name, under names with the second one in its place.
    CopyUnder(Name, Name),
}

/// What is done to both copies.
#[derive(Drop)]
pub enum Operation {
    /// The documents change.
    Change(Update),
    /// Notes the front of the history that the changes so far reach.
    Stamp(Front),
}

/// An index and the front of the history that it represents.
#[derive(Drop)]
pub struct Shelf {
    /// The index.
    pub index: Index,
    /// The front.
    pub front: Front,
}

/// `left_right`'s own writer only keeps the two copies. What it would carry out on both is nothing: that is left to
/// `Copies`, in pieces.
impl Absorb<()> for Shelf {
    type State = ();

    ghost state = { λ _. tt };

    ghost applied = { λ state _. state };

    fn absorb_first(&mut self, _operation: &(), _other: &Shelf) -> Result<(), AllocError> {
        Ok(())
    }
}

impl Operation {
    /// Finds the trigrams of the body that it brings, if it brings one, unless that is done or memory runs out. A body that a document of
    /// the index has is taken from there.
    pub(crate) fn analyse(&mut self, index: &Index)
        ensures { self.new ≡ self.old }
    {
        if let Operation::Change(Update::Put(_, incoming)) = self {
            incoming.analyse(index);
        }
    }

    /// The bytes of the body that it brings, if that is not analysed yet.
    pub(crate) fn bytes_to_analyse(&self) -> usize {
        match self {
            Operation::Change(Update::Put(_, incoming)) if incoming.with_trigrams().is_none() => {
                incoming.len()
            }
            _ => 0,
        }
    }

    /// The bytes of the body that it brings.
    fn bytes_brought(&self) -> usize {
        match self {
            Operation::Change(Update::Put(_, incoming)) => incoming.len(),
            _ => 0,
        }
    }

    /// Whether it can be carried out: a body that it brings is analysed.
    pub(crate) fn is_ready(&self) -> bool {
        match self {
            Operation::Change(Update::Put(_, incoming)) => incoming.with_trigrams().is_some(),
            _ => true,
        }
    }
}

impl Shelf {
    ghost use Rattle.published.specs.Private.Shelf.{operated};

    /// Carries out the operation in this way. An `Err` means that memory ran out, that a name or a body has too many handles, or that
    /// a body is not analysed; the documents and the front are then as they were.
    pub(crate) fn carry_out(&mut self, operation: &Operation, way: Way) -> Result<(), AllocError>
        ensures ok { OnOk result (self.new ≡ operated self.old operation.now) }
        ensures err { OnErr result (self.new ≡ self.old) }
    {
        match operation {
            Operation::Change(update) => change(&mut self.index, update, way)?,
            Operation::Stamp(front) => self.front = front.again(),
        }
        Ok(())
    }

    /// Carries out the operation in pieces. Returns about how much work that was: all bytes of the body that it takes away, and, unless
    /// they are left to `fill_some`, those of the one that it brings. An `Err` is as that of `carry_out`.
    pub(crate) fn begin(&mut self, operation: &Operation) -> Result<usize, AllocError>
        ensures ok { OnOk result (self.new ≡ operated self.old operation.now) }
        ensures err { OnErr result (self.new ≡ self.old) }
        ensures work { IfOk result (λ work. 0 < work) }
    {
        let taken = self.bytes_taken(operation);
        self.carry_out(operation, Way::InPieces)?;
        let brought = if self.is_filling() {
            0
        } else {
            operation.bytes_brought()
        };
        Ok(taken.saturating_add(brought).saturating_add(LEAST_WORK))
    }

    /// Carries out a part of the operation, if it is a remove of all names under a prefix and there is such a name, or a copy of them:
    /// takes out one document, or copies some hundreds. Returns about how much work that was. The operation still has to be carried
    /// out, and then does what it would have done before.
    pub(crate) fn carry_out_part(&mut self, operation: &Operation) -> Option<usize>
        ensures part { operated self.new operation.now ≡ operated self.old operation.now }
        ensures work { IfSome result (λ work. 0 < work) }
        ensures none { IfNone result (self.new ≡ self.old) }
    {
        match operation {
            Operation::Change(Update::RemoveUnder(prefix)) => {
                let before = self.index.held_bytes();
                if !self.index.take_one_under(prefix) {
                    return None;
                }
                let bytes = before.saturating_sub(self.index.held_bytes());
                Some(LEAST_WORK.saturating_add(bytes as usize))
            }
            Operation::Change(Update::CopyUnder(from, to)) => {
                if !self.index.copy_some_under(from, to) {
                    return None;
                }
                Some(COPIES)
            }
            _ => None,
        }
    }

    /// Says whether `fill` or `fill_some` follows. If so, removes and replacements may have all documents wait for it, where that takes
    /// less time.
    pub(crate) fn expect_fill(&mut self, expected: bool)
        ensures { self.new ≡ self.old }
    {
        self.index.expect_fill(expected);
    }

    /// Puts the documents that wait into the sets of their trigrams, in up to `threads` threads. An `Err` means that memory ran
    /// out; some may then still wait.
    pub(crate) fn fill<R: Threads + Sync>(
        &mut self,
        rt: &R,
        threads: usize,
    ) -> Result<(), AllocError>
        ensures { self.new ≡ self.old }
    {
        self.index.fill(rt, threads)
    }

    /// Goes on with a document that waits alone, until the work comes to about `most` bytes of bodies: a set that changes counts 8
    /// bytes, for which a usual text has one trigram, and more in the middle of many. Returns how much of `most` is left, which is 0
    /// if it still waits. An `Err` means that memory ran out.
    pub(crate) fn fill_one(&mut self, most: usize) -> Result<usize, AllocError>
        ensures same { self.new ≡ self.old }
        ensures left { IfOk result (λ left. left ≤ most) }
    {
        let left = self.index.fill_one(most.max(1))?;
        Ok(left.min(most))
    }

    /// Goes on with all that waits, in the same way. Returns how much of `most` is left, which is 0 if some still waits.
    pub(crate) fn fill_some(&mut self, most: usize) -> Result<usize, AllocError>
        ensures { self.new ≡ self.old }
    {
        self.index.fill_some(most)
    }

    /// Whether documents wait that `fill_some` and `fill` go on with.
    pub(crate) fn is_filling(&self) -> bool {
        self.index.is_filling()
    }

    /// The bytes of the body that the operation takes away.
    fn bytes_taken(&self, operation: &Operation) -> usize {
        match operation {
            Operation::Change(Update::Put(name, _) | Update::Remove(name)) => self.bytes_of(name),
            _ => 0,
        }
    }

    /// The bytes of the body of the document with this name, if there is one.
    fn bytes_of(&self, name: &Name) -> usize {
        match self.index.body(name) {
            Some(body) => body.as_bytes().len(),
            None => 0,
        }
    }
}

/// Carries out the command. It is refused if memory ran out, for its analysis too, or if the index takes no more commands,
/// which no desk meets.
fn change(index: &mut Index, update: &Update, way: Way) -> Result<(), AllocError>
    ensures ok { OnOk result (index.new ≡ applied (command_of update.now) index.old) }
    ensures err { OnErr result (index.new ≡ index.old) }
{
    if takes_no_more(index) {
        return Err(AllocError);
    }
    match update {
        Update::Put(name, incoming) => match incoming.with_trigrams() {
            Some(analysed) => put(index, name, analysed, way),
            None => Err(AllocError),
        },
        Update::Remove(name) => match way {
            Way::InPieces => index.remove_in_pieces(name),
            _ => index.remove(name),
        },
        Update::RemoveUnder(prefix) => index.remove_under(prefix),
        Update::CopyUnder(from, to) => index.copy_under(from, to),
    }
}

fn put(index: &mut Index, name: &Name, analysed: &Analysed, way: Way) -> Result<(), AllocError>
    requires { index.old.version + 1 < 2 ^ 32 }
    ensures ok { OnOk result (index.new ≡ applied (put_command name.now analysed.now) index.old) }
    ensures err { OnErr result (index.new ≡ index.old) }
{
    match way {
        Way::AtOnce => index.apply_put(name, analysed),
        Way::Together => index.put_later(name, analysed),
        Way::InPieces => index.put_in_pieces(name, analysed),
    }
}

/// Whether one more command would have a number over 32 bits.
fn takes_no_more(index: &Index) -> bool
    ensures { MatchBool result (index.now.version + 1 ≡ 2 ^ 32) (index.now.version + 1 < 2 ^ 32) }
{
    index.version() == u32::MAX
}
