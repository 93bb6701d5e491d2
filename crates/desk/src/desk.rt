//! The desk: it accepts commands, and publishes them.

ghost use Rattle.std.specs.Prelude.{◌≡◌, ◌^◌, ◌<◌, ◌≤◌, ◌++◌, List, [], length, true, false, IfSome, IfOk, IfErr, OnOk, OnErr, MatchBool};
ghost use Rattle.documents.specs.declared.command.Command.TheVariants.{Put as put_command, Remove as remove_command, RemoveUnder as remove_under_command, CopyUnder as copy_under_command};
ghost use Rattle.std.proofs.Props.{props};
ghost use Rattle.std.specs.Coded.{codes};
ghost use Rattle.documents.specs.State.{state_code, state_of};
ghost use Rattle.documents.specs.Text.{most_name_bytes};
ghost use Rattle.history.specs.History.{head_of};
ghost use Rattle.versions.specs.Updates.{command_of};
ghost use Rattle.desk.specs.History.{known};
ghost use Rattle.desk.specs.Private.Pending.{commands_in, state_after};
ghost use Rattle.desk.specs.declared.opening.TheConstants.{MAX_COMMANDS};
ghost use Rattle.desk.specs.Desk.{desk_state, with_command, all_published, IsFull, HasRoom, has_document, has_document_under, has_document_too_long, IsPutFault, IsRemoveFault, IsCopyFault};

use crate::batches::{Batch, Front, Head};
use crate::error::{CopyError, PutError, PutErrorKind, RemoveError};
use crate::exchange::exchange;
use crate::pending::Pending;
use crate::rule::Both;
use crate::shown::Shown;
use crate::told::Told;
use documents::{Body, MAX_NAME, Name};
use logbook::Plain;
use std::alloc::AllocError;
use std::marker::Model;
use std::sync::{Arc, Wait};
use std::thread::Threads;
use versions::Update;

/// The one writer. It accepts commands, which no one sees until it publishes them.
///
/// Contracts see it as its opening, the greatest number of commands, and the lists of the published and of
/// the accepted commands. End it with `close`.
pub struct Desk {
    both: Both,
    head: Head,
    /// The history, with the commands that are published.
    front: Front,
    /// What was accepted and is not published.
    pending: Pending,
    limit: u32,
    /// In how many threads a publish analyses bodies at most.
    threads: usize,
    ghost shown: { both.desk.shown.value.front ≡ front },
    ghost same: { both.desk.spare.value ≡ both.desk.shown.value },
    ghost history: { head ≡ head_of front.opening },
    ghost state: { state_after pending ≡ state_of (front.commands ++ commands_in pending) } by { Prim.hlevel (props, codes, state_code) },
    ghost room: { length (front.commands ++ commands_in pending) ≤ limit },
    ghost limited: { limit ≤ MAX_COMMANDS },
}

impl Model for Desk {
    ghost use Rattle.std.specs.Prelude.{◌++◌};
    ghost use Rattle.desk.specs.Desk.{DeskState, desk_state};
    ghost use Rattle.desk.specs.Private.Pending.{commands_in};

    ghost Value = { DeskState };

    ghost view = { λ d. desk_state d.front.opening d.limit d.front.commands (d.front.commands ++ commands_in d.pending) };
}

/// What a publish adds to the history.
struct Lacks;

impl Plain<Pending, Batch, u64> for Lacks {
    ghost use Rattle.std.specs.Prelude.{None};
    ghost use Rattle.desk.specs.Private.Pending.{commands_in};

    ghost ask = { λ pending. commands_in pending };

    ghost state = { λ pending. None };
}

impl Desk {
    /// A desk that has accepted nothing. Its publishes analyse bodies in up to `threads` threads.
    pub(crate) fn over(
        both: Both,
        head: Head,
        front: Front,
        pending: Pending,
        limit: u32,
        threads: usize,
    ) -> Desk
        requires shown { both.desk.shown.value.front ≡ front }
        requires same { both.desk.spare.value ≡ both.desk.shown.value }
        requires head { head ≡ head_of front.opening }
        requires empty { front.commands ≡ [] }
        requires none { commands_in pending ≡ [] }
        requires state { state_after pending ≡ state_of [] }
        requires limit { limit ≤ MAX_COMMANDS }
        ensures { result ≡ desk_state front.opening limit [] [] }
    {
        Desk {
            both,
            head,
            front,
            pending,
            limit,
            threads,
        }
    }

    /// Whether the greatest number of commands has been accepted already.
    fn is_full(&self) -> bool
        ensures { MatchBool result (IsFull self.now) (HasRoom self.now) }
    {
        self.accepted() == self.limit
    }

    /// The number of commands that were accepted.
    pub fn accepted(&self) -> u32
        ensures { result ≡ length self.now.accepted }
    {
        self.front.version() + self.pending.len() as u32
    }

    /// How many commands it accepts at most.
    pub fn limit(&self) -> u32
        ensures { result ≡ self.now.limit }
    {
        self.limit
    }

    /// Accepts the put of this name and body, and returns the number of accepted commands, with this one. The body is kept as it
    /// is; the next publish analyses it.
    ///
    /// An `Err` is the first cause, in the order of `PutErrorKind`, and hands the name and the body back. Nothing has
    /// changed then.
    pub fn put(&mut self, name: Name, body: Body) -> Result<u32, PutError>
        ensures ok { OnOk result ((self.new ≡ with_command (put_command name body) self.old) × HasRoom self.old) }
        ensures count { IfOk result (λ n. n ≡ length self.new.accepted) }
        ensures err { OnErr result (self.new ≡ self.old) }
        ensures fault { IfErr result (λ e. IsPutFault e.kind self.old) }
        ensures returned { IfErr result (λ e. (e.name ≡ name) × (e.body ≡ body)) }
    {
        if self.is_full() {
            return Err(PutError {
                kind: PutErrorKind::Full,
                name,
                body,
            });
        }
        match self.pending.put(name, body) {
            Ok(()) => Ok(self.accepted()),
            Err((name, body)) => Err(PutError {
                kind: PutErrorKind::OutOfMemory,
                name,
                body,
            }),
        }
    }

    /// Accepts the remove of this name, and returns the number of accepted commands, with this one.
    ///
    /// An `Err` is the first cause, in the order of `RemoveError`. Nothing has changed then.
    pub fn remove(&mut self, name: &Name) -> Result<u32, RemoveError>
        ensures ok { OnOk result ((self.new ≡ with_command (remove_command name.now) self.old) × HasRoom self.old) }
        ensures there { OnOk result (has_document self.old.accepted name.now ≡ true) }
        ensures count { IfOk result (λ n. n ≡ length self.new.accepted) }
        ensures err { OnErr result (self.new ≡ self.old) }
        ensures fault { IfErr result (λ e. IsRemoveFault e (has_document self.old.accepted name.now) self.old) }
    {
        self.settle();
        if !self.has(name) {
            return Err(RemoveError::NoSuchFile);
        }
        if self.is_full() {
            return Err(RemoveError::Full);
        }
        Ok(self.accept(Update::Remove(name.share()?))?)
    }

    /// Whether there is a document of this name, after all accepted commands.
    fn has(&self, name: &Name) -> bool
        ensures { result ≡ has_document self.now.accepted name.now }
    {
        self.pending.has(name)
    }

    /// Accepts what is not a put. An `Err` means that memory ran out, or that something has too many handles.
    fn accept(&mut self, update: Update) -> Result<u32, AllocError>
        requires { HasRoom self.old }
        ensures ok { OnOk result (self.new ≡ with_command (command_of update) self.old) }
        ensures count { IfOk result (λ n. n ≡ length self.new.accepted) }
        ensures err { OnErr result (self.new ≡ self.old) }
    {
        self.pending.add(update)?;
        Ok(self.accepted())
    }

    /// Has the draft take in the puts that wait, so that a question need not go through them. If memory runs out they wait on.
    fn settle(&mut self)
        ensures { self.new ≡ self.old }
    {
        let _ = self.pending.settle();
    }

    /// Accepts the remove of all documents whose names begin with the prefix, and returns the number of accepted commands, with
    /// this one. It takes time and memory for the names that go.
    ///
    /// An `Err` is the first cause, in the order of `RemoveError`. Nothing has changed then.
    pub fn remove_under(&mut self, prefix: &Name) -> Result<u32, RemoveError>
        ensures ok { OnOk result ((self.new ≡ with_command (remove_under_command prefix.now) self.old) × HasRoom self.old) }
        ensures there { OnOk result (has_document_under self.old.accepted prefix.now ≡ true) }
        ensures count { IfOk result (λ n. n ≡ length self.new.accepted) }
        ensures err { OnErr result (self.new ≡ self.old) }
        ensures fault { IfErr result (λ e. IsRemoveFault e (has_document_under self.old.accepted prefix.now) self.old) }
    {
        self.settle();
        if !self.has_under(prefix) {
            return Err(RemoveError::NoSuchFile);
        }
        if self.is_full() {
            return Err(RemoveError::Full);
        }
        Ok(self.accept(Update::RemoveUnder(prefix.share()?))?)
    }

    /// Whether the name of some document begins with the prefix, after all accepted commands.
    fn has_under(&self, prefix: &Name) -> bool
        ensures { result ≡ has_document_under self.now.accepted prefix.now }
    {
        self.pending.has_under(prefix)
    }

    /// Accepts the copy of all documents whose names begin with `from`, as they are after all commands accepted before, under the names
    /// with `to` in its place, also over documents with these names. Returns the number of accepted commands, with this one. It takes
    /// time and memory for the names that are copied, and none for their bodies. `longest` is how many bytes a name may have.
    ///
    /// An `Err` is the first cause, in the order of `CopyError`. Nothing has changed then.
    pub fn copy_under(&mut self, from: &Name, to: &Name, longest: usize) -> Result<u32, CopyError>
        ensures ok { OnOk result ((self.new ≡ with_command (copy_under_command from.now to.now) self.old) × HasRoom self.old) }
        ensures there { OnOk result (has_document_under self.old.accepted from.now ≡ true) }
        ensures short { OnOk result (has_document_too_long self.old.accepted (most_name_bytes longest) from.now to.now ≡ false) }
        ensures count { IfOk result (λ n. n ≡ length self.new.accepted) }
        ensures err { OnErr result (self.new ≡ self.old) }
        ensures fault { IfErr result (λ e. IsCopyFault e (has_document_under self.old.accepted from.now)
            (has_document_too_long self.old.accepted (most_name_bytes longest) from.now to.now) self.old) }
    {
        self.settle();
        if !self.has_under(from) {
            return Err(CopyError::NoSuchFile);
        }
        if self.has_long_copy(from, to, longest.min(MAX_NAME)) {
            return Err(CopyError::TooLong);
        }
        if self.is_full() {
            return Err(CopyError::Full);
        }
        Ok(self.accept(Update::CopyUnder(from.share()?, to.share()?))?)
    }

    /// Whether the copy of a document would have a name of more than `most` bytes, after all accepted commands.
    fn has_long_copy(&self, from: &Name, to: &Name, most: usize) -> bool
        ensures { result ≡ has_document_too_long self.now.accepted most from.now to.now }
    {
        self.pending.has_long_copy(from, to, most)
    }

    /// Publishes all accepted commands, and returns the `Told` of this publish; with nothing new it publishes the same
    /// again. Bodies that were put since the last publish are analysed first, side by side in as many threads as the opening has
    /// readings if they are many bytes. It may wait for readings that are taking a handle to what is published, which needs no memory.
    ///
    /// An `Err` means that memory ran out, or that a name or a body has too many handles. Nothing has changed then: the commands
    /// stay accepted, and a later publish can show them.
    pub fn publish<R: Threads + Wait + Sync>(&mut self, rt: &R) -> Result<Told, AllocError>
        ensures ok { IfOk result (λ told. (self.new ≡ all_published self.old) × (told ≡ known self.old.opening self.old.accepted)) }
        ensures err { OnErr result (self.new ≡ self.old) }
    {
        if self.pending.len() == 0 {
            return Ok(Told {
                front: self.front.again(),
            });
        }
        self.pending.settle()?;
        let index = self.pending.whole(rt, self.threads)?;
        let index = Arc::new(self.pending.allocator(), index)?;
        let other = Arc::try_clone(&index)?;
        let Some(front) = self.extend_history() else {
            return Err(AllocError);
        };
        let told = Told {
            front: front.again(),
        };
        let first = Shown::new(index, &front);
        let second = Shown::new(other, &front);
        exchange(&mut self.both, rt, first, second);
        self.front = front;
        self.pending.clear();
        Ok(told)
    }

    /// Adds the commands that are not published to the history, and returns the front after all of them. `None` if the
    /// history continues after the desk's front, which never happens: only the desk adds to it.
    fn extend_history(&self) -> Option<Front>
        ensures { IfSome result (λ front. front ≡ known self.now.opening self.now.accepted) }
    {
        if self.pending.len() == 0 {
            return Some(self.front.again());
        }
        self.front
            .with::<Pending, Lacks>(&self.head, &self.pending, self.accepted())
    }

    /// Has the documents that are accepted made ahead of the next publish, which then has less to do: what was put is taken in among
    /// their names. `most` says how much is to be done in a call, and is not used yet: all is taken in at once. Returns whether more
    /// is left that a further call can do, which is never so: if memory ran out, the rest is left to a later call or publish. It
    /// never waits.
    pub fn catch_up<R: Wait>(&mut self, _rt: &R, _most: usize) -> bool
        ensures { self.new ≡ self.old }
    {
        self.settle();
        false
    }

    /// Ends the desk. It waits for readings that are taking a handle to what is published; afterwards every search is refused
    /// with `NoEntry`. Commands that are not published are dropped.
    pub fn close<R: Wait>(self, rt: &R) {
        let Desk {
            both,
            head: _,
            front: _,
            pending: _,
            limit: _,
            threads: _,
        } = self;
        both.take(rt);
    }
}
