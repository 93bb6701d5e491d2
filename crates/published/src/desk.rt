//! The desk: it accepts commands, and publishes them.

ghost use Rattle.std.specs.Prelude.{◌≡◌, ℕ, ◌≤◌, List, [], length, true, false, IfSome, IfOk, IfErr, OnOk, OnErr, MatchBool};
ghost use Rattle.documents.specs.declared.command.Command.TheVariants.{Put as put_command, Remove as remove_command, RemoveUnder as remove_under_command, CopyUnder as copy_under_command};
ghost use Rattle.published.specs.History.{known};
ghost use Rattle.documents.specs.Text.{most_name_bytes};
ghost use Rattle.history.specs.History.{head_of};
ghost use Rattle.published.specs.Private.Names.{has_name};
ghost use Rattle.published.specs.Private.Copies.{copies_state};
ghost use Rattle.published.specs.Private.DeskParts.{Begins, HasNamesOf};
ghost use Rattle.published.specs.declared.opening.TheConstants.{MAX_COMMANDS};
ghost use Rattle.published.specs.Desk.{desk_state, with_command, all_published, IsFull, HasRoom, has_document, has_document_under, has_document_too_long, IsPutFault, IsRemoveFault, IsCopyFault};

use crate::batches::{Batch, Front, Head};
use crate::copies::Copies;
use crate::error::{CopyError, PutError, PutErrorKind, RemoveError};
use crate::names::Names;
use crate::shelf::Update;
use crate::told::Told;
use documents::{Body, MAX_NAME, Name};
use logbook::Plain;
use std::alloc::AllocError;
use std::marker::Model;
use std::sync::Wait;
use std::thread::Threads;

/// The one writer. It accepts commands, which no one sees until it publishes them.
///
/// Contracts see it as its opening, the greatest number of commands, and the lists of the published and of
/// the accepted commands. End it with `close`.
pub struct Desk {
    copies: Copies,
    head: Head,
    /// The end of the history, as far as the desk knows it. After a refused publish it can be
    /// ahead of what is published.
    front: Front,
    /// The names of the documents after all accepted commands.
    names: Names,
    /// The number of accepted commands.
    accepted: u32,
    limit: u32,
    /// In how many threads a publish analyses bodies at most.
    threads: usize,
    ghost opening: { copies.shown.opening ≡ front.opening },
    ghost history: { head ≡ head_of front.opening },
    ghost begins: { Begins front.commands copies.accepted },
    ghost counted: { accepted ≡ length copies.accepted },
    ghost room: { accepted ≤ limit },
    ghost limited: { limit ≤ MAX_COMMANDS },
    ghost named: { HasNamesOf names copies.accepted },
}

impl Model for Desk {
    ghost use Rattle.published.specs.Desk.{DeskState, desk_state};

    ghost Value = { DeskState };

    ghost view = { λ d. desk_state d.front.opening d.limit d.copies.shown.commands d.copies.accepted };
}

/// What a publish adds to the history.
#[derive(Clone, Copy)]
struct Unwritten<'a> {
    copies: &'a Copies,
    front: &'a Front,
}

struct Lacks;

impl Plain<Unwritten<'_>, Batch, u64> for Lacks {
    ghost use Rattle.std.specs.Prelude.{None};
    ghost use Rattle.published.specs.Private.DeskParts.{lacking};

    ghost ask = { λ u. lacking u.front.now u.copies.now };

    ghost state = { λ u. None };
}

impl Desk {
    /// A desk that has accepted nothing. Its publishes analyse bodies in up to `threads` threads.
    pub(crate) fn over(
        copies: Copies,
        head: Head,
        front: Front,
        names: Names,
        limit: u32,
        threads: usize,
    ) -> Desk
        requires copies { copies ≡ copies_state front [] }
        requires head { head ≡ head_of front.opening }
        requires empty { front.commands ≡ [] }
        requires names { (name : List ℕ) → has_name names name ≡ false }
        requires limit { limit ≤ MAX_COMMANDS }
        ensures { result ≡ desk_state front.opening limit [] [] }
    {
        Desk {
            copies,
            head,
            front,
            names,
            accepted: 0,
            limit,
            threads,
        }
    }

    /// Whether the greatest number of commands has been accepted already.
    fn is_full(&self) -> bool
        ensures { MatchBool result (IsFull self.now) (HasRoom self.now) }
    {
        self.accepted == self.limit
    }

    /// The number of commands that were accepted.
    pub fn accepted(&self) -> u32
        ensures { result ≡ length self.now.accepted }
    {
        self.accepted
    }

    /// How many commands it accepts at most.
    pub fn limit(&self) -> u32
        ensures { result ≡ self.now.limit }
    {
        self.limit
    }

    /// Accepts the put of this name and body, and returns the number of accepted commands, with this one. The body is kept as it
    /// is; the next publish analyses it.
    ///
    /// An `Err` is the first cause, in the order of `PutErrorKind`, and hands the name and the body back. Nothing has
    /// changed then.
    pub fn put(&mut self, name: Name, body: Body) -> Result<u32, PutError>
        ensures ok { OnOk result ((self.new ≡ with_command (put_command name body) self.old) × HasRoom self.old) }
        ensures count { IfOk result (λ n. n ≡ length self.new.accepted) }
        ensures err { OnErr result (self.new ≡ self.old) }
        ensures fault { IfErr result (λ e. IsPutFault e.kind self.old) }
        ensures returned { IfErr result (λ e. (e.name ≡ name) × (e.body ≡ body)) }
    {
        if self.is_full() {
            return Err(PutError {
                kind: PutErrorKind::Full,
                name,
                body,
            });
        }
        match self.accept_put(&name, body) {
            Ok(()) => Ok(self.accepted),
            Err(body) => Err(PutError {
                kind: PutErrorKind::OutOfMemory,
                name,
                body,
            }),
        }
    }

    /// An `Err` means that memory ran out, or that the name has too many handles. It hands the body back.
    fn accept_put(&mut self, name: &Name, body: Body) -> Result<(), Body>
        requires { HasRoom self.old }
        ensures ok { OnOk result (self.new ≡ with_command (put_command name.now body) self.old) }
        ensures err { OnErr result (self.new ≡ self.old) }
        ensures returned { IfErr result (λ returned. returned ≡ body) }
    {
        let Ok(own) = name.share() else {
            return Err(body);
        };
        let Ok(added) = self.names.add(name) else {
            return Err(body);
        };
        match self.copies.accept_put(own, body) {
            Ok(()) => {
                self.accepted += 1;
                Ok(())
            }
            Err(body) => {
                if added {
                    self.names.remove(name);
                }
                Err(body)
            }
        }
    }

    /// Accepts the remove of this name, and returns the number of accepted commands, with this one.
    ///
    /// An `Err` is the first cause, in the order of `RemoveError`. Nothing has changed then.
    pub fn remove(&mut self, name: &Name) -> Result<u32, RemoveError>
        ensures ok { OnOk result ((self.new ≡ with_command (remove_command name.now) self.old) × HasRoom self.old) }
        ensures there { OnOk result (has_document self.old.accepted name.now ≡ true) }
        ensures count { IfOk result (λ n. n ≡ length self.new.accepted) }
        ensures err { OnErr result (self.new ≡ self.old) }
        ensures fault { IfErr result (λ e. IsRemoveFault e (has_document self.old.accepted name.now) self.old) }
    {
        if !self.names.has(name) {
            return Err(RemoveError::NoSuchFile);
        }
        if self.is_full() {
            return Err(RemoveError::Full);
        }
        self.accept_remove(name)?;
        Ok(self.accepted)
    }

    fn accept_remove(&mut self, name: &Name) -> Result<(), AllocError>
        requires { HasRoom self.old }
        ensures ok { OnOk result (self.new ≡ with_command (remove_command name.now) self.old) }
        ensures err { OnErr result (self.new ≡ self.old) }
    {
        let own = name.share()?;
        self.copies.accept(Update::Remove(own))?;
        self.names.remove(name);
        self.accepted += 1;
        Ok(())
    }

    /// Accepts the remove of all documents whose names begin with the prefix, and returns the number of accepted commands, with
    /// this one. It takes time and memory for the names that go.
    ///
    /// An `Err` is the first cause, in the order of `RemoveError`. Nothing has changed then.
    pub fn remove_under(&mut self, prefix: &Name) -> Result<u32, RemoveError>
        ensures ok { OnOk result ((self.new ≡ with_command (remove_under_command prefix.now) self.old) × HasRoom self.old) }
        ensures there { OnOk result (has_document_under self.old.accepted prefix.now ≡ true) }
        ensures count { IfOk result (λ n. n ≡ length self.new.accepted) }
        ensures err { OnErr result (self.new ≡ self.old) }
        ensures fault { IfErr result (λ e. IsRemoveFault e (has_document_under self.old.accepted prefix.now) self.old) }
    {
        if !self.has_under(prefix) {
            return Err(RemoveError::NoSuchFile);
        }
        if self.is_full() {
            return Err(RemoveError::Full);
        }
        self.accept_remove_under(prefix)?;
        Ok(self.accepted)
    }

    /// Whether the name of some document begins with the prefix, after all accepted commands.
    fn has_under(&self, prefix: &Name) -> bool
        ensures { result ≡ has_document_under self.now.accepted prefix.now }
    {
        self.names.has_under(prefix)
    }

    fn accept_remove_under(&mut self, prefix: &Name) -> Result<(), AllocError>
        requires { HasRoom self.old }
        ensures ok { OnOk result (self.new ≡ with_command (remove_under_command prefix.now) self.old) }
        ensures err { OnErr result (self.new ≡ self.old) }
    {
        let own = prefix.share()?;
        let gone = self.names.under(prefix)?;
        self.copies.accept(Update::RemoveUnder(own))?;
        self.names.remove_all(&gone);
        self.accepted += 1;
        Ok(())
    }

    /// Accepts the copy of all documents whose names begin with `from`, as they are after all commands accepted before, under the names
    /// with `to` in its place, also over documents with these names. Returns the number of accepted commands, with this one. It takes
    /// time and memory for the names that are copied, and none for their bodies. `longest` is how many bytes a name may have.
    ///
    /// An `Err` is the first cause, in the order of `CopyError`. Nothing has changed then.
    pub fn copy_under(&mut self, from: &Name, to: &Name, longest: usize) -> Result<u32, CopyError>
        ensures ok { OnOk result ((self.new ≡ with_command (copy_under_command from.now to.now) self.old) × HasRoom self.old) }
        ensures there { OnOk result (has_document_under self.old.accepted from.now ≡ true) }
        ensures short { OnOk result (has_document_too_long self.old.accepted (most_name_bytes longest) from.now to.now ≡ false) }
        ensures count { IfOk result (λ n. n ≡ length self.new.accepted) }
        ensures err { OnErr result (self.new ≡ self.old) }
        ensures fault { IfErr result (λ e. IsCopyFault e (has_document_under self.old.accepted from.now)
            (has_document_too_long self.old.accepted (most_name_bytes longest) from.now to.now) self.old) }
    {
        if !self.has_under(from) {
            return Err(CopyError::NoSuchFile);
        }
        if self.has_long_copy(from, to, longest.min(MAX_NAME)) {
            return Err(CopyError::TooLong);
        }
        if self.is_full() {
            return Err(CopyError::Full);
        }
        self.accept_copy_under(from, to)?;
        Ok(self.accepted)
    }

    /// Whether the copy of a document would have a name of more than `most` bytes, after all accepted commands.
    fn has_long_copy(&self, from: &Name, to: &Name, most: usize) -> bool
        ensures { result ≡ has_document_too_long self.now.accepted most from.now to.now }
    {
        self.names.has_long_copy(from, to, most)
    }

    fn accept_copy_under(&mut self, from: &Name, to: &Name) -> Result<(), AllocError>
        requires { HasRoom self.old }
        ensures ok { OnOk result (self.new ≡ with_command (copy_under_command from.now to.now) self.old) }
        ensures err { OnErr result (self.new ≡ self.old) }
    {
        let own = from.share()?;
        let other = to.share()?;
        let sources = self.names.under(from)?;
        let copies = self.names.new_copies(&sources, from, to)?;
        self.names.add_all(&copies)?;
        match self.copies.accept(Update::CopyUnder(own, other)) {
            Ok(()) => {
                self.accepted += 1;
                Ok(())
            }
            Err(error) => {
                self.names.remove_all(&copies);
                Err(error)
            }
        }
    }

    /// Publishes all accepted commands, and returns the `Told` of this publish; with nothing new it publishes the same
    /// again. Bodies that were put since the last publish are analysed first, side by side in as many threads as the opening has
    /// readings if they are many bytes. It may wait for readings that are taking what a search needs.
    ///
    /// An `Err` means that memory ran out, or that a name or a body has too many handles. Nothing has changed then: the commands
    /// stay accepted, and a later publish can show them.
    pub fn publish<R: Threads + Wait + Sync>(&mut self, rt: &R) -> Result<Told, AllocError>
        ensures ok { IfOk result (λ told. (self.new ≡ all_published self.old) × (told ≡ known self.old.opening self.old.accepted)) }
        ensures err { OnErr result (self.new ≡ self.old) }
    {
        let Some(front) = self.extend_history() else {
            return Err(AllocError);
        };
        let told = Told {
            front: front.again(),
        };
        self.front = front;
        self.copies.publish(rt, self.threads, &self.front)?;
        Ok(told)
    }

    /// Adds the accepted commands that the history lacks to it, and returns the front after all of them. `None` if the
    /// history continues after the desk's front, which never happens: only the desk adds to it.
    fn extend_history(&self) -> Option<Front>
        ensures { IfSome result (λ front. front ≡ known self.now.opening self.now.accepted) }
    {
        if self.front.version() == self.accepted {
            return Some(self.front.again());
        }
        let unwritten = Unwritten {
            copies: &self.copies,
            front: &self.front,
        };
        self.front
            .with::<Unwritten<'_>, Lacks>(&self.head, &unwritten, self.accepted)
    }

    /// Brings the copy of the index that no reading sees further up to date, ahead of the next publish, which then has less to
    /// do. It carries out on it some of the commands that it lacks: first those that are published, then those that are only
    /// accepted, up to the first put whose body is not analysed, until that is about as much work as bodies of `most` bytes. A remove
    /// of names under a prefix, a document that changes many sets, and all sets where they are filled anew can be done in part, which
    /// a further call or the publish goes on with. If `most` is not 0 and anything is lacking, it is at least a command, or a part.
    /// Returns whether more is left that a further call can do; if memory ran out, `false`: the rest is left to a later call or
    /// publish.
    ///
    /// If anything is lacking, the first call after a publish waits for readings that are taking what a search needs, as a publish
    /// does; the calls after it do not wait.
    pub fn catch_up<R: Wait>(&mut self, rt: &R, most: usize) -> bool
        ensures { self.new ≡ self.old }
    {
        self.copies.catch_up(rt, most)
    }

    /// Ends the desk. It waits for readings that are taking what a search needs; afterwards every search is refused
    /// with `NoEntry`. Commands that are not published are dropped.
    pub fn close<R: Wait>(self, rt: &R) {
        let Desk {
            copies,
            head: _,
            front: _,
            names: _,
            accepted: _,
            limit: _,
            threads: _,
        } = self;
        copies.close(rt);
    }
}
