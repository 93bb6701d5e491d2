//! The two copies of the index, which are exchanged at each publish.

ghost use Rattle.std.specs.Prelude.{◌≡◌, [], ◌∷◌, ◌++◌, IfErr, OnOk, OnErr, MatchResult};
ghost use denote.Param.Send.{IsSync};
ghost use Rattle.documents.specs.declared.command.Command.TheVariants.{Put as put_command};
ghost use Rattle.published.specs.Private.Shelf.{command_of};
ghost use Rattle.published.specs.Private.Copies.{InStep, copies_state};

use crate::batches::Front;
use crate::log::Log;
use crate::rule::{Both, Meet};
use crate::shelf::{Operation, Update};
use core::mem::replace_with;
use documents::{Body, Name};
use std::alloc::{AllocError, Global};
use std::marker::Model;
use std::sync::Wait;
use std::thread::Threads;

/// The copy that readings see, the spare one, and the operations that one of them lacks. Once no reading looks at the
/// spare copy any more, operations are carried out on it; a publish carries out the rest and exchanges the two.
///
/// Contracts see them as the front that is shown and the list of the accepted commands. End them with `close`.
pub(crate) struct Copies {
    pub(crate) both: Both,
    log: Log,
    ghost in_step: { InStep both.desk.shown.value both.desk.spare.value log },
}

impl Model for Copies {
    ghost use Rattle.published.specs.Private.Copies.{CopiesState, copies_of};

    ghost Value = { CopiesState };

    ghost view = { λ c. copies_of c.both.desk.shown.value c.log.pending.items };
}

impl Copies {
    /// Two copies with no commands.
    pub(crate) fn over(alloc: Global, both: Both) -> Copies
        requires same { both.desk.spare.value ≡ both.desk.shown.value }
        requires empty { both.desk.shown.value.front.commands ≡ [] }
        ensures { result ≡ copies_state both.desk.shown.value.front [] }
    {
        Copies {
            both,
            log: Log::new(alloc),
        }
    }

    /// Accepts a command.
    pub(crate) fn accept(&mut self, update: Update) -> Result<(), AllocError>
        ensures ok { OnOk result (self.new ≡ copies_state self.old.shown (self.old.accepted ++ command_of update ∷ [])) }
        ensures err { OnErr result (self.new ≡ self.old) }
    {
        self.log.add(Operation::Change(update))?;
        Ok(())
    }

    /// Accepts the put of this name and body. An `Err` means that memory ran out, and hands the body back.
    pub(crate) fn accept_put(&mut self, name: Name, body: Body) -> Result<(), Body>
        ensures ok { OnOk result (self.new ≡ copies_state self.old.shown (self.old.accepted ++ put_command name body ∷ [])) }
        ensures err { OnErr result (self.new ≡ self.old) }
        ensures returned { IfErr result (λ returned. returned ≡ body) }
    {
        if let Err(body) = self.log.add_put(name, body) {
            return Err(body);
        }
        Ok(())
    }

    /// Carries out on the spare copy some of what it lacks: first commands that the other copy has, then commands that no
    /// publish has shown, up to the first body that is not analysed, about `most` bytes of bodies; the last one perhaps in part.
    /// Returns whether more is left that a further call can carry out. It waits only if there is anything to do, for readings that
    /// still look at the spare copy.
    pub(crate) fn catch_up<R: Wait>(&mut self, rt: &R, most: usize) -> bool
        ensures { self.new ≡ self.old }
    {
        if !self.log.is_ready() {
            return false;
        }
        replace_with(
            self,
            rt,
            |copies: Copies, rt: &R| -> (Copies, bool)
                ensures { result.0 ≡ copies }
            { copies.caught_up(rt, most) },
        )
    }

    fn caught_up<R: Wait>(self, rt: &R, most: usize) -> (Copies, bool)
        ensures { result.0 ≡ self }
    {
        let Copies { mut both, mut log } = self;
        let (open, mut spare) = both.desk.open(rt);
        let left = log.bring_up(&mut *spare, most);
        both.desk = open.shelve(spare);
        let has_more = left == Ok(0) && log.is_ready();
        (Copies { both, log }, has_more)
    }

    /// Analyses the bodies that are to be shown, in up to `threads` threads, carries out on the spare copy all that it lacks, and
    /// exchanges the copies: then readings see all accepted commands, which are those of this front. An `Err` means that memory
    /// ran out; what readings see stays as it is.
    pub(crate) fn publish<R: Threads + Wait + Sync>(
        &mut self,
        rt: &R,
        threads: usize,
        front: &Front,
    ) -> Result<(), AllocError>
        requires opening { front.now.opening ≡ self.old.shown.opening }
        requires all { front.now.commands ≡ self.old.accepted }
        ensures ok { OnOk result (self.new ≡ copies_state front.now front.now.commands) }
        ensures err { OnErr result (self.new ≡ self.old) }
    {
        replace_with(
            self,
            front,
            |copies: Copies, front: &Front| -> (Copies, Result<(), AllocError>)
                requires { IsSync R.row × (front.now.opening ≡ copies.shown.opening) × (front.now.commands ≡ copies.accepted) }
                ensures { MatchResult result.1 (λ _. result.0 ≡ copies_state front.now front.now.commands) (λ _. result.0 ≡ copies) }
            { copies.published(rt, threads, front) },
        )
    }

    fn published<R: Threads + Wait + Sync>(
        self,
        rt: &R,
        threads: usize,
        front: &Front,
    ) -> (Copies, Result<(), AllocError>)
        requires opening { front.now.opening ≡ self.shown.opening }
        requires all { front.now.commands ≡ self.accepted }
        ensures { MatchResult result.1 (λ _. result.0 ≡ copies_state front.now front.now.commands) (λ _. result.0 ≡ self) }
    {
        let Copies { mut both, mut log } = self;
        if let Err(error) = log.add(Operation::Stamp(front.again())) {
            return (Copies { both, log }, Err(error));
        }
        let (open, mut spare) = both.desk.open(rt);
        log.bring_up_all(rt, threads, &mut *spare);
        let filled = spare.fill(rt, threads);
        if !log.is_all_done() || filled.is_err() {
            both.desk = open.shelve(spare);
            return (Copies { both, log }, Err(AllocError));
        }
        both.desk = open.show_as::<Meet>(spare);
        let log = log.turned();
        (Copies { both, log }, Ok(()))
    }

    /// Ends the copies. It waits for readings that look at one of them. Operations that no publish has shown are dropped.
    pub(crate) fn close<R: Wait>(self, rt: &R) {
        let Copies { both, log: _ } = self;
        both.take(rt);
    }
}
