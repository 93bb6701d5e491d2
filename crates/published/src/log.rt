//! The operations that one of the two copies lacks.

ghost use Rattle.std.specs.Prelude.{◌≡◌, ◌<◌, ◌≤◌, [], ◌∷◌, ◌++◌, length, fold, drop, IfOk, IfErr, IfSome, IfNone, OnOk, OnErr, MatchBool};
ghost use Rattle.published.specs.declared.shelf.Operation.TheVariants.{Change};
ghost use Rattle.published.specs.declared.shelf.Update.TheVariants.{Put as put_update};
ghost use Rattle.published.specs.Private.Shelf.{operated};

use crate::filling::carry_out_all;
use crate::incoming::Incoming;
use crate::shelf::{Operation, Shelf, Update};
use documents::{Body, Held, Name};
use std::alloc::{AllocError, Global};
use std::collections::VecDeque;
use std::thread::Threads;

/// The operations that one of the two copies lacks, each in the order in which they came.
#[derive(Drop)]
pub(crate) struct Log {
    /// What the spare copy lacks of the one that is shown.
    pub(crate) behind: VecDeque<Operation>,
    /// What the copy that is shown lacks.
    pub(crate) pending: VecDeque<Operation>,
    /// How many of the pending operations, from the first one on, the spare copy has.
    pub(crate) ahead: usize,
    /// Whether documents wait on the spare copy, which `Shelf::fill_some` goes on with. No contract depends on it.
    is_filling: bool,
    ghost within: { ahead ≤ length pending.items },
}

impl Log {
    ghost use Rattle.published.specs.Private.Copies.{InStep, IsAllDone};

    /// The log of two copies that lack nothing. It takes no memory.
    pub(crate) fn new(alloc: Global) -> Log
        ensures { (result.behind.items ≡ []) × (result.pending.items ≡ []) × (result.ahead ≡ 0) }
    {
        Log {
            behind: VecDeque::new(alloc),
            pending: VecDeque::new(alloc),
            ahead: 0,
            is_filling: false,
        }
    }

    /// Adds an operation, which neither copy has.
    pub(crate) fn add(&mut self, operation: Operation) -> Result<(), AllocError>
        ensures ok { OnOk result (self.new.pending.items ≡ self.old.pending.items ++ operation ∷ []) }
        ensures err { OnErr result (self.new.pending.items ≡ self.old.pending.items) }
        ensures step { (shown spare : Shelf) → InStep shown spare self.old → InStep shown spare self.new }
    {
        match self.pending.push_back(operation) {
            Ok(()) => Ok(()),
            Err(_) => Err(AllocError),
        }
    }

    /// Adds the put of this name and body, which neither copy has. An `Err` means that memory ran out, and hands the body back.
    pub(crate) fn add_put(&mut self, name: Name, body: Body) -> Result<(), Body>
        ensures ok { OnOk result (self.new.pending.items ≡ self.old.pending.items ++ Change (put_update name body) ∷ []) }
        ensures err { OnErr result (self.new.pending.items ≡ self.old.pending.items) }
        ensures returned { IfErr result (λ returned. returned ≡ body) }
        ensures step { (shown spare : Shelf) → InStep shown spare self.old → InStep shown spare self.new }
    {
        if self.pending.reserve(1).is_err() {
            return Err(body);
        }
        let held = match Held::new(body) {
            Ok(held) => held,
            Err(refused) => return Err(refused.body),
        };
        let update = Update::Put(name, Incoming::new(held));
        self.pending.push_back_reserved(Operation::Change(update));
        Ok(())
    }

    /// Whether documents wait, or the operation that the spare copy lacks first can be carried out: a body that it brings is
    /// analysed.
    pub(crate) fn is_ready(&self) -> bool {
        if self.is_filling {
            return true;
        }
        match self.behind.front().or(self.pending.get(self.ahead)) {
            Some(next) => next.is_ready(),
            None => false,
        }
    }

    /// Whether the spare copy has each operation.
    pub(crate) fn is_all_done(&self) -> bool
        ensures { MatchBool result (IsAllDone self.now) Unit }
    {
        self.behind.is_empty() && self.ahead == self.pending.len()
    }

    /// Carries out on the spare copy what it lacks, the first operation first, until that comes to about `most` bytes of
    /// bodies. A document that waits alone comes before the next operation, and all from a number on after the last. Returns how much
    /// of `most` is left; if that is not 0, none waits, and the copy has each operation before the first whose body is not analysed.
    /// An `Err` is as that of `Shelf::carry_out`; the operation stays in the log with those after it, and what waits goes on to wait.
    pub(crate) fn bring_up(&mut self, spare: &mut Shelf, most: usize) -> Result<usize, AllocError>
        ensures step { (shown : Shelf) → InStep shown spare.old self.old → InStep shown spare.new self.new }
        ensures pending { self.new.pending.items ≡ self.old.pending.items }
    {
        spare.expect_fill(true);
        let left = self.carry_on(spare, most);
        let left = fill_rest(spare, left);
        self.is_filling = spare.is_filling();
        spare.expect_fill(self.is_ready());
        left
    }

    fn carry_on(&mut self, spare: &mut Shelf, most: usize) -> Result<usize, AllocError>
        ensures step { (shown : Shelf) → InStep shown spare.old self.old → InStep shown spare.new self.new }
        ensures pending { self.new.pending.items ≡ self.old.pending.items }
    {
        match make_up(spare, &mut self.behind, most) {
            Ok(0) => Ok(0),
            Ok(left) => run_ahead(spare, &self.pending, &mut self.ahead, left),
            Err(error) => Err(error),
        }
    }

    /// Carries out on the spare copy all that it lacks, in up to `threads` threads, after bodies are analysed that are not yet. If
    /// memory runs out for an operation, that one and those after it stay in the log. `Shelf::fill` is to follow.
    pub(crate) fn bring_up_all<R: Threads + Sync>(
        &mut self,
        rt: &R,
        threads: usize,
        spare: &mut Shelf,
    )
        ensures step { (shown : Shelf) → InStep shown spare.old self.old → InStep shown spare.new self.new }
        ensures pending { self.new.pending.items ≡ self.old.pending.items }
    {
        spare.expect_fill(true);
        match make_up(spare, &mut self.behind, usize::MAX) {
            Ok(0) => {}
            Ok(_) => self.ahead = fill_ahead(rt, threads, spare, &mut self.pending, self.ahead),
            Err(_) => {}
        }
    }

    /// The log once the copies have changed places, where the spare one had each operation.
    pub(crate) fn turned(self) -> Log
        requires { IsAllDone self }
        ensures behind { result.behind.items ≡ self.pending.items }
        ensures pending { result.pending.items ≡ [] }
        ensures ahead { result.ahead ≡ 0 }
    {
        let Log {
            behind,
            pending,
            ahead: _,
            is_filling: _,
        } = self;
        Log {
            behind: pending,
            pending: behind,
            ahead: 0,
            is_filling: false,
        }
    }
}

/// Goes on with documents that wait, if so much of a piece is left after the operations that the spare copy lacked. Returns how much
/// is left then.
fn fill_rest(spare: &mut Shelf, left: Result<usize, AllocError>) -> Result<usize, AllocError>
    ensures { spare.new ≡ spare.old }
{
    match left {
        Ok(left) if left > 0 => spare.fill_some(left),
        other => other,
    }
}

/// Puts a document that waits further into the sets of its trigrams, and then carries out what the spare copy lacks of the one that
/// is shown, of which a large new document waits in turn. Returns how much of `most` is left.
fn make_up(
    spare: &mut Shelf,
    behind: &mut VecDeque<Operation>,
    most: usize,
) -> Result<usize, AllocError>
    ensures same { fold operated spare.new behind.new.items ≡ fold operated spare.old behind.old.items }
    ensures all { IfOk result (λ left. 0 < left → behind.new.items ≡ []) }
{
    let mut left = spare.fill_one(most)?;
    while left > 0 {
        let Some(work) = make_up_next(spare, behind)? else {
            return Ok(left);
        };
        left = spare.fill_one(left.saturating_sub(work))?;
    }
    Ok(0)
}

/// Carries out the first of the operations that the spare copy lacks of the one that is shown, or a part of it, after which it is
/// still lacking. Returns how much work that was, or `None` if nothing is lacking.
fn make_up_next(
    spare: &mut Shelf,
    behind: &mut VecDeque<Operation>,
) -> Result<Option<usize>, AllocError>
    ensures same { fold operated spare.new behind.new.items ≡ fold operated spare.old behind.old.items }
    ensures work { IfOk result (λ done. IfSome done (λ work. 0 < work)) }
    ensures all { IfOk result (λ done. IfNone done (behind.new.items ≡ [])) }
{
    let Some(first) = behind.front() else {
        return Ok(None);
    };
    if let Some(work) = spare.carry_out_part(first) {
        return Ok(Some(work));
    }
    let work = spare.begin(first)?;
    let _ = behind.pop_front();
    Ok(Some(work))
}

/// Carries out what neither copy has, where the spare one has the first `ahead` of these operations. Returns how much of
/// `most` is left.
fn run_ahead(
    spare: &mut Shelf,
    pending: &VecDeque<Operation>,
    ahead: &mut usize,
    most: usize,
) -> Result<usize, AllocError>
    requires { ahead.old ≤ length pending.now.items }
    ensures within { ahead.new ≤ length pending.now.items }
    ensures same { fold operated spare.new (drop ahead.new pending.now.items) ≡ fold operated spare.old (drop ahead.old pending.now.items) }
{
    let mut left = most;
    while left > 0 {
        let Some(work) = run_ahead_next(spare, pending, ahead)? else {
            return Ok(left);
        };
        left = spare.fill_one(left.saturating_sub(work))?;
    }
    Ok(0)
}

/// Carries out the first operation that neither copy has, or a part of it, after which it is still lacking. Returns how much work
/// that was, or `None` if the spare copy has all of these operations up to the first one that cannot be carried out yet.
fn run_ahead_next(
    spare: &mut Shelf,
    pending: &VecDeque<Operation>,
    ahead: &mut usize,
) -> Result<Option<usize>, AllocError>
    requires { ahead.old ≤ length pending.now.items }
    ensures within { ahead.new ≤ length pending.now.items }
    ensures same { fold operated spare.new (drop ahead.new pending.now.items) ≡ fold operated spare.old (drop ahead.old pending.now.items) }
    ensures work { IfOk result (λ done. IfSome done (λ work. 0 < work)) }
{
    let Some(next) = pending.get(*ahead) else {
        return Ok(None);
    };
    if !next.is_ready() {
        return Ok(None);
    }
    if let Some(work) = spare.carry_out_part(next) {
        return Ok(Some(work));
    }
    let work = spare.begin(next)?;
    *ahead += 1;
    Ok(Some(work))
}

/// Carries out what neither copy has, where the spare one has the first `ahead` of these operations. Returns how many it has then.
fn fill_ahead<R: Threads + Sync>(
    rt: &R,
    threads: usize,
    spare: &mut Shelf,
    pending: &mut VecDeque<Operation>,
    ahead: usize,
) -> usize
    requires { ahead ≤ length pending.old.items }
    ensures operations { pending.new.items ≡ pending.old.items }
    ensures within { result ≤ length pending.old.items }
    ensures same { fold operated spare.new (drop result pending.old.items) ≡ fold operated spare.old (drop ahead pending.old.items) }
{
    let (_, lacking) = pending.make_contiguous().split_at_mut(ahead);
    ahead + carry_out_all(rt, threads, spare, lacking)
}
