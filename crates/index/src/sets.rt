//! The sets by which an index finds its documents.

ghost use Rattle.std.specs.Prelude.{◌≡◌, ℕ, ◌<◌, All, Some, nat_lt, true, false, not, ◌==◌, ◌||◌, ◌&&◌, [], ◌∷◌, ◌++◌, filter, OnOk, IfOk, IsFalse, None};
ghost use Rattle.posting.specs.ListValue.{has, without, HasRoom};
ghost use Rattle.posting.specs.Postings.{holds, SameSets, IsPrepared, IsAbsent, AllDiffer, WithdrawsNumber};
ghost use Rattle.index.specs.declared.sets.Waiting.TheVariants.{From};
ghost use Rattle.index.specs.Private.Sets.{HasRoomFor, IsNew, IsChange, FollowTakenOut, StayInStep, StayInStepNext, ReachesNext, IsAmongWaiting, WaitsWhole, waiting_from, trigrams_before, is_whole, NoneIsLeft};

use crate::analysed::Analysed;
use posting::{List, Postings, Trigrams};
use std::alloc::{AllocError, Global};

/// Trigrams that are kept in no more bytes are few: the sets of all of them change at once.
pub(crate) const FEW_BYTES: usize = 4_096;

/// What a new body changes of the trigrams of a document.
#[derive(Drop)]
pub(crate) struct Change {
    /// The trigrams of the new body that the old one has not.
    pub(crate) fresh: Trigrams,
    /// The trigrams of the old body that the new one has not.
    pub(crate) gone: Trigrams,
}

/// Which documents wait to be put into the sets of their trigrams.
#[derive(Drop)]
pub(crate) enum Waiting {
    /// The one with this number. It is in the sets of its trigrams below `from`, and in no others of those. From there on it can be
    /// in those of the trigrams of its body and of the body that it had before, if it had one, and is in those of trigrams that
    /// both have.
    One {
        number: u32,
        from: u32,
        old: Option<Analysed>,
    },
    /// Those from the number `first` on, which are in no sets but those of their trigrams. The one with that number, if there is one,
    /// is in those below `from`.
    From {
        first: u32,
        from: u32,
    },
}

/// The numbers of the documents, and for each trigram those of the documents whose body has it.
#[derive(Drop)]
pub(crate) struct Sets {
    /// The numbers of the documents.
    pub(crate) live: List,
    /// For each trigram, the numbers of the documents whose body has it.
    pub(crate) postings: Postings,
    /// Which documents wait to be put into the sets of their trigrams, if any do.
    pub(crate) waiting: Option<Waiting>,
}

impl Sets {
    /// The sets of no documents. They take no memory.
    pub(crate) fn new(alloc: Global) -> Sets
        ensures live { result.live.members ≡ [] }
        ensures postings { (trigram n : ℕ) → holds result.postings trigram n ≡ false }
        ensures waiting { result.waiting ≡ None }
    {
        Sets {
            live: List::new(alloc),
            postings: Postings::new(alloc),
            waiting: None,
        }
    }

    /// Makes room for a document with this number and these trigrams, so that `put_in` takes no memory. An `Err`
    /// means that memory ran out. The numbers in the sets stay the same in either case.
    pub(crate) fn make_room(&mut self, number: u32, trigrams: &Trigrams) -> Result<(), AllocError>
        ensures live { self.new.live.members ≡ self.old.live.members }
        ensures postings { SameSets self.old.postings self.new.postings }
        ensures waiting { self.new.waiting ≡ self.old.waiting }
        ensures ok { OnOk result (HasRoomFor self.new number trigrams.now) }
    {
        self.live.room_for(number)?;
        self.postings.prepare(number, trigrams)
    }

    /// Makes room for a document with this number to have the trigrams `new` in place of `old`, so that `replace` takes
    /// no memory. An `Err` means that memory ran out. The numbers in the sets stay the same in either case.
    pub(crate) fn prepare(
        &mut self,
        number: u32,
        old: &Trigrams,
        new: &Trigrams,
    ) -> Result<Change, AllocError>
        ensures live { self.new.live.members ≡ self.old.live.members }
        ensures postings { SameSets self.old.postings self.new.postings }
        ensures waiting { self.new.waiting ≡ self.old.waiting }
        ensures ok { IfOk result (λ change. IsChange old.now new.now change
            × IsPrepared self.new.postings number change.fresh) }
    {
        let (fresh, gone) = new.differences(old)?;
        self.postings.prepare(number, &fresh)?;
        Ok(Change { fresh, gone })
    }

    /// Changes the trigrams of the document with this number. There is room for that.
    pub(crate) fn replace(&mut self, number: u32, change: &Change)
        requires room { IsPrepared self.old.postings number change.now.fresh }
        requires absent { IsAbsent self.old.postings change.now.fresh number }
        requires once { AllDiffer change.now.fresh }
        ensures live { self.new.live.members ≡ self.old.live.members }
        ensures waiting { self.new.waiting ≡ self.old.waiting }
        ensures postings { (trigram n : ℕ) → holds self.new.postings trigram n
            ≡ ((holds self.old.postings trigram n || (has change.now.fresh trigram && number == n))
            && not (has change.now.gone trigram && n == number)) }
    {
        // withdrawing comes last, since it can give up the room that was made
        self.postings.add(number, &change.fresh);
        self.postings.withdraw(number, &change.gone);
    }

    /// Takes out the document with this number and this body. If `later` is asked for and nothing waits yet, its number waits to be
    /// taken out of the sets of its trigrams.
    pub(crate) fn take_out(&mut self, number: u32, held: Analysed, later: bool)
        ensures live { self.new.live.members ≡ without number self.old.live.members }
        ensures sets { FollowTakenOut number held self.old self.new }
    {
        self.live.remove(number);
        self.live.give_back();
        let trigrams = held.trigrams();
        if later && self.waiting.is_none() {
            self.waiting = Some(Waiting::One {
                number,
                from: 0,
                old: Some(held),
            });
        } else {
            leave(&mut self.postings, number, trigrams);
        }
    }

    /// Puts in a document with these trigrams, for which there is room. The number is above all others.
    pub(crate) fn put_in(&mut self, number: u32, trigrams: &Trigrams)
        requires room { HasRoomFor self.old number trigrams.now }
        requires above { IsNew self.old number trigrams.now }
        ensures live { self.new.live.members ≡ self.old.live.members ++ number ∷ [] }
        ensures waiting { self.new.waiting ≡ self.old.waiting }
        ensures postings { (trigram n : ℕ) → holds self.new.postings trigram n
            ≡ (holds self.old.postings trigram n || (has trigrams.now trigram && number == n)) }
    {
        self.live.push(number);
        self.postings.add(number, trigrams);
    }

    /// Puts in a document whose trigrams wait for `fill`. There is room for its number, which is above all others.
    pub(crate) fn put_later(&mut self, number: u32)
        requires room { HasRoom self.old.live }
        requires above { All (λ m. m < number) self.old.live.members }
        ensures live { self.new.live.members ≡ self.old.live.members ++ number ∷ [] }
        ensures postings { self.new.postings ≡ self.old.postings }
        ensures waiting { (t n : ℕ) → is_whole self.new.waiting t n ≡ true → (is_whole self.old.waiting t n ≡ true) × ((number == n) ≡ false) }
        ensures none_left { NoneIsLeft self.new.waiting }
    {
        self.live.push(number);
        self.waiting = Some(with_waiting(&self.waiting, number));
    }

    /// Empties the sets of all trigrams, and has all documents wait to be put into them. It needs no memory, and gives back that of
    /// the sets.
    pub(crate) fn start_over(&mut self, alloc: Global)
        ensures live { self.new.live ≡ self.old.live }
        ensures postings { (t n : ℕ) → holds self.new.postings t n ≡ false }
        ensures waiting { self.new.waiting ≡ Some (From 0 0) }
    {
        self.postings = Postings::new(alloc);
        self.waiting = Some(Waiting::From { first: 0, from: 0 });
    }

    /// Whether all documents from some number on wait, and the one with this number is among them.
    pub(crate) fn has_waiting(&self, number: u32) -> bool
        ensures { result ≡ true → IsAmongWaiting number self.now.waiting }
    {
        match &self.waiting {
            Some(Waiting::From { first, .. }) => *first <= number,
            _ => false,
        }
    }

    /// Takes the document with this number, which waits, out of the sets of these trigrams, which are those of its body. It then
    /// waits with all its trigrams.
    pub(crate) fn withdraw(&mut self, number: u32, trigrams: &Trigrams)
        ensures live { self.new.live.members ≡ self.old.live.members }
        ensures waiting { IsAmongWaiting number self.old.waiting → WaitsWhole number self.old.waiting self.new.waiting }
        ensures postings { (trigram n : ℕ) → holds self.new.postings trigram n
            ≡ (holds self.old.postings trigram n && not (has trigrams.now trigram && n == number)) }
    {
        leave(&mut self.postings, number, trigrams);
        begin_again(&mut self.waiting, number);
    }

    /// Goes on with the document that has this number and these trigrams, if it waits alone: puts it into the sets of its trigrams
    /// and takes it out of those of the body before, in the order of the trigrams, until the work comes to `most`, where `share` says
    /// how much a set that changes counts (`Postings::move_some`). `none` are no trigrams. Returns how much of `most` is left; if that
    /// is not 0, it waits no more.
    ///
    /// An `Err` means that memory ran out. It then still waits.
    pub(crate) fn move_some(
        &mut self,
        number: u32,
        trigrams: &Trigrams,
        none: &Trigrams,
        most: usize,
        share: usize,
    ) -> Result<usize, AllocError>
        requires { none.now ≡ [] }
        ensures { StayInStep number trigrams.now self.old self.new }
    {
        let Some(
            Waiting::One {
                number: waiting,
                from,
                old,
            },
        ) = &self.waiting
        else {
            return Ok(most);
        };
        if *waiting != number {
            return Ok(most);
        }
        let old = trigrams_of_old(old, none);
        let (next, left) = self
            .postings
            .move_some(number, old, trigrams, *from, most, share)?;
        reach(&mut self.waiting, next);
        Ok(left)
    }

    /// Goes on with the document that has this number and these trigrams, the first of those from a number on that wait: puts it into
    /// the sets of its trigrams, in their order, until the work comes to `most`. `none` are no trigrams. Returns how much work that
    /// was. An `Err` means that memory ran out. It then still waits.
    pub(crate) fn put_next(
        &mut self,
        number: u32,
        trigrams: &Trigrams,
        none: &Trigrams,
        most: usize,
    ) -> Result<usize, AllocError>
        requires { none.now ≡ [] }
        ensures step { StayInStepNext number trigrams.now self.old self.new }
        ensures work { IfOk result (λ work. 0 < work) }
    {
        let from = reached(&self.waiting, number);
        let (next, left) = self
            .postings
            .move_some(number, none, trigrams, from, most, 0)?;
        let waiting = waiting_after(number, next)?;
        self.waiting = Some(waiting);
        Ok(most.saturating_sub(left).max(1))
    }

    /// Whether a document that has gone, or whose body was replaced, waits to be taken out of the sets of its trigrams.
    pub(crate) fn has_left(&self) -> bool
        ensures { IsFalse result → NoneIsLeft self.now.waiting }
    {
        matches!(&self.waiting, Some(Waiting::One { old: Some(_), .. }))
    }
}

impl Waiting {
    /// The first number of a document that waits.
    pub(crate) fn first(&self) -> u32
        ensures { (t n : ℕ) → nat_lt n result ≡ true → is_whole (Some self.now) t n ≡ true }
    {
        match self {
            Waiting::One { number, .. } => *number,
            Waiting::From { first, .. } => *first,
        }
    }
}

/// Takes the number out of the sets of these trigrams. Where no set is there yet, they are not gone through.
fn leave(postings: &mut Postings, number: u32, trigrams: &Trigrams)
    ensures { WithdrawsNumber postings.old postings.new trigrams.now number }
{
    if !postings.is_bare() {
        postings.withdraw(number, trigrams);
    }
}

/// Notes that the document that waits alone has come to this trigram, or that it waits no more.
fn reach(waiting: &mut Option<Waiting>, next: Option<u32>)
    ensures { ReachesNext waiting.old next waiting.new }
{
    match next {
        None => *waiting = None,
        Some(trigram) => {
            if let Some(one) = waiting {
                if let Waiting::One { from, .. } = one {
                    *from = trigram;
                }
            }
        }
    }
}

/// The trigrams of the body before, if there is one, and no trigrams otherwise.
fn trigrams_of_old<'a>(old: &'a Option<Analysed>, none: &'a Trigrams) -> &'a Trigrams
    requires { none.now ≡ [] }
    ensures { (t : ℕ) → has result.now t ≡ trigrams_before old.now t }
{
    match old {
        Some(held) => held.trigrams(),
        None => none,
    }
}

/// What waits once the document with this number, which is above all others, waits too.
fn with_waiting(waiting: &Option<Waiting>, number: u32) -> Waiting
    ensures waits { (t n : ℕ) → is_whole (Some result) t n ≡ true → (is_whole waiting.now t n ≡ true) × ((number == n) ≡ false) }
    ensures none_left { NoneIsLeft (Some result) }
{
    match waiting {
        None => Waiting::One {
            number,
            from: 0,
            old: None,
        },
        Some(Waiting::From { first, from }) if *first < number => Waiting::From {
            first: *first,
            from: *from,
        },
        Some(others) => Waiting::From {
            first: others.first().min(number),
            from: 0,
        },
    }
}

/// Below which trigram the document with this number is in the sets of its trigrams, if it is the first of those from a number on
/// that wait.
fn reached(waiting: &Option<Waiting>, number: u32) -> u32
    ensures { (t : ℕ) → nat_lt t result ≡ true → is_whole waiting.now t number ≡ true }
{
    match waiting {
        Some(Waiting::From { first, from }) if *first == number => *from,
        _ => 0,
    }
}

/// What waits once the document with this number has come to this trigram, or is in all its sets. An `Err` means that no number is
/// greater.
fn waiting_after(number: u32, next: Option<u32>) -> Result<Waiting, AllocError>
    ensures { IfOk result (λ waiting. waiting ≡ waiting_from number next) }
{
    let Some(from) = next else {
        return match number.checked_add(1) {
            Some(first) => Ok(Waiting::From { first, from: 0 }),
            None => Err(AllocError),
        };
    };
    Ok(Waiting::From {
        first: number,
        from,
    })
}

/// Notes that the document with this number, if it is the first of those from a number on that wait, is in no sets any more.
fn begin_again(waiting: &mut Option<Waiting>, number: u32)
    ensures { IsAmongWaiting number waiting.old → WaitsWhole number waiting.old waiting.new }
{
    if let Some(others) = waiting {
        if let Waiting::From { first, from } = others {
            if *first == number {
                *from = 0;
            }
        }
    }
}
