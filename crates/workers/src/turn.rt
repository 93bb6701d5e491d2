//! The turns of searches: the time for which each has a reader.

ghost use Rattle.std.specs.Prelude.{IfOk};
ghost use Rattle.documents.specs.State.{state_of};
ghost use Rattle.prepare.specs.Prepared.{request_of};
ghost use Rattle.search.specs.Taken.{IsFirstOf, IsTakenOf};

use crate::has_reader::{HasReader, Seen};
use crate::mailbox::Mailbox;
use crate::queue::{Queue, Released};
use prepare::Prepared;
use search::{First, Taken};
use service::{Begun, Look, Naming, Reader, Wish};
use std::alloc::{AllocError, Global};
use std::sync::{Arc, Mutex, Wait};
use std::time::{Clock, Duration, Instant};
use views::Shown;
use watch::{Unanswered, Watch};

/// For how many milliseconds a search works before it lets others work.
const TURN: u64 = 10;

/// For how many milliseconds it works before it lets others work, where one waits that nobody has begun.
const TURN_FOR_NEW: u64 = 1;

/// The reader of a search, and since when it has it.
#[derive(Drop)]
struct State<J: Naming> {
    /// The number of the search.
    number: u32,
    /// The number of its lane.
    lane: u64,
    /// `None` once the search is to end.
    reader: Option<Reader<J>>,
    /// When its turn began. `None` means that the clock cannot be read: then it is over at once.
    since: Option<Instant>,
    /// For how long it has worked in the turns before.
    worked: Duration,
    /// What was taken last, unless the service can take note of that already.
    begun: Option<Begun>,
}

/// What a search that works has: its reader, and since when. Once it was stopped, it has a reader anew in its next turn. The threads
/// in which its lines are matched share it.
#[derive(Drop)]
pub(crate) struct Turn<'a, J: Naming, T> {
    state: Mutex<State<J>>,
    /// Where its thread waits.
    mailbox: &'a Arc<Mailbox<J, T>, Global>,
}

impl<J: Naming> State<J> {
    /// Takes note of what a reader has taken.
    fn note(&mut self, seen: &Seen<J>) {
        self.begun = Some(Begun {
            number: self.number,
            reader: seen.reader,
            version: seen.told.version(),
        });
    }

    /// Takes the first candidates of a search.
    fn take_first<'p, W: Watch + Copy>(
        &mut self,
        alloc: Global,
        prepared: &'p Prepared,
        most: usize,
        watch: W,
    ) -> Result<(First<'p>, Seen<J>), Unanswered>
        ensures { IfOk result (λ taken. IsFirstOf (state_of taken.1.told.commands) (request_of prepared.now) taken.0) }
    {
        let Some(reader) = &mut self.reader else {
            return Err(Unanswered::OutOfMemory);
        };
        let (first, seen) = reader.take_first(alloc, prepared, most, watch)?;
        self.note(&seen);
        Ok((first, seen))
    }

    /// Takes the candidates of a search.
    fn take<'p, W: Watch + Copy>(
        &mut self,
        alloc: Global,
        prepared: &'p Prepared,
        watch: W,
    ) -> Result<(Taken<'p>, Seen<J>), Unanswered>
        ensures { IfOk result (λ taken. IsTakenOf (state_of taken.1.told.commands) (request_of prepared.now) taken.0) }
    {
        let Some(reader) = &mut self.reader else {
            return Err(Unanswered::OutOfMemory);
        };
        let (taken, seen) = reader.take(alloc, prepared, watch)?;
        self.note(&seen);
        Ok((taken, seen))
    }

    /// For how long its turn has lasted.
    fn in_turn<R: Clock>(&self, rt: &R) -> Option<Duration> {
        self.since?.elapsed(rt).ok()
    }

    /// Whether its turn is over, where `for_new` says whether one waits that nobody has begun.
    fn is_over<R: Clock>(&self, rt: &R, for_new: bool) -> bool {
        let most = if for_new { TURN_FOR_NEW } else { TURN };
        match self.in_turn(rt) {
            Some(time) => time >= Duration::from_millis(most),
            None => true,
        }
    }

    /// For how long it has worked in all of its turns.
    fn worked_until_now<R: Clock>(&self, rt: &R) -> Duration {
        self.worked
            .saturating_add(self.in_turn(rt).unwrap_or(Duration::ZERO))
    }

    /// Lets those that wait work, if its turn is over, and has its next turn then. Returns whether the search goes on.
    fn give_way<R: Wait + Clock, T: Drop>(
        &mut self,
        rt: &R,
        queue: &Queue<J, T>,
        mailbox: &Arc<Mailbox<J, T>, Global>,
    ) -> bool {
        if !queue.stops_always() && !self.is_over(rt, queue.has_new()) {
            return true;
        }
        let Some(reader) = self.reader.take() else {
            return false;
        };
        self.worked = self.worked_until_now(rt);
        self.reader = queue.pause(rt, mailbox, self.lane, reader, &mut self.begun);
        self.since = Instant::now(rt).ok();
        self.reader.is_some()
    }
}

impl<'a, J: Naming, T: Drop> Turn<'a, J, T> {
    /// The first turn of the search of this number, which is in this lane and has this reader from now on.
    pub(crate) fn new<R: Clock>(
        rt: &R,
        mailbox: &'a Arc<Mailbox<J, T>, Global>,
        number: u32,
        lane: u64,
        reader: Reader<J>,
    ) -> Turn<'a, J, T> {
        Turn {
            state: Mutex::new(State {
                number,
                lane,
                reader: Some(reader),
                since: Instant::now(rt).ok(),
                worked: Duration::ZERO,
                begun: None,
            }),
            mailbox,
        }
    }

    /// For how long the search has worked.
    pub(crate) fn worked<R: Wait + Clock>(&self, rt: &R) -> Duration {
        self.state.lock(rt).worked_until_now(rt)
    }

    /// Ends. What was taken last comes too, unless the service can take note of that already.
    pub(crate) fn end(self) -> (Released<J>, Option<Begun>) {
        let state = self.state.into_inner();
        let released = Released {
            reader: state.reader,
            lane: state.lane,
        };
        (released, state.begun)
    }
}

/// Takes the documents of a search, with the reader that it has in its turn.
#[derive(Drop)]
pub(crate) struct TurnReader<'a, J: Naming, T, R: Wait + Clock> {
    pub(crate) rt: &'a R,
    pub(crate) turn: &'a Turn<'a, J, T>,
    pub(crate) wish: &'a Wish,
}

impl<J: Naming, T: Drop, R: Wait + Clock> HasReader<J> for TurnReader<'_, J, T, R> {
    fn take_first<'p, W: Watch + Copy>(
        &mut self,
        alloc: Global,
        prepared: &'p Prepared,
        most: usize,
        watch: W,
    ) -> Result<(First<'p>, Seen<J>), Unanswered> {
        self.turn
            .state
            .lock(self.rt)
            .take_first(alloc, prepared, most, watch)
    }

    fn take<'p, W: Watch + Copy>(
        &mut self,
        alloc: Global,
        prepared: &'p Prepared,
        watch: W,
    ) -> Result<(Taken<'p>, Seen<J>), Unanswered> {
        self.turn.state.lock(self.rt).take(alloc, prepared, watch)
    }

    fn timed(&self, answer: Shown) -> Shown {
        self.wish.timed(self.rt, self.turn.worked(self.rt), answer)
    }
}

/// Where searches yield their readers, each in its turn, an S.
pub(crate) trait Yields<S> {
    /// Lets those that wait work, if this turn is over, and waits until the next turn of the search. Returns whether the search goes
    /// on.
    fn yield_at<R: Wait + Clock>(&self, rt: &R, turn: &S) -> bool;
}

impl<J: Naming, T: Drop> Yields<Turn<'_, J, T>> for Queue<J, T> {
    fn yield_at<R: Wait + Clock>(&self, rt: &R, turn: &Turn<'_, J, T>) -> bool {
        !self.is_wanted() || turn.state.lock(rt).give_way(rt, self, turn.mailbox)
    }
}

/// What a thread that searches looks at: whether its search is still wanted. Where others wait and its turn is over, the look
/// lasts until its next turn.
pub(crate) struct YieldingWatch<'a, S, Q: Yields<S>, R: Wait + Clock> {
    pub(crate) look: Look<'a, R>,
    pub(crate) turn: &'a S,
    pub(crate) queue: &'a Q,
}

impl<'a, S, Q: Yields<S>, R: Wait + Clock> Clone for YieldingWatch<'a, S, Q, R> {
    fn clone(&self) -> Result<YieldingWatch<'a, S, Q, R>, AllocError> {
        Ok(*self)
    }
}

impl<'a, S, Q: Yields<S>, R: Wait + Clock> Copy for YieldingWatch<'a, S, Q, R> {}

impl<S, Q: Yields<S>, R: Wait + Clock> Watch for YieldingWatch<'_, S, Q, R> {
    // Other threads call the wish off, and time passes: what it said is in no value that a contract can name.
    ghost has_said_no = { λ _. Unit {0} };

    fn wants(&mut self) -> bool {
        self.look.wants() && self.queue.yield_at(self.look.rt, self.turn) && self.look.wants()
    }
}
