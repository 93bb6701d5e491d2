//! Which search works next.

use crate::lanes::{Lanes, Next};
use crate::mailbox::{Mailbox, Signal};
use service::{Begun, Naming, Reader, Task};
use std::alloc::Global;
use std::collections::VecDeque;
use std::sync::atomic::{AtomicBool, AtomicUsize, Ordering};
use std::sync::{Arc, Condvar, Mutex, Wait};

/// How many threads there are at most: as many as searches can be open in a session, and some that wait for one.
const MOST_THREADS: usize = 1088;

/// The searches that wait, the readers that no search has, and the threads. A search works while it has a reader, so no more
/// searches work than there are readers. One that has worked for a while, as others wait, gives its reader to the next one and
/// waits in its thread, which keeps all that it has found.
///
/// Lanes are served one after the other. What is handed out, a T, becomes the `Task` of a search in the thread that answers it.
#[derive(Drop)]
pub struct Queue<J: Naming, T> {
    alloc: Global,
    state: Mutex<State<J, T>>,
    /// How many searches wait.
    waiting: AtomicUsize,
    /// Whether one of them could begin if it had a reader and a thread.
    has_new: AtomicBool,
    /// When searches are stopped while others wait.
    stops: Stops,
    /// Where the thread waits that starts the others.
    need: Condvar,
}

/// When searches are stopped while others wait.
#[derive(Clone, Copy, Debug, PartialEq, Eq)]
pub enum Stops {
    /// Never.
    Never,
    /// After a while.
    InTurn,
    /// Wherever they can be.
    Always,
}

#[derive(Drop)]
struct State<J: Naming, T> {
    /// The readers that no search has. There is room for all.
    free: Vec<Reader<J>>,
    /// The searches that wait.
    lanes: Lanes<J, T>,
    /// How many of them there are.
    waiting: usize,
    /// The mailboxes of the threads that have no search. There is room for all.
    idle: Vec<Arc<Mailbox<J, T>, Global>>,
    /// What was taken for searches, for the service.
    begun: VecDeque<Begun>,
    /// How many threads there are.
    threads: usize,
    /// How many of them are started and have not come to wait for a search yet.
    starting: usize,
    /// How many threads without a search are kept.
    spare: usize,
    /// Whether a thread could not be started since the last one became idle.
    is_refused: bool,
    /// Whether no search comes any more.
    is_closed: bool,
}

/// A search for a thread to answer, and a reader for it.
#[derive(Drop)]
pub struct Assignment<J: Naming> {
    pub(crate) reader: Reader<J>,
    pub(crate) task: Task,
    /// The number of its lane.
    pub(crate) lane: u64,
}

/// What a thread gives back of a search that it has answered.
#[derive(Drop)]
pub struct Released<J: Naming> {
    /// `None` once the queue was closed.
    pub(crate) reader: Option<Reader<J>>,
    pub(crate) lane: u64,
}

impl<J: Naming, T: Drop> State<J, T> {
    /// Which search goes on next, if one can, and the number of its lane.
    fn next(&self) -> Option<(u64, Next)> {
        self.lanes.next(!self.idle.is_empty())
    }

    /// Gives the readers that no search has to the searches that wait.
    fn serve<R: Wait>(&mut self, rt: &R) {
        for _ in 0..self.free.len() {
            let Some((lane, next)) = self.next() else {
                return;
            };
            let Some(reader) = self.free.pop() else {
                return;
            };
            self.send(rt, lane, next, reader);
        }
    }

    /// Gives a reader to a search of the lane of this number. There is one.
    fn send<R: Wait>(&mut self, rt: &R, lane: u64, next: Next, reader: Reader<J>) {
        self.waiting = self.waiting.saturating_sub(1);
        let Some(lane) = self.lanes.serve(lane) else {
            return;
        };
        lane.note(next);
        match next {
            Next::Stopped => {
                if let Some(mailbox) = lane.stopped.pop_front() {
                    mailbox.send(rt, Signal::Go(reader));
                }
            }
            Next::New => {
                if let (Some(mailbox), Some(task)) = (self.idle.pop(), lane.new.pop_front()) {
                    mailbox.send(
                        rt,
                        Signal::Begin {
                            reader,
                            task,
                            lane: lane.number,
                        },
                    );
                }
            }
        }
    }

    /// Counts one more thread, and returns where it is to wait.
    fn add_thread(&mut self, alloc: Global) -> Option<Arc<Mailbox<J, T>, Global>> {
        if self.threads >= MOST_THREADS {
            return None;
        }
        let threads = self.threads + 1;
        self.idle.reserve(threads).ok()?;
        let mailbox = Arc::new(alloc, Mailbox::new()).ok()?;
        self.threads = threads;
        self.starting = self.starting.saturating_add(1);
        Some(mailbox)
    }

    /// Whether a thread more is wanted, or none will be any more.
    fn needs_thread(&self) -> bool {
        self.is_closed || (self.idle.is_empty() && self.starting == 0 && !self.is_refused)
    }

    /// Takes back what a thread has of a search that is done.
    fn take_back(&mut self, released: Released<J>) {
        self.lanes.end(released.lane);
        if let Some(reader) = released.reader {
            let _ = self.free.push(reader);
        }
    }
}

impl<J: Naming, T: Drop> Queue<J, T> {
    /// A queue with these readers, in which no search waits, and no thread is.
    pub fn new(alloc: Global, readers: Vec<Reader<J>>, stops: Stops) -> Queue<J, T> {
        let lanes = Lanes::new(alloc, readers.len());
        let spare = readers.len().saturating_add(1);
        let state = State {
            free: readers,
            lanes,
            waiting: 0,
            idle: Vec::new(alloc),
            begun: VecDeque::new(alloc),
            threads: 0,
            starting: 0,
            spare,
            is_refused: false,
            is_closed: false,
        };
        Queue {
            alloc,
            state: Mutex::new(state),
            waiting: AtomicUsize::new(0),
            has_new: AtomicBool::new(false),
            stops,
            need: Condvar::new(),
        }
    }

    /// Counts one more thread, which is started next, and returns where it is to wait. `None` means that there are enough, or that
    /// memory ran out.
    pub fn add_thread<R: Wait>(&self, rt: &R) -> Option<Arc<Mailbox<J, T>, Global>> {
        let mut state = self.state.lock(rt);
        let mailbox = state.add_thread(self.alloc);
        state.is_refused = mailbox.is_none();
        mailbox
    }

    /// One thread fewer is in the queue: it could not be started.
    pub fn remove_thread<R: Wait>(&self, rt: &R) {
        let mut state = self.state.lock(rt);
        state.threads = state.threads.saturating_sub(1);
        state.starting = state.starting.saturating_sub(1);
        state.is_refused = true;
    }

    /// Waits until every thread has a search, so that none that works could be stopped for a new one: one more is to be started
    /// then, and the next one only once it has come to wait for a search. `false` means that no search comes any more.
    pub fn needs_thread<R: Wait>(&self, rt: &R) -> bool {
        let state = self
            .need
            .wait_while(rt, self.state.lock(rt), |state| !state.needs_thread());
        !state.is_closed
    }

    /// Gives the readers that no search has to the searches that wait.
    fn serve<R: Wait>(&self, rt: &R, state: &mut State<J, T>) {
        state.serve(rt);
        self.waiting.store(state.waiting, Ordering::SeqCst);
        self.has_new.store(state.lanes.has_new(), Ordering::SeqCst);
        if state.needs_thread() {
            self.need.notify_one();
        }
    }

    /// Hands a search to the threads, in the lane of this name. It comes back if there is no memory for it.
    pub fn push<R: Wait>(&self, rt: &R, lane: Vec<u8>, task: T) -> Option<T> {
        let mut state = self.state.lock(rt);
        if let Some(task) = state.lanes.add_new(self.alloc, lane, task) {
            return Some(task);
        }
        state.waiting = state.waiting.saturating_add(1);
        self.serve(rt, &mut state);
        None
    }

    /// Gives back a reader, and has the thread of this mailbox among those that wait for a search. `false` means that there are
    /// enough of them, that no search comes any more, or that there is no mailbox.
    fn rest<R: Wait>(
        &self,
        rt: &R,
        mailbox: Option<Arc<Mailbox<J, T>, Global>>,
        released: Option<Released<J>>,
    ) -> bool {
        let mut state = self.state.lock(rt);
        if state.is_closed {
            return false;
        }
        match released {
            Some(released) => state.take_back(released),
            None => state.starting = state.starting.saturating_sub(1),
        }
        state.is_refused = false;
        let stays = match mailbox {
            Some(mailbox) => state.idle.len() < state.spare && state.idle.push(mailbox).is_ok(),
            None => false,
        };
        self.serve(rt, &mut state);
        if !stays {
            state.threads = state.threads.saturating_sub(1);
        }
        stays
    }

    /// Whether a search that works may have to stop, since others wait.
    pub(crate) fn is_wanted(&self) -> bool {
        self.stops != Stops::Never && self.waiting.load(Ordering::SeqCst) > 0
    }

    /// Whether a search waits that nobody has begun.
    pub(crate) fn has_new(&self) -> bool {
        self.has_new.load(Ordering::SeqCst)
    }

    /// Whether a search is stopped although its turn is not over.
    pub(crate) fn stops_always(&self) -> bool {
        self.stops == Stops::Always
    }

    /// Gives the reader of a search of this lane to the next one, and waits at the mailbox of its thread for another. If none can go
    /// on in its place, or there is no memory for that, the reader comes back at once. `None` means that the search is to end.
    pub(crate) fn pause<R: Wait>(
        &self,
        rt: &R,
        mailbox: &Arc<Mailbox<J, T>, Global>,
        lane: u64,
        reader: Reader<J>,
        begun: &mut Option<Begun>,
    ) -> Option<Reader<J>> {
        match self.give_way(rt, mailbox, lane, reader, begun) {
            Some(reader) => Some(reader),
            None => mailbox.wait(rt).reader(),
        }
    }

    /// Gives the reader of a search to the next one, if there is one that can go on, and has the search wait.
    fn give_way<R: Wait>(
        &self,
        rt: &R,
        mailbox: &Arc<Mailbox<J, T>, Global>,
        lane: u64,
        reader: Reader<J>,
        begun: &mut Option<Begun>,
    ) -> Option<Reader<J>> {
        let Ok(own) = Arc::try_clone(mailbox) else {
            return Some(reader);
        };
        let mut state = self.state.lock(rt);
        if state.is_closed {
            return Some(reader);
        }
        // Chosen before this search waits, which could be the first one otherwise.
        let Some((next_lane, next)) = state.next() else {
            return Some(reader);
        };
        if let Some(noted) = *begun {
            if state.begun.push_back(noted).is_err() {
                return Some(reader);
            }
            *begun = None;
        }
        if !state.lanes.add_stopped(lane, own) {
            return Some(reader);
        }
        state.waiting = state.waiting.saturating_add(1);
        state.send(rt, next_lane, next, reader);
        self.serve(rt, &mut state);
        None
    }

    /// The service is to take note of what was taken for this search, unless there is no memory for that. Where no search is
    /// stopped it need not.
    pub(crate) fn note<R: Wait>(&self, rt: &R, begun: Begun) {
        if self.stops != Stops::Never {
            let _ = self.state.lock(rt).begun.push_back(begun);
        }
    }

    /// What was taken for a search that was stopped or that is done, if the service has not taken note of it yet. Of those that
    /// one reader took, the first one comes first.
    pub fn take_begun<R: Wait>(&self, rt: &R) -> Option<Begun> {
        self.state.lock(rt).begun.pop_front()
    }

    /// No search comes any more. The threads that wait end, and searches that wait have no answer.
    pub fn close<R: Wait>(&self, rt: &R) {
        let mut state = self.state.lock(rt);
        state.is_closed = true;
        state.waiting = 0;
        self.waiting.store(0, Ordering::SeqCst);
        for _ in 0..state.idle.len() {
            if let Some(mailbox) = state.idle.pop() {
                mailbox.send(rt, Signal::End);
            }
        }
        state.lanes.close(rt);
        state.free.clear();
        self.need.notify_one();
    }
}

impl<J: Naming, T: Into<Task> + Drop> Queue<J, T> {
    /// Waits for a search for the thread of this mailbox, which gives back what it has of the one that it has answered. `None`
    /// means that the thread is to end.
    pub fn next<R: Wait>(
        &self,
        rt: &R,
        mailbox: &Arc<Mailbox<J, T>, Global>,
        released: Option<Released<J>>,
    ) -> Option<Assignment<J>> {
        if !self.rest(rt, Arc::try_clone(mailbox).ok(), released) {
            return None;
        }
        match mailbox.wait(rt) {
            Signal::Begin { reader, task, lane } => Some(Assignment {
                reader,
                task: task.into(),
                lane,
            }),
            _ => None,
        }
    }
}
