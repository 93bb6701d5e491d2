//! The threads of a run or a session, and the channels between them and it.

use crossbeam_channel::{Receiver, RecvTimeoutError, Sender, bounded};
use event_loop::{Crew, Event};
use input::{Feed, Next};
use service::{Begun, Done, Reader, Task};
use std::alloc::{AllocError, Global};
use std::io::BufRead;
use std::marker::PhantomData;
use std::sync::{Arc, Wait};
use std::thread::{self, Scope, Threads};
use std::time::{Clock, Duration};
use workers::{Gate, Mailbox, Queue, Stops};

/// How many events can wait for a session. A thread that has one more waits, so few answers are in memory at a time.
const EVENTS: usize = 8;

/// How many answers can wait for a run, which keeps them all.
const ANSWERS: usize = 64;

/// How many items are read ahead of a session.
const AHEAD: usize = 16;

/// About how many bytes of an answer's text its reader forms in a session. The session forms the rest, piece by piece.
const TEXT_AHEAD: usize = 1_048_576;

/// How many bytes of an answer's text a reader forms in a run: none, since a run keeps its answers until the end.
const NO_TEXT: usize = 0;

/// One more item can be read.
#[derive(Drop)]
struct Permit;

/// The threads that answer searches, and what comes from them. It is of type M.
#[derive(Drop)]
struct Workers<J: service::Naming, M> {
    queue: Arc<Queue<J, Task>, Global>,
    events: Receiver<M>,
}

/// Who reads the input.
#[derive(Drop)]
enum Reading<K: input::Naming, I: BufRead + Drop> {
    /// The calling thread, one item at a time.
    Here {
        feed: Feed<K, I>,
        /// Whether it may read the next one.
        permitted: bool,
    },
    /// A thread, which reads an item for each permit.
    Thread(Sender<Permit>),
}

/// Who reads the input and answers the searches.
#[derive(Drop)]
pub(crate) struct ThreadedCrew<J: service::Naming, K: input::Naming, I: BufRead + Drop> {
    reading: Reading<K, I>,
    /// The threads that answer searches, if there are any.
    workers: Option<Workers<J, Event<J, K>>>,
}

impl<K: input::Naming, I: BufRead + Drop> Reading<K, I> {
    /// The calling thread is to read.
    fn here(feed: Feed<K, I>) -> Reading<K, I> {
        Reading::Here {
            feed,
            permitted: true,
        }
    }
}

/// What a run lends to its readers.
#[derive(Drop)]
pub(crate) struct Lent<'a, J, K, R, G> {
    /// The runtime.
    pub(crate) rt: &'a R,
    /// The allocator.
    pub(crate) alloc: Global,
    /// What the readers call at each point of a search.
    pub(crate) gate: &'a G,
    /// It shows how long J and K live.
    pub(crate) of: &'a PhantomData<(J, K)>,
}

impl<
    J: service::Naming + Send + Sync,
    K: input::Naming + Send + Sync,
    I: BufRead + Drop,
> ThreadedCrew<J, K, I> {
    /// Starts the readers of a run, each in a thread of its own, which ends after the crew is dropped. The calling thread
    /// reads. Where there is no memory for the threads, or one cannot be started, there are fewer of them, or none.
    pub(crate) fn in_scope<'s, 'a: 's, E, R: Threads + Wait + Clock + Sync, G: Gate>(
        scope: &Scope<'s, E>,
        lent: &Lent<'a, J, K, R, G>,
        feed: Feed<K, I>,
        readers: Vec<Reader<J>>,
    ) -> ThreadedCrew<J, K, I> {
        let workers = start_scoped(scope, lent, readers);
        ThreadedCrew {
            reading: Reading::here(feed),
            workers,
        }
    }
}

/// Starts a thread for each reader of a run. `None` means that none is at work.
fn start_scoped<
    's,
    'a: 's,
    E,
    J: service::Naming + Send + Sync,
    K: input::Naming + Send + Sync,
    R: Threads + Wait + Clock + Sync,
    G: Gate,
>(
    scope: &Scope<'s, E>,
    lent: &Lent<'a, J, K, R, G>,
    readers: Vec<Reader<J>>,
) -> Option<Workers<J, Event<J, K>>> {
    if readers.is_empty() {
        return None;
    }
    let (sent, events) = bounded::<Event<J, K>, Global>(lent.alloc, ANSWERS).ok()?;
    let most = readers.len();
    // All entries come at the end, so no search waits for another.
    let queue = Arc::new(lent.alloc, Queue::new(lent.alloc, readers, Stops::Never)).ok()?;
    let mut any = false;
    for _ in 0..most {
        if !start_in(scope, lent, &queue, &sent) {
            break;
        }
        any = true;
    }
    if any {
        Some(Workers { queue, events })
    } else {
        None
    }
}

/// Starts a thread of a run. `false` means that it could not be started.
fn start_in<
    's,
    'a: 's,
    E,
    J: service::Naming + Send + Sync,
    K: input::Naming + Send + Sync,
    R: Threads + Wait + Clock + Sync,
    G: Gate,
>(
    scope: &Scope<'s, E>,
    lent: &Lent<'a, J, K, R, G>,
    queue: &Arc<Queue<J, Task>, Global>,
    events: &Sender<Event<J, K>>,
) -> bool {
    let Ok(own) = Arc::try_clone(queue) else {
        return false;
    };
    let Ok(events) = events.clone() else {
        return false;
    };
    let (rt, alloc, gate) = (lent.rt, lent.alloc, lent.gate);
    let Some(mailbox) = queue.add_thread(rt) else {
        return false;
    };
    if scope
        .spawn(move || work_on(rt, alloc, &own, &mailbox, &events, NO_TEXT, gate))
        .is_err()
    {
        queue.remove_thread(rt);
        return false;
    }
    true
}

/// Answers searches as they come, until none can come any more or nobody takes the answers. Of the text of each, about `ahead`
/// bytes are formed.
fn work_on<
    J: service::Naming + Send + Sync,
    T: Into<Task> + Drop + Send,
    M: From<Done<J>> + Drop,
    R: Threads + Wait + Clock + Sync,
    G: Gate,
>(
    rt: &R,
    alloc: Global,
    queue: &Arc<Queue<J, T>, Global>,
    mailbox: &Arc<Mailbox<J, T>, Global>,
    events: &Sender<M>,
    ahead: usize,
    gate: &G,
) {
    let mut released = None;
    for _ in rt.forever() {
        let Some(assignment) = queue.next(rt, mailbox, released) else {
            return;
        };
        let (back, done) = queue.answer(rt, alloc, mailbox, assignment, ahead, gate);
        if events.send(rt, M::from(done)).is_err() {
            return;
        }
        released = Some(back);
    }
}

impl<
    J: service::Naming + Send + Sync + 'static,
    K: input::Naming + Send + Sync + 'static,
    I: BufRead + Drop + Send + 'static,
> ThreadedCrew<J, K, I> {
    /// Starts a thread for each reader of a session, one that reads the input, and one that starts more as searches are stopped.
    /// Where there is no memory for that, or a thread cannot be started, there are fewer, or none at all. The threads are not waited
    /// for. Those that search and the one that starts them end once no search can come any more, and the one that reads once it has
    /// sent the end, or nobody takes what it sends.
    pub(crate) fn start<
        R: Threads + Wait + Clock + Sync + Send + Copy + 'static,
        G: Gate + Copy + Send + 'static,
    >(
        rt: &R,
        alloc: Global,
        feed: Feed<K, I>,
        readers: Vec<Reader<J>>,
        gate: G,
    ) -> ThreadedCrew<J, K, I> {
        match start_threads::<J, K, I, Event<J, K>, R, G>(rt, alloc, feed, readers, gate) {
            Ok((workers, permits)) => ThreadedCrew {
                reading: Reading::Thread(permits),
                workers: Some(workers),
            },
            Err(feed) => ThreadedCrew {
                reading: Reading::here(feed),
                workers: None,
            },
        }
    }
}

/// Starts the threads. An `Err` hands the input back: no thread is at work, and nothing was read.
fn start_threads<
    J: service::Naming + Send + Sync + 'static,
    K: input::Naming + Send + Sync + 'static,
    I: BufRead + Drop + Send + 'static,
    M: From<Done<J>> + From<Next<K>> + Drop + Send + 'static,
    R: Threads + Wait + Clock + Sync + Send + Copy + 'static,
    G: Gate + Copy + Send + 'static,
>(
    rt: &R,
    alloc: Global,
    feed: Feed<K, I>,
    readers: Vec<Reader<J>>,
    gate: G,
) -> Result<(Workers<J, M>, Sender<Permit>), Feed<K, I>> {
    if readers.is_empty() {
        return Err(feed);
    }
    let Ok((sent, events)) = bounded::<M, Global>(alloc, EVENTS) else {
        return Err(feed);
    };
    let Ok((permits, permitted)) = bounded::<Permit, Global>(alloc, AHEAD) else {
        return Err(feed);
    };
    let Some(queue) = start_workers(rt, alloc, readers, &sent, gate) else {
        return Err(feed);
    };
    match start_reading(rt, feed, permitted, sent, permits) {
        Ok(permits) => Ok((Workers { queue, events }, permits)),
        Err(feed) => {
            queue.close(rt);
            Err(feed)
        }
    }
}

/// Starts a thread for each reader, until one cannot be started, and one that starts further ones. `None` means that none was
/// started.
fn start_workers<
    J: service::Naming + Send + Sync + 'static,
    T: Into<Task> + Drop + Send + 'static,
    M: From<Done<J>> + Drop + Send + 'static,
    R: Threads + Wait + Clock + Sync + Send + Copy + 'static,
    G: Gate + Copy + Send + 'static,
>(
    rt: &R,
    alloc: Global,
    readers: Vec<Reader<J>>,
    events: &Sender<M>,
    gate: G,
) -> Option<Arc<Queue<J, T>, Global>> {
    let most = readers.len();
    let stops = if gate.stops() {
        Stops::Always
    } else {
        Stops::InTurn
    };
    let queue = Arc::new(alloc, Queue::new(alloc, readers, stops)).ok()?;
    let mut started = false;
    for _ in 0..most {
        if !start_worker(rt, alloc, &queue, events, gate) {
            break;
        }
        started = true;
    }
    if started {
        start_starter(rt, alloc, &queue, events, gate);
        Some(queue)
    } else {
        None
    }
}

/// Starts the thread that starts further ones. If it cannot be started, there are as many threads as readers.
fn start_starter<
    J: service::Naming + Send + Sync + 'static,
    T: Into<Task> + Drop + Send + 'static,
    M: From<Done<J>> + Drop + Send + 'static,
    R: Threads + Wait + Clock + Sync + Send + Copy + 'static,
    G: Gate + Copy + Send + 'static,
>(rt: &R, alloc: Global, queue: &Arc<Queue<J, T>, Global>, events: &Sender<M>, gate: G) {
    let Ok(own) = Arc::try_clone(queue) else {
        return;
    };
    let Ok(events) = events.clone() else {
        return;
    };
    let host = *rt;
    let _ = thread::spawn(rt, move || start_more(host, alloc, own, events, gate));
}

/// Starts a thread each time that all have a search, until no search comes any more.
fn start_more<
    J: service::Naming + Send + Sync + 'static,
    T: Into<Task> + Drop + Send + 'static,
    M: From<Done<J>> + Drop + Send + 'static,
    R: Threads + Wait + Clock + Sync + Send + Copy + 'static,
    G: Gate + Copy + Send + 'static,
>(rt: R, alloc: Global, queue: Arc<Queue<J, T>, Global>, events: Sender<M>, gate: G) {
    for _ in rt.forever() {
        if !queue.needs_thread(&rt) {
            return;
        }
        let _ = start_worker(&rt, alloc, &queue, &events, gate);
    }
}

/// Starts a thread that answers searches. `false` means that it was not started.
fn start_worker<
    J: service::Naming + Send + Sync + 'static,
    T: Into<Task> + Drop + Send + 'static,
    M: From<Done<J>> + Drop + Send + 'static,
    R: Threads + Wait + Clock + Sync + Send + Copy + 'static,
    G: Gate + Copy + Send + 'static,
>(rt: &R, alloc: Global, queue: &Arc<Queue<J, T>, Global>, events: &Sender<M>, gate: G) -> bool {
    let Some(mailbox) = queue.add_thread(rt) else {
        return false;
    };
    let Ok(own) = Arc::try_clone(queue) else {
        queue.remove_thread(rt);
        return false;
    };
    let Ok(events) = events.clone() else {
        queue.remove_thread(rt);
        return false;
    };
    let host = *rt;
    if thread::spawn(rt, move || work(host, alloc, own, mailbox, events, gate)).is_err() {
        queue.remove_thread(rt);
        return false;
    }
    true
}

/// Answers searches as they come, until none can come any more or nobody takes the answers.
fn work<
    J: service::Naming + Send + Sync,
    T: Into<Task> + Drop + Send,
    M: From<Done<J>> + Drop,
    R: Threads + Wait + Clock + Sync + Drop,
    G: Gate + Drop,
>(
    rt: R,
    alloc: Global,
    queue: Arc<Queue<J, T>, Global>,
    mailbox: Arc<Mailbox<J, T>, Global>,
    events: Sender<M>,
    gate: G,
) {
    work_on(&rt, alloc, &queue, &mailbox, &events, TEXT_AHEAD, &gate);
}

/// Starts the thread that reads the input, and hands out the first permits. An `Err` means that it could not be started,
/// and nothing was read.
fn start_reading<
    K: input::Naming + Send + Sync + 'static,
    I: BufRead + Drop + Send + 'static,
    M: From<Next<K>> + Drop + Send + 'static,
    R: Threads + Wait + Clock + Sync + Send + Copy + 'static,
>(
    rt: &R,
    feed: Feed<K, I>,
    permitted: Receiver<Permit>,
    events: Sender<M>,
    permits: Sender<Permit>,
) -> Result<Sender<Permit>, Feed<K, I>> {
    let own = *rt;
    match thread::spawn(rt, move || read(own, feed, permitted, events)) {
        Ok(_) => {
            for _ in 0..AHEAD {
                let _ = permits.send(rt, Permit);
            }
            Ok(permits)
        }
        Err(refused) => {
            drop(permits);
            let read = refused.value;
            Err(read())
        }
    }
}

/// Reads item after item, one for each permit, and sends what comes, until the reading ends or nobody takes it.
fn read<K: input::Naming, I: BufRead + Drop, M: From<Next<K>> + Drop, R: Wait + Drop>(
    rt: R,
    feed: Feed<K, I>,
    permitted: Receiver<Permit>,
    events: Sender<M>,
) -> Feed<K, I> {
    let mut feed = feed;
    for _ in rt.forever() {
        if permitted.recv(&rt).is_err() {
            return feed;
        }
        let next = feed.next();
        let is_over = matches!(&next, Next::End(_));
        if events.send(&rt, M::from(next)).is_err() || is_over {
            return feed;
        }
    }
    feed
}

impl<J: service::Naming, K: input::Naming, I: BufRead + Drop> Crew<J, K> for ThreadedCrew<J, K, I> {
    fn is_alone(&self) -> bool {
        self.workers.is_none()
    }

    fn ready<R: Wait>(&self, rt: &R) -> Option<Event<J, K>> {
        match &self.workers {
            Some(workers) => workers.events.try_recv(rt).ok(),
            None => None,
        }
    }

    fn next<R: Wait>(&mut self, rt: &R) -> Option<Event<J, K>> {
        if let Reading::Here { feed, permitted } = &mut self.reading {
            if *permitted {
                *permitted = false;
                return Some(Event::Read(feed.next()));
            }
        }
        match &self.workers {
            Some(workers) => workers.events.recv(rt).ok(),
            None => None,
        }
    }

    fn next_within<R: Wait + Clock>(
        &self,
        rt: &R,
        limit: Option<Duration>,
    ) -> Result<Event<J, K>, RecvTimeoutError> {
        let Some(workers) = &self.workers else {
            return Err(RecvTimeoutError::Disconnected);
        };
        match limit {
            Some(limit) => workers.events.recv_timeout(rt, limit),
            None => match workers.events.recv(rt) {
                Ok(event) => Ok(event),
                Err(_) => Err(RecvTimeoutError::Disconnected),
            },
        }
    }

    fn reads_here(&self) -> bool {
        matches!(self.reading, Reading::Here { .. })
    }

    fn permit<R: Wait>(&mut self, rt: &R) {
        match &mut self.reading {
            Reading::Here { permitted, .. } => *permitted = true,
            Reading::Thread(permits) => {
                let _ = permits.send(rt, Permit);
            }
        }
    }

    fn hand_out<R: Wait>(&self, rt: &R, lane: Vec<u8>, task: Task) -> Option<Task> {
        match &self.workers {
            Some(workers) => workers.queue.push(rt, lane, task),
            None => Some(task),
        }
    }

    fn take_begun<R: Wait>(&self, rt: &R) -> Option<Begun> {
        match &self.workers {
            Some(workers) => workers.queue.take_begun(rt),
            None => None,
        }
    }
}

impl<J: service::Naming, K: input::Naming, I: BufRead + Drop> ThreadedCrew<J, K, I> {
    /// Ends: no search comes any more.
    pub(crate) fn close<R: Wait>(self, rt: &R) {
        if let Some(workers) = &self.workers {
            workers.queue.close(rt);
        }
    }
}
