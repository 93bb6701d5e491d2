//! Who reads the items and answers the searches.

use crossbeam_channel::RecvTimeoutError;
use input::Next;
use service::{Begun, Done, Task};
use std::sync::Wait;
use std::time::{Clock, Duration};

/// What a run or a session waits for: an item or the end of the reading, or an answer.
#[derive(Drop)]
pub enum Event<J: service::Naming, K: input::Naming> {
    /// An item, or the end of the reading.
    Read(Next<K>),
    /// An answer.
    Answer(Done<J>),
}

impl<J: service::Naming, K: input::Naming> From<Done<J>> for Event<J, K> {
    fn from(done: Done<J>) -> Event<J, K> {
        Event::Answer(done)
    }
}

impl<J: service::Naming, K: input::Naming> From<Next<K>> for Event<J, K> {
    fn from(next: Next<K>) -> Event<J, K> {
        Event::Read(next)
    }
}

/// Who reads the input and answers the searches. What it has read and found carries its evidence in its type, so contracts ask
/// nothing of a crew; whether anything comes of it is its own.
pub trait Crew<J: service::Naming, K: input::Naming> {
    /// Whether no reader is at work in a thread.
    fn is_alone(&self) -> bool;

    /// Whether the calling thread reads.
    fn reads_here(&self) -> bool;

    /// An event, if there is one already.
    fn ready<R: Wait>(&self, rt: &R) -> Option<Event<J, K>>;

    /// Waits for the next event. If the calling thread reads, it is the next item or the end of the reading, once the item
    /// before it was taken. `None` means that the threads have ended, which they do not while the crew lasts.
    fn next<R: Wait>(&mut self, rt: &R) -> Option<Event<J, K>>;

    /// Waits for the next event from a thread, for about this long if there is a limit. `Timeout` means that none came in this time,
    /// or that the clock cannot be read, and `Disconnected` that the threads have ended, which they do not while the crew lasts.
    fn next_within<R: Wait + Clock>(
        &self,
        rt: &R,
        limit: Option<Duration>,
    ) -> Result<Event<J, K>, RecvTimeoutError>;

    /// Lets one more item be read.
    fn permit<R: Wait>(&mut self, rt: &R);

    /// Hands a search to the readers. `None` means that they have it; if they cannot have it, it comes back.
    fn hand_out<R: Wait>(&self, rt: &R, lane: Vec<u8>, task: Task) -> Option<Task>;

    /// What was taken for a search, of which the service is to take note before it takes an answer.
    fn take_begun<R: Wait>(&self, rt: &R) -> Option<Begun>;
}
