//! Where threads wait.

use service::{Naming, Reader};
use std::sync::{Condvar, Mutex, Wait};

/// What a thread is told.
#[derive(Drop)]
pub(crate) enum Signal<J: Naming, T> {
    /// It begins with a search, which is in the lane of this number.
    Begin {
        reader: Reader<J>,
        task: T,
        lane: u64,
    },
    /// It goes on with the search that it has.
    Go(Reader<J>),
    /// It ends.
    End,
}

impl<J: Naming, T: Drop> Signal<J, T> {
    /// The reader with which a search goes on. `None` means that it is to end.
    pub(crate) fn reader(self) -> Option<Reader<J>> {
        match self {
            Signal::Go(reader) => Some(reader),
            _ => None,
        }
    }
}

/// Where a thread waits for its signal. No other thread waits there.
#[derive(Drop)]
pub struct Mailbox<J: Naming, T> {
    signal: Mutex<Option<Signal<J, T>>>,
    came: Condvar,
}

impl<J: Naming, T: Drop> Mailbox<J, T> {
    /// A mailbox to which nothing was sent.
    pub(crate) fn new() -> Mailbox<J, T> {
        Mailbox {
            signal: Mutex::new(None),
            came: Condvar::new(),
        }
    }

    /// Sends the thread its signal. It has taken the one before.
    pub(crate) fn send<R: Wait>(&self, rt: &R, signal: Signal<J, T>) {
        *self.signal.lock(rt) = Some(signal);
        self.came.notify_one();
    }

    /// Waits for the thread's signal.
    pub(crate) fn wait<R: Wait>(&self, rt: &R) -> Signal<J, T> {
        let mut signal = self
            .came
            .wait_while(rt, self.signal.lock(rt), |signal| signal.is_none());
        match signal.take() {
            Some(signal) => signal,
            None => Signal::End,
        }
    }
}
