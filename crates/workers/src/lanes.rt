//! The searches of each lane that wait.

use crate::mailbox::{Mailbox, Signal};
use service::Naming;
use std::alloc::Global;
use std::collections::VecDeque;
use std::sync::{Arc, Wait};

/// How many searches of a lane more than there are readers are begun and not done at most, so that few answers are in memory in
/// part. A further one waits.
const MORE_BEGUN: usize = 16;

/// Which search of a lane goes on next.
#[derive(Clone, Copy, Debug, PartialEq, Eq)]
pub(crate) enum Next {
    /// The first of those that nobody has begun.
    New,
    /// The first of those that were stopped.
    Stopped,
}

/// The searches of a lane that wait. New ones and stopped ones go on by turns, each of them in their order.
#[derive(Drop)]
pub(crate) struct Lane<J: Naming, T> {
    /// Its name.
    name: Vec<u8>,
    /// Its number. No other lane has had it.
    pub(crate) number: u64,
    /// The searches that nobody has begun.
    pub(crate) new: VecDeque<T>,
    /// The mailboxes of the searches that were stopped.
    pub(crate) stopped: VecDeque<Arc<Mailbox<J, T>, Global>>,
    /// How many searches are begun and not done.
    begun: usize,
    /// Whether the search that went on last was a new one.
    began: bool,
}

impl<J: Naming, T: Drop> Lane<J, T> {
    /// Whether a search waits that nobody has begun, and fewer than `most` are begun.
    fn has_new(&self, most: usize) -> bool {
        self.begun < most && !self.new.is_empty()
    }

    /// Which search goes on next, if one can. A new one needs a thread, and that fewer than `most` are begun.
    fn next(&self, is_thread_idle: bool, most: usize) -> Option<Next> {
        let begins = is_thread_idle && self.has_new(most);
        if !self.stopped.is_empty() && (self.began || !begins) {
            Some(Next::Stopped)
        } else if begins {
            Some(Next::New)
        } else {
            None
        }
    }

    /// Notes that this search goes on.
    pub(crate) fn note(&mut self, next: Next) {
        self.began = next == Next::New;
        if self.began {
            self.begun = self.begun.saturating_add(1);
        }
    }

    /// Ends the threads of the searches that were stopped.
    fn close<R: Wait>(&self, rt: &R) {
        for mailbox in &self.stopped {
            mailbox.send(rt, Signal::End);
        }
    }

    /// Whether none of its searches waits.
    fn is_empty(&self) -> bool {
        self.new.is_empty() && self.stopped.is_empty()
    }

    /// Whether none of its searches waits or is begun.
    fn is_unused(&self) -> bool {
        self.begun == 0 && self.is_empty()
    }
}

/// The lanes with searches that wait or are begun. The one that has waited longest for its turn is the first.
#[derive(Drop)]
pub(crate) struct Lanes<J: Naming, T> {
    lanes: Vec<Lane<J, T>>,
    /// How many lanes there have been.
    made: u64,
    /// How many searches of a lane are begun at most.
    most: usize,
}

impl<J: Naming, T: Drop> Lanes<J, T> {
    /// No lane. There are so many readers.
    pub(crate) fn new(alloc: Global, readers: usize) -> Lanes<J, T> {
        Lanes {
            lanes: Vec::new(alloc),
            made: 0,
            most: readers.saturating_add(MORE_BEGUN),
        }
    }

    /// The number of the first lane in which a search can go on. A new one needs a thread.
    pub(crate) fn next(&self, is_thread_idle: bool) -> Option<(u64, Next)> {
        for place in 0..self.lanes.len() {
            let lane = &self.lanes[place];
            if let Some(next) = lane.next(is_thread_idle, self.most) {
                return Some((lane.number, next));
            }
        }
        None
    }

    /// Whether a search waits that nobody has begun, and that its lane lets begin.
    pub(crate) fn has_new(&self) -> bool {
        for place in 0..self.lanes.len() {
            if self.lanes[place].has_new(self.most) {
                return true;
            }
        }
        false
    }

    /// The lane of this number, which is the last one from now on.
    pub(crate) fn serve(&mut self, lane: u64) -> Option<&mut Lane<J, T>> {
        let place = self.place_of(lane)?;
        self.put_last(place)
    }

    /// The lane at this place, which is the last one from now on.
    fn put_last(&mut self, place: usize) -> Option<&mut Lane<J, T>> {
        if place >= self.lanes.len() {
            return None;
        }
        self.lanes[place..].rotate_left(1);
        self.lanes.last_mut()
    }

    /// Adds a search that nobody has begun to the lane of this name. It comes back if there is no memory for it.
    pub(crate) fn add_new(&mut self, alloc: Global, name: Vec<u8>, task: T) -> Option<T> {
        let Some(lane) = self.lane(alloc, name) else {
            return Some(task);
        };
        let number = lane.number;
        match lane.new.push_back(task) {
            Ok(()) => None,
            Err(refused) => {
                self.give_up(number);
                Some(refused.value)
            }
        }
    }

    /// Adds a search that was stopped to its lane, by its mailbox. `false` means that there is no memory for it.
    pub(crate) fn add_stopped(&mut self, lane: u64, mailbox: Arc<Mailbox<J, T>, Global>) -> bool {
        match self.place_of(lane) {
            Some(place) => match self.join(place) {
                Some(lane) => lane.stopped.push_back(mailbox).is_ok(),
                None => false,
            },
            None => false,
        }
    }

    /// A search of this lane is done.
    pub(crate) fn end(&mut self, number: u64) {
        let Some(place) = self.place_of(number) else {
            return;
        };
        if place < self.lanes.len() {
            let lane = &mut self.lanes[place];
            lane.begun = lane.begun.saturating_sub(1);
            self.give_up(number);
        }
    }

    /// Gives up the lane of this number, if none of its searches waits or is begun.
    fn give_up(&mut self, number: u64) {
        let Some(place) = self.place_of(number) else {
            return;
        };
        if place < self.lanes.len() && self.lanes[place].is_unused() {
            let _ = self.lanes.remove(place);
        }
    }

    /// Ends the threads of the searches that were stopped, and drops those that nobody has begun.
    pub(crate) fn close<R: Wait>(&mut self, rt: &R) {
        for lane in &self.lanes {
            lane.close(rt);
        }
        self.lanes.clear();
    }

    /// The lane at this place, for one more search. It is the last one, if none waited in it.
    fn join(&mut self, place: usize) -> Option<&mut Lane<J, T>> {
        if place < self.lanes.len() && self.lanes[place].is_empty() {
            return self.put_last(place);
        }
        self.lanes.get_mut(place)
    }

    /// The lane of this name, for one more search. `None` means that memory ran out.
    fn lane(&mut self, alloc: Global, name: Vec<u8>) -> Option<&mut Lane<J, T>> {
        let place = match self.place_named(&name) {
            Some(place) => place,
            None => {
                self.made = self.made.saturating_add(1);
                self.lanes
                    .push(Lane {
                        name,
                        number: self.made,
                        new: VecDeque::new(alloc),
                        stopped: VecDeque::new(alloc),
                        begun: 0,
                        began: false,
                    })
                    .ok()?;
                self.lanes.len().saturating_sub(1)
            }
        };
        self.join(place)
    }

    /// The place of the lane of this name, if there is one.
    fn place_named(&self, name: &[u8]) -> Option<usize> {
        for place in 0..self.lanes.len() {
            if self.lanes[place].name.as_slice() == name {
                return Some(place);
            }
        }
        None
    }

    /// The place of the lane of this number, if there is one.
    fn place_of(&self, number: u64) -> Option<usize> {
        for place in 0..self.lanes.len() {
            if self.lanes[place].number == number {
                return Some(place);
            }
        }
        None
    }
}
