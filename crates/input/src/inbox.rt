//! The other end of a reading: what came, and was not taken yet.

ghost use Rattle.std.specs.Prelude.{◌≡◌, ◌≢◌, true, false, [], ◌∷◌, ◌++◌, Err, None, IfSome, IfNone, OnOk, OnErr, MatchBool, slice_get};
ghost use Rattle.input.specs.declared.owned.OwnedItem.TheVariants.{Sync as sync};
ghost use Rattle.input.specs.Read.{CameIn, EndsIf, IsReadOf, end as came_end, inbox_state, item as came_item};
ghost use Rattle.input.specs.Next.{IsNextOf, came_of};

use crate::fronts::{Front, Naming};
use crate::message::{Ended, Next, Sent};
use crate::read_item::ReadItem;
use crate::{OwnedItem, StreamError};
use std::alloc::Global;
use std::collections::VecDeque;
use std::marker::Model;

/// Items that came and were not taken yet, and how the reading ended, if it did. Contracts see it as an `InboxState`.
#[derive(Drop)]
pub struct Inbox<K: Naming> {
    held: VecDeque<ReadItem>,
    /// All items that came.
    came: Front<K>,
    /// The error that ended the reading, or `Some(None)` if it ended without one.
    over: Option<Option<StreamError>>,
}

impl<K: Naming> Model for Inbox<K> {
    ghost use Rattle.input.specs.Read.{InboxState, inbox_state, EndsIf, IsReadOf};

    ghost Value = { InboxState };

    ghost view = { λ i. inbox_state i.held.items i.came i.over };

    ghost invariant = { λ i. IsReadOf K.input i.came × EndsIf K.input i.came i.over };
}

/// Why a message is not taken in.
#[derive(Clone, Copy, Debug, PartialEq, Eq)]
pub enum InboxError {
    /// It is not the one after the last that came, or the reading has ended already. It never happens to messages of
    /// one reading that come in order.
    Lost,
    /// Memory ran out.
    OutOfMemory,
}

impl<K: Naming> Inbox<K> {
    /// Nothing came yet.
    pub fn new(alloc: Global, front: Front<K>) -> Inbox<K>
        requires { front ≡ [] }
        ensures state { result ≡ inbox_state [] [] None }
        ensures read { IsReadOf K.input result.came }
    {
        Inbox {
            held: VecDeque::new(alloc),
            came: front,
            over: None,
        }
    }

    /// Takes in what came next: an item, or the end of the reading.
    ///
    /// An `Err` is `Lost` if that is not the message after the last one that came, or if the reading has ended already,
    /// and `OutOfMemory` if there is no memory to hold it. Nothing has changed then.
    pub fn take_in(&mut self, next: Next<K>) -> Result<(), InboxError>
        ensures ok { OnOk result (CameIn (came_of next) self.old self.new) }
        ensures err { OnErr result (self.new ≡ self.old) }
        ensures lost { result ≡ Err InboxError.Lost → ¬ IsNextOf next self.old }
        ensures read { IsReadOf K.input self.new.came }
    {
        if self.over.is_some() {
            return Err(InboxError::Lost);
        }
        match next {
            Next::Item(sent) => self.hold(sent),
            Next::End(ended) => self.end(ended),
        }
    }

    fn hold(&mut self, sent: Sent<K>) -> Result<(), InboxError>
        requires { self.old.over ≡ None }
        ensures ok { OnOk result (CameIn (came_item sent.item) self.old self.new) }
        ensures err { OnErr result (self.new ≡ self.old) }
        ensures lost { result ≡ Err InboxError.Lost → sent.read ≢ self.old.came ++ sent.item ∷ [] }
        ensures read { IsReadOf K.input self.new.came }
    {
        if !sent.follows(&self.came) {
            return Err(InboxError::Lost);
        }
        let Sent { item, read } = sent;
        match self.held.push_back(item) {
            Ok(()) => {
                self.came = read;
                Ok(())
            }
            Err(_) => Err(InboxError::OutOfMemory),
        }
    }

    fn end(&mut self, ended: Ended<K>) -> Result<(), InboxError>
        ensures ok { OnOk result (CameIn (came_end ended) self.old self.new) }
        ensures err { OnErr result (self.new ≡ self.old) }
        ensures lost { result ≡ Err InboxError.Lost → ended.read ≢ self.old.came }
        ensures read { IsReadOf K.input self.new.came }
    {
        let Ended { read, failed } = ended;
        if !self.came.is_same(&read) {
            return Err(InboxError::Lost);
        }
        self.over = Some(failed);
        Ok(())
    }

    /// Takes out the next item, and returns it. `None` if there is none, or if it is a sync and the searches before it
    /// are not answered, as `are_answered` says.
    pub fn next_ready(&mut self, are_answered: bool) -> Option<ReadItem>
        ensures some { IfSome result (λ read. self.old.held ≡ read ∷ self.new.held) }
        ensures no_sync { are_answered ≡ false → IfSome result (λ read. read.item ≢ sync) }
        ensures none { IfNone result (self.new ≡ self.old) }
        ensures empty { are_answered ≡ true → IfNone result (self.new.held ≡ []) }
        ensures rest { (self.new.came ≡ self.old.came) × (self.new.over ≡ self.old.over) }
        ensures read { IsReadOf K.input self.new.came }
    {
        if !are_answered && self.is_at_sync() {
            return None;
        }
        self.held.pop_front()
    }

    /// Whether the next item is a sync.
    fn is_at_sync(&self) -> bool
        ensures { MatchBool result Unit (IfSome (slice_get self.now.held 0) (λ read. read.item ≢ sync)) }
    {
        match self.held.front() {
            Some(read) => matches!(&read.item, OwnedItem::Sync),
            None => false,
        }
    }

    /// How the reading ended: by an error, or by none, which is `Some(None)`. `None` if it goes on.
    pub fn over(&self) -> Option<Option<StreamError>>
        ensures over { result ≡ self.now.over }
        ensures ends { EndsIf K.input self.now.came self.now.over }
    {
        self.over
    }
}
