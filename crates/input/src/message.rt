//! Messages: an item, or the end of the reading.

ghost use Rattle.std.specs.Prelude.{◌≡◌, ◌≢◌, [], ◌∷◌, ◌++◌, IfSome, MatchBool};
ghost use Rattle.input.specs.Read.{EndsWith, IsReadOf};

use crate::StreamError;
use crate::fronts::{Book, Front, Naming};
use crate::read_item::ReadItem;
use std::marker::Model;

/// An item, and all that was read up to it.
#[derive(Drop)]
pub struct Sent<K: Naming> {
    /// The item.
    pub item: ReadItem,
    /// What was read. It ends with the item.
    pub read: Front<K>,
    pub ghost last: { EndsWith read item },
}

impl<K: Naming> Sent<K> {
    /// Whether the item is the next one after those of this front. So a receiver that has all messages up to one,
    /// and the front of the last, knows that it has missed none.
    pub fn follows(&self, came: &Front<K>) -> bool
        ensures follows { MatchBool result (self.now.read ≡ came.now ++ self.now.item ∷ []) (self.now.read ≢ came.now ++ self.now.item ∷ []) }
        ensures read { IsReadOf K.input self.now.read }
    {
        let count = self.read.len();
        if count == 0 || count - 1 != came.len() {
            return false;
        }
        came.begins(&self.read)
    }

    /// The message of an item that was read after those of this front. `None` if the history continues after this
    /// front, or the number of items would not fit in 64 bits. The one who reads meets neither.
    pub(crate) fn after(read: &Front<K>, book: &Book<K>, item: ReadItem) -> Option<Sent<K>>
        requires { IsReadOf K.input (read.now ++ item ∷ []) }
        ensures { IfSome result (λ sent. (sent.item ≡ item) × (sent.read ≡ read.now ++ item ∷ [])) }
    {
        match read.with(book, &item) {
            Some(read) => Some(Sent { item, read }),
            None => None,
        }
    }
}

/// The end of a reading, after all that was read. Contracts see it as an `EndState`.
#[derive(Drop)]
pub struct Ended<K: Naming> {
    /// All that was read.
    pub(crate) read: Front<K>,
    /// The error that ended the reading, if one did.
    pub(crate) failed: Option<StreamError>,
}

impl<K: Naming> Model for Ended<K> {
    ghost use Rattle.input.specs.Read.{EndState, EndsBy};

    ghost Value = { EndState };

    ghost view = { λ e. record { read = e.read; failed = e.failed } };

    ghost invariant = { λ e. EndsBy K.input e.read e.failed };
}

/// What comes of a reading.
#[derive(Drop)]
pub enum Next<K: Naming> {
    /// An item.
    Item(Sent<K>),
    /// The end of the reading.
    End(Ended<K>),
}
