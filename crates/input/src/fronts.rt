//! The history of what was read: the items, from the first one on, under a name.

ghost use Rattle.std.specs.Prelude.{◌≡◌, ◌≢◌, ◌<◌, [], ◌∷◌, ◌++◌, length, IfSome, MatchBool};
ghost use mathlib.Core.List.{IsPrefix};
ghost use Rattle.input.specs.Read.{IsReadOf};
ghost use Rattle.history.specs.History.{head_of};

use crate::read_item::ReadItem;
use history::Head;
use logbook::Plain;
use std::marker::{Brand, Model, PhantomData};

/// An item is added as it is.
struct Same;

impl Plain<ReadItem, ReadItem, u64> for Same {
    ghost use Rattle.std.specs.Prelude.{None};

    ghost ask = { λ item. item };

    ghost state = { λ item. None };
}

/// Names a history in types, so that a message says which history it is about, and which input that history is of. The
/// history that a call opens, and its input, are named by the call's proof.
pub trait Naming {
    ghost use Rattle.std.specs.Prelude.{ℕ, List, Option};
    ghost use Rattle.logbook.specs.Pages.{Book as BookName};

    ghost book: { BookName };

    /// The bytes of the input, if they are known.
    ghost input: { Option (List ℕ) };
}

impl Naming for Brand {
    ghost use Rattle.std.specs.Prelude.{None};

    ghost book = { record { number = 0; log_name = 0; cells_name = 0 } };

    ghost input = { None };
}

/// An empty history that has no name yet. Contracts see it as a `History`.
#[derive(Drop)]
pub struct Opened {
    head: Head<ReadItem>,
    front: history::Front<ReadItem>,
}

impl Model for Opened {
    ghost use Rattle.std.specs.Prelude.{◌≡◌, []};
    ghost use Rattle.history.specs.History.{History, head_of};
    ghost use Rattle.input.specs.declared.read_item.ReadItem.{ReadItem};

    ghost Value = { History ReadItem };

    ghost view = { λ o. o.front };

    ghost invariant = { λ o. (o.front.entries ≡ []) × (o.head ≡ head_of o.front.book) };
}

impl Opened {
    /// Opens a history.
    pub fn new() -> Opened
        ensures { result.entries ≡ [] }
    {
        let (head, front) = history::Front::open();
        Opened { head, front }
    }

    /// The history under a name: the book, for the one who reads, and the front with no items.
    pub fn named<K: Naming>(self) -> (Book<K>, Front<K>)
        requires { self.book ≡ K.book }
        ensures { result.1 ≡ [] }
    {
        let Opened { head, front } = self;
        (
            Book {
                head,
                of: PhantomData,
            },
            Front {
                items: front,
                of: PhantomData,
            },
        )
    }
}

/// The head of a history. Only the one who reads has it.
#[derive(Drop)]
pub struct Book<K: Naming> {
    head: Head<ReadItem>,
    of: PhantomData<K>,
    ghost head_is: { head ≡ head_of K.book },
}

/// A beginning of a history, known to whoever has it: items that were read of the input. Contracts see it as its items.
#[derive(Drop)]
pub struct Front<K: Naming> {
    items: history::Front<ReadItem>,
    of: PhantomData<K>,
}

impl<K: Naming> Model for Front<K> {
    ghost use Rattle.std.specs.Prelude.{◌≡◌, List};
    ghost use Rattle.input.specs.declared.read_item.ReadItem.{ReadItem};
    ghost use Rattle.input.specs.Read.{IsReadOf};

    ghost Value = { List ReadItem };

    ghost view = { λ f. f.items.entries };

    ghost invariant = { λ f. (f.items.book ≡ K.book) × IsReadOf K.input f.items.entries };
}

impl<K: Naming> Front<K> {
    /// The number of items.
    pub fn len(&self) -> u64
        ensures len { result ≡ length self.now }
        ensures read { IsReadOf K.input self.now }
    {
        self.items.len()
    }

    /// A copy.
    pub fn again(&self) -> Front<K>
        ensures { result ≡ self.now }
    {
        Front {
            items: self.items.again(),
            of: PhantomData,
        }
    }

    /// Whether this front is a beginning of the other. If it is not, the other is a shorter beginning of this one.
    pub fn begins(&self, other: &Front<K>) -> bool
        ensures { MatchBool result (IsPrefix self.now other.now) (IsPrefix other.now self.now × (length other.now < length self.now)) }
    {
        self.items.begins(&other.items)
    }

    /// Whether both fronts have the same items.
    pub fn is_same(&self, other: &Front<K>) -> bool
        ensures { MatchBool result (self.now ≡ other.now) (self.now ≢ other.now) }
    {
        if self.len() != other.len() {
            return false;
        }
        self.begins(other)
    }

    /// The front after one more item. `None` if the history continues after this front, or the number of items would
    /// not fit in 64 bits. The one who reads meets neither: only it has the book.
    pub(crate) fn with(&self, book: &Book<K>, item: &ReadItem) -> Option<Front<K>>
        requires { IsReadOf K.input (self.now ++ item.now ∷ []) }
        ensures { IfSome result (λ front. front ≡ self.now ++ item.now ∷ []) }
    {
        let items = self.items.with::<ReadItem, Same>(&book.head, item)?;
        Some(Front {
            items,
            of: PhantomData,
        })
    }
}
