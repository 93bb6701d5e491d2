//! A history that many hold a beginning of: entries, from the first one on, to which only the one who has its head adds.
//!
//! The history itself takes no memory. What is kept of it is its length, and evidence for the proofs, which
//! has no bytes, of how far it is known to go.
#![tactic(auto)]

ghost use Rattle.std.specs.Prelude.{◌≡◌, ◌<◌, [], ◌∷◌, ◌++◌, length, IfSome, MatchBool};
ghost use mathlib.Core.List.{IsPrefix};
ghost use Rattle.history.specs.History.{history, head_of};

use logbook::{Gain, Offer, Plain, Play, Rule, Seen, Start, Word};
use std::marker::Model;

/// The rule of a history: its first word is the number of entries. It has two words; the second one stays 0.
pub struct Counted;

impl<E> Rule<E, u64> for Counted {
    ghost use Rattle.std.specs.Prelude.{[]};
    ghost use base.Fml.{ftrue};
    ghost use Rattle.history.specs.Private.Counting.{IsCounted};

    ghost holds = { IsCounted };

    ghost first = { [] };

    ghost hinted = { λ n log. Unit {0} };

    ghost shows = { λ log. [] };

    ghost keeps = { λ names log. ftrue };

    ghost moves = { λ ask before after answer. Unit {0} };
}

/// A step tells its caller nothing.
struct Nothing;

impl<E> Gain<E, u64> for Nothing {
    ghost use base.Fml.{ftrue};

    ghost after = { λ names about answer. ftrue };
}

/// A step that adds an entry.
struct Add;

impl<E> Play<E, u64> for Add {
    ghost use Rattle.history.specs.Private.Counting.{Adds};

    ghost then = { Adds };
}

/// The word that counts the entries of a history. Whoever has it can add to the history.
pub type Head<E> = Word<E, u64, Counted>;

/// A beginning of a history, known to whoever has it. Contracts see it as a `History`: its book, which names it, and
/// the entries.
#[derive(Drop)]
pub struct Front<E> {
    /// The number of entries.
    count: u64,
    seen: Seen<E, u64, Counted>,
}

impl<E> Model for Front<E> {
    ghost use Rattle.std.specs.Prelude.{◌≡◌, length};
    ghost use Rattle.history.specs.History.{History, history};

    ghost Value = { History E };

    ghost view = { λ f. history f.seen.book f.seen.log };

    ghost invariant = { λ f. f.count ≡ length f.seen.log };
}

impl<E> Front<E> {
    /// A new history: its head, and the front with no entries.
    pub fn open() -> (Head<E>, Front<E>)
        ensures head { result.0 ≡ head_of result.1.book }
        ensures empty { result.1.entries ≡ [] }
    {
        let (seen, mut first, _second) = Seen::open(Start::alone(), 0, 0);
        let head = Word::tracked(0, &mut first);
        (head, Front { count: 0, seen })
    }

    /// The number of entries.
    pub fn len(&self) -> u64
        ensures { result ≡ length self.now.entries }
    {
        self.count
    }

    /// A copy.
    pub fn again(&self) -> Front<E>
        ensures { result ≡ self.now }
    {
        Front {
            count: self.count,
            seen: self.seen.again(),
        }
    }

    /// Whether this front is a beginning of the other. Of two fronts of one history, if it is not, the other is a shorter
    /// beginning of this one.
    pub fn begins(&self, other: &Front<E>) -> bool
        requires { other.now.book ≡ self.now.book }
        ensures { MatchBool result (IsPrefix self.now.entries other.now.entries)
            (IsPrefix other.now.entries self.now.entries × (length other.now.entries < length self.now.entries)) }
    {
        let mut both = self.seen.again();
        both.learn(&other.seen);
        self.count <= other.count
    }

    /// The front after one more entry, the one that `about` asks for. `None` if the history continues after this front,
    /// or the number of entries would not fit in 64 bits. Whoever alone has the head, and adds to the longest front,
    /// meets neither.
    pub fn with<X, M: Plain<X, E, u64>>(&self, head: &Head<E>, about: &X) -> Option<Front<E>>
        requires { head.now ≡ head_of self.now.book }
        ensures { IfSome result (λ f. f ≡ history self.now.book (self.now.entries ++ M.ask about.now ∷ [])) }
    {
        let count = self.count.checked_add(1)?;
        let mut seen = self.seen.again();
        let mut offer: Offer<E, u64, Counted, Nothing> = seen.plain::<Nothing, X, M>(about);
        let mut pen = seen.no_pen();
        let found = head.compare_exchange::<Add, Nothing>(
            self.count, count, &mut seen, &mut offer, &mut pen,
        );
        if found != self.count {
            return None;
        }
        Some(Front { count, seen })
    }
}
