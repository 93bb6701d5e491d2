//! Sets of positions of a longer line.

ghost use Rattle.std.specs.Prelude.{◌≤◌, ◌<◌, ℕ};

use crate::position_set::PositionSet;
use crate::words::{BITS, either, every, first_held, only_bit, shift, sweep, through_bit, without};
use ere::ByteSet;
use std::marker::Model;

/// A set of positions of a line, in `N` words. Position i is before byte i; the last position is after the last byte.
#[derive(Drop)]
pub struct Positions<const N: usize> {
    words: [u64; N],
    // All positions are in the words from `first` up to but not including `end`, so no other word is looked at.
    first: usize,
    end: usize,
}

impl<const N: usize> Model for Positions<N> {
    ghost use Rattle.std.specs.Prelude.{List, ℕ};

    ghost Value = { List ℕ };

    ghost use Rattle.matcher.specs.Private.Bounds.{IsBounded};

    ghost view = { λ s. s.words };

    ghost invariant = { λ s. IsBounded N s.words s.first s.end };
}

impl<const N: usize> PositionSet for Positions<N> {
    ghost use Rattle.matcher.specs.Private.Bounds.{room_of};

    ghost words = { λ s. s };

    ghost room = { room_of N };

    fn none() -> Positions<N> {
        Positions {
            words: every(0),
            first: 0,
            end: 0,
        }
    }

    fn through(last: usize) -> Positions<N> {
        let mut words = every(0);
        let whole = last / BITS;
        for i in 0..whole {
            words[i] = through_bit(BITS - 1);
        }
        words[whole] = through_bit(last % BITS);
        Positions {
            words,
            first: 0,
            end: whole + 1,
        }
    }

    fn is_empty(&self) -> bool {
        for i in self.first..self.end {
            if self.words[i] != 0 {
                return false;
            }
        }
        true
    }

    fn clear(&mut self) {
        for i in self.first..self.end {
            self.words[i] = 0;
        }
        self.first = 0;
        self.end = 0;
    }

    fn is_same(&self, other: &Positions<N>) -> bool {
        self.words == other.words
    }

    fn take_window(&mut self, here: &mut Positions<N>) -> usize {
        here.clear();
        let i = first_held(&self.words, self.first, self.end);
        if i == self.end {
            return i * BITS;
        }
        here.words[i] = self.words[i];
        here.first = i;
        here.end = i + 1;
        self.words[i] = 0;
        self.first = i + 1;
        i * BITS + (BITS - 1)
    }

    fn copy(&mut self, other: &Positions<N>) {
        self.clear();
        for i in other.first..other.end {
            self.words[i] = other.words[i];
        }
        self.first = other.first;
        self.end = other.end;
    }

    fn keep(&mut self, position: usize) {
        let i = position / BITS;
        let stays = only_bit(self.words[i], position % BITS);
        self.clear();
        self.words[i] = stays;
        self.first = i;
        self.end = i + 1;
    }

    fn add(&mut self, fresh: &mut Positions<N>) -> bool {
        let (first, end) = joined(self.first, self.end, fresh.first, fresh.end);
        for i in fresh.first..fresh.end {
            let next = fresh.words[i];
            fresh.words[i] = without(next, self.words[i]);
            self.words[i] = either(self.words[i], next);
        }
        self.first = first;
        self.end = end;
        // What is left is often far along the line, and the empty words before it need not be looked at again.
        fresh.first = first_held(&fresh.words, fresh.first, fresh.end);
        !fresh.is_empty()
    }

    fn step(&mut self, members: &ByteSet, line: &[u8]) {
        self.end = shift(members, line, &mut self.words, self.first, self.end);
        self.first = first_held(&self.words, self.first, self.end);
    }

    fn sweep(&mut self, members: &ByteSet, line: &[u8]) {
        self.end = sweep(members, line, &mut self.words, self.first, self.end);
    }
}

/// The smallest range that contains both ranges; an empty range is ignored.
fn joined(first: usize, end: usize, other_first: usize, other_end: usize) -> (usize, usize)
    requires ordered { (first ≤ end) × (other_first ≤ other_end) }
    ensures ordered { result.0 ≤ result.1 }
    ensures inside { (most : ℕ) → end ≤ most → other_end ≤ most → result.1 ≤ most }
    ensures left { first < end → (result.0 ≤ first) × (end ≤ result.1) }
    ensures right { other_first < other_end → (result.0 ≤ other_first) × (other_end ≤ result.1) }
{
    if first == end {
        return (other_first, other_end);
    }
    if other_first == other_end {
        return (first, end);
    }
    (first.min(other_first), end.max(other_end))
}
