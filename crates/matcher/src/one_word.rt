//! Sets of positions of a short line, which has at most 63 bytes and so at most 64 positions.

ghost use Rattle.std.specs.Prelude.{ℕ};

use crate::position_set::PositionSet;
use crate::words::{BITS, either, followed, moved_up, only_bit, reached, through_bit, without};
use ere::ByteSet;
use std::marker::Model;

/// A set of positions of a line that has at most 63 bytes: position k is bit k.
#[derive(Drop)]
pub struct OneWord {
    word: u64,
}

impl Model for OneWord {
    ghost use Rattle.std.specs.Prelude.{List, [], ◌∷◌, ℕ};

    ghost Value = { List ℕ };

    ghost view = { λ s. s.word ∷ [] };
}

impl PositionSet for OneWord {
    ghost words = { λ s. s };

    ghost room = { 64 };

    fn none() -> OneWord {
        OneWord { word: 0 }
    }

    fn through(last: usize) -> OneWord {
        OneWord {
            word: through_bit(last),
        }
    }

    fn is_empty(&self) -> bool {
        self.word == 0
    }

    fn clear(&mut self) {
        self.word = 0;
    }

    fn is_same(&self, other: &OneWord) -> bool {
        self.word == other.word
    }

    fn take_window(&mut self, here: &mut OneWord) -> usize {
        here.word = self.word;
        self.word = 0;
        BITS - 1
    }

    fn copy(&mut self, other: &OneWord) {
        self.word = other.word;
    }

    fn keep(&mut self, position: usize) {
        self.word = only_bit(self.word, position);
    }

    fn add(&mut self, fresh: &mut OneWord) -> bool {
        let next = fresh.word;
        fresh.word = without(next, self.word);
        self.word = either(self.word, next);
        fresh.word != 0
    }

    fn step(&mut self, members: &ByteSet, line: &[u8]) {
        self.word = moved_up(followed(self.word, 0, members, line), 0);
    }

    fn sweep(&mut self, members: &ByteSet, line: &[u8]) {
        self.word = reached(self.word, 0, members, line);
    }
}
