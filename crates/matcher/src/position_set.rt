//! What the walk asks of a set of positions.

ghost use Rattle.std.specs.Prelude.{◌≡◌, ◌<◌, ℕ, ◌&&◌, ◌==◌, nat_le, IsTrue, MatchBool, List, length, slice_index};
ghost use Rattle.ere.specs.Tree.{set};
ghost use Rattle.spans.specs.Spans.{Spans, Steps};
ghost use Rattle.spans.specs.PositionSets.{has_position};
ghost use Rattle.matcher.specs.Private.Moves.{absent, HasNone, IsEither, IsNew, Moves};

use ere::ByteSet;

/// A set of positions of a line. Position i is before byte i; the last position is after the last byte.
///
/// Two types implement it: `OneWord`, for short lines, which most lines are, and `Positions<N>`, which has `N` words.
pub trait PositionSet: Drop {
    ghost words: { Self → List ℕ };

    // How many positions the set has room for. A line has one more position than it has bytes.
    ghost room: { ℕ };

    /// The set with no position.
    fn none() -> Self
        requires { 0 < room }
        ensures { HasNone (words result) };

    /// The positions from 0 to `last`, both included.
    fn through(last: usize) -> Self
        requires { last < room }
        ensures { (k : ℕ) → has_position (words result) k ≡ nat_le k last };

    /// Whether no position is in the set.
    fn is_empty(&self) -> bool
        ensures { MatchBool result (HasNone (words self.now)) ((k : ℕ) × IsTrue (has_position (words self.now) k)) };

    /// Takes out every position.
    fn clear(&mut self)
        ensures none { HasNone (words self.new) }
        ensures empty { (i : ℕ) → slice_index (words self.new) i ≡ 0 };

    /// `true` only if the two sets are equal. `false` is allowed for equal sets too: it costs time but changes no
    /// answer of the walk.
    fn is_same(&self, other: &Self) -> bool
        ensures { IsTrue result → words self.now ≡ words other.now };

    /// Moves the positions of a window, which is the first 64-bit word that has any, into `here`, which then has no
    /// others. Returns the last position of the window, or any number if the set is empty.
    fn take_window(&mut self, here: &mut Self) -> usize
        ensures { IsEither (words here.new) (words self.new) (words self.old) };

    /// Makes the set equal to another.
    fn copy(&mut self, other: &Self)
        ensures { self.new ≡ other.now };

    /// Takes out every position but one.
    fn keep(&mut self, position: usize)
        requires { position < room }
        ensures { (k : ℕ) → has_position (words self.new) k ≡ (k == position && has_position (words self.old) k) };

    /// Adds the positions of `fresh`, and removes from `fresh` those that were already in the set.
    /// Returns whether any was new.
    fn add(&mut self, fresh: &mut Self) -> bool
        ensures both { IsEither (words self.old) (words fresh.old) (words self.new) }
        ensures new { IsNew (words fresh.old) (words self.old) (words fresh.new) }
        ensures grown { MatchBool result (absent (words self.new) < absent (words self.old)) (HasNone (words fresh.new)) };

    /// Moves each position over the byte after it if that byte is in `members`. Otherwise, and at the end of the
    /// line, the position is dropped.
    fn step(&mut self, members: &ByteSet, line: &[u8])
        requires { length line.now < room }
        ensures { Moves (Spans line.now (set members.now)) (words self.old) (words self.new) };

    /// Adds the positions to which any number of bytes in `members` lead from those in the set.
    fn sweep(&mut self, members: &ByteSet, line: &[u8])
        requires { length line.now < room }
        ensures { Moves (λ from to. (count : ℕ) × Steps (Spans line.now (set members.now)) count from to) (words self.old) (words self.new) };
}
