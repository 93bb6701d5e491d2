//! The tree of an extended regular expression.

ghost use Rattle.std.specs.Prelude.{◌↔◌, IsTrue};
ghost use Rattle.ere.specs.Limits.{IsWithinLimits};
ghost use Rattle.ere.specs.Tree.{form};

use crate::byte_set::ByteSet;

/// An extended regular expression as a tree (POSIX.1-2017 XBD 9.4; anchors by 9.4.9). `docs/DEFINITIONS.md` says which
/// texts each tree matches.
///
/// A tree can be higher than the limits allow. To drop it, to clone it and to compare it, calls nest as deep as it is
/// high. By measurement (`bench/levels.py`) each level takes at most 128 bytes of stack to drop or compare, and 448 to
/// clone, so 2 MiB of stack bear 16,000 levels, or 4,600 that are cloned.
#[derive(Clone, Debug, PartialEq, Eq, Drop)]
pub enum Ere {
    /// The empty text.
    Empty,
    /// One byte of the set.
    Set(ByteSet),
    /// The empty text at the line's start: `^`.
    Start,
    /// The empty text at the line's end: `$`.
    End,
    /// A word of each member, one after the other.
    Cat(Vec<Ere>),
    /// A word of one of the members.
    Alt(Vec<Ere>),
    /// Words of the body, one after the other: at least the first number of them, and at most the second, if there is
    /// one.
    Repeat(Box<Ere>, u8, Option<u8>),
}
