//! The sets of a pattern in which case counts or is ignored (POSIX.1-2017 XSH `regcomp`, `REG_ICASE`).

ghost use Rattle.std.specs.Prelude.{◌≡◌};
ghost use Rattle.ere.specs.ByteSet.{single};
ghost use Rattle.ere.specs.Letters.{closed, other_case, read_in};

use crate::byte_set::ByteSet;
use crate::case::Case;
use crate::classes::{is_lower, is_upper};

/// The set of a byte that stands for itself: the byte and, if case is ignored, its other case.
pub fn single_in(case: Case, byte: u8) -> ByteSet
    ensures { result ≡ read_in case (single byte) }
{
    match case {
        Case::Exact => ByteSet::single(byte),
        Case::Ignore => both_cases(byte),
    }
}

/// The byte and its other case.
fn both_cases(byte: u8) -> ByteSet
    ensures { result ≡ closed (single byte) }
{
    ByteSet::single(byte).union(&ByteSet::single(other_case(byte)))
}

/// The set of a bracket expression's items, with the other case of each letter if case is ignored.
pub fn read_in(case: Case, items: ByteSet) -> ByteSet
    ensures { result ≡ read_in case items }
{
    match case {
        Case::Exact => items,
        Case::Ignore => closed(&items),
    }
}

/// The set, with the other case of each of its letters added.
fn closed(set: &ByteSet) -> ByteSet
    ensures { result ≡ closed set.now }
{
    ByteSet::of(|b| set.has(b) || set.has(other_case(b)))
}

/// The other case of a letter; any other byte itself.
fn other_case(b: u8) -> u8
    ensures { result ≡ other_case b }
{
    if is_upper(b) {
        b + 32
    } else if is_lower(b) {
        b - 32
    } else {
        b
    }
}
