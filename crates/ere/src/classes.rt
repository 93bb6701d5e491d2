//! The character classes of the POSIX locale, by their names (POSIX.1-2017 XBD 7.3.1). Bytes from 128 on are in none of
//! them (this program's choice).

ghost use Rattle.std.specs.Prelude.{◌≡◌};
ghost use Rattle.ere.specs.Classes.{class_named, is_alnum, is_alpha, is_blank, is_cntrl, is_digit, is_graph};
ghost use Rattle.ere.specs.Classes.{is_lower, is_print, is_punct, is_space, is_upper, is_word_byte, is_xdigit};

use crate::byte_set::ByteSet;

/// The set of the class of this name, such as `digit`, or `None` if no class has the name.
pub fn class_named(name: &[u8]) -> Option<ByteSet>
    ensures { result ≡ class_named name.now }
{
    if name == b"upper".as_slice() {
        Some(ByteSet::of(is_upper))
    } else if name == b"lower".as_slice() {
        Some(ByteSet::of(is_lower))
    } else if name == b"alpha".as_slice() {
        Some(ByteSet::of(is_alpha))
    } else if name == b"digit".as_slice() {
        Some(ByteSet::of(is_digit))
    } else if name == b"alnum".as_slice() {
        Some(ByteSet::of(is_alnum))
    } else if name == b"xdigit".as_slice() {
        Some(ByteSet::of(is_xdigit))
    } else if name == b"punct".as_slice() {
        Some(ByteSet::of(is_punct))
    } else if name == b"graph".as_slice() {
        Some(ByteSet::of(is_graph))
    } else if name == b"print".as_slice() {
        Some(ByteSet::of(is_print))
    } else if name == b"blank".as_slice() {
        Some(ByteSet::of(is_blank))
    } else if name == b"space".as_slice() {
        Some(ByteSet::of(is_space))
    } else if name == b"cntrl".as_slice() {
        Some(ByteSet::of(is_cntrl))
    } else {
        None
    }
}

/// Whether the byte is a capital letter.
pub fn is_upper(b: u8) -> bool
    ensures { result ≡ is_upper b }
{
    65 <= b && b <= 90
}

/// Whether the byte is a small letter.
pub fn is_lower(b: u8) -> bool
    ensures { result ≡ is_lower b }
{
    97 <= b && b <= 122
}

fn is_alpha(b: u8) -> bool
    ensures { result ≡ is_alpha b }
{
    is_upper(b) || is_lower(b)
}

/// Whether the byte is a decimal digit.
pub fn is_digit(b: u8) -> bool
    ensures { result ≡ is_digit b }
{
    48 <= b && b <= 57
}

fn is_alnum(b: u8) -> bool
    ensures { result ≡ is_alnum b }
{
    is_alpha(b) || is_digit(b)
}

/// Whether the byte is an ASCII letter, a decimal digit or `_`: a byte of a word (POSIX.1-2017 XCU vi).
pub fn is_word_byte(b: u8) -> bool
    ensures { result ≡ is_word_byte b }
{
    is_alnum(b) || b == b'_'
}

fn is_xdigit(b: u8) -> bool
    ensures { result ≡ is_xdigit b }
{
    is_digit(b) || (65 <= b && b <= 70) || (97 <= b && b <= 102)
}

/// Whether the byte is ASCII punctuation.
pub fn is_punct(b: u8) -> bool
    ensures { result ≡ is_punct b }
{
    is_graph(b) && !is_alnum(b)
}

fn is_graph(b: u8) -> bool
    ensures { result ≡ is_graph b }
{
    33 <= b && b <= 126
}

fn is_print(b: u8) -> bool
    ensures { result ≡ is_print b }
{
    32 <= b && b <= 126
}

fn is_blank(b: u8) -> bool
    ensures { result ≡ is_blank b }
{
    b == 9 || b == 32
}

fn is_space(b: u8) -> bool
    ensures { result ≡ is_space b }
{
    (9 <= b && b <= 13) || b == 32
}

fn is_cntrl(b: u8) -> bool
    ensures { result ≡ is_cntrl b }
{
    b <= 31 || b == 127
}
