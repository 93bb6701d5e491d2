//! The tokens of extended regular expressions (POSIX.1-2017 XBD 9.4), read at an offset of a pattern.

ghost use Rattle.std.specs.Prelude.{◌≡◌, ℕ, Some, ◌+◌, ◌<◌, ◌≤◌, List, Option, IfErr, IfNone, IfOk, IfSome, IsFalse, IsTrue, drop, length};
ghost use Rattle.ere.specs.Brackets.{begins_with};
ghost use Rattle.ere.specs.Private.Reading.{begins_longer, meaning, NoDuplication, ReadsCount};
ghost use Rattle.ere.specs.Tokens.{digit_ahead, is_escapable, token_of_byte, SpellsInterval, SpellsToken};
ghost use Rattle.ere.specs.Tokens.{Token as AnyToken, times};

use crate::brackets::{bracket_at, stands_at};
use crate::byte_set::ByteSet;
use crate::case::Case;
use crate::classes::{is_digit, is_punct};
use crate::error::{EreError, EreErrorKind};
use crate::letters::single_in;

/// A token of a pattern.
#[derive(Clone, Copy, Debug, PartialEq, Eq)]
pub enum Token {
    /// A byte, which can have a `\` before it, `.` or a bracket expression.
    Set(ByteSet),
    /// `(`.
    Opens,
    /// `)`.
    Closes,
    /// The bar between alternatives.
    Bar,
    /// `^`.
    AtStart,
    /// `$`.
    AtEnd,
    /// A duplication, with its least and greatest count. `None` if it has no greatest.
    Times(u8, Option<u8>),
}

/// The token at the offset `at`, and the offset after it. Its set is as it is read in the case.
///
/// An `Err` is `BadEscape` or `BadInterval`, at `at`, or a fault of the bracket expression there (`bracket_at`).
pub fn token_at(case: Case, text: &[u8], at: usize) -> Result<(Token, usize), EreError>
    requires { at < length text.now }
    ensures ok { IfOk result (λ r. SpellsToken case (drop at text.now) (drop r.1 text.now) (meaning r.0)) }
    ensures after { IfOk result (λ r. (at < r.1) × (r.1 ≤ length text.now)) }
    ensures err { IfErr result (λ e. (rest : List ℕ) (t : AnyToken) → SpellsToken case (drop at text.now) rest t → ⊥) }
{
    let byte = text[at];
    if byte == b'[' {
        let (members, after) = bracket_at(case, text, at)?;
        return Ok((Token::Set(members), after));
    }
    if byte == b'\\' {
        return escape_at(case, text, at);
    }
    if byte == b'{' && is_digit_at(text, at + 1) {
        let (least, greatest, after) = interval_at(text, at)?;
        return Ok((Token::Times(least, greatest), after));
    }
    Ok((token_of_byte(case, byte), at + 1))
}

/// The duplication at the offset `at`: its least count, its greatest if it has one, and the offset after it. `None` if
/// there is none, as at the pattern's end.
///
/// An `Err` is `BadInterval`, at `at`: a `{` and a digit there begin no interval.
pub fn duplication_at(
    case: Case,
    text: &[u8],
    at: usize,
) -> Result<Option<(u8, Option<u8>, usize)>, EreError>
    requires { at ≤ length text.now }
    ensures ok { IfOk result (λ found. IfSome found (λ d. SpellsToken case (drop at text.now) (drop d.2 text.now) (times d.0 d.1))) }
    ensures after { IfOk result (λ found. IfSome found (λ d. (at < d.2) × (d.2 ≤ length text.now))) }
    ensures none { IfOk result (λ found. IfNone found (NoDuplication case (drop at text.now))) }
    ensures err { IfErr result (λ e. (at < length text.now) × ((rest : List ℕ) (t : AnyToken) → SpellsToken case (drop at text.now) rest t → ⊥)) }
{
    if !begins_duplication(text, at) {
        return Ok(None);
    }
    let (token, after) = token_at(case, text, at)?;
    match token {
        Token::Times(least, greatest) => Ok(Some((least, greatest, after))),
        _ => Ok(None),
    }
}

/// Whether a byte that can begin a duplication is at `at`.
fn begins_duplication(text: &[u8], at: usize) -> bool
    requires { at ≤ length text.now }
    ensures may { IsTrue result → at < length text.now }
    ensures none { (case : Case) → IsFalse result → NoDuplication case (drop at text.now) }
{
    at < text.len() && b"*+?{".contains(&text[at])
}

/// The token of a byte that is a token by itself.
fn token_of_byte(case: Case, byte: u8) -> Token
    ensures { (rest : List ℕ) → IsFalse (begins_longer byte rest) → token_of_byte case byte rest ≡ Some (meaning result) }
{
    match byte {
        b'.' => Token::Set(ByteSet::all()),
        b'(' => Token::Opens,
        b')' => Token::Closes,
        b'|' => Token::Bar,
        b'^' => Token::AtStart,
        b'$' => Token::AtEnd,
        b'*' => Token::Times(0, None),
        b'+' => Token::Times(1, None),
        b'?' => Token::Times(0, Some(1)),
        _ => Token::Set(single_in(case, byte)),
    }
}

/// The token of the `\` at `at` and the byte after it.
fn escape_at(case: Case, text: &[u8], at: usize) -> Result<(Token, usize), EreError>
    requires { IsTrue (begins_with 92 (drop at text.now)) }
    ensures ok { IfOk result (λ r. SpellsToken case (drop at text.now) (drop r.1 text.now) (meaning r.0)) }
    ensures after { IfOk result (λ r. (at < r.1) × (r.1 ≤ length text.now)) }
    ensures err { IfErr result (λ e. (rest : List ℕ) (t : AnyToken) → SpellsToken case (drop at text.now) rest t → ⊥) }
{
    if at + 1 < text.len() && is_escapable(text[at + 1]) {
        return Ok((Token::Set(single_in(case, text[at + 1])), at + 2));
    }
    Err(EreError::new(EreErrorKind::BadEscape, at))
}

/// Whether a `\` makes the byte stand for itself.
fn is_escapable(byte: u8) -> bool
    ensures { result ≡ is_escapable byte }
{
    is_punct(byte) && byte != b'<' && byte != b'>' && byte != b'`' && byte != b'\''
}

fn is_digit_at(text: &[u8], at: usize) -> bool
    ensures { result ≡ digit_ahead (drop at text.now) }
{
    at < text.len() && is_digit(text[at])
}

/// The interval whose `{` is at `at`: its least and greatest count, and the offset after its `}`.
fn interval_at(text: &[u8], at: usize) -> Result<(u8, Option<u8>, usize), EreError>
    requires begins { at < length text.now }
    requires digit { IsTrue (digit_ahead (drop (at + 1) text.now)) }
    ensures ok { IfOk result (λ r. SpellsInterval (drop (at + 1) text.now) (drop r.2 text.now) r.0 r.1) }
    ensures after { IfOk result (λ r. (at < r.2) × (r.2 ≤ length text.now)) }
    ensures err { IfErr result (λ e. (rest : List ℕ) (least : ℕ) (greatest : Option ℕ) → SpellsInterval (drop (at + 1) text.now) rest least greatest → ⊥) }
{
    let fault = EreError::new(EreErrorKind::BadInterval, at);
    let (low, comma) = count_at(text, at + 1);
    let Some(least) = low else {
        return Err(fault);
    };
    if stands_at(text, comma, b'}') {
        return Ok((least, Some(least), comma + 1));
    }
    if !stands_at(text, comma, b',') {
        return Err(fault);
    }
    if stands_at(text, comma + 1, b'}') {
        return Ok((least, None, comma + 2));
    }
    let (high, end) = count_at(text, comma + 1);
    let Some(most) = high else {
        return Err(fault);
    };
    if least > most || !stands_at(text, end, b'}') {
        return Err(fault);
    }
    Ok((least, Some(most), end + 1))
}

/// The count that the decimal digits from `start` on spell, if there are any and it is at most 255, and
/// the offset after them.
fn count_at(text: &[u8], start: usize) -> (Option<u8>, usize)
    requires { start ≤ length text.now }
    ensures count { ReadsCount (drop start text.now) (drop result.1 text.now) result.0 }
    ensures after { (start ≤ result.1) × (result.1 ≤ length text.now) }
{
    let mut value: u16 = 0;
    let mut at = start;
    while is_digit_at(text, at) {
        value = (value * 10 + u16::from(text[at] - b'0')).min(256);
        at += 1;
    }
    if at == start || value > 255 {
        return (None, at);
    }
    (Some(value as u8), at)
}
