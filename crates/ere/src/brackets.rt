//! The reader of bracket expressions (POSIX.1-2017 XBD 9.3.5).

ghost use Rattle.std.specs.Prelude.{◌≡◌, ◌≢◌, ℕ, Bool, true, false, Some, ◌+◌, ◌<◌, ◌≤◌, ◌∷◌, List, IfErr, IfOk, IfSome, IfNone, IsTrue, drop, length};
ghost use Rattle.ere.specs.Brackets.{begins_with, range_ahead, IsCharacterClass, IsRangeEnd, SpellsBracket, SpellsItem, SpellsItems};
ghost use Rattle.ere.specs.ByteSet.{bytes_between};
ghost use Rattle.ere.specs.Classes.{class_named};
ghost use Rattle.ere.specs.Private.Reading.{IsSymbol, opens_with, IsByteOrSymbol, IsSymbolEnd};

use crate::byte_set::ByteSet;
use crate::case::Case;
use crate::classes::class_named;
use crate::error::{EreError, EreErrorKind};
use crate::letters::read_in;

/// Whether this byte is at the offset `at` of the text. From the text's end on there is none.
pub fn stands_at(text: &[u8], at: usize, byte: u8) -> bool
    ensures { result ≡ begins_with byte (drop at text.now) }
{
    at < text.len() && text[at] == byte
}

/// Whether `[` is at `at` and this mark right after it.
fn opens(text: &[u8], at: usize, mark: u8) -> bool
    ensures { result ≡ opens_with mark (drop at text.now) }
{
    stands_at(text, at, b'[') && stands_at(text, at + 1, mark)
}

/// The bracket expression whose `[` is at the offset `opening`: its set, as it is read in the case, and the offset
/// after its `]`.
///
/// An `Err` is the first fault from the left: `BadBracket`, at `opening`, if the expression or a symbol in it has no
/// end; `BadRange`, at the `-`; or `BadClass`, at the `[` of the class or symbol. `EreErrorKind` says when each comes.
pub fn bracket_at(case: Case, text: &[u8], opening: usize) -> Result<(ByteSet, usize), EreError>
    requires { opening < length text.now }
    ensures ok { IfOk result (λ r. SpellsBracket case (drop (opening + 1) text.now) (drop r.1 text.now) r.0) }
    ensures after { IfOk result (λ r. (opening < r.1) × (r.1 ≤ length text.now)) }
    ensures err { IfErr result (λ e. (rest : List ℕ) (members : List Bool) → SpellsBracket case (drop (opening + 1) text.now) rest members → ⊥) }
{
    let start = opening + 1;
    if stands_at(text, start, b'^') {
        let (items, after) = items_at(text, start + 1, opening)?;
        return Ok((read_in(case, items).complement(), after));
    }
    let (items, after) = items_at(text, start, opening)?;
    Ok((read_in(case, items), after))
}

/// One or more items from `start` on and the closing `]`: the union of the items' sets, and the offset after the `]`.
fn items_at(text: &[u8], start: usize, opening: usize) -> Result<(ByteSet, usize), EreError>
    requires { start ≤ length text.now }
    ensures ok { IfOk result (λ r. SpellsItems true (drop start text.now) (93 ∷ drop r.1 text.now) r.0) }
    ensures after { IfOk result (λ r. (start < r.1) × (r.1 ≤ length text.now)) }
    ensures err { IfErr result (λ e. (rest : List ℕ) (members : List Bool) → SpellsItems true (drop start text.now) (93 ∷ rest) members → ⊥) }
{
    let (mut members, mut at) = item_at(text, start, true, opening)?;
    while !stands_at(text, at, b']') {
        let (more, after) = item_at(text, at, false, opening)?;
        members = members.union(&more);
        at = after;
    }
    Ok((members, at + 1))
}

/// The item at `at` of a bracket expression that opens at `opening`: its set, and the offset after it.
fn item_at(
    text: &[u8],
    at: usize,
    first: bool,
    opening: usize,
) -> Result<(ByteSet, usize), EreError>
    requires within { at ≤ length text.now }
    requires no_end { IsTrue (begins_with 93 (drop at text.now)) → IsTrue first }
    ensures ok { IfOk result (λ r. SpellsItem first (drop at text.now) (drop r.1 text.now) r.0) }
    ensures after { IfOk result (λ r. (at < r.1) × (r.1 ≤ length text.now)) }
    ensures err { IfErr result (λ e. (rest : List ℕ) (members : List Bool) → SpellsItem first (drop at text.now) rest members → ⊥) }
{
    if at == text.len() {
        return Err(EreError::new(EreErrorKind::BadBracket, opening));
    }
    if opens(text, at, b':') {
        return class_at(text, at, opening);
    }
    if opens(text, at, b'=') {
        let (byte, after) = symbol_at(text, at, b'=', opening)?;
        return Ok((ByteSet::single(byte), after));
    }
    if text[at] == b'-' && !first {
        return last_dash_at(text, at, opening);
    }
    let (low, after) = byte_or_symbol_at(text, at, opening)?;
    if is_range_ahead(text, after) {
        return range_at(text, low, after, opening);
    }
    Ok((ByteSet::single(low), after))
}

/// The item of a `-` that is not the first item and so must be the last.
fn last_dash_at(text: &[u8], at: usize, opening: usize) -> Result<(ByteSet, usize), EreError>
    requires { IsTrue (begins_with 45 (drop at text.now)) }
    ensures ok { IfOk result (λ r. SpellsItem false (drop at text.now) (drop r.1 text.now) r.0) }
    ensures after { IfOk result (λ r. (at < r.1) × (r.1 ≤ length text.now)) }
    ensures err { IfErr result (λ e. (rest : List ℕ) (members : List Bool) → SpellsItem false (drop at text.now) rest members → ⊥) }
{
    if stands_at(text, at + 1, b']') {
        return Ok((ByteSet::single(b'-'), at + 1));
    }
    if at + 1 == text.len() {
        return Err(EreError::new(EreErrorKind::BadBracket, opening));
    }
    Err(EreError::new(EreErrorKind::BadRange, at))
}

/// Whether a `-` is at `at` and is not last. Such a `-` makes a range of what is before it.
fn is_range_ahead(text: &[u8], at: usize) -> bool
    ensures { result ≡ range_ahead (drop at text.now) }
{
    stands_at(text, at, b'-') && at + 1 < text.len() && text[at + 1] != b']'
}

/// The range from `low`, whose `-` is at `dash`.
fn range_at(text: &[u8], low: u8, dash: usize, opening: usize) -> Result<(ByteSet, usize), EreError>
    requires { IsTrue (range_ahead (drop dash text.now)) }
    ensures ok { IfOk result (λ r. (high : ℕ) × IsRangeEnd (drop (dash + 1) text.now) high (drop r.1 text.now)
        × (low ≤ high) × (r.0 ≡ bytes_between low high)) }
    ensures after { IfOk result (λ r. (dash < r.1) × (r.1 ≤ length text.now)) }
    ensures err { IfErr result (λ e. (high : ℕ) (rest : List ℕ) → IsRangeEnd (drop (dash + 1) text.now) high rest → low ≤ high → ⊥) }
{
    let at = dash + 1;
    if opens(text, at, b':') || opens(text, at, b'=') {
        return Err(EreError::new(EreErrorKind::BadRange, dash));
    }
    let (high, after) = byte_or_symbol_at(text, at, opening)?;
    if high < low {
        return Err(EreError::new(EreErrorKind::BadRange, dash));
    }
    Ok((ByteSet::between(low, high), after))
}

/// The byte at `at`, or that of the collating symbol `[.x.]` there.
fn byte_or_symbol_at(text: &[u8], at: usize, opening: usize) -> Result<(u8, usize), EreError>
    requires { at < length text.now }
    ensures ok { IfOk result (λ r. IsByteOrSymbol (drop at text.now) r.0 (drop r.1 text.now)) }
    ensures after { IfOk result (λ r. (at < r.1) × (r.1 ≤ length text.now)) }
    ensures err { IfErr result (λ e. (x : ℕ) (rest : List ℕ) → IsByteOrSymbol (drop at text.now) x rest → ⊥) }
{
    if opens(text, at, b'.') {
        return symbol_at(text, at, b'.', opening);
    }
    Ok((text[at], at + 1))
}

/// The one byte of the collating symbol (`mark` is `.`) or equivalence class (`=`) at `at`, and the offset after it.
fn symbol_at(text: &[u8], at: usize, mark: u8, opening: usize) -> Result<(u8, usize), EreError>
    requires mark { (mark ≢ 0) × (mark ≢ 93) }
    requires opens { IsTrue (opens_with mark (drop at text.now)) }
    ensures ok { IfOk result (λ r. IsSymbol mark (drop at text.now) r.0 (drop r.1 text.now)) }
    ensures after { IfOk result (λ r. (at < r.1) × (r.1 ≤ length text.now)) }
    ensures err { IfErr result (λ e. (x : ℕ) (rest : List ℕ) → IsSymbol mark (drop at text.now) x rest → ⊥) }
{
    match symbol_end(text, at + 2, mark) {
        None => Err(EreError::new(EreErrorKind::BadBracket, opening)),
        Some(end) if end == at + 3 => Ok((text[at + 2], end + 2)),
        Some(_) => Err(EreError::new(EreErrorKind::BadClass, at)),
    }
}

/// The set of the character class at `at`, and the offset after it.
fn class_at(text: &[u8], at: usize, opening: usize) -> Result<(ByteSet, usize), EreError>
    requires { IsTrue (opens_with 58 (drop at text.now)) }
    ensures ok { IfOk result (λ r. (name : List ℕ) × IsCharacterClass (drop at text.now) name (drop r.1 text.now) × (class_named name ≡ Some r.0)) }
    ensures after { IfOk result (λ r. (at < r.1) × (r.1 ≤ length text.now)) }
    ensures err { IfErr result (λ e. (name rest : List ℕ) (members : List Bool) → IsCharacterClass (drop at text.now) name rest
        → class_named name ≡ Some members → ⊥) }
{
    match symbol_end(text, at + 2, b':') {
        None => Err(EreError::new(EreErrorKind::BadBracket, opening)),
        Some(end) => match class_named(&text[at + 2..end]) {
            Some(members) => Ok((members, end + 2)),
            None => Err(EreError::new(EreErrorKind::BadClass, at)),
        },
    }
}

/// The offset of the first `mark` at or after `start` that is right before a `]`.
fn symbol_end(text: &[u8], start: usize, mark: u8) -> Option<usize>
    requires { mark ≢ 0 }
    ensures found { IfSome result (λ p. (start ≤ p) × (p + 1 < length text.now) × IsSymbolEnd mark text.now p) }
    ensures first { IfSome result (λ p. (k : ℕ) → start ≤ k → k < p → IsSymbolEnd mark text.now k → ⊥) }
    ensures none { IfNone result ((k : ℕ) → start ≤ k → IsSymbolEnd mark text.now k → ⊥) }
{
    for p in start..text.len() {
        if text[p] == mark && stands_at(text, p + 1, b']') {
            return Some(p);
        }
    }
    None
}
