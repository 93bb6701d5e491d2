//! Lines cut in two at a space, and the numbers in them.

ghost use Rattle.std.specs.Prelude.{◌≡◌, ◌≢◌, ℕ, ◌+◌, ◌<◌, ◌^◌, List, [], ◌∷◌, ◌++◌, length, MatchOption, option_map};
ghost use Rattle.std.specs.Prelude.{min, IsTrue, IsFalse};
ghost use Rattle.ere.specs.Tokens.{decimal_value};
ghost use Rattle.script.specs.Fields.{SpellsSize, fields_of};
ghost use Rattle.script.specs.Items.{is_number, cancelled_number};
ghost use Rattle.script.specs.Private.Cuts.{Cuts, CutsLast, Lacks, shown_fields};

use memchr::{memchr, memrchr};

/// The numbers of searches are below this one.
const SEARCH_NUMBERS: u64 = 4_294_967_296;

/// What is before the first such byte, and what is after it. `None` if the text has no such byte.
pub fn cut_at(byte: u8, text: &[u8]) -> Option<(&[u8], &[u8])>
    ensures { MatchOption result (Lacks byte text.now) (λ parts. Cuts byte text.now parts.0.now parts.1.now) }
{
    let at = memchr(byte, text)?;
    Some((&text[..at], &text[at + 1..]))
}

/// What is before the last such byte, and what is after it. `None` if the text has no such byte.
pub fn cut_at_last(byte: u8, text: &[u8]) -> Option<(&[u8], &[u8])>
    ensures { MatchOption result (Lacks byte text.now) (λ parts. CutsLast byte text.now parts.0.now parts.1.now) }
{
    let at = memrchr(byte, text)?;
    Some((&text[..at], &text[at + 1..]))
}

/// The first field of a line, up to its first space, and what follows that space. `None` in place of the latter if the
/// line has no space.
pub fn cut_at_space(line: &[u8]) -> (&[u8], Option<&[u8]>)
    ensures { fields_of line.now ≡ shown_fields result.0.now (option_map (λ rest. rest.now) result.1) }
{
    match cut_at(b' ', line) {
        Some((first, others)) => (first, Some(others)),
        None => (line, None),
    }
}

/// The number that 1 to 9 decimal digits spell. `None` for any other text.
pub fn size_of(digits: &[u8]) -> Option<u32>
    ensures size { MatchOption result ((size : ℕ) → SpellsSize digits.now size → ⊥) (SpellsSize digits.now) }
{
    if digits.is_empty() || digits.len() > 9 {
        return None;
    }
    let mut size: u32 = 0;
    for digit in digits {
        if !digit.is_ascii_digit() {
            return None;
        }
        size = size * 10 + u32::from(*digit - b'0');
    }
    Some(size)
}

/// The number that one or more decimal digits spell, or 0 if it is 2^32 or more: 0 means a number that no search has.
/// `None` for any other text.
pub fn search_number(digits: &[u8]) -> Option<u32>
    ensures { MatchOption result
        (IsFalse (is_number digits.now))
        (λ search. IsTrue (is_number digits.now) × (search ≡ cancelled_number digits.now)) }
{
    if !is_number(digits) {
        return None;
    }
    let number = capped_number(digits);
    Some(if number < SEARCH_NUMBERS {
        number as u32
    } else {
        0
    })
}

/// Whether a text is one or more decimal digits.
fn is_number(text: &[u8]) -> bool
    ensures { result ≡ is_number text.now }
{
    !text.is_empty() && text.iter().all(|b| b.is_ascii_digit())
}

/// The number that decimal digits spell, or 2^32 if it is greater.
fn capped_number(digits: &[u8]) -> u64
    ensures { result ≡ min (decimal_value digits.now) (2 ^ 32) }
{
    let mut number: u64 = 0;
    for digit in digits {
        number = (number * 10 + u64::from(digit.saturating_sub(b'0'))).min(SEARCH_NUMBERS);
    }
    number
}
