//! Words, and the numbers that they spell.

ghost use Rattle.std.specs.Prelude.{◌≡◌, ◌≤◌, ◌^◌, ℕ, IsTrue, MatchOption, ◌↔◌, length, ◌<◌, min};
ghost use Rattle.std.specs.List.{AllPass, position_or_len};
ghost use Rattle.ere.specs.Classes.{is_digit};
ghost use Rattle.ere.specs.Tokens.{decimal_value};
ghost use Rattle.request.specs.Settings.{SpellsNumber};
ghost use Rattle.request.specs.Words.{after_word, first_word, is_space};

/// Every number of an option is below this one.
const TOO_LARGE: u64 = 4_294_967_296;

/// A text cut after its first word.
#[derive(Clone, Copy, Debug)]
pub struct CutWord<'t> {
    /// The word.
    pub word: &'t [u8],
    /// What is after the space behind the word. It is empty if there is no space.
    pub after: &'t [u8],
}

/// Cuts a text after its first word, which ends at the first space or at the text's end.
pub fn cut_word(text: &[u8]) -> CutWord<'_>
    ensures word { result.word.now ≡ first_word text.now }
    ensures after { result.after.now ≡ after_word text.now }
{
    let at = space_at(text);
    if at == text.len() {
        return CutWord {
            word: text,
            after: &text[at..],
        };
    }
    CutWord {
        word: &text[..at],
        after: &text[at + 1..],
    }
}

/// Where the first space of a text is, or the length of the text if it has none.
fn space_at(text: &[u8]) -> usize
    ensures place { result ≡ position_or_len is_space text.now }
    ensures within { result ≤ length text.now }
{
    for at in 0..text.len() {
        if text[at] == b' ' {
            return at;
        }
    }
    text.len()
}

/// The number that a word of decimal digits spells, if it is one from `least` to `greatest`, both included. `None` for
/// any other word.
pub fn number_in(word: &[u8], least: u32, greatest: u32) -> Option<u32>
    ensures { MatchOption result ((n : ℕ) → SpellsNumber word.now n → least ≤ n → n ≤ greatest → ⊥)
        (λ n. SpellsNumber word.now n × (least ≤ n) × (n ≤ greatest)) }
{
    if !is_number(word) {
        return None;
    }
    let number = capped_number(word);
    if u64::from(least) <= number && number <= u64::from(greatest) {
        Some(number as u32)
    } else {
        None
    }
}

/// Whether a word is one or more decimal digits.
fn is_number(word: &[u8]) -> bool
    ensures { IsTrue result ↔ ((0 < length word.now) × AllPass is_digit word.now) }
{
    !word.is_empty() && word.iter().all(|b| b.is_ascii_digit())
}

/// The number that decimal digits spell, or 2^32 if it is greater.
fn capped_number(digits: &[u8]) -> u64
    ensures { result ≡ min (decimal_value digits.now) (2 ^ 32) }
{
    let mut number: u64 = 0;
    for digit in digits {
        number = (number * 10 + u64::from(digit.saturating_sub(b'0'))).min(TOO_LARGE);
    }
    number
}
