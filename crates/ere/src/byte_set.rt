//! Sets of line bytes.

ghost use Rattle.std.specs.Prelude.{◌≡◌, ◌<◌, ◌↔◌, ℕ, Bool, not, ◌&&◌, ◌||◌, ◌==◌, ◌^◌, IsTrue, length, slice_index};
ghost use Rattle.ere.specs.Bits.{has_bit};
ghost use Rattle.ere.specs.ByteSet.{all_line_bytes, bytes_between, complement, empty_set, has, is_line_byte, set_of, single, size_of, union, with_byte};
ghost use Rattle.ere.specs.Private.SetWords.{has_byte};

use crate::sixteen::{bits_of, bytes_of, halves, held, looked_up, places};
use std::marker::Model;
use std::simd::prelude::*;

/// The number of words of a set.
const WORDS: usize = 4;

/// A set of line bytes. A line byte is any byte but 0 and the line feed (10).
///
/// Contracts see it as 256 truth values, one for each byte.
#[derive(Clone, Copy, Debug, PartialEq, Eq)]
pub struct ByteSet {
    // Byte b is bit b mod 64 of word b / 64.
    words: [u64; WORDS],
}

impl Model for ByteSet {
    ghost use Rattle.std.specs.Prelude.{List, Bool};
    ghost use Rattle.ere.specs.Private.SetWords.{values_of, words_of, AreLineBytes};
    ghost use Rattle.ere.specs.Private.SetInverse.{words_of-values_of};

    ghost Value = { List Bool };

    ghost view = { λ s. values_of s.words };

    ghost invariant = { λ s. AreLineBytes s.words };

    ghost inverse = { λ set. record { words = words_of set } };

    ghost inverse_ok = { λ s h i. record { words = words_of-values_of s.words h i } };
}

impl ByteSet {
    /// The set with no byte.
    pub fn empty() -> ByteSet
        ensures { result ≡ empty_set }
    {
        ByteSet { words: [0; WORDS] }
    }

    /// The set of all 254 line bytes.
    pub fn all() -> ByteSet
        ensures { result ≡ all_line_bytes }
    {
        ByteSet::empty().complement()
    }

    /// The set of this byte only; empty if it is not a line byte.
    pub fn single(byte: u8) -> ByteSet
        ensures { result ≡ single byte }
    {
        let mut set = ByteSet::empty();
        if is_line_byte(byte) {
            set.insert(byte);
        }
        set
    }

    /// The line bytes from `low` to `high`, both included; none if `low` is above `high`.
    pub fn between(low: u8, high: u8) -> ByteSet
        ensures { result ≡ bytes_between low high }
    {
        ByteSet::of(|b| low <= b && b <= high)
    }

    /// The line bytes that pass a test.
    pub fn of<F: Fn(u8) -> bool>(test: F) -> ByteSet
        requires { F.IsAlwaysCallable test }
        ensures { (passes : ℕ → Bool) → ((b : ℕ) (r : Bool) → F.post test b r → r ≡ passes b) → result ≡ set_of passes }
    {
        let mut set = ByteSet::empty();
        for i in 0..256usize {
            let byte = i as u8;
            if is_line_byte(byte) && test(byte) {
                set.insert(byte);
            }
        }
        set
    }

    /// The bytes of either set.
    pub fn union(&self, other: &ByteSet) -> ByteSet
        ensures { result ≡ union self.now other.now }
    {
        ByteSet {
            words: of_either(&self.words, &other.words),
        }
    }

    /// The line bytes that are not in the set.
    pub fn complement(&self) -> ByteSet
        ensures { result ≡ complement self.now }
    {
        let others = all_but(&self.words);
        let above = without(&others, 0);
        let words = without(&above, b'\n');
        ByteSet { words }
    }

    /// Whether the byte is in the set.
    pub fn has(&self, byte: u8) -> bool
        ensures { result ≡ has self.now byte }
    {
        holds(&self.words, byte)
    }

    /// Which of sixteen bytes are in the set: bit i is set if byte i is, and bits from 16 on are 0.
    #[inline(always)]
    pub fn which_of(&self, bytes: u8x16) -> u64
        ensures small { result < 2 ^ 16 }
        ensures each { (i : ℕ) → i < 16 → has_bit result i ≡ has self.now (slice_index bytes i) }
    {
        let at = places(bytes);
        let low = looked_up(bytes_of(self.words[0], self.words[1]), at);
        let high = looked_up(bytes_of(self.words[2], self.words[3]), at);
        held(halves(bytes, low, high), bits_of(bytes))
    }

    /// Adds the byte, which is a line byte, to the set.
    pub fn insert(&mut self, byte: u8)
        requires { IsTrue (is_line_byte byte) }
        ensures { self.new ≡ with_byte self.old byte }
    {
        self.words = with(&self.words, byte);
    }

    /// The number of bytes in the set, from 0 to 254.
    pub fn len(&self) -> u16
        ensures { result ≡ size_of self.now }
    {
        let mut count = 0;
        for word in &self.words {
            count += word.count_ones() as u16;
        }
        count
    }

    /// Whether no byte is in the set.
    pub fn is_empty(&self) -> bool
        ensures { IsTrue result ↔ (size_of self.now ≡ 0) }
    {
        self.len() == 0
    }
}

/// Whether the byte can be in a line: any byte but 0 and the line feed (10).
pub fn is_line_byte(byte: u8) -> bool
    ensures { result ≡ is_line_byte byte }
{
    byte != 0 && byte != 10
}

/// Whether the words have the byte.
fn holds(words: &[u64; WORDS], byte: u8) -> bool
    ensures { result ≡ has_byte words.now byte }
{
    words[byte as usize / 64] >> byte % 64 & 1 == 1
}

/// The words with the byte added.
fn with(words: &[u64; WORDS], byte: u8) -> [u64; WORDS]
    ensures whole { length result ≡ WORDS }
    ensures each { (b : ℕ) → has_byte result b ≡ (has_byte words.now b || b == byte) }
{
    let mut more = *words;
    let i = byte as usize / 64;
    more[i] = more[i] | 1u64 << byte % 64;
    more
}

/// The words with the byte removed.
fn without(words: &[u64; WORDS], byte: u8) -> [u64; WORDS]
    ensures whole { length result ≡ WORDS }
    ensures each { (b : ℕ) → has_byte result b ≡ (has_byte words.now b && not (b == byte)) }
{
    let mut fewer = *words;
    let i = byte as usize / 64;
    fewer[i] = fewer[i] & !(1u64 << byte % 64);
    fewer
}

/// The bytes that either has.
fn of_either(left: &[u64; WORDS], right: &[u64; WORDS]) -> [u64; WORDS]
    ensures whole { length result ≡ WORDS }
    ensures each { (b : ℕ) → b < 256 → has_byte result b ≡ (has_byte left.now b || has_byte right.now b) }
{
    let mut words = [0; WORDS];
    for i in 0..WORDS {
        words[i] = left[i] | right[i];
    }
    words
}

/// The bytes that the words do not have, including 0 and the line feed.
fn all_but(others: &[u64; WORDS]) -> [u64; WORDS]
    ensures whole { length result ≡ WORDS }
    ensures each { (b : ℕ) → b < 256 → has_byte result b ≡ not (has_byte others.now b) }
{
    let mut words = [0; WORDS];
    for i in 0..WORDS {
        words[i] = flipped(others[i]);
    }
    words
}

/// The word with each bit flipped.
fn flipped(word: u64) -> u64
    ensures { (bit : ℕ) → bit < 64 → has_bit result bit ≡ not (has_bit word bit) }
{
    !word
}
