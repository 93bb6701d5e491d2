//! Sets of positions as words of 64 bits: position k is bit k mod 64 of word k / 64.

ghost use Rattle.std.specs.Prelude.{◌≡◌, ℕ, ◌+◌, ◌-◌, ◌*◌, ◌≤◌, ◌<◌, ◌↔◌, ◌&&◌, ◌||◌, ◌==◌, nat_le, nat_lt, false, not, IsTrue, length, slice_index};
ghost use Rattle.ere.specs.ByteSet.{has};
ghost use Rattle.ere.specs.Bits.{has_bit};
ghost use Rattle.spans.specs.PositionSets.{has_position};
ghost use Rattle.matcher.specs.Private.Bounds.{IsBounded};
ghost use Rattle.matcher.specs.Private.Moving.{passes, arrives, flood, IsPassing, IsPassingFrom};

use ere::ByteSet;
use lines::MAX_LINE;
use std::simd::prelude::*;

/// How many positions a word holds.
pub(crate) const BITS: usize = 64;

/// In a word with at least this many positions, all are looked at together.
const FEW: u32 = 9;

/// How many bytes are looked at together.
const SIXTEEN: usize = 16;

/// How many 64-bit words the positions of a line of `MAX_LINE` bytes need.
pub const WORDS: usize = MAX_LINE / BITS + 1;

/// The positions to which one byte in `members` leads from the positions in `from`.
///
/// Position k is before the line's byte k, counted from 0, and is bit k mod 64 of word k / 64. It is in the
/// result exactly when position k - 1 is in `from` and the byte between the two is in `members`. The line
/// has at most `MAX_LINE` bytes.
pub fn step(members: &ByteSet, line: &[u8], from: &[u64; WORDS]) -> [u64; WORDS]
    requires { length line.now ≤ MAX_LINE }
    ensures { (k : ℕ) → IsTrue (has_position result k)
        ↔ ((1 ≤ k) × (k ≤ length line.now) × IsTrue (has_position from.now (k - 1)) × IsTrue (has members.now (slice_index line.now (k - 1)))) }
{
    let mut to = *from;
    shift(members, line, &mut to, 0, WORDS);
    to
}

/// Moves each position over the byte after it if that byte is in `members`, and drops the others. All positions are
/// in the words from `first` up to but not including `end`. Returns the new `end`.
pub(crate) fn shift<const N: usize>(
    members: &ByteSet,
    line: &[u8],
    words: &mut [u64; N],
    first: usize,
    end: usize,
) -> usize
    requires line { length line.now < 64 * N }
    requires bounds { IsBounded N words.old first end }
    ensures bounded { IsBounded N words.new first result }
    ensures moved { (k : ℕ) → has_position words.new k ≡ arrives members.now line.now words.old k }
{
    let mut carried = 0;
    for i in first..end {
        let passing = followed(words[i], i * BITS, members, line);
        words[i] = moved_up(passing, carried);
        carried = highest(passing);
    }
    if end < N {
        words[end] = carried;
        return end + carried as usize;
    }
    end
}

/// The index of the first nonzero word from `first` up to but not including `end`, or `end` if there is none.
pub(crate) fn first_held<const N: usize>(words: &[u64; N], first: usize, end: usize) -> usize
    requires ordered { first ≤ end }
    requires inside { end ≤ N }
    ensures between { (first ≤ result) × (result ≤ end) }
    ensures none { (i : ℕ) → first ≤ i → i < result → slice_index words.now i ≡ 0 }
{
    for i in first..end {
        if words[i] != 0 {
            return i;
        }
    }
    end
}

/// Adds each position to which any number of bytes in `members` lead from the positions of the words. These are in
/// the words from `first` up to but not including `end`. Returns the new `end`.
pub(crate) fn sweep<const N: usize>(
    members: &ByteSet,
    line: &[u8],
    words: &mut [u64; N],
    first: usize,
    end: usize,
) -> usize
    requires line { length line.now < 64 * N }
    requires bounds { IsBounded N words.old first end }
    ensures bounded { IsBounded N words.new first result }
    ensures moved { (k : ℕ) → has_position words.new k ≡ flood (has_position words.old) (passes members.now line.now) k }
{
    let mut carried = 0;
    for i in first..N {
        if i >= end && carried == 0 {
            return i;
        }
        let word = reached(either(words[i], carried), i * BITS, members, line);
        words[i] = word;
        let comes = leads_on(word, BITS - 1, i * BITS, members, line);
        carried = bit_if(comes);
    }
    N
}

/// The positions of a word that are followed by a byte of the set. `base` is the position of the word's bit 0.
pub(crate) fn followed(word: u64, base: usize, members: &ByteSet, line: &[u8]) -> u64
    requires { base ≤ MAX_LINE }
    ensures { (bit : ℕ) → bit < 64 → has_bit result bit ≡ (has_bit word bit && passes members.now line.now (base + bit)) }
{
    if word.count_ones() < FEW {
        followed_each(word, base, members, line)
    } else {
        both(word, passing(base, members, line))
    }
}

/// The same as `followed`, position by position, which is faster for few positions.
fn followed_each(word: u64, base: usize, members: &ByteSet, line: &[u8]) -> u64
    requires { base ≤ MAX_LINE }
    ensures { (bit : ℕ) → bit < 64 → has_bit result bit ≡ (has_bit word bit && passes members.now line.now (base + bit)) }
{
    let mut rest = word;
    let mut found = 0;
    while rest != 0 {
        let bit = lowest(rest);
        let passes = is_followed(base + bit, members, line);
        found = with_bit_if(found, bit, passes);
        rest = without_bit(rest, bit);
    }
    found
}

/// The positions of a word, and those of the same 64 to which they lead over bytes of the set.
pub(crate) fn reached(word: u64, base: usize, members: &ByteSet, line: &[u8]) -> u64
    requires { base ≤ MAX_LINE }
    ensures { (bit : ℕ) → bit < 64 → has_bit result bit ≡ flood (has_bit word) (λ b. passes members.now line.now (base + b)) bit }
{
    if word == 0 {
        return 0;
    }
    flooded(word, passing(base, members, line))
}

/// Those of the 64 positions from `base` on that are followed by a byte of the set. They are found from the last
/// one down, sixteen at a time.
fn passing(base: usize, members: &ByteSet, line: &[u8]) -> u64
    requires { base ≤ MAX_LINE }
    ensures { (bit : ℕ) → bit < 64 → has_bit result bit ≡ passes members.now line.now (base + bit) }
{
    let end = line.len().saturating_sub(base).min(BITS);
    if end < SIXTEEN {
        return few_passing(base, end, members, line);
    }
    let mut passing = 0;
    let mut from = end;
    while from > 0 {
        // The lowest sixteen can include some that were looked at already.
        let at = from.saturating_sub(SIXTEEN);
        passing = sixteen_passing(passing, at, base, members, line);
        from = at;
    }
    passing
}

/// The same as `passing`, if no position passes from `end` on, counted from `base`.
fn few_passing(base: usize, end: usize, members: &ByteSet, line: &[u8]) -> u64
    requires inside { end ≤ 64 }
    requires in_line { 0 < end → base + end ≤ length line.now }
    requires last { (bit : ℕ) → end + bit < 64 → passes members.now line.now (base + end + bit) ≡ false }
    ensures { IsPassing members.now line.now result base 64 }
{
    let mut passing = 0;
    for bit in (0..end).rev() {
        passing = moved_up(passing, bit_if(members.has(line[base + bit])));
    }
    passing
}

/// The passing positions of a word that were found so far, and those among the sixteen from bit `at` on.
#[inline(always)]
fn sixteen_passing(found: u64, at: usize, base: usize, members: &ByteSet, line: &[u8]) -> u64
    requires inside { at + 16 ≤ 64 }
    requires in_line { base + at + 16 ≤ length line.now }
    ensures { (from : ℕ) → at ≤ from → from ≤ at + 16 → IsPassingFrom members.now line.now found base from → IsPassingFrom members.now line.now result base at }
{
    let held = members.which_of(sixteen_at(line, base + at));
    either(found, moved_to(held, at))
}

/// The sixteen bytes of the line from `at` on.
#[inline(always)]
fn sixteen_at(line: &[u8], at: usize) -> u8x16
    requires { at + 16 ≤ length line.now }
    ensures { (k : ℕ) → k < 16 → slice_index result k ≡ slice_index line.now (at + k) }
{
    u8x16::from_slice(&line[at..])
}

/// Whether the word has the bit and its position is followed by a byte of the set.
fn leads_on(word: u64, bit: usize, base: usize, members: &ByteSet, line: &[u8]) -> bool
    requires base { base ≤ MAX_LINE }
    requires bit { bit < 64 }
    ensures { result ≡ (has_bit word bit && passes members.now line.now (base + bit)) }
{
    has_at(word, bit) && is_followed(base + bit, members, line)
}

/// Whether the position is followed by a byte of the set.
fn is_followed(at: usize, members: &ByteSet, line: &[u8]) -> bool
    ensures { result ≡ passes members.now line.now at }
{
    at < line.len() && members.has(line[at])
}

/// Whether the word has the bit.
fn has_at(word: u64, bit: usize) -> bool
    requires { bit < 64 }
    ensures { result ≡ has_bit word bit }
{
    word >> bit & 1 == 1
}

/// The index of the lowest bit that is set in a word, which is not 0.
fn lowest(word: u64) -> usize
    requires { 0 < word }
    ensures inside { result < 64 }
    ensures held { IsTrue (has_bit word result) }
    ensures none_below { (b : ℕ) → b < result → has_bit word b ≡ false }
{
    word.trailing_zeros() as usize
}

/// The word, with the bit set if `comes` and as it was otherwise.
fn with_bit_if(word: u64, bit: usize, comes: bool) -> u64
    requires { bit < 64 }
    ensures { (b : ℕ) → has_bit result b ≡ (has_bit word b || (comes && b == bit)) }
{
    if comes { word | 1u64 << bit } else { word }
}

/// The word without the bit.
fn without_bit(word: u64, bit: usize) -> u64
    requires { bit < 64 }
    ensures each { (b : ℕ) → b < 64 → has_bit result b ≡ (has_bit word b && not (b == bit)) }
    ensures less { IsTrue (has_bit word bit) → result < word }
{
    word & !(1u64 << bit)
}

/// The word with all bits but this one cleared.
pub(crate) fn only_bit(word: u64, bit: usize) -> u64
    requires { bit < 64 }
    ensures { (b : ℕ) → has_bit result b ≡ (b == bit && has_bit word b) }
{
    word & 1u64 << bit
}

/// The bits from 0 to `last`, both included.
pub(crate) fn through_bit(last: usize) -> u64
    requires { last < 64 }
    ensures { (b : ℕ) → has_bit result b ≡ nat_le b last }
{
    u64::MAX >> 63 - last
}

/// The bits of the word that the other word lacks.
pub(crate) fn without(word: u64, other: u64) -> u64
    ensures { (b : ℕ) → b < 64 → has_bit result b ≡ (has_bit word b && not (has_bit other b)) }
{
    word & !other
}

/// The bits that both words have.
fn both(left: u64, right: u64) -> u64
    ensures { (b : ℕ) → has_bit result b ≡ (has_bit left b && has_bit right b) }
{
    left & right
}

/// The bits of either word.
pub(crate) fn either(left: u64, right: u64) -> u64
    ensures { (b : ℕ) → has_bit result b ≡ (has_bit left b || has_bit right b) }
{
    left | right
}

/// The bits of a word, and those to which they lead over bits that pass: each that passes leads to the next.
///
/// The sum of `passing` and of those of its bits that the word has carries into exactly the places to which the
/// word's bits lead.
fn flooded(word: u64, passing: u64) -> u64
    ensures { (b : ℕ) → b < 64 → has_bit result b ≡ flood (has_bit word) (has_bit passing) b }
{
    word | (word & passing).wrapping_add(passing) ^ passing
}

/// Each bit of the word, moved up by `at`.
fn moved_to(word: u64, at: usize) -> u64
    requires { at < 64 }
    ensures { (b : ℕ) → b < 64 → has_bit result b ≡ (nat_le at b && has_bit word (b - at)) }
{
    word << at
}

/// Each bit of the word moved up by one, with `carried` as the lowest bit.
pub(crate) fn moved_up(word: u64, carried: u64) -> u64
    requires { carried < 2 }
    ensures lowest { has_bit result 0 ≡ has_bit carried 0 }
    ensures others { (b : ℕ) → b < 63 → has_bit result (b + 1) ≡ has_bit word b }
{
    word << 1 | carried
}

/// The highest bit of the word, as 0 or 1.
fn highest(word: u64) -> u64
    ensures is_bit { result < 2 }
    ensures same { has_bit result 0 ≡ has_bit word 63 }
{
    word >> 63
}

/// 1 if `comes`, and 0 otherwise.
fn bit_if(comes: bool) -> u64
    ensures is_bit { result < 2 }
    ensures same { has_bit result 0 ≡ comes }
{
    if comes { 1 } else { 0 }
}

/// `N` copies of the word.
pub(crate) fn every<const N: usize>(word: u64) -> [u64; N]
    ensures whole { length result ≡ N }
    ensures same { (i : ℕ) → i < N → slice_index result i ≡ word }
{
    [word; N]
}
