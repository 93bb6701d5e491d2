//! The turns of a repeat: one copy of the body for each number of words before it.

ghost use Rattle.std.specs.Prelude.{◌≡◌, ℕ, suc, ◌+◌, ◌-◌, ◌*◌, ◌/◌, ◌<◌, ◌≤◌, ◌↔◌, ◌&&◌, ◌||◌, ◌==◌, ◌⊎◌, nat_le, false, if◌then◌else◌, nat_lt, IsTrue, length, slice_index};
ghost use Rattle.ere.specs.Bits.{has_bit};
ghost use Rattle.simulation.specs.Nodes.{Suffices};
ghost use Rattle.simulation.specs.Pending.{at, room, words_for, AnyTurn, Enters, IsNarrow};
ghost use Rattle.simulation.specs.Private.Words.{repeated, shifted, AnyPart, AnyWithin, IsWithin};

use crate::cells::{BITS, copy, either, keep_if, words_for};
use crate::node::{RepeatCounts, is_gap};

/// What begins in each copy of the body: in the first turn what is entered, in the others what the turn before has
/// read, and in the last turn of an unbounded number what it has read itself. If the body can be empty here, what is
/// entered begins in every turn.
pub(crate) fn begin_turns(
    counts: RepeatCounts,
    gap: bool,
    entered: &[u64],
    read: &[u64],
    out: &mut [u64],
)
    requires some { (0 < counts.copies) × (0 < counts.stride) }
    requires all { counts.all ≡ counts.copies * counts.stride }
    requires stride { IsNarrow counts.stride ⊎ (counts.stride ≡ room entered.now) }
    requires entered { counts.stride ≤ room entered.now }
    requires same { length out.old ≡ length read.now }
    requires out { counts.all ≤ room out.old }
    ensures { (turn k : ℕ) → turn < counts.copies → k < counts.stride → IsTrue (at out.new (turn * counts.stride + k)) ↔ Enters counts gap entered.now read.now turn k }
{
    shift(counts.stride, entered, read, out);
    add_from(counts.unbounded, counts.all - counts.stride, read, out);
    add_repeated(gap, counts.stride, counts.all, entered, out);
}

/// Moves the cells up by the stride, and puts what is entered before them.
fn shift(stride: usize, entered: &[u64], read: &[u64], out: &mut [u64])
    requires some { 0 < stride }
    requires stride { IsNarrow stride ⊎ (stride ≡ room entered.now) }
    requires entered { stride ≤ room entered.now }
    requires same { length out.old ≡ length read.now }
    requires fits { stride ≤ room out.old }
    ensures { (k : ℕ) → k < room out.new → at out.new k ≡ shifted stride entered.now read.now k }
{
    if stride < BITS {
        shift_narrow(stride, entered, read, out);
    } else {
        shift_wide(entered, read, out);
    }
}

/// Does what `shift` does, for a stride of less than a word.
fn shift_narrow(stride: usize, entered: &[u64], read: &[u64], out: &mut [u64])
    requires stride { (0 < stride) × (stride < 64) }
    requires entered { 0 < length entered.now }
    requires same { length out.old ≡ length read.now }
    ensures { (k : ℕ) → k < room out.new → at out.new k ≡ shifted stride entered.now read.now k }
{
    let mut carried = lowest_bits(entered[0], stride);
    for i in 0..out.len() {
        out[i] = moved_in(read[i], carried, stride);
        carried = highest_bits(read[i], stride);
    }
}

/// Does what `shift` does, for a stride of whole words, which are those of what is entered.
fn shift_wide(entered: &[u64], read: &[u64], out: &mut [u64])
    requires fits { length entered.now ≤ length out.old }
    requires same { length out.old ≡ length read.now }
    ensures { (k : ℕ) → k < room out.new → at out.new k ≡ shifted (room entered.now) entered.now read.now k }
{
    copy(entered, out);
    for i in entered.len()..out.len() {
        out[i] = read[i - entered.len()];
    }
}

/// Adds the cells from one on, if `on`.
fn add_from(on: bool, from: usize, more: &[u64], to: &mut [u64])
    requires { length to.old ≡ length more.now }
    ensures { (k : ℕ) → k < room to.new → at to.new k ≡ (at to.old k || (on && (nat_le from k && at more.now k))) }
{
    if !on {
        return;
    }
    for i in from / BITS..to.len() {
        to[i] = either(to[i], word_from(more, i, from));
    }
}

/// The cells of a word from a cell on, which is in the word or before it.
fn word_from(words: &[u64], i: usize, from: usize) -> u64
    requires inside { i < length words.now }
    requires from { from / 64 ≤ i }
    ensures { (b : ℕ) → b < 64 → has_bit result b ≡ (nat_le from (i * 64 + b) && at words.now (i * 64 + b)) }
{
    if i == from / BITS {
        from_bit(words[i], from % BITS)
    } else {
        words[i]
    }
}

/// Adds what is entered to every turn but the first, if `on`.
fn add_repeated(on: bool, stride: usize, all: usize, entered: &[u64], to: &mut [u64])
    requires stride { 0 < stride }
    requires entered { stride ≤ room entered.now }
    requires to { all ≤ room to.old }
    ensures { (k : ℕ) → k < all → at to.new k ≡ (at to.old k || (on && repeated stride entered.now k)) }
{
    if !on {
        return;
    }
    for k in stride..all {
        let held = holds(entered, k % stride);
        set_if(held, to, k);
    }
}

/// What some turn from the lowest on has read.
pub(crate) fn any_turn(counts: RepeatCounts, lowest: usize, read: &[u64], own: &mut [u64])
    requires some { (0 < counts.copies) × (0 < counts.stride) }
    requires all { counts.all ≡ counts.copies * counts.stride }
    requires stride { IsNarrow counts.stride ⊎ (counts.stride ≡ room own.old) }
    requires own { counts.stride ≤ room own.old }
    requires read { counts.all ≤ room read.now }
    ensures { (k : ℕ) → k < counts.stride → IsTrue (at own.new k) ↔ AnyTurn counts lowest read.now k }
{
    if counts.stride < BITS {
        own[0] = any_narrow(counts, lowest, read);
    } else {
        any_wide(counts, lowest, read, own);
    }
}

/// Does what `any_turn` does, for a stride of less than a word.
fn any_narrow(counts: RepeatCounts, lowest: usize, read: &[u64]) -> u64
    requires all { counts.all ≡ counts.copies * counts.stride }
    requires stride { IsNarrow counts.stride }
    requires read { counts.all ≤ room read.now }
    ensures { (k : ℕ) → k < counts.stride → IsTrue (has_bit result k) ↔ AnyTurn counts lowest read.now k }
{
    if lowest >= counts.copies {
        return 0;
    }
    let word = any_word(lowest * counts.stride, counts.all, read);
    folded(word, counts.stride)
}

/// The bits of any word of the cells, from one cell on and before another.
fn any_word(from: usize, to: usize, cells: &[u64]) -> u64
    requires { to ≤ room cells.now }
    ensures { (b : ℕ) → b < 64 → IsTrue (has_bit result b) ↔ AnyWithin from to cells.now b }
{
    let mut found = 0;
    for i in from / BITS..words_for(to) {
        found = either(found, word_within(cells, i, from, to));
    }
    found
}

/// The cells of a word from one cell on and before another. Neither is in another word on its side.
fn word_within(words: &[u64], i: usize, from: usize, to: usize) -> u64
    requires inside { i < length words.now }
    requires from { from / 64 ≤ i }
    requires to { i < words_for to }
    ensures { (b : ℕ) → b < 64 → IsTrue (has_bit result b) ↔ IsWithin from to words.now (i * 64 + b) }
{
    let word = word_from(words, i, from);
    if i == to / BITS {
        lowest_bits(word, to % BITS)
    } else {
        word
    }
}

/// The bits of any of the parts of a word, which are a stride long each.
fn folded(word: u64, stride: usize) -> u64
    requires { IsNarrow stride }
    ensures { (k : ℕ) → k < stride → IsTrue (has_bit result k) ↔ AnyPart word stride k }
{
    let mut found = word;
    let mut width = BITS;
    while width > stride {
        width = width / 2;
        found = either(found, moved_down(found, width));
    }
    found
}

/// Does what `any_turn` does, for a stride of whole words.
fn any_wide(counts: RepeatCounts, lowest: usize, read: &[u64], own: &mut [u64])
    requires all { counts.all ≡ counts.copies * counts.stride }
    requires some { 0 < counts.copies }
    requires stride { counts.stride ≡ room own.old }
    requires read { counts.all ≤ room read.now }
    ensures { (k : ℕ) → k < counts.stride → IsTrue (at own.new k) ↔ AnyTurn counts lowest read.now k }
{
    let words = own.len();
    keep_if(false, read, own, words);
    for turn in lowest..counts.copies {
        add_at(turn * words, read, own);
    }
}

/// Adds the cells from a word on.
fn add_at(from: usize, more: &[u64], to: &mut [u64])
    requires { from + length to.old ≤ length more.now }
    ensures { (k : ℕ) → k < room to.new → at to.new k ≡ (at to.old k || at more.now (64 * from + k)) }
{
    for i in 0..to.len() {
        to[i] = either(to[i], more[from + i]);
    }
}

/// The lowest turn that is enough.
pub(crate) fn lowest_turn(counts: RepeatCounts, line: &[u8], here: usize) -> usize
    ensures { (turn : ℕ) → (result ≤ turn) ↔ Suffices line.now counts (suc turn) here }
{
    if is_gap(counts.gaps, line, here) {
        0
    } else {
        counts.least.saturating_sub(1)
    }
}

/// Whether a cell is set.
fn holds(words: &[u64], k: usize) -> bool
    requires { k < room words.now }
    ensures { result ≡ at words.now k }
{
    words[k / BITS] >> (k % BITS) & 1 == 1
}

/// Sets a cell if `held`.
fn set_if(held: bool, words: &mut [u64], k: usize)
    requires { k < room words.old }
    ensures { (j : ℕ) → at words.new j ≡ (at words.old j || (held && j == k)) }
{
    if held {
        words[k / BITS] = words[k / BITS] | 1u64 << (k % BITS);
    }
}

/// The lowest bits of a word.
pub(crate) fn lowest_bits(word: u64, count: usize) -> u64
    requires { (0 < count) × (count < 64) }
    ensures low { (b : ℕ) → b < count → has_bit result b ≡ has_bit word b }
    ensures high { (b : ℕ) → count ≤ b → has_bit result b ≡ false }
{
    word << (64 - count) >> (64 - count)
}

/// The highest bits of a word, moved down to its lowest.
fn highest_bits(word: u64, count: usize) -> u64
    requires { (0 < count) × (count < 64) }
    ensures low { (b : ℕ) → b < count → has_bit result b ≡ has_bit word (64 - count + b) }
    ensures high { (b : ℕ) → count ≤ b → has_bit result b ≡ false }
{
    word >> (64 - count)
}

/// A word moved up, with other bits before it.
pub(crate) fn moved_in(word: u64, carried: u64, count: usize) -> u64
    requires count { count < 64 }
    requires high { (b : ℕ) → count ≤ b → has_bit carried b ≡ false }
    ensures { (b : ℕ) → b < 64 → has_bit result b ≡ (if nat_lt b count then has_bit carried b else has_bit word (b - count)) }
{
    word << count | carried
}

/// A word moved down.
pub(crate) fn moved_down(word: u64, count: usize) -> u64
    requires { count < 64 }
    ensures { (b : ℕ) → has_bit result b ≡ has_bit word (count + b) }
{
    word >> count
}

/// The bits of a word from one on.
fn from_bit(word: u64, bit: usize) -> u64
    requires { bit < 64 }
    ensures { (b : ℕ) → b < 64 → has_bit result b ≡ (nat_le bit b && has_bit word b) }
{
    word >> bit << bit
}
