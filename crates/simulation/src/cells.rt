//! Cells: one truth value for each copy of a node, in words of 64 bits.

ghost use Rattle.std.specs.Prelude.{◌≡◌, ℕ, ◌*◌, ◌<◌, ◌≤◌, ◌&&◌, ◌||◌, length};
ghost use Rattle.ere.specs.Bits.{has_bit};
ghost use Rattle.simulation.specs.Pending.{at, room, words_for};

/// How many cells a word holds.
pub(crate) const BITS: usize = 64;

/// How many words of 64 bits the cells of some copies take.
pub(crate) fn words_for(copies: usize) -> usize
    ensures { result ≡ words_for copies }
{
    let whole = copies / BITS;
    if copies % BITS == 0 { whole } else { whole + 1 }
}

/// The word if `held`, and no bit otherwise.
pub(crate) fn word_if(held: bool, word: u64) -> u64
    ensures { (bit : ℕ) → has_bit result bit ≡ (held && has_bit word bit) }
{
    if held { word } else { 0 }
}

/// The bits of either word.
pub(crate) fn either(left: u64, right: u64) -> u64
    ensures { (bit : ℕ) → has_bit result bit ≡ (has_bit left bit || has_bit right bit) }
{
    left | right
}

/// The bits of both words.
pub(crate) fn both(left: u64, right: u64) -> u64
    ensures { (bit : ℕ) → has_bit result bit ≡ (has_bit left bit && has_bit right bit) }
{
    left & right
}

/// Copies all words of `from` to the first words of `to`.
#[inline(always)]
pub(crate) fn copy(from: &[u64], to: &mut [u64])
    requires { length from.now ≤ length to.old }
    ensures { (k : ℕ) → k < room from.now → at to.new k ≡ at from.now k }
{
    // Most nodes have one word.
    if from.len() == 1 {
        to[0] = from[0];
        return;
    }
    for i in 0..from.len() {
        to[i] = from[i];
    }
}

/// Copies the first `words` words if `held`, and clears them otherwise.
#[inline(always)]
pub(crate) fn keep_if(held: bool, from: &[u64], to: &mut [u64], words: usize)
    requires from { words ≤ length from.now }
    requires to { words ≤ length to.old }
    ensures { (k : ℕ) → k < 64 * words → at to.new k ≡ (held && at from.now k) }
{
    if words == 1 {
        to[0] = word_if(held, from[0]);
        return;
    }
    for i in 0..words {
        to[i] = word_if(held, from[i]);
    }
}

/// Sets in the first `words` words the cells that are set in `one`, or in `other` if `too`, and clears the rest of
/// them.
#[inline(always)]
pub(crate) fn either_if(one: &[u64], too: bool, other: &[u64], to: &mut [u64], words: usize)
    requires one { words ≤ length one.now }
    requires other { words ≤ length other.now }
    requires to { words ≤ length to.old }
    ensures { (k : ℕ) → k < 64 * words → at to.new k ≡ (at one.now k || (too && at other.now k)) }
{
    if words == 1 {
        to[0] = either(one[0], word_if(too, other[0]));
        return;
    }
    for i in 0..words {
        to[i] = either(one[i], word_if(too, other[i]));
    }
}

/// Adds the cells in the first `words` words of `more` to those of `to`.
#[inline(always)]
pub(crate) fn add(more: &[u64], to: &mut [u64], words: usize)
    requires more { words ≤ length more.now }
    requires to { words ≤ length to.old }
    ensures { (k : ℕ) → k < 64 * words → at to.new k ≡ (at to.old k || at more.now k) }
{
    if words == 1 {
        to[0] = either(to[0], more[0]);
        return;
    }
    for i in 0..words {
        to[i] = either(to[i], more[i]);
    }
}
