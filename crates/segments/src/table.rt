//! Sets of places, one for each trigram of a list.

ghost use Rattle.std.specs.Prelude.{◌≡◌, true, ◌<◌, ◌≤◌, ◌++◌, OnOk, length, slice_index};
ghost use Rattle.std.specs.List.{slice_range};
ghost use Rattle.std.specs.List.Sorted.{IsStrictlyIncreasing};
ghost use Rattle.segments.specs.Private.Table.{places_of, trigrams_of, places_in_all, begin_at, sets_from, IsCountedTable, IsSought, IsFirstNotBelow};

use crate::places::Places;
use query::Trigram;
use std::alloc::AllocError;
use std::marker::Model;

/// Sets of places, each with its trigram.
///
/// Contracts see it as the list of its sets, whose trigrams rise.
#[derive(Drop)]
pub(crate) struct Table {
    /// All places are below this.
    count: usize,
    trigrams: Vec<u32>,
    /// For each trigram, where the bytes of its set end.
    ends: Vec<usize>,
    /// The bytes of the first trigram's set, then those of the second one's, and so on.
    bytes: Vec<u8>,
    /// How many places all sets have together, or 2^64 - 1 if they have more.
    pairs: u64,
}

impl Model for Table {
    ghost use Rattle.std.specs.Prelude.{List};
    ghost use Rattle.segments.specs.Private.Table.{PlaceSet, sets_from, IsCountedTable};

    ghost Value = { List PlaceSet };

    ghost view = { λ t. sets_from t.count 0 t.trigrams.items t.ends.items t.bytes.items };

    ghost invariant = { λ t. IsCountedTable t.count t.trigrams.items t.ends.items t.bytes.items t.pairs };
}

impl Table {
    /// The table in these arrays: of places below `count`, the sets' trigrams, where the bytes of each set end, the bytes, and how
    /// many places all sets have together.
    pub(crate) fn new(
        count: usize,
        trigrams: Vec<u32>,
        ends: Vec<usize>,
        bytes: Vec<u8>,
        pairs: u64,
    ) -> Table
        requires { IsCountedTable count trigrams.items ends.items bytes.items pairs }
        ensures { result ≡ sets_from count 0 trigrams.items ends.items bytes.items }
    {
        Table {
            count,
            trigrams,
            ends,
            bytes,
            pairs,
        }
    }

    /// How many places all sets have together, or 2^64 - 1 if they have more.
    pub(crate) fn pairs(&self) -> u64
        ensures { result ≡ places_in_all self.now }
    {
        self.pairs
    }

    /// Adds the trigrams of the sets.
    pub(crate) fn push_trigrams(&self, trigrams: &mut Vec<u32>) -> Result<(), AllocError>
        ensures { OnOk result (trigrams.new.items ≡ trigrams.old.items ++ trigrams_of self.now) }
    {
        trigrams.extend_from_slice(self.trigrams.as_slice())?;
        Ok(())
    }

    /// The places of the trigram's set.
    pub(crate) fn places(&self, trigram: Trigram) -> Places<'_>
        ensures { result ≡ places_of self.now trigram }
    {
        self.places_near(trigram.number(), &mut 0)
    }

    /// The places of the set with this trigram. It is looked for first as the set with the number `next`, which then is that of the set
    /// behind it: so who asks for one trigram after the other in their order has each at once.
    pub(crate) fn places_near(&self, trigram: u32, next: &mut usize) -> Places<'_>
        ensures { result ≡ places_of self.now trigram }
    {
        match sought(self.trigrams.as_slice(), trigram, *next) {
            Ok(place) => {
                *next = place.saturating_add(1);
                Places::new(
                    self.count,
                    part(self.ends.as_slice(), self.bytes.as_slice(), place),
                )
            }
            Err(place) => {
                *next = place;
                Places::new(self.count, &[])
            }
        }
    }
}

/// Where the number is among these, which rise, or where it would be. It is looked for at the first place that is given before others.
fn sought(numbers: &[u32], number: u32, first: usize) -> Result<usize, usize>
    requires { IsStrictlyIncreasing numbers.now }
    ensures { IsSought numbers.now number result }
{
    if !is_there(numbers, number, first) {
        return numbers.binary_search(&number);
    }
    if numbers[first] == number {
        return Ok(first);
    }
    Err(first)
}

/// Whether the number is at this place among these, which rise, or would be.
fn is_there(numbers: &[u32], number: u32, place: usize) -> bool
    requires { IsStrictlyIncreasing numbers.now }
    ensures { result ≡ true → IsFirstNotBelow numbers.now number place }
{
    if place >= numbers.len() || numbers[place] < number {
        return false;
    }
    place == 0 || numbers[place - 1] < number
}

/// The bytes of the set with this number.
fn part<'a>(ends: &[usize], bytes: &'a [u8], number: usize) -> &'a [u8]
    requires number { number < length ends.now }
    requires rise { begin_at 0 ends.now number ≤ slice_index ends.now number }
    requires within { slice_index ends.now number ≤ length bytes.now }
    ensures { result.now ≡ slice_range bytes.entry.now (begin_at 0 ends.now number) (slice_index ends.now number) }
{
    &bytes[begin(ends, number)..ends[number]]
}

/// Where the bytes of the set with this number begin.
fn begin(ends: &[usize], number: usize) -> usize
    requires { number < length ends.now }
    ensures { result ≡ begin_at 0 ends.now number }
{
    if number == 0 { 0 } else { ends[number - 1] }
}
