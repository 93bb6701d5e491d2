//! The places of one trigram, in bytes.

ghost use Rattle.std.specs.Prelude.{◌≡◌, ◌≤◌, ◌++◌, IfOk, IfErr, OnOk, filter};
ghost use Rattle.std.specs.List.Sorted.{IsStrictlyIncreasing};
ghost use Rattle.watch.specs.CalledOff.{IsCalledOffOnlyIf};
ghost use Rattle.segments.specs.Contents.{has};
ghost use Rattle.segments.specs.Private.Bits.{is_marked, marked_below};
ghost use Rattle.segments.specs.Private.PlaceBytes.{set_bytes, places_in, AreBelow, IsPlaceBytes};

use crate::bits::{is_marked, push_bits, push_marked, width};
use crate::common::common;
use crate::gaps::{push_gaps, push_numbers};
use std::alloc::{AllocError, Global};
use std::marker::Model;
use watch::{Pace, Unanswered, Watch, ask};

/// So many places are gone through between two looks at the watch.
pub(crate) const PACE: usize = 4096;

/// Adds the bytes of the set of these places, which are below `count`: gaps, or bits where gaps are no fewer bytes.
pub(crate) fn push_set(bytes: &mut Vec<u8>, count: usize, places: &[u32]) -> Result<(), AllocError>
    requires { AreBelow count places.now }
    ensures { OnOk result (bytes.new.items ≡ bytes.old.items ++ set_bytes count places.now) }
{
    let start = bytes.len();
    push_gaps(bytes, places)?;
    if bytes.len() - start < width(count) {
        return Ok(());
    }
    bytes.truncate(start);
    push_bits(bytes, count, places)
}

/// A set of places, as it lies in a table.
///
/// Contracts see it as the list of the places, which rise.
#[derive(Drop)]
pub(crate) struct Places<'a> {
    /// All places are below this.
    count: usize,
    bytes: &'a [u8],
}

impl<'a> Model for Places<'a> {
    ghost use Rattle.std.specs.Prelude.{List, ℕ};
    ghost use Rattle.segments.specs.Private.PlaceBytes.{places_in, IsPlaceBytes};

    ghost Value = { List ℕ };

    ghost view = { λ s. places_in s.count s.bytes.now };

    ghost invariant = { λ s. IsPlaceBytes s.count s.bytes.now };
}

impl<'a> Places<'a> {
    /// The set in these bytes.
    pub(crate) fn new(count: usize, bytes: &'a [u8]) -> Places<'a>
        requires { IsPlaceBytes count bytes.now }
        ensures { result ≡ places_in count bytes.entry.now }
    {
        Places { count, bytes }
    }

    /// How many bytes the set takes. The fewer, the rarer the trigram.
    pub(crate) fn size(&self) -> usize {
        self.bytes.len()
    }

    /// Adds the places to these.
    pub(crate) fn push_to(&self, places: &mut Vec<u32>) -> Result<(), AllocError>
        ensures { OnOk result (places.new.items ≡ places.old.items ++ self.now) }
    {
        if self.bytes.len() < width(self.count) {
            push_numbers(places, self.bytes)
        } else {
            push_marked(places, self.count, self.bytes)
        }
    }

    /// The places, in a list.
    pub(crate) fn list<W: Watch>(
        &self,
        alloc: Global,
        watch: &mut W,
    ) -> Result<Vec<u32>, Unanswered>
        ensures places { IfOk result (λ places. places.items ≡ self.now) }
        ensures called_off { IfErr result (IsCalledOffOnlyIf (W.has_said_no watch.new)) }
    {
        if self.bytes.len() < width(self.count) {
            let mut places = Vec::with_capacity(alloc, self.bytes.len())?;
            push_numbers(&mut places, self.bytes)?;
            return Ok(places);
        }
        all_marked(alloc, self.count, self.bytes, watch)
    }

    /// Those of the places, which rise, that are in the set.
    pub(crate) fn among<W: Watch>(
        &self,
        alloc: Global,
        places: &[u32],
        watch: &mut W,
    ) -> Result<Vec<u32>, Unanswered>
        requires { IsStrictlyIncreasing places.now }
        ensures found { IfOk result (λ found. found.items ≡ filter (has self.now) places.now) }
        ensures called_off { IfErr result (IsCalledOffOnlyIf (W.has_said_no watch.new)) }
    {
        if self.bytes.len() < width(self.count) {
            common(alloc, places, self.bytes, watch)
        } else {
            marked_among(alloc, places, self.bytes, watch)
        }
    }
}

/// The places below `count` whose bits are set.
fn all_marked<W: Watch>(
    alloc: Global,
    count: usize,
    bytes: &[u8],
    watch: &mut W,
) -> Result<Vec<u32>, Unanswered>
    requires { count ≤ 4294967296 }
    ensures places { IfOk result (λ places. places.items ≡ marked_below count bytes.now) }
    ensures called_off { IfErr result (IsCalledOffOnlyIf (W.has_said_no watch.new)) }
{
    let mut pace = Pace::each(PACE);
    let mut places = Vec::with_capacity(alloc, bytes.len())?;
    for place in 0..count {
        pace.look(watch)?;
        if is_marked(bytes, place as u32) {
            places.push(place as u32)?;
        }
    }
    Ok(places)
}

/// Those of the places whose bits are set.
fn marked_among<W: Watch>(
    alloc: Global,
    places: &[u32],
    bytes: &[u8],
    watch: &mut W,
) -> Result<Vec<u32>, Unanswered>
    ensures found { IfOk result (λ found. found.items ≡ filter (is_marked bytes.now) places.now) }
    ensures called_off { IfErr result (IsCalledOffOnlyIf (W.has_said_no watch.new)) }
{
    ask(watch)?;
    let mut pace = Pace::each(PACE);
    let mut found = Vec::with_capacity(alloc, places.len())?;
    for place in places {
        pace.look(watch)?;
        if is_marked(bytes, *place) {
            found.push(*place)?;
        }
    }
    Ok(found)
}
