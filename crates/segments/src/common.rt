//! What a rising list and a set in gaps have in common.

ghost use Rattle.std.specs.Prelude.{◌≡◌, ◌<◌, ◌≤◌, ◌↔◌, ℕ, IfOk, IfErr, IsTrue, length, filter, slice_index};
ghost use Rattle.std.specs.List.Sorted.{IsStrictlyIncreasing};
ghost use Rattle.watch.specs.CalledOff.{IsCalledOffOnlyIf};
ghost use Rattle.segments.specs.Contents.{has};
ghost use Rattle.segments.specs.Private.Gaps.{numbers_after, IsSpelled};
ghost use Rattle.segments.specs.Private.Selection.{IsReached};

use crate::gaps::first_number;
use crate::places::PACE;
use std::alloc::Global;
use watch::{Pace, Unanswered, Watch, ask};

/// So many places are passed at once.
const BLOCK: usize = 32;

/// Those of the places that are among the numbers in these bytes. The bytes are read once, beside the places, as far as there are places.
pub(crate) fn common<W: Watch>(
    alloc: Global,
    places: &[u32],
    bytes: &[u8],
    watch: &mut W,
) -> Result<Vec<u32>, Unanswered>
    requires rising { IsStrictlyIncreasing places.now }
    requires spelled { IsSpelled 0 bytes.now }
    ensures common { IfOk result (λ common. common.items ≡ filter (has (numbers_after 0 bytes.now)) places.now) }
    ensures called_off { IfErr result (IsCalledOffOnlyIf (W.has_said_no watch.new)) }
{
    ask(watch)?;
    let mut pace = Pace::each(PACE);
    let mut found = Vec::with_capacity(alloc, places.len())?;
    let mut rest = bytes;
    let mut before = 0;
    let mut at = 0;
    while at < places.len() && !rest.is_empty() {
        let (number, after) = first_number(rest, before);
        let next = reach(places, at, number);
        pace.look_after(1 + (next - at) / BLOCK, watch)?;
        if is_at(places, next, number) {
            found.push(number)?;
        }
        rest = after;
        before = number;
        at = next;
    }
    Ok(found)
}

/// Whether the number is at this place.
fn is_at(numbers: &[u32], place: usize, number: u32) -> bool
    ensures { IsTrue result ↔ (place < length numbers.now) × (slice_index numbers.now place ≡ number) }
{
    place < numbers.len() && numbers[place] == number
}

/// The first place from `from` on with a number that is not below this one. Those before `from` are below it.
fn reach(numbers: &[u32], from: usize, number: u32) -> usize
    requires rising { IsStrictlyIncreasing numbers.now }
    requires within { from ≤ length numbers.now }
    requires below { (k : ℕ) → k < from → slice_index numbers.now k < number }
    ensures reached { IsReached numbers.now number result }
    ensures from { from ≤ result }
{
    let mut at = from;
    while at + BLOCK < numbers.len() && numbers[at + BLOCK] < number {
        at += BLOCK;
    }
    while at < numbers.len() && numbers[at] < number {
        at += 1;
    }
    at
}
