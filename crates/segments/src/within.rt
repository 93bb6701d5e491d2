//! The places among which it is looked: those of a list, or all below a number.

ghost use Rattle.std.specs.Prelude.{◌≡◌, ◌<◌, ◌≤◌, ◌||◌, ℕ, [], IfOk, IfErr, IsTrue, All, length, filter, slice_index_or, false};
ghost use Rattle.std.specs.List.Sorted.{IsStrictlyIncreasing};
ghost use Rattle.watch.specs.CalledOff.{IsCalledOffOnlyIf};
ghost use Rattle.segments.specs.Contents.{has};
ghost use Rattle.segments.specs.Private.Below.{numbers_below};
ghost use Rattle.segments.specs.Private.Table.{places_of};
ghost use Rattle.segments.specs.Private.Selection.{places_within, Fits, Rises};

use crate::places::PACE;
use crate::table::Table;
use query::Trigram;
use std::alloc::Global;
use watch::{Pace, Unanswered, Watch};

/// Whether it is a list of no places.
pub(crate) fn is_none_within(count: usize, within: Option<&[u32]>) -> bool
    ensures { IsTrue result → places_within count within.entry ≡ [] }
{
    match within {
        Some(places) => places.is_empty(),
        None => false,
    }
}

/// All of the places.
pub(crate) fn all_within<W: Watch>(
    alloc: Global,
    count: usize,
    within: Option<&[u32]>,
    watch: &mut W,
) -> Result<Vec<u32>, Unanswered>
    requires { count ≤ 4294967296 }
    ensures all { IfOk result (λ all. all.items ≡ places_within count within.entry) }
    ensures called_off { IfErr result (IsCalledOffOnlyIf (W.has_said_no watch.new)) }
{
    match within {
        Some(places) => Ok(Vec::from_slice(alloc, places)?),
        None => places_below(alloc, count, watch),
    }
}

/// The places from 0 on, so many.
fn places_below<W: Watch>(
    alloc: Global,
    count: usize,
    watch: &mut W,
) -> Result<Vec<u32>, Unanswered>
    requires { count ≤ 4294967296 }
    ensures places { IfOk result (λ places. places.items ≡ numbers_below count) }
    ensures called_off { IfErr result (IsCalledOffOnlyIf (W.has_said_no watch.new)) }
{
    let mut pace = Pace::each(PACE);
    let mut places = Vec::with_capacity(alloc, count)?;
    for place in 0..count {
        pace.look(watch)?;
        places.push(place as u32)?;
    }
    Ok(places)
}

/// Those of the places that have the trigram. Where all are asked for, its set alone is read.
pub(crate) fn those_with<W: Watch>(
    table: &Table,
    alloc: Global,
    trigram: Trigram,
    count: usize,
    within: Option<&[u32]>,
    watch: &mut W,
) -> Result<Vec<u32>, Unanswered>
    requires fits { Fits count table.now }
    requires rises { Rises (places_within count within) }
    ensures found { IfOk result (λ found. found.items ≡ filter (has (places_of table.now trigram)) (places_within count within.entry)) }
    ensures called_off { IfErr result (IsCalledOffOnlyIf (W.has_said_no watch.new)) }
{
    let set = table.places(trigram);
    match within {
        Some(places) => set.among(alloc, places, watch),
        None => set.list(alloc, watch),
    }
}

/// A number above all of the places.
pub(crate) fn end_of(count: usize, within: Option<&[u32]>) -> usize
    requires { Rises (places_within count within) }
    ensures { All (λ p. p < result) (places_within count within.entry) }
{
    match within {
        Some(places) => end_of_list(places),
        None => count,
    }
}

/// A number above all of these.
fn end_of_list(numbers: &[u32]) -> usize
    requires { IsStrictlyIncreasing numbers.now }
    ensures { All (λ n. n < result) numbers.now }
{
    match numbers.last() {
        Some(last) => *last as usize + 1,
        None => 0,
    }
}

/// Marks the places. There is a mark for each.
pub(crate) fn mark(marks: &mut [bool], places: &[u32])
    requires { All (λ p. p < length marks.old) places.now }
    ensures { (p : ℕ) → slice_index_or marks.new p false ≡ (slice_index_or marks.old p false || has places.now p) }
{
    for place in places {
        marks[*place as usize] = true;
    }
}

/// Those of the places that are marked.
pub(crate) fn marked_within<W: Watch>(
    alloc: Global,
    count: usize,
    within: Option<&[u32]>,
    marks: &[bool],
    watch: &mut W,
) -> Result<Vec<u32>, Unanswered>
    requires few { count ≤ 4294967296 }
    requires fit { All (λ p. p < length marks.now) (places_within count within) }
    ensures marked { IfOk result (λ marked. marked.items ≡ filter (λ p. slice_index_or marks.now p false) (places_within count within.entry)) }
    ensures called_off { IfErr result (IsCalledOffOnlyIf (W.has_said_no watch.new)) }
{
    match within {
        Some(places) => marked(alloc, places, marks, watch),
        None => marked_below(alloc, count, marks, watch),
    }
}

/// Those of the places that are marked.
fn marked<W: Watch>(
    alloc: Global,
    places: &[u32],
    marks: &[bool],
    watch: &mut W,
) -> Result<Vec<u32>, Unanswered>
    requires { All (λ p. p < length marks.now) places.now }
    ensures marked { IfOk result (λ marked. marked.items ≡ filter (λ p. slice_index_or marks.now p false) places.now) }
    ensures called_off { IfErr result (IsCalledOffOnlyIf (W.has_said_no watch.new)) }
{
    let mut pace = Pace::each(PACE);
    let mut marked = Vec::new(alloc);
    for place in places {
        pace.look(watch)?;
        if marks[*place as usize] {
            marked.push(*place)?;
        }
    }
    Ok(marked)
}

/// Those of the places below `count` that are marked.
fn marked_below<W: Watch>(
    alloc: Global,
    count: usize,
    marks: &[bool],
    watch: &mut W,
) -> Result<Vec<u32>, Unanswered>
    requires few { count ≤ 4294967296 }
    requires fit { All (λ p. p < length marks.now) (numbers_below count) }
    ensures marked { IfOk result (λ marked. marked.items ≡ filter (λ p. slice_index_or marks.now p false) (numbers_below count)) }
    ensures called_off { IfErr result (IsCalledOffOnlyIf (W.has_said_no watch.new)) }
{
    let mut pace = Pace::each(PACE);
    let mut marked = Vec::new(alloc);
    for place in 0..count {
        pace.look(watch)?;
        if marks[place] {
            marked.push(place as u32)?;
        }
    }
    Ok(marked)
}
