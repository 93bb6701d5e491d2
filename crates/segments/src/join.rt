//! Tables of several segments become one, trigram by trigram.

ghost use Rattle.std.specs.Prelude.{◌≡◌, ◌≤◌, ◌<◌, ◌++◌, ◌∷◌, [], ℕ, IfOk, OnOk, All, length};
ghost use Rattle.std.specs.List.{filter_map};
ghost use Rattle.std.specs.List.Sorted.{IsStrictlyIncreasing};
ghost use Rattle.segments.specs.Contents.{has, numbers_of, contents_in};
ghost use Rattle.segments.specs.Private.PlaceBytes.{AreBelow};
ghost use Rattle.segments.specs.Private.Joins.{AreTargets, AddsPlaces, HasTrigrams, IsWithSet, IsJoined, target_of};

use crate::laying::Laying;
use crate::merge::targets;
use crate::segment::Segment;
use crate::table::Table;
use std::alloc::{AllocError, Global};

/// The table of those contents of the segments that have one of these numbers, by their places among the numbers, which rise.
///
/// An `Err` means that memory ran out.
pub(crate) fn joined(
    alloc: Global,
    segments: &[&Segment],
    numbers: &[u32],
) -> Result<Table, AllocError>
    requires rising { IsStrictlyIncreasing numbers.now }
    requires few { length numbers.now ≤ 4294967296 }
    ensures { IfOk result (IsJoined numbers.now (contents_in segments.now)) }
{
    let targets = all_targets(alloc, segments, numbers)?;
    let trigrams = all_trigrams(alloc, segments)?;
    let mut nexts = Vec::from_elem(alloc, 0, segments.len())?;
    let mut read = Vec::new(alloc);
    let mut places = Vec::new(alloc);
    let mut whole = Laying::new(alloc, numbers.len());
    for trigram in trigrams.as_slice() {
        find_places(
            segments,
            targets.as_slice(),
            *trigram,
            nexts.as_mut_slice(),
            &mut read,
            &mut places,
        )?;
        put_in_order(&mut places);
        whole = with_set(whole, *trigram, places.as_slice())?;
    }
    Ok(whole.finish())
}

/// For each content of the segments its place among the numbers, if it is there. The numbers rise.
fn all_targets(
    alloc: Global,
    segments: &[&Segment],
    numbers: &[u32],
) -> Result<Vec<Option<u32>>, AllocError>
    requires rising { IsStrictlyIncreasing numbers.now }
    requires few { length numbers.now ≤ 4294967296 }
    ensures { IfOk result (λ targets. AreTargets (numbers_of (contents_in segments.now)) numbers.now targets.items) }
{
    let mut all = Vec::new(alloc);
    for segment in segments {
        segment.push_numbers(&mut all)?;
    }
    targets(alloc, all.as_slice(), numbers)
}

/// The trigrams that some content of the segments has, rising.
fn all_trigrams(alloc: Global, segments: &[&Segment]) -> Result<Vec<u32>, AllocError>
    ensures rising { IfOk result (λ trigrams. IsStrictlyIncreasing trigrams.items) }
    ensures all { IfOk result (λ trigrams. HasTrigrams (contents_in segments.now) trigrams.items) }
{
    let mut trigrams = Vec::new(alloc);
    for segment in segments {
        segment.push_trigrams(&mut trigrams)?;
    }
    trigrams.sort_unstable();
    trigrams.dedup();
    Ok(trigrams)
}

/// Puts into `places` the targets of the contents that have the trigram. What `read` has does not matter, nor do `nexts`, one for each
/// segment, by which it is quick for one trigram after the other in their order.
fn find_places(
    segments: &[&Segment],
    targets: &[Option<u32>],
    trigram: u32,
    nexts: &mut [usize],
    read: &mut Vec<u32>,
    places: &mut Vec<u32>,
) -> Result<(), AllocError>
    requires { length targets.now ≡ length (contents_in segments.now) }
    ensures { OnOk result (AddsPlaces trigram targets.now (contents_in segments.now) [] places.new.items) }
{
    places.clear();
    let mut start = 0;
    let mut own: usize = 0;
    for segment in segments {
        let end = start + segment.len();
        let mut next = nexts.get(own).copied().unwrap_or(0);
        segment.push_places(trigram, &targets[start..end], &mut next, read, places)?;
        set_next(nexts, own, next);
        own = own.saturating_add(1);
        start = end;
    }
    Ok(())
}

/// Writes the number of the set that a segment is asked for next.
fn set_next(nexts: &mut [usize], own: usize, next: usize) {
    if own < nexts.len() {
        nexts[own] = next;
    }
}

/// Adds the targets of the places, where there are any.
pub(crate) fn push_targets(
    places: &[u32],
    targets: &[Option<u32>],
    to: &mut Vec<u32>,
) -> Result<(), AllocError>
    requires { All (λ p. p < length targets.now) places.now }
    ensures { OnOk result (to.new.items ≡ to.old.items ++ filter_map (target_of targets.now) places.now) }
{
    for place in places {
        if let Some(target) = targets[*place as usize] {
            to.push(target)?;
        }
    }
    Ok(())
}

/// Puts the places in order, each once.
fn put_in_order(places: &mut Vec<u32>)
    ensures rising { IsStrictlyIncreasing places.new.items }
    ensures same { (p : ℕ) → has places.new.items p ≡ has places.old.items p }
{
    places.sort_unstable();
    places.dedup();
}

/// The same with the set of these places, if there are any. An `Err` means that memory ran out.
fn with_set(laying: Laying, trigram: u32, places: &[u32]) -> Result<Laying, AllocError>
    requires above { All (λ s. s.trigram < trigram) laying.sets }
    requires places { AreBelow laying.count places.now }
    ensures sets { IfOk result (λ more. IsWithSet laying.sets trigram places.now more.sets) }
    ensures count { IfOk result (λ more. more.count ≡ laying.count) }
{
    if places.is_empty() {
        return Ok(laying);
    }
    laying.with(trigram, places)
}
