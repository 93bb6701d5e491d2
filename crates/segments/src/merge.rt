//! Which contents of several segments stay when these are joined, and where.

ghost use Rattle.std.specs.Prelude.{◌≡◌, ◌≤◌, ◌++◌, IfOk, OnOk, length, filter};
ghost use Rattle.std.specs.List.Sorted.{IsStrictlyIncreasing};
ghost use Rattle.segments.specs.Contents.{has, numbers_of, contents_in};
ghost use Rattle.segments.specs.Private.Joins.{AreTargets, AreKept, IsPlaceAmong, IsWithin};

use crate::segment::Segment;
use std::alloc::{AllocError, Global};

/// Those of the segments' numbers that are to be kept, rising. Both lists of numbers rise.
pub(crate) fn kept_numbers(
    alloc: Global,
    segments: &[&Segment],
    keep: &[u32],
) -> Result<Vec<u32>, AllocError>
    requires { IsStrictlyIncreasing keep.now }
    ensures { IfOk result (λ numbers. AreKept (numbers_of (contents_in segments.now)) keep.now numbers.items) }
{
    let mut numbers = Vec::new(alloc);
    for segment in segments {
        push_kept(&mut numbers, segment.numbers(), keep)?;
    }
    numbers.sort_unstable();
    numbers.dedup();
    Ok(numbers)
}

/// Adds those of the numbers that are to be kept.
fn push_kept(kept: &mut Vec<u32>, numbers: &[u32], keep: &[u32]) -> Result<(), AllocError>
    requires { IsStrictlyIncreasing keep.now }
    ensures { OnOk result (kept.new.items ≡ kept.old.items ++ filter (has keep.now) numbers.now) }
{
    for number in numbers {
        if is_among(keep, *number) {
            kept.push(*number)?;
        }
    }
    Ok(())
}

/// Whether the number is one of these, which rise.
fn is_among(numbers: &[u32], number: u32) -> bool
    requires { IsStrictlyIncreasing numbers.now }
    ensures { result ≡ has numbers.now number }
{
    numbers.binary_search(&number).is_ok()
}

/// For each of the first numbers its place among the others, if it is there. Both lists rise.
pub(crate) fn targets(
    alloc: Global,
    from: &[u32],
    numbers: &[u32],
) -> Result<Vec<Option<u32>>, AllocError>
    requires rising { IsStrictlyIncreasing numbers.now }
    requires few { length numbers.now ≤ 4294967296 }
    ensures { IfOk result (λ targets. AreTargets from.now numbers.now targets.items) }
{
    let mut targets = Vec::with_capacity(alloc, from.len())?;
    for number in from {
        targets.push(place_among(numbers, *number))?;
    }
    Ok(targets)
}

/// The place of the number among these, which rise.
fn place_among(numbers: &[u32], number: u32) -> Option<u32>
    requires rising { IsStrictlyIncreasing numbers.now }
    requires few { length numbers.now ≤ 4294967296 }
    ensures place { IsPlaceAmong numbers.now number result }
    ensures within { IsWithin (length numbers.now) result }
{
    match numbers.binary_search(&number) {
        Ok(place) => Some(place as u32),
        Err(_) => None,
    }
}
