//! Segments that become one.

ghost use Rattle.std.specs.Prelude.{◌≡◌, ◌≤◌, ◌++◌, IfOk, All};
ghost use Rattle.segments.specs.Contents.{contents_in, AllDiffer};
ghost use Rattle.names.specs.Contents.{contents_of};
ghost use Rattle.versions.specs.Private.Version.{said};
ghost use Rattle.versions.specs.Private.Merging.{KeepsNamed, AreNumbersOf};

use crate::sets::{Sets, shared};
use names::{Content, Names};
use segments::Segment;
use std::alloc::{AllocError, Global};
use std::sync::Arc;

/// So many segments of a class become one.
const FAN: u32 = 8;

/// How many contents without a name may be in the segments beside as many as there are names.
const SPARE: usize = 1_024;

/// How many pairs of a content and a trigram may be in the segments beside two for each byte of a body. A body has no more trigrams than
/// bytes.
const SPARE_PAIRS: u64 = 1_048_576;

/// How many of the last segments are to become one: those of a class and of lower ones, if the class has `FAN`; all, if they have far
/// more contents or trigrams than the names' bodies can have. A class has segments of up to eight times as many contents as the one
/// below. No contract depends on it.
pub(crate) fn due(segments: &[Arc<Segment>], names: &Names) -> usize {
    if has_much_spare(segments, names) {
        return segments.len();
    }
    let (mut due, mut class, mut count) = (0, 0, 0u32);
    for back in 1..=segments.len() {
        let own = class_of(segments[segments.len() - back].len());
        if own > class {
            class = own;
            count = 0;
        }
        if own == class {
            count = count.saturating_add(1);
        }
        if count >= FAN {
            due = back;
        }
    }
    due
}

/// Whether the segments have far more contents than there are names, or far more trigrams than their bodies have bytes.
fn has_much_spare(segments: &[Arc<Segment>], names: &Names) -> bool {
    let (mut contents, mut pairs): (usize, u64) = (0, 0);
    for segment in segments {
        contents = contents.saturating_add(segment.len());
        pairs = pairs.saturating_add(segment.pairs());
    }
    contents > names.len().saturating_mul(2).saturating_add(SPARE)
        || pairs > names.bytes().saturating_mul(2).saturating_add(SPARE_PAIRS)
}

/// The class of a segment with so many contents: one more for eight times as many.
fn class_of(contents: usize) -> u32 {
    (usize::BITS - contents.leading_zeros()) / 3
}

/// These segments, and the others as one, without the contents that no name has. An `Err` means that memory ran out, or that a segment
/// has too many handles.
pub(crate) fn merged(
    alloc: Global,
    old: &[Arc<Segment>],
    new: &[Arc<Segment>],
    names: &Names,
) -> Result<Sets, AllocError>
    requires differ { AllDiffer (said old.now ++ said new.now) }
    ensures { IfOk result (λ sets. KeepsNamed names.now (said old.now ++ said new.now) sets) }
{
    let contents = names.since(least(new))?;
    let kept = numbers_of(alloc, &contents)?;
    let inputs = lent(alloc, new)?;
    let segment = Segment::merge(alloc, inputs.as_slice(), kept.as_slice())?;
    Sets::of(shared(old, alloc)?).with(segment)
}

/// The least number of a content of the segments, if they have any.
fn least(segments: &[Arc<Segment>]) -> u32
    ensures { All (λ c. result ≤ c.number) (said segments.now) }
{
    let mut least = u32::MAX;
    for segment in segments {
        least = least_of(segment, least);
    }
    least
}

/// The least number of the segment's contents, or this one if it is less.
fn least_of(segment: &Segment, other: u32) -> u32
    ensures all { All (λ c. result ≤ c.number) segment.now }
    ensures other { result ≤ other }
{
    let mut least = other;
    let numbers = segment.numbers();
    for at in 0..numbers.len() {
        let number = numbers[at];
        if number < least {
            least = number;
        }
    }
    least
}

/// The segments, lent.
fn lent<'a>(alloc: Global, segments: &'a [Arc<Segment>]) -> Result<Vec<&'a Segment>, AllocError>
    ensures { IfOk result (λ lent. contents_in lent.items ≡ said segments.now) }
{
    let mut lent = Vec::with_capacity(alloc, segments.len())?;
    for segment in segments {
        let one: &Segment = segment;
        lent.push(one)?;
    }
    Ok(lent)
}

/// The numbers of these contents, rising. An `Err` means that memory ran out.
fn numbers_of(alloc: Global, contents: &[&Content]) -> Result<Vec<u32>, AllocError>
    ensures { IfOk result (λ numbers. AreNumbersOf (contents_of contents.now) numbers.items) }
{
    let mut numbers = Vec::with_capacity(alloc, contents.len())?;
    for content in contents {
        numbers.push(content.number)?;
    }
    numbers.sort_unstable();
    numbers.dedup();
    Ok(numbers)
}
