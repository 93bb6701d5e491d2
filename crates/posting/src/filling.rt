//! Many numbers, put into the sets of their trigrams side by side.

ghost use Rattle.std.specs.Prelude.{◌≡◌, ℕ, ◌+◌, ◌≤◌, ◌&&◌, ◌==◌, length, IfOk, OnOk, IsOk};
ghost use denote.Param.Send.{IsSync};
ghost use Rattle.posting.specs.ListValue.{has};
ghost use Rattle.posting.specs.Postings.{is_listed};
ghost use Rattle.posting.specs.Private.Parts.{Grows, Fills, Moves, is_left};

use crate::part::{Part, part_of, place_in_part};
use crate::trigrams::{Trigrams, TrigramsIterator};
use query::Trigram;
use std::alloc::{AllocError, Global};
use std::thread::{Threads, join_mut};

/// How many ranges of trigrams a thread fills one after the other, for all numbers. So the sets of one range stay in its
/// processor's caches.
const RANGES: u32 = 64;

/// How many trigrams a range has.
const RANGE: u32 = 262_144;

/// A number, and the trigrams into whose sets it is to go.
#[derive(Clone, Copy)]
pub struct Entry<'a> {
    /// The number.
    pub number: u32,
    /// The trigrams.
    pub trigrams: &'a Trigrams,
}

/// A number, and those of its trigrams into whose sets it is still to go.
#[derive(Drop)]
pub(crate) struct Left<'a> {
    number: u32,
    trigrams: TrigramsIterator<'a>,
}

/// Puts each number into the sets of its trigrams that are in these parts, of which the first one has the number `first`, in up
/// to `threads` threads, each with a range of the parts. A number that is in a set already stays there.
///
/// An `Err` means that memory ran out. Some numbers may then be in some sets, and others not.
#[cycle(fill_parts)]
pub(crate) fn fill_parts<R: Threads + Sync>(
    rt: &R,
    alloc: Global,
    threads: usize,
    first: usize,
    parts: &mut [Part],
    entries: &[Entry<'_>],
) -> Result<(), AllocError>
    requires { first + length parts.old ≤ 8 }
    ensures grown { Grows first parts.old parts.new (is_listed entries.now) }
    ensures ok { OnOk result (Fills first parts.new (is_listed entries.now)) }
{
    let threads = threads.min(parts.len());
    if threads < 2 {
        return fill_in_turn(alloc, first, parts, entries);
    }
    let low = threads / 2;
    let high = threads - low;
    let at = parts.len() * low / threads;
    let (front, back) = parts.split_at_mut(at);
    let next = first + at;
    let mut below = || -> Result<(), AllocError>
        requires { IsSync R.row × (first + length front.now ≤ 8) }
        ensures grown { Grows first front.entry.now front.exit.now (is_listed entries.entry.now) }
        ensures ok { OnOk result (Fills first front.exit.now (is_listed entries.entry.now)) }
    { fill_parts(rt, alloc, low, first, front, entries) };
    let mut above = || -> Result<(), AllocError>
        requires { IsSync R.row × (next + length back.now ≤ 8) }
        ensures grown { Grows next back.entry.now back.exit.now (is_listed entries.entry.now) }
        ensures ok { OnOk result (Fills next back.exit.now (is_listed entries.entry.now)) }
    { fill_parts(rt, alloc, high, next, back, entries) };
    let (one, other) = join_mut(rt, &mut below, &mut above);
    both(one, other)
}

/// `Ok` if both are.
fn both(one: Result<(), AllocError>, other: Result<(), AllocError>) -> Result<(), AllocError>
    ensures one { OnOk result (IsOk one) }
    ensures other { OnOk result (IsOk other) }
{
    one?;
    other
}

/// Puts each number into the sets of its trigrams that are in these parts, range by range.
fn fill_in_turn(
    alloc: Global,
    first: usize,
    parts: &mut [Part],
    entries: &[Entry<'_>],
) -> Result<(), AllocError>
    ensures grown { Grows first parts.old parts.new (is_listed entries.now) }
    ensures ok { OnOk result (Fills first parts.new (is_listed entries.now)) }
{
    let mut lefts = all_left(alloc, entries)?;
    for range in 1..RANGES {
        lefts = fill_range(first, parts, lefts, range * RANGE)?;
    }
    fill_rest(first, parts, lefts)
}

/// All entries, with all their trigrams.
fn all_left<'a>(alloc: Global, entries: &[Entry<'a>]) -> Result<Vec<Left<'a>>, AllocError>
    ensures { IfOk result (λ lefts. (t n : ℕ) → is_left lefts.items t n ≡ is_listed entries.now t n) }
{
    let mut lefts = Vec::with_capacity(alloc, entries.len())?;
    for at in 0..entries.len() {
        let entry = entries[at];
        lefts.push(Left {
            number: entry.number,
            trigrams: entry.trigrams.iter(),
        })?;
    }
    Ok(lefts)
}

/// Puts each number into the sets of those of its trigrams below the limit that are in these parts. Returns what is left.
fn fill_range<'a>(
    first: usize,
    parts: &mut [Part],
    lefts: Vec<Left<'a>>,
    limit: u32,
) -> Result<Vec<Left<'a>>, AllocError>
    ensures grown { Grows first parts.old parts.new (is_left lefts.entry.items) }
    ensures ok { IfOk result (λ rest. Moves first parts.old parts.new (is_left lefts.entry.items) (is_left rest.items)) }
{
    let mut rest = Vec::with_capacity(*lefts.allocator(), lefts.len())?;
    for left in lefts {
        let left = put_below(first, parts, left, limit)?;
        rest.push(left)?;
    }
    Ok(rest)
}

/// Puts a number into the sets of those of its trigrams below the limit that are in these parts. Returns what is left.
fn put_below<'a>(
    first: usize,
    parts: &mut [Part],
    left: Left<'a>,
    limit: u32,
) -> Result<Left<'a>, AllocError>
    ensures grown { Grows first parts.old parts.new (λ t n. has left.entry.trigrams t && left.entry.number == n) }
    ensures ok { IfOk result
        (λ rest. Moves first parts.old parts.new (λ t n. has left.entry.trigrams t && left.entry.number == n) (λ t n. has rest.trigrams t && rest.number == n)) }
{
    let Left { number, trigrams } = left;
    let mut trigrams = trigrams;
    let mut ahead = trigrams.again();
    while let Some(trigram) = ahead.next() {
        if trigram.number() >= limit {
            return Ok(Left { number, trigrams });
        }
        put(first, parts, trigram, number)?;
        trigrams = ahead.again();
    }
    Ok(Left { number, trigrams })
}

/// Puts each number into the sets of its trigrams that are left and in these parts.
fn fill_rest(first: usize, parts: &mut [Part], lefts: Vec<Left<'_>>) -> Result<(), AllocError>
    ensures grown { Grows first parts.old parts.new (is_left lefts.entry.items) }
    ensures ok { OnOk result (Fills first parts.new (is_left lefts.entry.items)) }
{
    for left in lefts {
        put_all(first, parts, left)?;
    }
    Ok(())
}

/// Puts a number into the sets of its trigrams that are left and in these parts.
fn put_all(first: usize, parts: &mut [Part], left: Left<'_>) -> Result<(), AllocError>
    ensures grown { Grows first parts.old parts.new (λ t n. has left.entry.trigrams t && left.entry.number == n) }
    ensures ok { OnOk result (Fills first parts.new (λ t n. has left.entry.trigrams t && left.entry.number == n)) }
{
    let Left { number, trigrams } = left;
    for trigram in trigrams {
        put(first, parts, trigram, number)?;
    }
    Ok(())
}

/// Puts a number into the set of a trigram, if that is in these parts.
pub(crate) fn put(
    first: usize,
    parts: &mut [Part],
    trigram: Trigram,
    number: u32,
) -> Result<(), AllocError>
    ensures grown { Grows first parts.old parts.new (λ t n. trigram == t && number == n) }
    ensures ok { OnOk result (Fills first parts.new (λ t n. trigram == t && number == n)) }
{
    let part = part_of(trigram);
    if part < first || part - first >= parts.len() {
        return Ok(());
    }
    let part = &mut parts[part - first];
    part.put(place_in_part(trigram), number)
}
