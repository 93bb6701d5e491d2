//! Sets of places as sorted keys, and how they are put into a table.

ghost use Rattle.std.specs.Prelude.{◌≡◌, ◌<◌, ◌≤◌, ◌++◌, IfOk, OnOk, length, map};
ghost use Rattle.std.specs.List.Sorted.{IsStrictlyIncreasing, IsSorted};
ghost use Rattle.std.specs.Ordering.{nat_cmp};
ghost use Rattle.segments.specs.Private.Keys.{key, trigram_in, place_in, AreKeysBelow, Adds, Precedes, IsRun, HasKeys};
ghost use Rattle.segments.specs.Private.Known.{AddsKnown};

use crate::laying::Laying;
use crate::table::Table;
use query::Trigram;
use std::alloc::{AllocError, Global};

/// Adds the keys of the trigrams with this place.
pub(crate) fn push_keys(
    keys: &mut Vec<u64>,
    place: u32,
    trigrams: &[Trigram],
) -> Result<(), AllocError>
    ensures { OnOk result (AddsKnown trigrams.now place keys.old.items keys.new.items) }
{
    for trigram in trigrams {
        keys.push(key_of(trigram.number(), place))?;
    }
    Ok(())
}

/// The table of the sets that have these keys, which are in order and whose places are below `count`.
///
/// An `Err` means that memory ran out.
pub(crate) fn table_of(alloc: Global, count: usize, keys: Vec<u64>) -> Result<Table, AllocError>
    requires below { AreKeysBelow count keys.items }
    requires sorted { IsSorted nat_cmp keys.items }
    ensures { IfOk result (HasKeys keys.items) }
{
    let mut keys = keys;
    // no key is there twice; this says so to the proof
    keys.dedup();
    Ok(lay(alloc, Laying::new(alloc, count), &keys)?.finish())
}

/// What was laid, with the sets of these keys too. They rise, and their trigrams are above those before.
///
/// An `Err` means that memory ran out.
fn lay(alloc: Global, laying: Laying, keys: &[u64]) -> Result<Laying, AllocError>
    requires rising { IsStrictlyIncreasing keys.now }
    requires above { Precedes laying.sets keys.now }
    requires below { AreKeysBelow laying.count keys.now }
    ensures adds { IfOk result (λ whole. Adds laying.sets keys.now (length keys.now) whole.sets) }
    ensures count { IfOk result (λ whole. whole.count ≡ laying.count) }
{
    let mut whole = laying;
    let mut places = Vec::new(alloc);
    let mut start = 0;
    while start < keys.len() {
        let end = end_of_run(keys, start);
        places.clear();
        push_places(&mut places, &keys[start..end])?;
        whole = whole.with(trigram_in(keys[start]), places.as_slice())?;
        start = end;
    }
    Ok(whole)
}

/// Where the keys end that have the same trigram as the one at `start`. The keys rise.
fn end_of_run(keys: &[u64], start: usize) -> usize
    requires { start < length keys.now }
    ensures { IsRun keys.now start result }
{
    let trigram = trigram_in(keys[start]);
    let mut end = start + 1;
    while end < keys.len() && trigram_in(keys[end]) == trigram {
        end += 1;
    }
    end
}

fn push_places(places: &mut Vec<u32>, keys: &[u64]) -> Result<(), AllocError>
    ensures { OnOk result (places.new.items ≡ places.old.items ++ map place_in keys.now) }
{
    for key in keys {
        places.push(place_in(*key))?;
    }
    Ok(())
}

/// A trigram and a place in one.
pub(crate) fn key_of(trigram: u32, place: u32) -> u64
    ensures { result ≡ key trigram place }
{
    4294967296 * trigram as u64 + place as u64
}

pub(crate) fn trigram_in(key: u64) -> u32
    ensures { result ≡ trigram_in key }
{
    (key / 4294967296) as u32
}

fn place_in(key: u64) -> u32
    ensures { result ≡ place_in key }
{
    (key % 4294967296) as u32
}
