//! Segments of bodies that are in no segment yet.

ghost use Rattle.std.specs.Prelude.{◌≡◌, ◌+◌, ◌^◌, ◌<◌, ◌≤◌, IfOk, None, length, replicate, All};
ghost use denote.Param.Send.{IsSync};
ghost use Rattle.versions.specs.Private.Fresh.{unnamed, ArePlaces, SetsPlace, AreAnalysed, NumbersTell, IsContentOf, AddsContent, entry_at};

use crate::sets::Sets;
use names::Content;
use query::trigrams_of;
use segments::{Analysed, Builder, Marks, Segment};
use std::alloc::{AllocError, Global};
use std::thread::{Threads, join};

/// A part that is analysed in a thread of its own has at least so many bytes of bodies. To start a thread and to wait for it takes as
/// long as to analyse some hundredth of that.
const PART: usize = 131_072;

/// So many bytes are analysed at once, which takes some five times as much memory beside: more in parts, one after the other, each of
/// which becomes a segment. Merges would have the more to do the less this is.
const AT_ONCE: usize = 16_777_216;

/// Bodies of so many bytes together are analysed by marks. To make them takes as long as to analyse some tenth of that.
const MANY: usize = 262_144;

/// Segments of those of these contents whose numbers are `first` and the following ones, so many: one for each of up to
/// `threads` threads. An `Err` means that memory ran out.
pub(crate) fn fresh_sets<R: Threads + Sync>(
    rt: &R,
    alloc: Global,
    threads: usize,
    contents: &[&Content],
    first: usize,
    count: usize,
) -> Result<Sets, AllocError>
    requires few { first + count ≤ 2 ^ 32 }
    requires tell { NumbersTell (unnamed contents.now) }
    ensures { IfOk result (λ sets. AreAnalysed first (first + count) (unnamed contents.now) sets) }
{
    let places = places(alloc, contents, first, count)?;
    let parts = (bytes_of(contents, &places) / PART)
        .min(threads)
        .min(contents.len());
    sets_of(rt, alloc, parts, contents, first, &places)
}

/// Segments of the contents at these places, by rising numbers, in so many parts. The places are halved by their bytes at each step,
/// and the front half goes to a new thread.
#[cycle(sets_of)]
fn sets_of<R: Threads + Sync>(
    rt: &R,
    alloc: Global,
    parts: usize,
    contents: &[&Content],
    first: usize,
    places: &[Option<usize>],
) -> Result<Sets, AllocError>
    requires few { first + length places.now ≤ 2 ^ 32 }
    requires places { ArePlaces first (length places.now) (unnamed contents.now) (length contents.now) places.now }
    requires tell { NumbersTell (unnamed contents.now) }
    ensures { IfOk result (λ sets. AreAnalysed first (first + length places.now) (unnamed contents.now) sets) }
{
    if parts < 2 {
        return segments_of(alloc, contents, first, places);
    }
    let low = parts / 2;
    let high = parts - low;
    let at = places_with(contents, places, bytes_of(contents, places) / parts * low);
    let (front, back) = halves(contents, first, places, at);
    let one = move || -> Result<Sets, AllocError>
        requires { IsSync R.row × (first + length front.now ≤ 2 ^ 32) × ArePlaces first (length front.now) (unnamed contents.now) (length contents.now) front.now × NumbersTell (unnamed contents.now) }
        ensures { IfOk result (λ sets. AreAnalysed first (first + length front.entry.now) (unnamed contents.entry.now) sets) }
    { sets_of(rt, alloc, low, contents, first, front) };
    let next = first + at;
    let other = move || -> Result<Sets, AllocError>
        requires { IsSync R.row × (next + length back.now ≤ 2 ^ 32) × ArePlaces next (length back.now) (unnamed contents.now) (length contents.now) back.now × NumbersTell (unnamed contents.now) }
        ensures { IfOk result (λ sets. AreAnalysed next (next + length back.entry.now) (unnamed contents.entry.now) sets) }
    { sets_of(rt, alloc, high, contents, next, back) };
    let (found, rest) = join(rt, one, other);
    found?.joined(rest?)
}

/// Segments of the contents at these places, by rising numbers, one after the other. There is one if they are not too many bytes and
/// memory suffices. Otherwise the places are halved.
#[cycle(segments_of)]
fn segments_of(
    alloc: Global,
    contents: &[&Content],
    first: usize,
    places: &[Option<usize>],
) -> Result<Sets, AllocError>
    requires few { first + length places.now ≤ 2 ^ 32 }
    requires places { ArePlaces first (length places.now) (unnamed contents.now) (length contents.now) places.now }
    requires tell { NumbersTell (unnamed contents.now) }
    ensures { IfOk result (λ sets. AreAnalysed first (first + length places.now) (unnamed contents.now) sets) }
{
    if places.len() < 2 {
        return one_segment(alloc, contents, first, places);
    }
    if bytes_of(contents, places) <= AT_ONCE {
        if let Ok(sets) = one_segment(alloc, contents, first, places) {
            return Ok(sets);
        }
    }
    let at = places.len() / 2;
    let (front, back) = halves(contents, first, places, at);
    let found = segments_of(alloc, contents, first, front)?;
    let rest = segments_of(alloc, contents, first + at, back)?;
    found.joined(rest)
}

/// One segment of the contents at these places.
fn one_segment(
    alloc: Global,
    contents: &[&Content],
    first: usize,
    places: &[Option<usize>],
) -> Result<Sets, AllocError>
    requires few { first + length places.now ≤ 2 ^ 32 }
    requires places { ArePlaces first (length places.now) (unnamed contents.now) (length contents.now) places.now }
    requires tell { NumbersTell (unnamed contents.now) }
    ensures { IfOk result (λ sets. AreAnalysed first (first + length places.now) (unnamed contents.now) sets) }
{
    let segment = segment_of(alloc, contents, first, places)?;
    Sets::new(alloc).with(segment)
}

/// The places before this one, and the others.
fn halves<'a>(
    contents: &[&Content],
    first: usize,
    places: &'a [Option<usize>],
    at: usize,
) -> (&'a [Option<usize>], &'a [Option<usize>])
    requires within { at ≤ length places.now }
    requires places { ArePlaces first (length places.now) (unnamed contents.now) (length contents.now) places.now }
    ensures at { length result.0.now ≡ at }
    ensures sum { at + length result.1.now ≡ length places.now }
    ensures front { ArePlaces first (length result.0.now) (unnamed contents.now) (length contents.now) result.0.now }
    ensures back { ArePlaces (first + at) (length result.1.now) (unnamed contents.now) (length contents.now) result.1.now }
{
    let _ = contents;
    let _ = first;
    places.split_at(at)
}

/// For each number from `first` on, so many, the place of a content with it.
fn places(
    alloc: Global,
    contents: &[&Content],
    first: usize,
    count: usize,
) -> Result<Vec<Option<usize>>, AllocError>
    ensures { IfOk result (λ places. ArePlaces first count (unnamed contents.now) (length contents.now) places.items) }
{
    let mut places = no_places(alloc, count)?;
    for place in 0..contents.len() {
        let content = contents[place];
        mark(&mut places, first, content.number as usize, place);
    }
    Ok(places)
}

/// No place for each of so many numbers.
fn no_places(alloc: Global, count: usize) -> Result<Vec<Option<usize>>, AllocError>
    ensures { IfOk result (λ places. places.items ≡ replicate count None) }
{
    let mut places = Vec::with_capacity(alloc, count)?;
    for _number in 0..count {
        places.push(None)?;
    }
    Ok(places)
}

/// Writes the place of a number, if it is one of those that are asked for.
fn mark(places: &mut Vec<Option<usize>>, first: usize, number: usize, place: usize)
    ensures { SetsPlace first number place places.old.items places.new.items }
{
    if number < first {
        return;
    }
    let at = number - first;
    if at < places.len() {
        places[at] = Some(place);
    }
}

/// The bytes of the bodies at these places. No contract depends on it.
fn bytes_of(contents: &[&Content], places: &[Option<usize>]) -> usize {
    let mut bytes: usize = 0;
    for place in places {
        bytes = bytes.saturating_add(bytes_at(contents, *place));
    }
    bytes
}

/// The bytes of the body at a place.
fn bytes_at(contents: &[&Content], place: Option<usize>) -> usize {
    match place {
        Some(place) if place < contents.len() => body_at(contents, place).len(),
        _ => 0,
    }
}

/// The body at a place.
fn body_at<'a>(contents: &[&'a Content], place: usize) -> &'a [u8]
    requires { place < length contents.now }
    ensures { result.now ≡ (entry_at (unnamed contents.now) place).1.held }
{
    let content = contents[place];
    content.held.body().as_bytes()
}

/// How many places, from the first on, have so many bytes together. No contract depends on it.
fn places_with(contents: &[&Content], places: &[Option<usize>], bytes: usize) -> usize
    ensures { result ≤ length places.now }
{
    let mut left = bytes;
    for at in 0..places.len() {
        let size = bytes_at(contents, places[at]);
        if size >= left {
            return at + 1;
        }
        left -= size;
    }
    places.len()
}

/// The segment of the contents at these places, by rising numbers.
fn segment_of(
    alloc: Global,
    contents: &[&Content],
    first: usize,
    places: &[Option<usize>],
) -> Result<Segment, AllocError>
    requires few { first + length places.now ≤ 2 ^ 32 }
    requires places { ArePlaces first (length places.now) (unnamed contents.now) (length contents.now) places.now }
    requires tell { NumbersTell (unnamed contents.now) }
    ensures { IfOk result (λ segment. AreAnalysed first (first + length places.now) (unnamed contents.now) segment) }
{
    let mut marks = marks_for(alloc, bytes_of(contents, places));
    let mut made = Builder::new(alloc);
    for at in 0..places.len() {
        if let Some(place) = places[at] {
            let body = body_at(contents, place);
            made = with_body(alloc, made, &mut marks, (first + at) as u32, body)?;
        }
    }
    made.finish(alloc)
}

/// Marks to analyse so many bytes by. Where these are few, or memory runs out, there are none.
fn marks_for(alloc: Global, bytes: usize) -> Option<Marks> {
    if bytes < MANY {
        return None;
    }
    Marks::new(alloc).ok()
}

/// The contents with one more: the body, with a number above all others. Without marks its trigrams are sorted.
fn with_body(
    alloc: Global,
    made: Builder,
    marks: &mut Option<Marks>,
    number: u32,
    body: &[u8],
) -> Result<Builder, AllocError>
    requires { All (λ c. c.number < number) made }
    ensures { IfOk result (λ more. AddsContent number body.now made more) }
{
    match marks {
        Some(marks) => made.with_body(marks, number, body),
        None => {
            let trigrams = trigrams_of(alloc, body)?;
            made.with_analysed(Analysed {
                number,
                trigrams: trigrams.as_slice(),
            })
        }
    }
}
