//! Marks for trigrams, by which the trigrams of a body are found without sorting.

ghost use Rattle.std.specs.Prelude.{◌≡◌, ◌+◌, ◌<◌, ◌≤◌, ◌&&◌, not, OnOk, IfOk, length, drop, replicate, slice_index};
ghost use Rattle.query.specs.Trigrams.{trigram_of};
ghost use Rattle.query.specs.Private.Feeds.{has_no_line_feed};
ghost use Rattle.segments.specs.declared.marks.TheConstants.{BYTES};
ghost use Rattle.segments.specs.Private.Bits.{is_marked};
ghost use Rattle.segments.specs.Private.Keyed.{AddsBody};
ghost use Rattle.segments.specs.Private.Marked.{AreClear, AreMarksOf, MarksToo, AddsMarked};

use crate::bits::is_marked;
use crate::keys::{key_of, trigram_in};
use query::Trigram;
use std::alloc::{AllocError, Global};
use std::marker::Model;

/// The byte that ends a line.
const LINE_FEED: u32 = b'\n' as u32;

/// So many bytes have a bit for each trigram.
const BYTES: usize = 2_097_152;

/// A mark for each trigram that there is, in 2 MiB. They are made once, and lent to each body that is added to a segment.
///
/// Contracts see them as their bytes. Between two calls none is set.
#[derive(Drop)]
pub struct Marks {
    bytes: Vec<u8>,
}

impl Model for Marks {
    ghost use Rattle.std.specs.Prelude.{List, ℕ};
    ghost use Rattle.segments.specs.Private.Marked.{AreClear};

    ghost Value = { List ℕ };

    ghost view = { λ m. m.bytes.items };

    ghost invariant = { λ m. AreClear m.bytes.items };
}

impl Marks {
    /// Marks, of which none is set. An `Err` means that memory ran out.
    pub fn new(alloc: Global) -> Result<Marks, AllocError>
        ensures { IfOk result AreClear }
    {
        let bytes = no_marks(alloc, BYTES)?;
        Ok(Marks { bytes })
    }

    /// Adds the keys of the body's trigrams with this place, each once. An `Err` means that memory ran out.
    pub(crate) fn push_trigrams(
        &mut self,
        keys: &mut Vec<u64>,
        place: u32,
        body: &[u8],
    ) -> Result<(), AllocError>
        ensures { OnOk result (AddsBody body.now place keys.old.items keys.new.items) }
    {
        push_and_clear(&mut self.bytes, keys, place, body)
    }
}

/// So many zeros.
fn no_marks(alloc: Global, count: usize) -> Result<Vec<u8>, AllocError>
    ensures { IfOk result (λ marks. marks.items ≡ replicate count 0) }
{
    vec![in alloc; 0; count]
}

/// Adds the keys of the body's trigrams, each once. The marks are clear before and after that, also after an `Err`.
fn push_and_clear(
    marks: &mut Vec<u8>,
    keys: &mut Vec<u64>,
    place: u32,
    body: &[u8],
) -> Result<(), AllocError>
    requires { AreClear marks.old.items }
    ensures adds { OnOk result (AddsBody body.now place keys.old.items keys.new.items) }
    ensures clear { AreClear marks.new.items }
{
    let start = keys.len();
    match push_new(marks, keys, place, body) {
        Ok(()) => {
            clear_those(marks, keys.as_slice(), start);
            Ok(())
        }
        Err(error) => {
            clear_all(marks);
            Err(error)
        }
    }
}

/// Adds the keys of the body's trigrams, and marks these.
fn push_new(
    marks: &mut Vec<u8>,
    keys: &mut Vec<u64>,
    place: u32,
    body: &[u8],
) -> Result<(), AllocError>
    requires { AreClear marks.old.items }
    ensures adds { OnOk result (AddsMarked body.now place keys.old.items keys.new.items marks.new.items) }
    ensures whole { length marks.new.items ≡ BYTES }
{
    for i in 0..body.len().saturating_sub(2) {
        let trigram = trigram_at(body, i);
        if is_new(marks.as_slice(), trigram) {
            keys.push(key_of(trigram, place))?;
            mark(marks, trigram);
        }
    }
    Ok(())
}

/// The number of the three bytes that start at this place.
fn trigram_at(body: &[u8], place: usize) -> u32
    requires { place + 2 < length body.now }
    ensures is { result ≡ trigram_of (slice_index body.now place) (slice_index body.now (place + 1)) (slice_index body.now (place + 2)) }
    ensures small { result < 16777216 }
{
    Trigram::of([body[place], body[place + 1], body[place + 2]]).number()
}

/// Whether the trigram is not marked yet and has no line feed.
fn is_new(marks: &[u8], trigram: u32) -> bool
    ensures { result ≡ (not (is_marked marks.now trigram) && has_no_line_feed trigram) }
{
    !is_marked(marks, trigram) && has_no_line_feed(trigram)
}

/// Whether none of its three bytes is a line feed.
fn has_no_line_feed(trigram: u32) -> bool
    ensures { result ≡ has_no_line_feed trigram }
{
    trigram / 65536 != LINE_FEED && trigram / 256 % 256 != LINE_FEED && trigram % 256 != LINE_FEED
}

/// Marks the trigram.
fn mark(marks: &mut Vec<u8>, trigram: u32)
    requires whole { length marks.old.items ≡ BYTES }
    requires small { trigram < 16777216 }
    ensures { MarksToo marks.old.items trigram marks.new.items }
{
    let byte = trigram as usize / 8;
    marks[byte] = marks[byte] | 1u8 << trigram % 8;
}

/// Clears the bytes in which the trigrams of the keys from `start` on are marked.
fn clear_those(marks: &mut Vec<u8>, keys: &[u64], start: usize)
    requires within { start ≤ length keys.now }
    requires marks { AreMarksOf (drop start keys.now) marks.old.items }
    ensures { AreClear marks.new.items }
{
    for i in start..keys.len() {
        marks[trigram_in(keys[i]) as usize / 8] = 0;
    }
}

/// Clears all marks.
fn clear_all(marks: &mut Vec<u8>)
    requires { length marks.old.items ≡ BYTES }
    ensures { AreClear marks.new.items }
{
    for byte in 0..BYTES {
        marks[byte] = 0;
    }
}
