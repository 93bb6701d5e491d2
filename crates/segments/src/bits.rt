//! Places as bits, one for each place below a number.

ghost use Rattle.std.specs.Prelude.{◌≡◌, ◌<◌, ◌≤◌, ◌+◌, ◌*◌, ◌++◌, ◌↔◌, OnOk, IsTrue, length, slice_index};
ghost use Rattle.std.specs.List.Sorted.{IsStrictlyIncreasing};
ghost use Rattle.segments.specs.Private.Bits.{width, byte_with, bit_bytes, is_marked, marked_below, IsSplit};

use std::alloc::AllocError;

/// How many bytes have a bit for each place below `count`.
pub(crate) fn width(count: usize) -> usize
    requires { count ≤ 4294967296 }
    ensures { result ≡ width count }
{
    (count + 7) / 8
}

/// Adds the bits of these places.
pub(crate) fn push_bits(bytes: &mut Vec<u8>, count: usize, places: &[u32]) -> Result<(), AllocError>
    requires few { count ≤ 4294967296 }
    requires rising { IsStrictlyIncreasing places.now }
    ensures { OnOk result (bytes.new.items ≡ bytes.old.items ++ bit_bytes count places.now) }
{
    let mut at = 0;
    for number in 0..width(count) {
        let (byte, next) = byte_from(places, at, number);
        bytes.push(byte)?;
        at = next;
    }
    Ok(())
}

/// The byte with this number, whose places begin at `from`, and where they end.
fn byte_from(places: &[u32], from: usize, number: usize) -> (u8, usize)
    requires rising { IsStrictlyIncreasing places.now }
    requires few { number ≤ 4294967296 }
    requires from { IsSplit places.now from (8 * number) }
    ensures byte { result.0 ≡ byte_with places.now number }
    ensures next { IsSplit places.now result.1 (8 * number + 8) }
{
    let mut byte = 0u32;
    let mut unit = 1u32;
    let mut at = from;
    for bit in 0..8 {
        if is_place(places, at, 8 * number + bit) {
            byte += unit;
            at += 1;
        }
        unit *= 2;
    }
    (byte as u8, at)
}

/// Whether the place is the one at `at`.
fn is_place(places: &[u32], at: usize, place: usize) -> bool
    ensures { IsTrue result ↔ (at < length places.now) × (slice_index places.now at ≡ place) }
{
    at < places.len() && places[at] as usize == place
}

/// Whether the place's bit is set.
pub(crate) fn is_marked(bytes: &[u8], place: u32) -> bool
    ensures { result ≡ is_marked bytes.now place }
{
    match bytes.get(place as usize / 8) {
        Some(byte) => (*byte >> (place % 8)) % 2 == 1,
        None => false,
    }
}

/// Adds the places below `count` whose bits are set.
pub(crate) fn push_marked(
    places: &mut Vec<u32>,
    count: usize,
    bytes: &[u8],
) -> Result<(), AllocError>
    requires { count ≤ 4294967296 }
    ensures { OnOk result (places.new.items ≡ places.old.items ++ marked_below count bytes.now) }
{
    for place in 0..count {
        if is_marked(bytes, place as u32) {
            places.push(place as u32)?;
        }
    }
    Ok(())
}
