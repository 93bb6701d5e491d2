//! Operations on sixteen bytes at once.

ghost use Rattle.std.specs.Prelude.{◌≡◌, ℕ, ◌/◌, ◌%◌, ◌^◌, ◌<◌, ◌==◌, nat_lt, if◌then◌else◌, [], ◌∷◌, bit_and, slice_index};
ghost use Rattle.ere.specs.Bits.{has_bit};
ghost use Rattle.ere.specs.Private.Lanes.{HasLanes};

use std::simd::prelude::*;

/// The sixteen bytes of two words, the lowest first.
#[inline(always)]
pub fn bytes_of(low: u64, high: u64) -> u8x16
    ensures { HasLanes result (λ k. slice_index (low ∷ high ∷ []) (k / 8) / 256 ^ (k % 8) % 256) }
{
    u64x2::from_array([low, high]).to_le_bytes()
}

/// For each byte, which of the sixteen bytes of two words has its bit: bits 3 to 6 of the byte, as a number.
#[inline(always)]
pub fn places(bytes: u8x16) -> u8x16
    ensures { HasLanes result (λ k. slice_index bytes k / 8 % 16) }
{
    bytes >> u8x16::splat(3) & u8x16::splat(15)
}

/// The table's byte at each place.
#[inline(always)]
pub fn looked_up(table: u8x16, places: u8x16) -> u8x16
    requires { (k : ℕ) → k < 16 → slice_index places k < 16 }
    ensures { HasLanes result (λ k. slice_index table (slice_index places k)) }
{
    table.swizzle_dyn(places)
}

/// For each byte, its bit in the byte of the word that has it: 2 to the power of the byte's three lowest bits.
#[inline(always)]
pub fn bits_of(bytes: u8x16) -> u8x16
    ensures { HasLanes result (λ k. 2 ^ (slice_index bytes k % 8)) }
{
    let table = u8x16::from_array([1, 2, 4, 8, 16, 32, 64, 128, 1, 2, 4, 8, 16, 32, 64, 128]);
    table.swizzle_dyn(bytes & u8x16::splat(7))
}

/// For each byte, the same lane of `low` if the byte is below 128, and otherwise of `high`.
#[inline(always)]
pub fn halves(bytes: u8x16, low: u8x16, high: u8x16) -> u8x16
    ensures { HasLanes result (λ k. if nat_lt (slice_index bytes k) 128 then slice_index low k else slice_index high k) }
{
    bytes.simd_lt(u8x16::splat(128)).select(low, high)
}

/// Which of sixteen bytes have their bit: bit k is set if byte k has the bit in lane k of `bits`.
#[inline(always)]
pub fn held(bytes: u8x16, bits: u8x16) -> u64
    ensures small { result < 2 ^ 16 }
    ensures each { (k : ℕ) → k < 16 → has_bit result k ≡ (bit_and (slice_index bytes k) (slice_index bits k) == slice_index bits k) }
{
    (bytes & bits).simd_eq(bits).to_bitmask()
}
