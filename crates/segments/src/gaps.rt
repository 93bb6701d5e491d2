//! Rising numbers as gaps, each number's distance from the one before it.

ghost use Rattle.std.specs.Prelude.{◌≡◌, ℕ, List, ◌<◌, ◌++◌, OnOk, length};
ghost use Rattle.std.specs.List.Sorted.{IsStrictlyIncreasing};
ghost use Rattle.segments.specs.Private.Gaps.{groups, bytes_of, gap_bytes, numbers_after, limit, IsSpelled, IsFirstNumber};

use std::alloc::AllocError;

/// Adds the bytes of these numbers.
pub(crate) fn push_gaps(bytes: &mut Vec<u8>, numbers: &[u32]) -> Result<(), AllocError>
    requires { IsStrictlyIncreasing numbers.now }
    ensures { OnOk result (bytes.new.items ≡ bytes.old.items ++ gap_bytes numbers.now) }
{
    let mut before = 0;
    for number in numbers {
        push_gap(bytes, *number - before)?;
        before = *number;
    }
    Ok(())
}

/// Adds the groups of one distance.
fn push_gap(bytes: &mut Vec<u8>, gap: u32) -> Result<(), AllocError>
    ensures { OnOk result (bytes.new.items ≡ bytes.old.items ++ bytes_of gap) }
{
    let mut rest = gap;
    while rest >= 128 {
        bytes.push((rest % 128 + 128) as u8)?;
        rest /= 128;
    }
    bytes.push(rest as u8)?;
    Ok(())
}

/// Adds the numbers in these bytes.
pub(crate) fn push_numbers(numbers: &mut Vec<u32>, bytes: &[u8]) -> Result<(), AllocError>
    requires { IsSpelled 0 bytes.now }
    ensures { OnOk result (numbers.new.items ≡ numbers.old.items ++ numbers_after 0 bytes.now) }
{
    let mut rest = bytes;
    let mut before = 0;
    while !rest.is_empty() {
        let (number, after) = first_number(rest, before);
        numbers.push(number)?;
        rest = after;
        before = number;
    }
    Ok(())
}

/// The first number in bytes that follow the number `before`, and the bytes after it.
pub(crate) fn first_number(bytes: &[u8], before: u32) -> (u32, &[u8])
    requires spelled { IsSpelled before bytes.now }
    requires some { 0 < length bytes.now }
    ensures { IsFirstNumber before bytes.now result.0 result.1.now }
{
    let (gap, rest) = first_gap(bytes);
    (before + gap, rest)
}

/// The number in the first groups, and the bytes after them.
fn first_gap(bytes: &[u8]) -> (u32, &[u8])
    ensures gap { (more gap : ℕ) (rest : List ℕ) → gap < limit more → gap < 4294967296
        → bytes.now ≡ groups more gap ++ rest → (result.0 ≡ gap) × (result.1.now ≡ rest) }
{
    match bytes.split_first() {
        None => (0, bytes),
        Some((byte, rest)) => {
            let low = *byte as u32;
            if low < 128 {
                return (low, rest);
            }
            let (high, rest) = first_gap(rest);
            (high.wrapping_mul(128).wrapping_add(low - 128), rest)
        }
    }
}
