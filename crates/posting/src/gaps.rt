//! The bytes of a list, read and written. The head of list.rt says what they are.

ghost use Rattle.std.specs.Prelude.{◌≡◌, ℕ, List, ◌+◌, ◌^◌, ◌<◌, ◌≤◌, ◌++◌, All, IfSome, IfNone, IsTrue, length, take, drop};
ghost use Rattle.smallvec.specs.SmallVec.{HasRoomFor};
ghost use Rattle.posting.specs.Stored.{groups, bytes_of};
ghost use Rattle.posting.specs.Private.Gaps.{IsSpelled, IsFirstNumber, IsPassed, IsBlock, IsLastPlace, IsCut, AreSameBytes, IsSeam, IsSameStart, numbers_after, last_of, limit};

use smallvec::SmallVec;

/// How many bytes are examined together: a block.
const BLOCK: usize = 32;

/// How many numbers are gone through one by one before a block is tried again.
const FEW: usize = 16;

/// The first number stored in bytes that follow the number `before`, and the bytes after it.
pub(crate) fn first_number(bytes: &[u8], before: u32) -> (u32, &[u8])
    requires spelled { IsSpelled before bytes.now }
    requires some { 0 < length bytes.now }
    ensures { IsFirstNumber before bytes.now result.0 result.1.now }
{
    let (gap, rest) = first_gap(bytes);
    (before + gap, rest)
}

/// The number in the first groups, and the bytes after them.
fn first_gap(bytes: &[u8]) -> (u32, &[u8])
    ensures gap { (more gap : ℕ) (rest : List ℕ) → gap < limit more → gap < 2 ^ 32
        → bytes.now ≡ groups more gap ++ rest → (result.0 ≡ gap) × (result.1.now ≡ rest) }
{
    match bytes.split_first() {
        None => (0, bytes),
        Some((byte, rest)) => {
            let low = *byte as u32;
            if low < 128 {
                return (low, rest);
            }
            let (high, rest) = first_gap(rest);
            (high.wrapping_mul(128).wrapping_add(low - 128), rest)
        }
    }
}

/// The bytes that start at the first number not below this one, and the number before them. This place is often near,
/// so the first few numbers are gone through one by one.
pub(crate) fn pass(bytes: &[u8], before: u32, number: u32) -> (&[u8], u32)
    requires { IsSpelled before bytes.now }
    ensures passed { IsPassed before bytes.now number result.1 result.0.now }
    ensures next { All (λ n. number ≤ n) (numbers_after result.1 result.0.now) }
{
    let (mut rest, mut at) = pass_few(bytes, before, number);
    while !rest.is_empty() {
        match step(rest, at, number) {
            Some((after, next)) => {
                rest = after;
                at = next;
            }
            None => return (rest, at),
        }
    }
    (rest, at)
}

/// Passes some of the numbers if the first one is below this one: a whole block at once if all of it is below.
fn step(bytes: &[u8], before: u32, number: u32) -> Option<(&[u8], u32)>
    requires spelled { IsSpelled before bytes.now }
    requires some { 0 < length bytes.now }
    ensures some { IfSome result (λ s. IsPassed before bytes.now number s.1 s.0.now × (length s.0.now < length bytes.now)) }
    ensures none { IfNone result (All (λ n. number ≤ n) (numbers_after before bytes.now)) }
{
    let (next, after) = first_number(bytes, before);
    if number <= next {
        return None;
    }
    if let Some(sum) = sum_of_block(bytes) {
        if sum < number.saturating_sub(before) {
            return Some((&bytes[BLOCK..], before + sum));
        }
    }
    Some(pass_few(after, next, number))
}

/// Passes the first numbers below this one, but only a few.
fn pass_few(bytes: &[u8], before: u32, number: u32) -> (&[u8], u32)
    requires { IsSpelled before bytes.now }
    ensures passed { IsPassed before bytes.now number result.1 result.0.now }
    ensures shorter { length result.0.now ≤ length bytes.now }
{
    let mut rest = bytes;
    let mut at = before;
    for _few in 0..FEW {
        if rest.is_empty() {
            return (rest, at);
        }
        let (next, after) = first_number(rest, at);
        if number <= next {
            return (rest, at);
        }
        rest = after;
        at = next;
    }
    (rest, at)
}

/// The bytes that start at the first number not below this one, and the number before them, given the last number of
/// all. This place is looked for from the end that seems nearer.
pub(crate) fn seek(bytes: &[u8], last: u32, number: u32) -> (&[u8], u32)
    requires spelled { IsSpelled 0 bytes.now }
    requires last { last ≡ last_of 0 (numbers_after 0 bytes.now) }
    ensures passed { IsPassed 0 bytes.now number result.1 result.0.now }
    ensures next { All (λ n. number ≤ n) (numbers_after result.1 result.0.now) }
{
    if number > last / 2 {
        pass_back(bytes, last, number)
    } else {
        pass(bytes, 0, number)
    }
}

/// The same, looked for from the end.
fn pass_back(bytes: &[u8], last: u32, number: u32) -> (&[u8], u32)
    requires spelled { IsSpelled 0 bytes.now }
    requires last { last ≡ last_of 0 (numbers_after 0 bytes.now) }
    ensures passed { IsPassed 0 bytes.now number result.1 result.0.now }
    ensures next { All (λ n. number ≤ n) (numbers_after result.1 result.0.now) }
{
    let mut front = bytes;
    let mut at = last;
    while !front.is_empty() {
        match step_back(front, at, number) {
            Some((fewer, before)) => {
                front = fewer;
                at = before;
            }
            None => return (&bytes[front.len()..], at),
        }
    }
    (bytes, at)
}

/// Leaves out some of the last numbers if the last one is not below this one: a whole block at once if none of it is
/// below.
fn step_back(bytes: &[u8], last: u32, number: u32) -> Option<(&[u8], u32)>
    requires spelled { IsSpelled 0 bytes.now }
    requires last { last ≡ last_of 0 (numbers_after 0 bytes.now) }
    requires some { 0 < length bytes.now }
    ensures some { IfSome result (λ s. IsCut bytes.now number s.0.now s.1 × (length s.0.now < length bytes.now)) }
    ensures none { IfNone result (last < number) }
{
    if last < number {
        return None;
    }
    if let Some((front, before)) = cut_block(bytes, last) {
        if number <= before {
            return Some((front, before));
        }
    }
    let (front, before) = cut_number(bytes, last);
    Some(cut_few(front, before, number))
}

/// Leaves out the last numbers that are not below this one, but only a few.
fn cut_few(bytes: &[u8], last: u32, number: u32) -> (&[u8], u32)
    requires spelled { IsSpelled 0 bytes.now }
    requires last { last ≡ last_of 0 (numbers_after 0 bytes.now) }
    ensures cut { IsCut bytes.now number result.0.now result.1 }
    ensures shorter { length result.0.now ≤ length bytes.now }
{
    let mut front = bytes;
    let mut at = last;
    for _few in 0..FEW {
        if front.is_empty() {
            return (front, at);
        }
        if at < number {
            return (front, at);
        }
        let (fewer, before) = cut_number(front, at);
        front = fewer;
        at = before;
    }
    (front, at)
}

/// Leaves out the last number.
fn cut_number(bytes: &[u8], last: u32) -> (&[u8], u32)
    requires spelled { IsSpelled 0 bytes.now }
    requires last { last ≡ last_of 0 (numbers_after 0 bytes.now) }
    requires some { 0 < length bytes.now }
    ensures cut { IsCut bytes.now last result.0.now result.1 }
    ensures shorter { length result.0.now < length bytes.now }
{
    let place = last_place(bytes);
    let (gap, _) = first_gap(&bytes[place..]);
    (&bytes[..place], last - gap)
}

/// Leaves out all but the first byte of the last block, if each byte of the block ends a number. Each byte that is
/// left out is then a whole number.
fn cut_block(bytes: &[u8], last: u32) -> Option<(&[u8], u32)>
    requires spelled { IsSpelled 0 bytes.now }
    requires last { last ≡ last_of 0 (numbers_after 0 bytes.now) }
    ensures { IfSome result (λ s. IsCut bytes.now s.1 s.0.now s.1 × (length s.0.now < length bytes.now)) }
{
    if bytes.len() < BLOCK {
        return None;
    }
    let block = &bytes[bytes.len() - BLOCK..];
    let sum = sum_of_block(block)?;
    let before = last - (sum - block[0] as u32);
    Some((&bytes[..bytes.len() - BLOCK + 1], before))
}

/// Where the last number begins: after the second-to-last byte that ends a number, or at 0 if there is none.
fn last_place(bytes: &[u8]) -> usize
    requires { 0 < length bytes.now }
    ensures { IsLastPlace bytes.now result }
{
    let mut place = bytes.len() - 1;
    while place > 0 {
        if bytes[place - 1] < 128 {
            return place;
        }
        place -= 1;
    }
    0
}

/// Passes numbers with which both lists of bytes begin, each following the number `before`: how many bytes these
/// numbers take, and the last of them, or `before`.
pub(crate) fn pass_same(left: &[u8], right: &[u8], before: u32) -> (usize, u32)
    requires left { IsSpelled before left.now }
    requires right { IsSpelled before right.now }
    ensures { IsSameStart before left.now right.now result.0 result.1 }
{
    let same = same_bytes(left, right, same_blocks(left, right));
    let place = whole_numbers(left, same);
    (place, last_number(&left[..place], before))
}

/// How many bytes at the start are found to be the same, block by block.
fn same_blocks(left: &[u8], right: &[u8]) -> usize
    ensures { AreSameBytes left.now right.now result }
{
    let mut place = 0;
    while is_same_block(left, right, place) {
        place += BLOCK;
    }
    place
}

/// Whether both have a block at this place, and it is the same.
fn is_same_block(left: &[u8], right: &[u8], place: usize) -> bool
    requires { AreSameBytes left.now right.now place }
    ensures { IsTrue result → AreSameBytes left.now right.now (place + 32) }
{
    if left.len() - place < BLOCK || right.len() - place < BLOCK {
        return false;
    }
    let mut most = 0u8;
    for i in place..place + BLOCK {
        most = most.max(left[i].abs_diff(right[i]));
    }
    most == 0
}

/// How many bytes at the start are the same, if at least `from` are.
fn same_bytes(left: &[u8], right: &[u8], from: usize) -> usize
    requires { AreSameBytes left.now right.now from }
    ensures { AreSameBytes left.now right.now result }
{
    let end = left.len().min(right.len());
    let mut place = from;
    while place < end {
        if left[place] != right[place] {
            return place;
        }
        place += 1;
    }
    place
}

/// The last place up to `end` where a number ends, or 0.
fn whole_numbers(bytes: &[u8], end: usize) -> usize
    requires { end ≤ length bytes.now }
    ensures seam { IsSeam bytes.now result }
    ensures within { result ≤ end }
{
    let mut place = end;
    while place > 0 {
        if bytes[place - 1] < 128 {
            return place;
        }
        place -= 1;
    }
    0
}

/// The last number in bytes that follow the number `before`, or `before` if there are none.
fn last_number(bytes: &[u8], before: u32) -> u32
    requires { IsSpelled before bytes.now }
    ensures { result ≡ last_of before (numbers_after before bytes.now) }
{
    let mut at = before;
    // what a byte's lower seven bits count
    let mut unit = 1;
    for byte in bytes {
        let byte = *byte as u32;
        at += unit * (byte % 128);
        if byte < 128 {
            unit = 1;
        } else {
            unit *= 128;
        }
    }
    at
}

/// How many bytes end a number.
pub(crate) fn count(bytes: &[u8]) -> usize
    ensures { result ≡ length (numbers_after 0 bytes.now) }
{
    let mut count = 0;
    for byte in bytes {
        if *byte < 128 {
            count += 1;
        }
    }
    count
}

/// The sum of the bytes of the first block, if each of them ends a number.
fn sum_of_block(bytes: &[u8]) -> Option<u32>
    ensures { IfSome result (λ total. IsBlock bytes.now total) }
{
    if bytes.len() < BLOCK {
        return None;
    }
    let mut total = 0u32;
    let mut most = 0u8;
    for i in 0..BLOCK {
        let byte = bytes[i];
        total += byte as u32;
        most = most.max(byte);
    }
    if most < 128 { Some(total) } else { None }
}

/// Appends a number's groups to the bytes, which have room for five.
pub(crate) fn push_gap(bytes: &mut SmallVec<u8, 16>, gap: u32)
    requires { HasRoomFor bytes.old 5 }
    ensures items { bytes.new.items ≡ bytes.old.items ++ bytes_of gap }
    ensures capacity { bytes.new.capacity ≡ bytes.old.capacity }
{
    let mut rest = gap;
    while rest >= 128 {
        bytes.push_reserved((rest % 128 + 128) as u8);
        rest /= 128;
    }
    bytes.push_reserved(rest as u8);
}

/// Writes a number's groups before the byte at this place. There is room for five.
pub(crate) fn insert_gap(bytes: &mut SmallVec<u8, 16>, at: usize, gap: u32)
    requires room { HasRoomFor bytes.old 5 }
    requires within { at ≤ length bytes.old.items }
    ensures items { bytes.new.items ≡ take at bytes.old.items ++ (bytes_of gap ++ drop at bytes.old.items) }
    ensures capacity { bytes.new.capacity ≡ bytes.old.capacity }
{
    let later = bytes.len() - at;
    let mut rest = gap;
    // one at a time: each `insert` moves all later bytes together, and there are rarely more than two
    while rest >= 128 {
        let place = bytes.len() - later;
        let _has_room = bytes.insert(place, (rest % 128 + 128) as u8);
        rest /= 128;
    }
    let place = bytes.len() - later;
    let _has_room = bytes.insert(place, rest as u8);
}

/// Writes a number's groups in place of the bytes from `from` up to `to`, which are at least as many.
pub(crate) fn replace(bytes: &mut SmallVec<u8, 16>, from: usize, to: usize, gap: u32)
    requires fits { from + length (bytes_of gap) ≤ to }
    requires within { to ≤ length bytes.old.items }
    ensures items { bytes.new.items
        ≡ take from bytes.old.items ++ (bytes_of gap ++ drop to bytes.old.items) }
    ensures len { length bytes.new.items ≤ length bytes.old.items }
    ensures capacity { bytes.new.capacity ≡ bytes.old.capacity }
{
    let end = write_gap(bytes.as_mut_slice(), from, gap);
    // one at a time: each `remove` moves all later bytes together, and there is rarely more than one to remove
    for _place in end..to {
        bytes.remove(end);
    }
}

fn write_gap(bytes: &mut [u8], from: usize, gap: u32) -> usize
    requires { from + length (bytes_of gap) ≤ length bytes.old }
    ensures len { length bytes.new ≡ length bytes.old }
    ensures place { result ≡ from + length (bytes_of gap) }
    ensures bytes { bytes.new ≡ take from bytes.old ++ (bytes_of gap ++ drop result bytes.old) }
{
    let mut place = from;
    let mut left = gap;
    while left >= 128 {
        bytes[place] = (left % 128 + 128) as u8;
        left /= 128;
        place += 1;
    }
    bytes[place] = left as u8;
    place + 1
}
