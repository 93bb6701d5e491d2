//! The lines near the hits of one document.

ghost use Rattle.std.specs.Prelude.{◌≡◌, ◌<◌, ◌≤◌, ◌+◌, ◌++◌, ◌∷◌, Bool, List, length, map, IfOk, IfErr, OnOk};
ghost use Rattle.std.specs.List.Sorted.{IsStrictlyIncreasing};
ghost use Rattle.lines.specs.Lines.{lines_of};
ghost use Rattle.watch.specs.CalledOff.{IsCalledOffOnlyIf};
ghost use Rattle.views.specs.Found.{Hit as HitValue};
ghost use Rattle.views.specs.Hits.{hit_of};
ghost use Rattle.views.specs.Text.{text_of_row, text_of_rows};
ghost use Rattle.views.specs.View.{Row, stretches};
ghost use Rattle.views.specs.Private.Near.{Leads, begins_at, gap_before, is_close, row_at, rows_of_line};

use crate::places::{Hit, Lines};
use crate::row::append_near;
use crate::text::{append_all, append_hit};
use documents::SharedDocument;
use memchr::memchr;
use std::alloc::AllocError;
use watch::{Pace, Unanswered, Watch};

/// So many bytes of lines are passed, or of rows appended, between two looks at whether the answer is wanted.
const LOOK: usize = 65_536;

/// Appends the lines that are at most `most` lines before or after one of the hits; returns how many rows these are, with the gaps.
/// `watch` is asked whether the answer is wanted at each 64 KiB that are passed or appended, or more often.
///
/// `CalledOff` is returned only after `watch.wants()` said `false`, and nothing is asked after that. `OutOfMemory` means that memory
/// ran out. After an `Err`, `out` can have some of the rows.
pub fn append_stretches<W: Watch>(
    out: &mut Vec<u8>,
    zero: bool,
    most: u32,
    document: &SharedDocument,
    hits: &Lines<'_>,
    watch: &mut W,
) -> Result<usize, Unanswered>
    requires rising { IsStrictlyIncreasing (map (λ h. h.line) hits.now) }
    ensures rows { IfOk result (λ n. (rows : List Row) × (rows ≡ stretches most hits.now document.now.name document.now.held)
        × (n ≡ length rows) × (out.new.items ≡ out.old.items ++ text_of_rows zero rows)) }
    ensures called_off { IfErr result (IsCalledOffOnlyIf (W.has_said_no watch.new)) }
{
    let mut pace = Pace::each(LOOK);
    let mut rest = document.held.body().as_bytes();
    let mut line: u32 = 1;
    let mut next = 0;
    let mut rows = 0;
    // The hits that this line or a later one can be, and the first line that is near none of those before.
    let mut ahead = hits.again();
    let mut far = pass(&mut ahead, 0, most, 0);
    while !rest.is_empty() {
        let (text, others) = split_line(rest);
        let shown = Hit {
            name: &document.name,
            line,
            text,
        };
        pace.look_after(shown.size(), watch)?;
        rest = others;
        line += 1;
        if !is_close(&ahead, shown.line, most, far) {
            if ahead.is_empty() {
                return Ok(rows);
            }
            continue;
        }
        rows += append_line(out, zero, next, &ahead, &shown)?;
        far = pass(&mut ahead, shown.line, most, far);
        next = line;
    }
    Ok(rows)
}

/// Passes a line: drops the hit that it is, if it is one. Returns the first line that is near none of the hits before the next one.
fn pass(ahead: &mut Lines<'_>, line: u32, most: u32, far: u64) -> u64
    ensures { (hits : List HitValue) → Leads most hits line far ahead.old → Leads most hits (line + 1) result ahead.new }
{
    if !begins_at(ahead, line) {
        return far;
    }
    let _ = ahead.next();
    line as u64 + most as u64 + 1
}

/// Whether a line is near one of the hits before it, which `far` is too far behind, or near the first of those from it on.
fn is_close(ahead: &Lines<'_>, line: u32, most: u32, far: u64) -> bool
    ensures { result ≡ is_close most far ahead.now line }
{
    if (line as u64) < far {
        return true;
    }
    match ahead.get(0) {
        Some(first) => first.line.saturating_sub(line) <= most,
        None => false,
    }
}

/// The first line of a text, without its line feed, and the text after it.
fn split_line(text: &[u8]) -> (&[u8], &[u8])
    requires { 0 < length text.now }
    ensures lines { lines_of text.now ≡ result.0.now ∷ lines_of result.1.now }
    ensures shorter { length result.1.now < length text.now }
{
    match memchr(b'\n', text) {
        Some(end) => (&text[..end], &text[end + 1..]),
        None => (text, &[]),
    }
}

/// Appends the row of a line, with a gap before it unless it is the line `next`; returns how many rows these are. `ahead` are the
/// hits from this line on.
fn append_line(
    out: &mut Vec<u8>,
    zero: bool,
    next: u32,
    ahead: &Lines<'_>,
    line: &Hit<'_>,
) -> Result<usize, AllocError>
    ensures few { IfOk result (λ n. n ≤ 2) }
    ensures rows { IfOk result (λ n. n ≡ length (rows_of_line next ahead.now (hit_of line.now))) }
    ensures text { IfOk result (λ _. (out.new.items ≡ out.old.items ++ text_of_rows zero (rows_of_line next ahead.now (hit_of line.now)))) }
{
    let gaps = append_gap(out, next, line.line)?;
    append_hit_or_near(out, zero, ahead, line)?;
    Ok(gaps + 1)
}

/// Appends a gap, unless the line is the line `next`; returns how many rows this is.
#[tactic(auto, unfolding(crate::specs::Text::text_of_row))]
fn append_gap(out: &mut Vec<u8>, next: u32, line: u32) -> Result<usize, AllocError>
    ensures few { IfOk result (λ n. n ≤ 1) }
    ensures rows { IfOk result (λ n. n ≡ length (gap_before next line)) }
    ensures text { IfOk result (λ _. (zeroed : Bool) → out.new.items ≡ out.old.items ++ text_of_rows zeroed (gap_before next line)) }
{
    if line == next {
        return Ok(0);
    }
    append_all(out, &[b"--\n".as_slice()])?;
    Ok(1)
}

/// Appends the row of a line. `ahead` are the hits from this line on.
#[tactic(auto, unfolding(crate::specs::Text::text_of_row))]
fn append_hit_or_near(
    out: &mut Vec<u8>,
    zero: bool,
    ahead: &Lines<'_>,
    line: &Hit<'_>,
) -> Result<(), AllocError>
    ensures { OnOk result (out.new.items ≡ out.old.items ++ text_of_row zero (row_at ahead.now (hit_of line.now))) }
{
    if begins_at(ahead, line.line) {
        append_hit(out, zero, line)
    } else {
        append_near(out, zero, line)
    }
}

/// Whether the first of the hits is this line.
fn begins_at(hits: &Lines<'_>, line: u32) -> bool
    ensures { result ≡ begins_at hits.now line }
{
    match hits.get(0) {
        Some(first) => first.line == line,
        None => false,
    }
}
