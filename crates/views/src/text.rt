//! The text of answers.

ghost use Rattle.std.specs.Prelude.{◌≡◌, [], ◌∷◌, ◌++◌, flat_map, IfOk, OnOk, OnErr};
ghost use denote.Param.Send.{IsSync, IsSend};
ghost use Rattle.views.specs.Hits.{hit_of};
ghost use Rattle.views.specs.Text.{after_name, text_of_hit, text_of_hits, Begins};

use crate::places::{Hit, Lines};
use itoa::Buffer;
use std::alloc::{AllocError, Global};
use std::thread::{Threads, join};

/// The lines of an answer are formed in pieces of at most so many bytes, or of one line that is longer.
pub const PIECE: usize = 131_072;

/// The text of these lines, formed in up to `parts` parts, each of `PIECE` bytes or more, in a thread of its own where one can
/// be started. With less than two parts, no thread is started. An `Err` means that memory ran out.
#[cycle(form_lines)]
pub fn form_lines<R: Threads + Sync>(
    rt: &R,
    alloc: Global,
    zero: bool,
    lines: &Lines<'_>,
    parts: usize,
) -> Result<Vec<u8>, AllocError>
    ensures { IfOk result (λ text. text.items ≡ text_of_hits zero lines.now) }
{
    if parts < 2 || lines.count_within(PIECE) == lines.len() {
        let mut whole = Vec::with_capacity(alloc, lines.bytes())?;
        append_lines(&mut whole, zero, lines.again())?;
        return Ok(whole);
    }
    let low = parts / 2;
    let high = parts - low;
    let at = lines.len() / parts * low;
    let (first, others) = lines.split_at(at);
    let (first, others) = (&first, &others);
    let front = move || -> Result<Vec<u8>, AllocError>
        requires { IsSync R.row }
        ensures { IfOk result (λ text. text.items ≡ text_of_hits zero first.entry.now) }
    { form_lines(rt, alloc, zero, first, low) };
    let back = move || -> Result<Vec<u8>, AllocError>
        requires { IsSync R.row }
        ensures { IfOk result (λ text. text.items ≡ text_of_hits zero others.entry.now) }
    { form_lines(rt, alloc, zero, others, high) };
    let (formed, rest) = join(rt, front, back);
    let mut text = formed?;
    let mut rest = rest?;
    text.append(&mut rest)?;
    Ok(text)
}

/// Appends a line for each hit, with a zero byte after the name if `zero`, and otherwise a colon. An `Err` means that memory ran
/// out; it can leave some of the lines in `out`.
pub fn append_lines(out: &mut Vec<u8>, zero: bool, lines: Lines<'_>) -> Result<(), AllocError>
    ensures ok { OnOk result (out.new.items ≡ out.old.items ++ text_of_hits zero lines.entry) }
    ensures err { OnErr result (Begins out.old.items out.new.items) }
{
    for hit in lines {
        append_hit(out, zero, &hit)?;
    }
    Ok(())
}

/// What comes after a name: this byte, or a zero byte in its place.
pub fn after_name(zero: bool, byte: u8) -> u8
    ensures { result ∷ [] ≡ after_name zero byte }
{
    if zero { 0 } else { byte }
}

/// Appends the line of a hit, with a zero byte after the name if `zero`, and otherwise a colon.
///
/// An `Err` means that memory ran out; `out` is then as it was.
#[tactic(auto, unfolding(crate::specs::Text::text_of_hit))]
pub fn append_hit(out: &mut Vec<u8>, zero: bool, hit: &Hit<'_>) -> Result<(), AllocError>
    ensures ok { OnOk result (out.new.items ≡ out.old.items ++ text_of_hit zero (hit_of hit.now)) }
    ensures err { OnErr result (out.new.items ≡ out.old.items) }
{
    let mut line = Buffer::new();
    append_all(
        out,
        &[
            hit.name.as_bytes(),
            [after_name(zero, b':')].as_slice(),
            line.format(hit.line).as_bytes(),
            b":".as_slice(),
            hit.text,
            b"\n".as_slice(),
        ],
    )
}

/// Appends the parts, one after another. An `Err` means that memory ran out; `out` is then as it was.
pub fn append_all(out: &mut Vec<u8>, parts: &[&[u8]]) -> Result<(), AllocError>
    ensures ok { OnOk result (out.new.items ≡ out.old.items ++ flat_map (λ part. part.now) parts.now) }
    ensures err { OnErr result (out.new.items ≡ out.old.items) }
{
    let before = out.len();
    for part in parts {
        if let Err(error) = out.extend_from_slice(part) {
            out.truncate(before);
            return Err(error);
        }
    }
    Ok(())
}
