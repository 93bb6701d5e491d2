//! Writing transcripts.

ghost use Rattle.std.specs.Prelude.{◌≡◌, ◌≢◌, ◌≤◌, ◌++◌, List, ℕ, length, take, ◌⊎◌, Ok, IfOk, IfErr, OnOk, OnErr, IsErrOf};
ghost use Rattle.std.specs.Io.KnownBytes.{Appends, Keeps};
ghost use Rattle.std.specs.IoError.{error_kind};
ghost use denote.Param.Send.{IsSync};
ghost use Rattle.views.specs.Parts.{text_of_parts};
ghost use Rattle.views.specs.Text.{text_of_hits};
ghost use Rattle.transcript.specs.Heads.{lines_of_entry};
ghost use Rattle.transcript.specs.Transcript.{text_of_entry, text_of_transcript};
ghost use Rattle.transcript.specs.Written.{AppendsFront, AppendsAllBut};

use crate::entry::Entry;
use crate::texts::append_head;
use crate::transcript::Transcript;
use std::alloc::{AllocError, Global};
use std::io::{Error, ErrorKind, Write};
use std::thread::{Threads, join_mut};
use thiserror::Error;
use views::{Lines, PIECE, Passage, PassageText, form_lines};

/// Text is written once there are this many bytes of it.
const PART: usize = 65_536;

/// Why a transcript was not written whole.
#[derive(Debug, Drop, Error)]
pub enum WriteError {
    /// The writer failed.
    #[error("tsearch: cannot write")]
    Failed,
    /// Nobody reads any more what is written.
    #[error("tsearch: cannot write")]
    Closed,
    /// The writer took no byte.
    #[error("tsearch: cannot write")]
    Stopped,
    /// Memory ran out.
    #[error("tsearch: out of memory")]
    OutOfMemory,
}

/// Writes the text of a transcript, entry by entry: the lines of searches and of refusals (their form is this program's
/// choice; `NAME:LINE:TEXT` is grep's form). With `stats` each answer also shows its number of candidates and of
/// documents. The text is written in parts of 65,536 bytes or more, and the rest at the end. Each entry is dropped once
/// its text is written, and with it what an answer shares of its documents. With two or more `threads`, the text of a
/// large answer is formed by so many side by side, where they can be started.
///
/// `Failed` means that the writer failed, `Closed` that nobody reads any more what is written, `Stopped` that the
/// writer took no byte, and `OutOfMemory` that memory ran out for text. After an `Err`, what was written is a beginning
/// of the text.
pub fn write_transcript<R: Threads + Sync, W: Write>(
    rt: &R,
    alloc: Global,
    threads: usize,
    transcript: Transcript,
    stats: bool,
    out: &mut W,
) -> Result<(), WriteError>
    ensures ok { OnOk result (Appends (W.contents out.old) (W.contents out.new) (text_of_transcript stats transcript.entries.items)) }
    ensures err { OnErr result (AppendsFront (W.contents out.old) (W.contents out.new) (text_of_transcript stats transcript.entries.items)) }
{
    let Transcript { entries } = transcript;
    let mut text = Vec::new(alloc);
    for entry in entries {
        if let Err(error) = write_entry(rt, alloc, threads, &entry, stats, &mut text, out) {
            return Err(error);
        }
    }
    write_whole(out, &text)
}

/// Writes the text of an entry, behind that in `text`, which is not written yet. The last bytes, fewer than 65,536, are
/// left in `text`. Of an answer, only two pieces of the text are in memory at a time, besides what was formed with the
/// answer: each of `views::PIECE` bytes or a line for each of `threads`. With two or more of them, the text of a large
/// answer is formed by so many threads side by side, where they can be started, while the piece before is written;
/// otherwise none is started.
///
/// `Failed` means that the writer failed, `Closed` that nobody reads any more what is written, `Stopped` that the
/// writer took no byte, and `OutOfMemory` that memory ran out for text. After an `Err`, what was written is a beginning
/// of both texts, and `text` has any bytes.
pub fn write_entry<R: Threads + Sync, W: Write>(
    rt: &R,
    alloc: Global,
    threads: usize,
    entry: &Entry,
    stats: bool,
    text: &mut Vec<u8>,
    out: &mut W,
) -> Result<(), WriteError>
    ensures ok { OnOk result (AppendsAllBut (W.contents out.old) (W.contents out.new) (text.old.items ++ text_of_entry stats entry.now) text.new.items) }
    ensures err { OnErr result (AppendsFront (W.contents out.old) (W.contents out.new) (text.old.items ++ text_of_entry stats entry.now)) }
{
    match append_head(entry, stats, text) {
        Ok(()) => write_others(rt, alloc, threads, entry, text, out),
        Err(_) => Err(WriteError::OutOfMemory),
    }
}

/// Writes the lines of an entry after its first, behind that in `text`, which is not written yet, as `write_entry` does. Only an
/// answer has any: the text of each other entry is its first line, which `append_head` forms.
///
/// `Failed` means that the writer failed, `Closed` that nobody reads any more what is written, `Stopped` that the
/// writer took no byte, and `OutOfMemory` that memory ran out for text. After an `Err`, what was written is a beginning
/// of both texts, and `text` has any bytes.
pub fn write_others<R: Threads + Sync, W: Write>(
    rt: &R,
    alloc: Global,
    threads: usize,
    entry: &Entry,
    text: &mut Vec<u8>,
    out: &mut W,
) -> Result<(), WriteError>
    ensures ok { OnOk result (AppendsAllBut (W.contents out.old) (W.contents out.new) (text.old.items ++ lines_of_entry entry.now) text.new.items) }
    ensures err { OnErr result (AppendsFront (W.contents out.old) (W.contents out.new) (text.old.items ++ lines_of_entry entry.now)) }
{
    match entry {
        Entry::Found { answer, .. } => write_parts(rt, alloc, threads, answer.parts(), text, out),
        _ => write_part(out, text),
    }
}

/// Writes the text of these parts behind `text`.
fn write_parts<R: Threads + Sync, W: Write>(
    rt: &R,
    alloc: Global,
    threads: usize,
    parts: &[Passage],
    text: &mut Vec<u8>,
    out: &mut W,
) -> Result<(), WriteError>
    ensures ok { OnOk result (AppendsAllBut (W.contents out.old) (W.contents out.new) (text.old.items ++ text_of_parts parts.now) text.new.items) }
    ensures err { OnErr result (AppendsFront (W.contents out.old) (W.contents out.new) (text.old.items ++ text_of_parts parts.now)) }
{
    for part in parts {
        let PassageText {
            formed,
            lines,
            zero,
        } = part.text();
        if let Err(error) = write_behind(formed, text, out) {
            return Err(error);
        }
        if let Err(error) = write_lines(rt, alloc, threads, zero, lines, text, out) {
            return Err(error);
        }
    }
    Ok(())
}

/// Writes lines behind `text`, piece by piece: while one is written, the text of the next is formed. With `zero` they have a
/// zero byte after the name.
fn write_lines<R: Threads + Sync, W: Write>(
    rt: &R,
    alloc: Global,
    threads: usize,
    zero: bool,
    lines: Lines<'_>,
    text: &mut Vec<u8>,
    out: &mut W,
) -> Result<(), WriteError>
    ensures ok { OnOk result (AppendsAllBut (W.contents out.old) (W.contents out.new) (text.old.items ++ text_of_hits zero lines.entry) text.new.items) }
    ensures err { OnErr result (AppendsFront (W.contents out.old) (W.contents out.new) (text.old.items ++ text_of_hits zero lines.entry)) }
{
    let most = threads.max(1).saturating_mul(PIECE);
    let mut formed = Vec::new(alloc);
    let mut rest = lines;
    while !rest.is_empty() {
        let count = rest.count_within(most);
        let (piece, others) = rest.split_at(count);
        match write_and_form(rt, alloc, threads, zero, &formed, &piece, text, out) {
            Ok(next) => formed = next,
            Err(error) => return Err(error),
        }
        rest = others;
    }
    write_behind(&formed, text, out)
}

/// Writes bytes behind `text`, and returns the text of a piece. With two or more `threads` it is formed meanwhile.
#[tactic(auto, using(crate::proofs::WriteLemmas::front_of_all_but))]
fn write_and_form<R: Threads + Sync, W: Write>(
    rt: &R,
    alloc: Global,
    threads: usize,
    zero: bool,
    bytes: &[u8],
    piece: &Lines<'_>,
    text: &mut Vec<u8>,
    out: &mut W,
) -> Result<Vec<u8>, WriteError>
    ensures next { IfOk result (λ next. next.items ≡ text_of_hits zero piece.now) }
    ensures ok { OnOk result (AppendsAllBut (W.contents out.old) (W.contents out.new) (text.old.items ++ bytes.now) text.new.items) }
    ensures err { OnErr result (AppendsFront (W.contents out.old) (W.contents out.new) (text.old.items ++ bytes.now)) }
{
    if threads < 2 || bytes.is_empty() {
        return match write_behind(bytes, text, out) {
            Ok(()) => text_or_fault(form_lines(rt, alloc, zero, piece, threads)),
            Err(error) => Err(error),
        };
    }
    let mut ahead = || -> Result<Vec<u8>, AllocError>
        requires { IsSync R.row }
        ensures { IfOk result (λ next. next.items ≡ text_of_hits zero piece.entry.now) }
    { form_lines(rt, alloc, zero, piece, threads) };
    let mut behind = || -> Result<(), WriteError>
        ensures ok { OnOk result (AppendsAllBut (W.contents out.entry.now) (W.contents out.exit.now) (text.entry.now.items ++ bytes.entry.now) text.exit.now.items) }
        ensures err { OnErr result (AppendsFront (W.contents out.entry.now) (W.contents out.exit.now) (text.entry.now.items ++ bytes.entry.now)) }
    { write_behind(bytes, text, out) };
    let (next, written) = join_mut(rt, &mut ahead, &mut behind);
    match written {
        Ok(()) => text_or_fault(next),
        Err(error) => Err(error),
    }
}

/// The text, or that memory ran out for it.
fn text_or_fault(text: Result<Vec<u8>, AllocError>) -> Result<Vec<u8>, WriteError>
    ensures { IfOk result (λ formed. text ≡ Ok formed) }
{
    match text {
        Ok(text) => Ok(text),
        Err(_) => Err(WriteError::OutOfMemory),
    }
}

/// Writes these bytes behind `text`. Few bytes are added to it, and many are written from where they are.
fn write_behind<W: Write>(bytes: &[u8], text: &mut Vec<u8>, out: &mut W) -> Result<(), WriteError>
    ensures ok { OnOk result (AppendsAllBut (W.contents out.old) (W.contents out.new) (text.old.items ++ bytes.now) text.new.items) }
    ensures err { OnErr result (AppendsFront (W.contents out.old) (W.contents out.new) (text.old.items ++ bytes.now)) }
{
    if bytes.len() < PART {
        if text.extend_from_slice(bytes).is_err() {
            return Err(WriteError::OutOfMemory);
        }
        return write_part(out, text);
    }
    if let Err(error) = write_whole(out, text) {
        return Err(error);
    }
    text.clear();
    write_whole(out, bytes)
}

/// Writes the text and empties it, if it is long enough for a part.
fn write_part<W: Write>(out: &mut W, text: &mut Vec<u8>) -> Result<(), WriteError>
    ensures ok { OnOk result (AppendsAllBut (W.contents out.old) (W.contents out.new) text.old.items text.new.items) }
    ensures err { OnErr result (AppendsFront (W.contents out.old) (W.contents out.new) text.old.items) }
{
    if text.len() < PART {
        return Ok(());
    }
    if let Err(error) = write_whole(out, text) {
        return Err(error);
    }
    text.clear();
    Ok(())
}

/// Writes all bytes, without allocating memory. A write that was interrupted is tried again.
///
/// `Failed` means that the writer failed, `Closed` that nobody reads any more what is written, and `Stopped` that the
/// writer took no byte; what was written is then a beginning of the bytes. `OutOfMemory` is never returned.
pub fn write_whole<W: Write>(out: &mut W, bytes: &[u8]) -> Result<(), WriteError>
    ensures ok { OnOk result (Appends (W.contents out.old) (W.contents out.new) bytes.now) }
    ensures err { OnErr result (AppendsFront (W.contents out.old) (W.contents out.new) bytes.now) }
    ensures no_memory { ¬ IsErrOf result WriteError.OutOfMemory }
{
    let mut rest = bytes;
    for _ in 0..u64::MAX {
        if rest.is_empty() {
            return Ok(());
        }
        match write_some(out, rest) {
            Ok(count) => rest = &rest[count..],
            Err(error) => return Err(error),
        }
    }
    Err(WriteError::Failed)
}

/// Writes some of the bytes, which are not empty, and returns how many: none if the write was interrupted. After an
/// `Err`, nothing was written.
fn write_some<W: Write>(out: &mut W, bytes: &[u8]) -> Result<usize, WriteError>
    ensures within { IfOk result (λ count. count ≤ length bytes.now) }
    ensures ok { IfOk result (λ count. Appends (W.contents out.old) (W.contents out.new) (take count bytes.now)) }
    ensures err { OnErr result (Keeps (W.contents out.old) (W.contents out.new)) }
    ensures no_memory { ¬ IsErrOf result WriteError.OutOfMemory }
{
    match out.write(bytes) {
        Ok(0) => Err(WriteError::Stopped),
        Ok(count) => Ok(count),
        Err(error) => match interrupted(&error) {
            Ok(()) => Ok(0),
            Err(error) => Err(error),
        },
    }
}

/// Flushes the writer. A flush that was interrupted is tried again. `Failed` means that the writer failed, and `Closed`
/// that nobody reads any more what is written; no other error is returned.
pub fn flush_whole<W: Write>(out: &mut W) -> Result<(), WriteError>
    ensures kept { Keeps (W.contents out.old) (W.contents out.new) }
    ensures no_memory { ¬ IsErrOf result WriteError.OutOfMemory }
{
    for _ in 0..u64::MAX {
        match out.flush() {
            Ok(()) => return Ok(()),
            Err(error) => {
                if let Err(error) = interrupted(&error) {
                    return Err(error);
                }
            }
        }
    }
    Err(WriteError::Failed)
}

/// `Ok` for the error of an interrupted write, which is to be tried again. `Closed` for that of a writer of which
/// nobody reads any more, and `Failed` for any other.
fn interrupted(error: &Error) -> Result<(), WriteError>
    ensures again { OnOk result (error_kind error.now ≡ ErrorKind.Interrupted) }
    ensures no_more { OnErr result (error_kind error.now ≢ ErrorKind.Interrupted) }
    ensures closed { IsErrOf result WriteError.Closed → error_kind error.now ≡ ErrorKind.BrokenPipe }
    ensures failed { IsErrOf result WriteError.Failed → error_kind error.now ≢ ErrorKind.BrokenPipe }
    ensures no_other { IfErr result (λ e. (e ≡ WriteError.Closed) ⊎ (e ≡ WriteError.Failed)) }
{
    match error.kind() {
        ErrorKind::Interrupted => Ok(()),
        ErrorKind::BrokenPipe => Err(WriteError::Closed),
        _ => Err(WriteError::Failed),
    }
}
