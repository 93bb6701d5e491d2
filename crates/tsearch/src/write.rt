//! The text of an entry, written at once.

ghost use Rattle.std.specs.Prelude.{◌≡◌, ◌≤◌, [], Bool, MatchBool, OnOk, OnErr, length, drop, List, ℕ};
ghost use Rattle.std.specs.Io.KnownBytes.{Appends};
ghost use Rattle.transcript.specs.Heads.{head_of_entry};
ghost use Rattle.transcript.specs.Transcript.{text_of_entry};
ghost use Rattle.transcript.specs.Written.{AppendsFront};

use crate::error::of_writing;
use event_loop::LiveError;
use std::alloc::Global;
use std::io::Write;
use std::thread::Threads;
use transcript::{Entry, append_head, flush_whole, write_others, write_whole};

/// Writes the text of an entry and flushes it, but for its first `ahead` bytes, which are out already: at most those of its first
/// line. For an entry without text, nothing is written or flushed. `text` is a buffer; its old bytes do not matter. What is not
/// formed with a large answer is formed in up to `threads` threads (see `transcript::write_entry`).
///
/// An `Err` is `CannotWrite` if the output failed or took no byte, `OutputClosed` if nobody reads it any more, or
/// `OutOfMemory` if there is no memory for the text. A beginning of what was to be written is then written.
pub(crate) fn write_now<R: Threads + Sync, O: Write>(
    rt: &R,
    alloc: Global,
    threads: usize,
    ahead: usize,
    entry: &Entry,
    stats: bool,
    text: &mut Vec<u8>,
    out: &mut O,
) -> Result<(), LiveError>
    requires { ahead ≤ length (head_of_entry stats entry.now) }
    ensures ok { OnOk result (Appends (O.contents out.old) (O.contents out.new) (drop ahead (text_of_entry stats entry.now))) }
    ensures err { OnErr result (AppendsFront (O.contents out.old) (O.contents out.new) (drop ahead (text_of_entry stats entry.now))) }
{
    if has_no_text(entry) {
        return Ok(());
    }
    text.clear();
    match append_head(entry, stats, text) {
        Ok(()) => {}
        Err(_) => return Err(LiveError::OutOfMemory),
    }
    remove_first(text, ahead);
    if let Err(error) = write_others(rt, alloc, threads, entry, text, out) {
        return Err(of_writing(error));
    }
    write_last(text, out)
}

/// Removes the first `count` bytes.
fn remove_first(text: &mut Vec<u8>, count: usize)
    requires { count ≤ length text.old.items }
    ensures { text.new.items ≡ drop count text.old.items }
{
    if count > 0 {
        text.rotate_left(count);
        text.truncate(text.len() - count);
    }
}

/// Whether the entry has no text.
fn has_no_text(entry: &Entry) -> bool
    ensures { MatchBool result ((stats : Bool) → text_of_entry stats entry.now ≡ []) Unit }
{
    match entry {
        Entry::Accepted { .. } => true,
        Entry::Published { .. } => true,
        _ => false,
    }
}

/// Writes all bytes and flushes them.
///
/// An `Err` is `CannotWrite` if the output failed or took no byte, or `OutputClosed` if nobody reads it any more. A beginning of
/// the bytes is then written.
pub(crate) fn write_last<O: Write>(bytes: &[u8], out: &mut O) -> Result<(), LiveError>
    ensures ok { OnOk result (Appends (O.contents out.old) (O.contents out.new) bytes.now) }
    ensures err { OnErr result (AppendsFront (O.contents out.old) (O.contents out.new) bytes.now) }
{
    if let Err(error) = write_whole(out, bytes) {
        return Err(of_writing(error));
    }
    match flush_whole(out) {
        Ok(()) => Ok(()),
        Err(error) => Err(of_writing(error)),
    }
}
