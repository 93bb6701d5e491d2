//! Lines, read to their ends.

ghost use Rattle.std.specs.Prelude.{◌≡◌, ◌≢◌, ℕ, ◌+◌, ◌^◌, ◌<◌, ◌≤◌, ◌++◌, List, [], length, IfOk, IfErr, OnOk};
ghost use Rattle.std.specs.Io.KnownBytes.{Consumes};
ghost use Rattle.std.specs.IoError.{error_kind};
ghost use Rattle.input.specs.Private.Lines.{IsPiece, Grows, IsLineTaken, IsNextLine};

use crate::error::StreamError;
use memchr::memchr;
use script::{MAX_SCRIPT, is_blank_line};
use std::io::{BufRead, Error, ErrorKind};

/// What comes after a piece of a line.
#[derive(Clone, Copy, Debug)]
enum After {
    /// More of it follows, or its end.
    More,
    /// Its line feed was taken too.
    LineFeed,
    /// The input ends.
    InputEnd,
}

/// A piece of a line, at the front of some bytes.
#[derive(Clone, Copy, Debug)]
struct Piece<'a> {
    /// Its text, without a line feed.
    text: &'a [u8],
    /// The number of its bytes, with its line feed if it has one.
    taken: usize,
    after: After,
}

/// The piece up to the first line feed, or all bytes if there is none.
fn piece_of(shown: &[u8]) -> Piece<'_>
    ensures piece { IsPiece shown.now result.text.now result.taken result.after }
    ensures within { result.taken ≤ length shown.now }
{
    match memchr(b'\n', shown) {
        Some(at) => Piece {
            text: &shown[..at],
            taken: at + 1,
            after: After::LineFeed,
        },
        None => Piece {
            text: shown,
            taken: shown.len(),
            after: if shown.is_empty() {
                After::InputEnd
            } else {
                After::More
            },
        },
    }
}

/// `Ok` for the error of an interrupted read, which is to be tried again. `CannotRead` for any other error, after
/// which nothing more is read.
pub fn interrupted(error: &Error) -> Result<(), StreamError>
    ensures again { OnOk result (error_kind error.now ≡ ErrorKind.Interrupted) }
    ensures no_more { IfErr result (λ fault. (fault ≡ StreamError.CannotRead) × (error_kind error.now ≢ ErrorKind.Interrupted)) }
{
    if error.kind() == ErrorKind::Interrupted {
        Ok(())
    } else {
        Err(StreamError::CannotRead)
    }
}

/// Appends the bytes to the text.
///
/// An `Err` is `OutOfMemory`: memory ran out.
pub fn append(text: &mut Vec<u8>, bytes: &[u8]) -> Result<(), StreamError>
    ensures appended { IfOk result (λ _. text.new.items ≡ text.old.items ++ bytes.now) }
    ensures err { IfErr result (λ error. error ≡ StreamError.OutOfMemory) }
{
    match text.extend_from_slice(bytes) {
        Ok(()) => Ok(()),
        Err(_) => Err(StreamError::OutOfMemory),
    }
}

/// Appends a piece to the text of a line. `LineTooLong` if the text would then have more than `MAX_SCRIPT` bytes,
/// and `OutOfMemory` if memory ran out.
fn append_piece(text: &mut Vec<u8>, piece: &[u8]) -> Result<(), StreamError>
    ensures { IfOk result (λ _. text.new.items ≡ text.old.items ++ piece.now) }
{
    if MAX_SCRIPT.saturating_sub(text.len()) < piece.len() {
        return Err(StreamError::LineTooLong);
    }
    append(text, piece)
}

/// Takes what the reader has of a line, up to its line feed, and appends it to the text. It reads once if the
/// reader has nothing. An interrupted read takes nothing, and the result is `More`.
fn take_piece<I: BufRead>(input: &mut I, text: &mut Vec<u8>) -> Result<After, StreamError>
    ensures { (bytes : List ℕ) × Consumes (I.remaining input.old) (I.remaining input.new) bytes
        × Grows text.old.items result text.new.items bytes (I.remaining input.old) (I.remaining input.new) }
{
    let shown = match input.fill_buf() {
        Ok(shown) => shown,
        Err(error) => {
            interrupted(&error)?;
            return Ok(After::More);
        }
    };
    let piece = piece_of(shown);
    let (taken, after) = (piece.taken, piece.after);
    append_piece(text, piece.text)?;
    input.consume(taken);
    Ok(after)
}

/// Takes a line into `text`, without its line feed, and returns whether a line feed ended it. If not, the input's
/// end did.
fn take_line<I: BufRead>(input: &mut I, text: &mut Vec<u8>) -> Result<bool, StreamError>
    ensures { (bytes : List ℕ) × Consumes (I.remaining input.old) (I.remaining input.new) bytes
        × IsLineTaken result text.new.items bytes (I.remaining input.old) (I.remaining input.new) }
{
    text.clear();
    for _ in 0..u64::MAX {
        let after = take_piece(input, text)?;
        match after {
            After::More => {}
            After::LineFeed => return Ok(true),
            After::InputEnd => return Ok(false),
        }
    }
    Err(StreamError::CannotRead)
}

/// The number of a line, and whether a line feed ends it.
#[derive(Clone, Copy, Debug)]
pub struct LineStart {
    /// The number of the line.
    pub line: u32,
    /// Whether a line feed ends it. If not, the input's end does.
    pub closed: bool,
}

/// Takes lines up to the first one that is neither empty nor a comment, and leaves that one in `text`, without its line
/// feed. `first` is the number of the first line taken. `None` means that the input has no such line. Interrupted reads
/// are tried again.
///
/// `CannotRead` means that the input cannot be read, `OutOfMemory` that there is no memory for a line, `LineTooLong`
/// that a line has over `MAX_SCRIPT` bytes, and `TooManyLines` that the number of the line after a skipped one does not
/// fit in 32 bits. After an `Err`, `text` has any bytes.
pub fn next_line<I: BufRead>(
    input: &mut I,
    first: u32,
    text: &mut Vec<u8>,
) -> Result<Option<LineStart>, StreamError>
    ensures { (bytes : List ℕ) × Consumes (I.remaining input.old) (I.remaining input.new) bytes
        × IsNextLine first result text.new.items bytes (I.remaining input.old) (I.remaining input.new) }
{
    let mut line = first;
    loop {
        let closed = take_line(input, text)?;
        if !is_blank_line(text.as_slice()) {
            return Ok(Some(LineStart { line, closed }));
        }
        if !closed {
            return Ok(None);
        }
        let next = next_number(line)?;
        line = next;
    }
}

fn next_number(line: u32) -> Result<u32, StreamError>
    ensures { IfOk result (λ next. (next ≡ line + 1) × (next < 2 ^ 32)) }
{
    match line.checked_add(1) {
        Some(next) => Ok(next),
        None => Err(StreamError::TooManyLines),
    }
}
