//! The bytes after a put's line.

ghost use Rattle.std.specs.Prelude.{◌≡◌, ℕ, ◌+◌, ◌≤◌, ◌<◌, ◌^◌, List, length, IfSome};
ghost use Rattle.std.specs.Io.KnownBytes.{Consumes};
ghost use Rattle.input.specs.Private.Bytes.{Counts, Appends, Fills, PassesPiece, Passes, IsNextByte, Looks, IsClosing, IsPutBytes};

use crate::error::StreamError;
use crate::line::{append, interrupted};
use script::line_feeds;
use std::alloc::Global;
use std::io::BufRead;

/// How many bytes were taken, and how many of them are line feeds.
#[derive(Clone, Copy, Debug)]
pub struct Passed {
    /// The number of all of them.
    pub count: usize,
    /// The number of line feeds among them.
    pub line_feeds: usize,
}

/// What is kept of a put's bytes.
#[derive(Debug, Drop)]
pub enum PutBody {
    /// All that were read.
    Kept(Vec<u8>),
    /// Nothing: they are more than are to be kept, or there was no memory for them.
    Skipped,
}

/// A put's bytes: as many as its size says, or fewer if the input ends first.
#[derive(Debug, Drop)]
pub struct PutBytes {
    /// What is kept of them.
    pub body: PutBody,
    /// How many were taken.
    pub passed: Passed,
}

/// What follows a put's bytes.
#[derive(Clone, Copy, Debug)]
pub enum Closing {
    /// A line feed, which was taken.
    LineFeed,
    /// Another byte, which was taken.
    OtherByte,
    /// The end of the input.
    InputEnd,
}

fn count(bytes: &[u8]) -> Passed
    ensures { Counts result bytes.now }
{
    Passed {
        count: bytes.len(),
        line_feeds: line_feeds(bytes),
    }
}

/// Appends to the body what the reader has, at most `most` bytes. It reads once if the reader has nothing. `false`
/// means that the input has ended. An interrupted read appends nothing, and the result is `true`.
fn take_some<I: BufRead>(
    input: &mut I,
    most: usize,
    body: &mut Vec<u8>,
) -> Result<bool, StreamError>
    ensures { (bytes : List ℕ) × Consumes (I.remaining input.old) (I.remaining input.new) bytes
        × Appends most body.old.items result body.new.items bytes (I.remaining input.old) (I.remaining input.new) }
{
    let shown = match input.fill_buf() {
        Ok(shown) => shown,
        Err(error) => {
            interrupted(&error)?;
            return Ok(true);
        }
    };
    let more = shown.len() > 0;
    let taken = shown.len().min(most);
    append(body, &shown[..taken])?;
    input.consume(taken);
    Ok(more)
}

/// Appends bytes to the empty body until it has `size` of them or the input ends.
fn fill<I: BufRead>(input: &mut I, size: usize, body: &mut Vec<u8>) -> Result<(), StreamError>
    requires { length body.old.items ≡ 0 }
    ensures { (bytes : List ℕ) × Consumes (I.remaining input.old) (I.remaining input.new) bytes
        × Fills size result body.new.items bytes (I.remaining input.old) (I.remaining input.new) }
{
    for _ in 0..u64::MAX {
        if body.len() >= size {
            return Ok(());
        }
        let more = take_some(input, size - body.len(), body)?;
        if !more {
            return Ok(());
        }
    }
    Err(StreamError::CannotRead)
}

/// A piece that was passed over.
#[derive(Clone, Copy, Debug)]
struct PassedPiece {
    passed: Passed,
    /// `false` if the input has ended. It is `true` after an interrupted read too, which passes over nothing.
    more: bool,
}

/// Passes over what the reader has, at most `most` bytes. It reads once if the reader has nothing.
fn pass_piece<I: BufRead>(input: &mut I, most: usize) -> Result<PassedPiece, StreamError>
    ensures { (bytes : List ℕ) × Consumes (I.remaining input.old) (I.remaining input.new) bytes
        × PassesPiece most result bytes (I.remaining input.old) (I.remaining input.new) }
{
    let shown = match input.fill_buf() {
        Ok(shown) => shown,
        Err(error) => {
            interrupted(&error)?;
            return Ok(PassedPiece {
                passed: count(&[]),
                more: true,
            });
        }
    };
    let more = shown.len() > 0;
    let taken = shown.len().min(most);
    let passed = count(&shown[..taken]);
    input.consume(taken);
    Ok(PassedPiece { passed, more })
}

/// Passes over `size` bytes, or fewer if the input ends first. None of them is kept.
fn pass_over<I: BufRead>(input: &mut I, size: usize) -> Result<Passed, StreamError>
    ensures { (bytes : List ℕ) × Consumes (I.remaining input.old) (I.remaining input.new) bytes
        × Passes size result bytes (I.remaining input.old) (I.remaining input.new) }
{
    let mut passed = count(&[]);
    for _ in 0..u64::MAX {
        if passed.count >= size {
            return Ok(passed);
        }
        let piece = pass_piece(input, size - passed.count)?;
        passed = both(passed, piece.passed);
        if !piece.more {
            return Ok(passed);
        }
    }
    Err(StreamError::CannotRead)
}

fn both(first: Passed, second: Passed) -> Passed
    requires count { first.count + second.count < 2 ^ 64 }
    requires line_feeds { first.line_feeds + second.line_feeds < 2 ^ 64 }
    ensures { (result.count ≡ first.count + second.count) × (result.line_feeds ≡ first.line_feeds + second.line_feeds) }
{
    Passed {
        count: first.count + second.count,
        line_feeds: first.line_feeds + second.line_feeds,
    }
}

/// The byte after a put's bytes, if there is one.
#[derive(Clone, Copy, Debug)]
struct NextByte {
    closing: Closing,
    taken: usize,
}

fn next_byte_of(shown: &[u8]) -> NextByte
    ensures front { IsNextByte shown.now result.closing result.taken }
    ensures within { result.taken ≤ length shown.now }
{
    match shown.first() {
        None => NextByte {
            closing: Closing::InputEnd,
            taken: 0,
        },
        Some(b) => NextByte {
            closing: if *b == b'\n' {
                Closing::LineFeed
            } else {
                Closing::OtherByte
            },
            taken: 1,
        },
    }
}

/// Takes the byte after a put's bytes, if the reader has one. It reads once if the reader has nothing.
/// `None` means that the read was interrupted.
fn look<I: BufRead>(input: &mut I) -> Result<Option<Closing>, StreamError>
    ensures { (bytes : List ℕ) × Consumes (I.remaining input.old) (I.remaining input.new) bytes
        × Looks result bytes (I.remaining input.old) (I.remaining input.new) }
{
    let shown = match input.fill_buf() {
        Ok(shown) => shown,
        Err(error) => {
            interrupted(&error)?;
            return Ok(None);
        }
    };
    let next = next_byte_of(shown);
    input.consume(next.taken);
    Ok(Some(next.closing))
}

/// Takes the byte after a put's bytes, unless the input ends there, and says what it is. Interrupted reads are tried
/// again.
///
/// An `Err` is `CannotRead`: the input cannot be read.
pub fn close<I: BufRead>(input: &mut I) -> Result<Closing, StreamError>
    ensures { (bytes : List ℕ) × Consumes (I.remaining input.old) (I.remaining input.new) bytes
        × IsClosing result bytes (I.remaining input.old) (I.remaining input.new) }
{
    for _ in 0..u64::MAX {
        let found = look(input)?;
        if let Some(closing) = found {
            return Ok(closing);
        }
    }
    Err(StreamError::CannotRead)
}

/// An empty body with room for `size` bytes. `None` if there is no memory for it.
fn room_for(alloc: Global, size: usize) -> Option<Vec<u8>>
    ensures { IfSome result (λ body. length body.items ≡ 0) }
{
    let mut body = Vec::new(alloc);
    match body.reserve_exact(size) {
        Ok(()) => Some(body),
        Err(_) => None,
    }
}

/// Reads a put's bytes into the body.
fn read_body<I: BufRead>(
    input: &mut I,
    size: usize,
    mut body: Vec<u8>,
) -> Result<PutBytes, StreamError>
    requires { length body.items ≡ 0 }
    ensures { (bytes : List ℕ) × Consumes (I.remaining input.old) (I.remaining input.new) bytes
        × IsPutBytes size result bytes (I.remaining input.old) (I.remaining input.new) }
{
    match fill(input, size, &mut body) {
        Ok(()) => {
            let passed = count(body.as_slice());
            Ok(PutBytes {
                body: PutBody::Kept(body),
                passed,
            })
        }
        Err(error) => Err(error),
    }
}

/// Passes over a put's bytes, of which nothing is kept.
fn skip_body<I: BufRead>(input: &mut I, size: usize) -> Result<PutBytes, StreamError>
    ensures { (bytes : List ℕ) × Consumes (I.remaining input.old) (I.remaining input.new) bytes
        × IsPutBytes size result bytes (I.remaining input.old) (I.remaining input.new) }
{
    match pass_over(input, size) {
        Ok(passed) => Ok(PutBytes {
            body: PutBody::Skipped,
            passed,
        }),
        Err(error) => Err(error),
    }
}

/// Takes a put's bytes: `size` of them, or fewer if the input ends first. They are kept if `size` is at most `most_kept`
/// and there is memory for that many. Interrupted reads are tried again.
///
/// An `Err` is `CannotRead`: the input cannot be read. Room for the bytes is made before they are read, so memory does
/// not run out meanwhile.
pub fn take_bytes<I: BufRead>(
    alloc: Global,
    input: &mut I,
    size: usize,
    most_kept: usize,
) -> Result<PutBytes, StreamError>
    ensures { (bytes : List ℕ) × Consumes (I.remaining input.old) (I.remaining input.new) bytes
        × IsPutBytes size result bytes (I.remaining input.old) (I.remaining input.new) }
{
    if size > most_kept {
        return skip_body(input, size);
    }
    match room_for(alloc, size) {
        Some(body) => read_body(input, size, body),
        None => skip_body(input, size),
    }
}
