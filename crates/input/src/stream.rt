//! The stream of items.

ghost use Rattle.std.specs.Prelude.{◌≡◌, ◌+◌, ◌<◌, ◌^◌, List, [], ◌∷◌, ℕ, Ok, Some};
ghost use Rattle.std.specs.Prelude.{None, true, false, length, is_none, unwrap_or, OnErr, IfOk, IfSome, IsFalse};
ghost use Rattle.std.specs.Io.KnownBytes.{Consumes};
ghost use Rattle.script.specs.Items.{Item, numbered, put, IsLine, IsPutLine, ItemsFrom, is_blank};
ghost use Rattle.input.specs.Owned.{ShowsOwned};
ghost use Rattle.input.specs.Stream.{stream_at, IsNext};
ghost use Rattle.input.specs.Private.Bytes.{Holds};
ghost use Rattle.input.specs.Private.Taking.{TakesItem};

use crate::body::{Closing, PutBody, close, take_bytes};
use crate::error::StreamError;
use crate::line::next_line;
use crate::owned::copy_of;
use crate::{OwnedItem, ReadItem};
use script::{Line, read_line};
use std::alloc::Global;
use std::io::BufRead;
use std::marker::Model;

/// A text with room for more bytes than this is freed before the next item is read.
const KEPT_TEXT: usize = 65_536;

/// How far an input has been read: the number of the next line, and whether the reading has ended.
#[derive(Debug, Drop)]
pub struct ItemStream {
    alloc: Global,
    line: u32,
    ended: bool,
    /// How many bytes of a put are kept at most.
    most_kept: usize,
    /// The line that was read last.
    text: Vec<u8>,
}

impl Model for ItemStream {
    ghost use Rattle.input.specs.Stream.{StreamState, stream_at};

    ghost Value = { StreamState };

    ghost view = { λ s. stream_at s.line s.ended };
}

impl ItemStream {
    /// A stream at the first byte of an input. The first line has the number 1. `alloc` is for the lines and the items. The
    /// bytes of a put are kept if they are no more than `most_kept`, and otherwise skipped.
    pub fn new(alloc: Global, most_kept: usize) -> ItemStream
        ensures { result ≡ stream_at 1 false }
    {
        ItemStream {
            alloc,
            line: 1,
            ended: false,
            most_kept,
            text: Vec::new(alloc),
        }
    }

    /// Takes the next item from the input, and waits for no byte after the item's last one, which is the line
    /// feed of its line or the byte after a put's body. Empty lines and comments are skipped.
    ///
    /// Pass the same input to all calls on a stream.
    ///
    /// `None` means that the input ended without a further item, or that the reading had ended in an earlier
    /// call: with the input's end or a fault that ends it, or with an error.
    ///
    /// # Errors
    ///
    /// `CannotRead` if the input cannot be read, `OutOfMemory` if there is no memory for a line or for the item,
    /// `LineTooLong` if a line has more than `script::MAX_SCRIPT` bytes, and `TooManyLines` if the number of the line
    /// after the item, or after a skipped line, would not fit in 32 bits. The reading ends at an error. Interrupted reads
    /// are tried again.
    pub fn next_item<I: BufRead>(&mut self, input: &mut I) -> Result<Option<ReadItem>, StreamError>
        ensures taken { (bytes : List ℕ) × Consumes (I.remaining input.old) (I.remaining input.new) bytes
            × IsNext self.old result self.new bytes (I.remaining input.old) (I.remaining input.new) }
        ensures over { self.old.ended ≡ true → (result ≡ Ok None) × (input.new ≡ input.old) }
        ensures failed { OnErr result (self.new.ended ≡ true) }
    {
        if self.ended {
            return Ok(None);
        }
        self.ended = true;
        renew(self.alloc, &mut self.text);
        let start = match next_line(input, self.line, &mut self.text) {
            Ok(Some(start)) => start,
            Ok(None) => return Ok(None),
            Err(error) => return Err(error),
        };
        let line = start.line;
        if !start.closed {
            return match last_item(self.alloc, self.text.as_slice()) {
                Ok(item) => Ok(Some(ReadItem { line, item })),
                Err(error) => Err(error),
            };
        }
        match take_item(
            self.alloc,
            input,
            self.most_kept,
            line,
            self.text.as_slice(),
        ) {
            Ok(Step { item, next }) => {
                self.go_on(next);
                Ok(Some(ReadItem { line, item }))
            }
            Err(error) => Err(error),
        }
    }

    /// Goes on with the line of this number, if there is one.
    fn go_on(&mut self, next: Option<u32>)
        requires { self.old.ended ≡ true }
        ensures { self.new ≡ stream_at (unwrap_or next self.old.line) (is_none next) }
    {
        if let Some(line) = next {
            self.line = line;
            self.ended = false;
        }
    }
}

/// Frees the memory of a long text.
fn renew(alloc: Global, text: &mut Vec<u8>) {
    if text.capacity() > KEPT_TEXT {
        *text = Vec::new(alloc);
    }
}

/// The item of a line that the input's end closes. `OutOfMemory` if there is no memory for it.
fn last_item(alloc: Global, line: &[u8]) -> Result<OwnedItem, StreamError>
    requires is_line { IsLine line.now }
    requires not_blank { IsFalse (is_blank line.now) }
    ensures { IfOk result (λ item. (shown : Item) × ShowsOwned item shown
        × ((number : ℕ) → ItemsFrom number line.now (numbered number shown ∷ []))) }
{
    match read_line(line) {
        Line::Blank => unreachable!(),
        Line::Put { name: _, size: _ } => Ok(OwnedItem::Truncated),
        Line::BadPut => Ok(OwnedItem::BadPut),
        Line::Other(item) => OwnedItem::of(alloc, item),
    }
}

/// An item, and the number of the line after it: `None` if the reading ends with the item.
#[derive(Debug, Drop)]
struct Step {
    item: OwnedItem,
    next: Option<u32>,
}

/// The item of a line that a line feed closed, with a put's bytes.
fn take_item<I: BufRead>(
    alloc: Global,
    input: &mut I,
    most_kept: usize,
    number: u32,
    line: &[u8],
) -> Result<Step, StreamError>
    requires is_line { IsLine line.now }
    requires not_blank { IsFalse (is_blank line.now) }
    ensures { (bytes : List ℕ) × Consumes (I.remaining input.old) (I.remaining input.new) bytes
        × TakesItem number line.now result bytes (I.remaining input.old) (I.remaining input.new) }
{
    match read_line(line) {
        Line::Blank => unreachable!(),
        Line::Put { name, size } => take_put(alloc, input, most_kept, number, name, size),
        Line::BadPut => Ok(Step {
            item: OwnedItem::BadPut,
            next: None,
        }),
        Line::Other(item) => match OwnedItem::of(alloc, item) {
            Ok(item) => go_on_after(item, number, 1),
            Err(error) => Err(error),
        },
    }
}

/// The step of an item that is followed by a line whose number is greater by `lines`. `TooManyLines` means that this
/// number would not fit in 32 bits.
fn go_on_after(item: OwnedItem, number: u32, lines: usize) -> Result<Step, StreamError>
    ensures { IfOk result (λ step. (step.item ≡ item) × (step.next ≡ Some (number + lines)) × (number + lines < 2 ^ 32)) }
{
    match number_after(number, lines) {
        Some(next) => Ok(Step {
            item,
            next: Some(next),
        }),
        None => Err(StreamError::TooManyLines),
    }
}

fn number_after(number: u32, lines: usize) -> Option<u32>
    ensures { IfSome result (λ next. (next ≡ number + lines) × (next < 2 ^ 32)) }
{
    if lines > u32::MAX as usize {
        return None;
    }
    number.checked_add(lines as u32)
}

/// Takes the bytes of a put and the byte after them.
fn take_put<I: BufRead>(
    alloc: Global,
    input: &mut I,
    most_kept: usize,
    number: u32,
    name: &[u8],
    size: usize,
) -> Result<Step, StreamError>
    ensures { (bytes : List ℕ) × Consumes (I.remaining input.old) (I.remaining input.new) bytes
        × ((line : List ℕ) → IsPutLine line name.now size → TakesItem number line result bytes (I.remaining input.old) (I.remaining input.new)) }
{
    let put = take_bytes(alloc, input, size, most_kept)?;
    if put.passed.count < size {
        return Ok(Step {
            item: OwnedItem::Truncated,
            next: None,
        });
    }
    let closing = close(input)?;
    match closing {
        Closing::LineFeed => {
            let lines = put.passed.line_feeds.saturating_add(2);
            match put_item(alloc, name, size, put.body) {
                Ok(item) => go_on_after(item, number, lines),
                Err(error) => Err(error),
            }
        }
        Closing::InputEnd => match put_item(alloc, name, size, put.body) {
            Ok(item) => Ok(Step { item, next: None }),
            Err(error) => Err(error),
        },
        Closing::OtherByte => Ok(Step {
            item: OwnedItem::BodyNotClosed,
            next: None,
        }),
    }
}

/// A put of this name and of so many bytes. `OutOfMemory` if there is no memory for the name.
fn put_item(
    alloc: Global,
    name: &[u8],
    size: usize,
    body: PutBody,
) -> Result<OwnedItem, StreamError>
    ensures { IfOk result (λ item. (bytes : List ℕ) → Holds body bytes → length bytes ≡ size → ShowsOwned item (put name.now bytes)) }
{
    let name = copy_of(alloc, name)?;
    match body {
        PutBody::Kept(body) => Ok(OwnedItem::Put { name, body }),
        PutBody::Skipped => Ok(OwnedItem::SkippedPut { name, size }),
    }
}
