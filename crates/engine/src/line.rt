//! The line of a position.

ghost use Rattle.std.specs.Prelude.{◌≡◌, ◌≤◌, length, take};
ghost use Rattle.lines.specs.Lines.{lines_of};
ghost use Rattle.engine.specs.FirstLine.{IsLineStart, IsLineEnd, IsWholeLines, line_feeds};

use memchr::{memchr, memrchr};

/// How many bytes are counted together. Their count fits in a byte, so the processor can count many at a time.
const BLOCK: usize = 192;

/// Where the line of the offset `from` starts, as an offset in bytes: after the last line feed before `from`, or at 0.
pub fn line_start(text: &[u8], from: usize) -> usize
    requires { from ≤ length text.now }
    ensures { IsLineStart text.now from result }
{
    match memrchr(b'\n', &text[..from]) {
        Some(at) => at + 1,
        None => 0,
    }
}

/// Where the line of the offset `from` ends, as an offset in bytes: at its line feed, or at the text's end.
pub fn line_end(text: &[u8], from: usize) -> usize
    requires { from ≤ length text.now }
    ensures { IsLineEnd text.now from result }
{
    match memchr(b'\n', &text[from..]) {
        Some(at) => from + at,
        None => text.len(),
    }
}

/// How many lines are before the one that starts at the offset `start`.
pub fn lines_before(text: &[u8], start: usize) -> usize
    requires inside { start ≤ length text.now }
    requires whole_lines { IsWholeLines (take start text.now) }
    ensures { result ≡ length (lines_of (take start text.now)) }
{
    line_feeds(&text[..start])
}

/// How many line feeds are in the text.
fn line_feeds(text: &[u8]) -> usize
    ensures { result ≡ line_feeds text.now }
{
    let mut rest = text;
    let mut count = 0;
    while rest.len() > BLOCK {
        let (block, others) = rest.split_at(BLOCK);
        count += line_feeds_of_block(block) as usize;
        rest = others;
    }
    count + line_feeds_of_block(rest) as usize
}

/// How many line feeds are in these bytes, which are at most one block.
#[tactic(auto, unfolding(crate::specs::FirstLine::line_feeds))]
fn line_feeds_of_block(block: &[u8]) -> u8
    requires { length block.now ≤ BLOCK }
    ensures { result ≡ line_feeds block.now }
{
    let mut count = 0;
    for byte in block {
        if *byte == b'\n' {
            count += 1;
        }
    }
    count
}
