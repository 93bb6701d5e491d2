//! The pieces of whole lines in which a long body is matched.

ghost use Rattle.std.specs.Prelude.{◌<◌, length};
ghost use Rattle.engine.specs.FirstLine.{HasNoFeed};
ghost use Rattle.search.specs.Private.Pieces.{IsPiece};

use engine::line_start;
use memchr::memchr;

/// Where the first piece of the text ends: after the last line feed of the first `most` bytes. If no line ends in
/// these bytes, the piece is the first line, and if the text is no longer, the whole text.
pub(crate) fn piece_end(text: &[u8], most: usize) -> usize
    ensures { IsPiece most text.now result }
{
    if text.len() <= most {
        return text.len();
    }
    match line_start(text, most) {
        0 => first_line_end(text, most),
        start => start,
    }
}

/// Where the first line of the text ends, after its line feed if it has one. It is longer than `most` bytes.
fn first_line_end(text: &[u8], most: usize) -> usize
    requires long { most < length text.now }
    requires no_feed { HasNoFeed text.now 0 most }
    ensures { IsPiece most text.now result }
{
    match memchr(b'\n', &text[most..]) {
        Some(at) => most + at + 1,
        None => text.len(),
    }
}
