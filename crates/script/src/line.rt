//! One line of a script, read by itself.

ghost use Rattle.std.specs.Prelude.{◌≡◌, codes, option_map};
ghost use Rattle.script.specs.Items.{is_blank, IsLine};
ghost use Rattle.script.specs.Line.{Says};

use crate::cuts::cut_at_space;
use crate::header::header_in;
use crate::item::Item;
use crate::keywords::item_of;

/// The greatest length of a script, in bytes (this program's choice).
pub const MAX_SCRIPT: usize = 67_108_864;

/// What a line says by itself.
#[derive(Clone, Copy, Debug)]
pub enum Line<'a> {
    /// An empty line, or a comment.
    Blank,
    /// `put NAME N`. The N bytes after the line and its line feed are the body.
    Put { name: &'a [u8], size: usize },
    /// A bad put: a line of a put without a name and a size. Nothing is read after it.
    BadPut,
    /// Any other line. It is an item by itself.
    Other(Item<'a>),
}

/// Reads a line, given without its line feed. It takes no memory and never fails: a line of no known form is `BadPut`,
/// or an `Item::BadLine`.
pub fn read_line(line: &[u8]) -> Line<'_>
    requires { IsLine line.now }
    ensures { Says line.now result }
{
    if is_blank_line(line) {
        return Line::Blank;
    }
    let (keyword, others) = cut_at_space(line);
    if keyword == b"put".as_slice() {
        match header_in(others) {
            Some(header) => Line::Put {
                name: header.name,
                size: header.size,
            },
            None => Line::BadPut,
        }
    } else {
        Line::Other(item_of(keyword, others))
    }
}

/// Whether a line, given without its line feed, is blank: empty, or a comment, which begins with `#`.
pub fn is_blank_line(line: &[u8]) -> bool
    ensures { result ≡ is_blank line.now }
{
    match line.first() {
        None => true,
        Some(b) => *b == b'#',
    }
}
