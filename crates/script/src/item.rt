//! The items that are a line each. The language is this program's own: one space separates fields, and
//! `docs/SCRIPT.md` has its table of lines.

use ere::Case;

/// An item that is a line by itself, with its texts as they are in the line.
#[derive(Clone, Copy, Debug)]
pub enum Item<'a> {
    /// `load NAME PATH`. The path is not empty.
    Load {
        name: &'a [u8],
        path: &'a [u8],
    },
    /// `remove NAME`.
    Remove {
        name: &'a [u8],
    },
    /// `removeunder PREFIX`.
    RemoveUnder {
        prefix: &'a [u8],
    },
    /// `copyunder FROM TO`.
    CopyUnder {
        from: &'a [u8],
        to: &'a [u8],
    },
    /// `publish`.
    Publish,
    /// `search ERE`, or `isearch ERE`, which ignores case. A line with only `search` or `isearch` has the
    /// empty pattern.
    Search {
        case: Case,
        pattern: &'a [u8],
    },
    /// `searchin NAME-ERE ERE`, or `isearchin NAME-ERE ERE`, which ignores case in the pattern only.
    SearchIn {
        case: Case,
        name_pattern: &'a [u8],
        pattern: &'a [u8],
    },
    /// `find REQUEST`. The request is everything after the space, and is not read here: it may be empty, have spaces,
    /// or ask for nothing. A line with only `find` has the empty request.
    Find {
        request: &'a [u8],
    },
    /// `sync`.
    Sync,
    /// `cancel K`. The number is K, or 0 if K is 2^32 or more: 0 means a number that no search has.
    Cancel {
        search: u32,
    },
    /// `status`.
    Status,
    /// Any other line.
    BadLine,
}
