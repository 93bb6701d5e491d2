//! How long names, bodies and lines may be.

ghost use Rattle.std.specs.Prelude.{◌≡◌};
ghost use Rattle.documents.specs.Text.{most_bytes, usual_lengths};

use crate::body::MAX_BODY;
use lines::MAX_LINE;

/// The greatest length of a name if nothing else is asked for, in bytes (this program's choice).
pub const USUAL_NAME: usize = 255;

/// The greatest length of a body if nothing else is asked for, in bytes (this program's choice).
pub const USUAL_BODY: usize = 1_048_576;

/// How long names, bodies and lines of bodies may be.
#[derive(Clone, Copy, Debug, PartialEq, Eq)]
pub struct Lengths {
    /// The greatest length of a name, in bytes. No name is longer than `MAX_NAME`, whatever is asked for.
    pub name: usize,
    /// The greatest length of a body, in bytes. No body is longer than `MAX_BODY`, whatever is asked for.
    pub body: usize,
    /// The greatest length of a line, in bytes, not counting its line feed.
    pub line: usize,
}

impl Lengths {
    /// The lengths if nothing else is asked for: names of 255 bytes, and bodies of 1,048,576 bytes in lines of 16,384.
    pub fn usual() -> Lengths
        ensures { result ≡ usual_lengths }
    {
        Lengths {
            name: USUAL_NAME,
            body: USUAL_BODY,
            line: MAX_LINE,
        }
    }

    /// How many bytes a body may have: as many as `body` says, but no more than `MAX_BODY`.
    pub fn most_bytes(self) -> usize
        ensures { result ≡ most_bytes self }
    {
        self.body.min(MAX_BODY)
    }
}
