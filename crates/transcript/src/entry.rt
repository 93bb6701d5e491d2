//! Entries: what became of the items of a script.

ghost use Rattle.std.specs.Prelude.{◌≡◌};
ghost use Rattle.transcript.specs.Transcript.{is_refusal, has_hit};

use documents::{BodyErrorKind, NameError};
use ere::EreError;
use views::Shown;

/// Why a line of a script is refused.
#[derive(Clone, Copy, Debug, PartialEq, Eq)]
pub enum Reason {
    /// The line is not an item.
    BadLine,
    /// A put line without a name and a size.
    BadPut,
    /// A put that the script's end cuts short.
    Truncated,
    /// A byte other than a line feed after the bytes of a put.
    BodyNotClosed,
    /// The name is not valid.
    Name(NameError),
    /// The body is not valid.
    Body(BodyErrorKind),
    /// The source failed to return the bytes of a load.
    CannotLoad,
    /// No document has this name, or a name that begins with this prefix, after all accepted commands.
    NoSuchFile,
    /// No search with this number was asked.
    NoSuchSearch,
    /// The greatest number of commands has been accepted already.
    Full,
    /// Memory ran out.
    OutOfMemory,
}

/// Why a search is refused.
#[derive(Debug, PartialEq, Eq, Drop)]
pub enum SearchReason {
    /// The pattern has a fault.
    Pattern(EreError),
    /// The name pattern has a fault.
    NamePattern(EreError),
    /// Of several patterns of names, the one with this number, counted from 1, has a fault.
    NamePatternAt(usize, EreError),
    /// The options of a `find` have a fault: its text.
    Options(Vec<u8>),
    /// A cancel gave it up before it had an answer.
    Cancelled,
    /// It had no answer within its limit of time.
    TooSlow,
    /// Memory ran out.
    OutOfMemory,
}

/// What became of an item of a script.
#[derive(Debug, Drop)]
pub enum Entry {
    /// A command was accepted: the number of its line, from 1, and how many commands are accepted so far, itself
    /// included.
    Accepted {
        line: u32,
        commands: u32,
    },
    /// A line was refused: its number, from 1, and why.
    Refused {
        line: u32,
        reason: Reason,
    },
    /// All accepted commands were published: the number of the line, from 1, and the version, which is
    /// the number of accepted commands.
    Published {
        line: u32,
        version: u32,
    },
    /// A search was answered: its number, from 1, the reader that answered, from 0, that reader's turn, from 1, and
    /// what is shown of the answer.
    Found {
        search: u32,
        reader: u32,
        turn: u32,
        answer: Shown,
    },
    /// A search was refused: its number, from 1, and why.
    SearchRefused {
        search: u32,
        reason: SearchReason,
    },
    /// What a run or a session is like between two items: the number of the line, from 1, the version that was published
    /// last, how many documents it has and how many bytes their bodies have together, how many commands are accepted so
    /// far and how many can be at most, and how many searches are open.
    Status {
        line: u32,
        version: u32,
        documents: u32,
        bytes: u64,
        accepted: u32,
        most: u32,
        open: u32,
    },
}

/// Whether the entry refuses a line or a search.
pub fn is_refusal(entry: &Entry) -> bool
    ensures { result ≡ is_refusal entry.now }
{
    match entry {
        Entry::Refused { .. } => true,
        Entry::SearchRefused { .. } => true,
        _ => false,
    }
}

/// Whether the entry is that of a search with a hit.
pub fn has_hit(entry: &Entry) -> bool
    ensures { result ≡ has_hit entry.now }
{
    match entry {
        Entry::Found { answer, .. } => answer.count() != 0,
        _ => false,
    }
}
