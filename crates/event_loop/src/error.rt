//! Why a run or a session ends early.

ghost use Rattle.std.specs.Prelude.{◌≡◌};

use input::{InboxError, StreamError};
use thiserror::Error;

/// Why a session ends without a status.
#[derive(Clone, Copy, Debug, PartialEq, Eq, Error)]
pub enum LiveError {
    /// The input could not be read, or an item did not come, which never happens.
    #[error("tsearch: cannot read the script")]
    CannotRead,
    /// The output failed, or took no byte.
    #[error("tsearch: cannot write")]
    CannotWrite,
    /// Nobody reads the output any more.
    #[error("tsearch: cannot write")]
    OutputClosed,
    /// Memory ran out for a line, for the text of an entry, or for the session itself.
    #[error("tsearch: out of memory")]
    OutOfMemory,
    /// A reader got no place.
    #[error("tsearch: no place for a reader")]
    NoPlace,
    /// A line has over 67,108,864 bytes.
    #[error("tsearch: line too long")]
    LineTooLong,
    /// The number of a line would not fit in 32 bits.
    #[error("tsearch: too many lines")]
    TooManyLines,
    /// There were 4,294,967,295 searches, the most that a session can count. No item is carried out after the last of them.
    #[error("tsearch: too many searches")]
    TooManySearches,
}

/// The error of a session that got no next item.
pub(crate) fn of_reading(error: StreamError) -> LiveError
    ensures cannot_read { error ≡ StreamError.CannotRead → result ≡ LiveError.CannotRead }
    ensures memory { error ≡ StreamError.OutOfMemory → result ≡ LiveError.OutOfMemory }
    ensures long_line { error ≡ StreamError.LineTooLong → result ≡ LiveError.LineTooLong }
    ensures many_lines { error ≡ StreamError.TooManyLines → result ≡ LiveError.TooManyLines }
{
    match error {
        StreamError::CannotRead => LiveError::CannotRead,
        StreamError::OutOfMemory => LiveError::OutOfMemory,
        StreamError::LineTooLong => LiveError::LineTooLong,
        StreamError::TooManyLines => LiveError::TooManyLines,
    }
}

/// The error of a session that cannot take in what came.
pub(crate) fn of_inbox(error: InboxError) -> LiveError
    ensures memory { error ≡ InboxError.OutOfMemory → result ≡ LiveError.OutOfMemory }
{
    match error {
        InboxError::Lost => LiveError::CannotRead,
        InboxError::OutOfMemory => LiveError::OutOfMemory,
    }
}
