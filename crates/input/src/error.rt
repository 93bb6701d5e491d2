//! Why a reading ends early.

/// Why there is no next item. Nothing is read after an error.
#[derive(Clone, Copy, Debug, PartialEq, Eq)]
pub enum StreamError {
    /// The input could not be read.
    CannotRead,
    /// There was no memory for a line, or for the texts of an item.
    OutOfMemory,
    /// A line has more than `script::MAX_SCRIPT` bytes, its line feed not counted.
    LineTooLong,
    /// The number of the line after an item or a skipped line would not fit in 32 bits. Such an item is lost.
    TooManyLines,
}
