//! A part of a line.

/// A part of a line, which is not empty.
#[derive(Clone, Copy, Debug, PartialEq, Eq)]
pub struct Span {
    /// The offset of its first byte in the line, from 0.
    pub start: usize,
    /// The offset after its last byte.
    pub end: usize,
}
