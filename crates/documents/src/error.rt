//! Why a name or a body is refused.

use crate::body::Body;
use std::alloc::AllocError;

/// Why bytes were not made into a name. The causes are checked in this order.
#[derive(Clone, Copy, Debug, PartialEq, Eq)]
pub enum NameError {
    /// There are no bytes.
    Empty,
    /// There are more than a name may have.
    TooLong,
    /// A byte is 0 to 32, or 127.
    BadByte,
    /// The bytes are a name, but memory ran out.
    OutOfMemory,
}

/// Why bytes are not a body of some lengths. The causes are checked in this order.
#[derive(Clone, Copy, Debug, PartialEq, Eq)]
pub enum BodyErrorKind {
    /// There are more than a body of these lengths may have.
    TooLong,
    /// A byte is 0.
    NotText,
    /// A line is longer than these lengths say, not counting its line feed.
    LineTooLong,
}

/// Bytes that are not a body of some lengths, handed back.
#[derive(Debug, Drop)]
pub struct BodyError {
    /// Why the bytes are not a body.
    pub kind: BodyErrorKind,
    /// The bytes that were handed in.
    pub bytes: Vec<u8>,
}

/// A body for which memory ran out, handed back.
#[derive(Debug, Drop)]
pub struct HeldError {
    /// The body that was handed in.
    pub body: Body,
    /// Memory ran out.
    pub error: AllocError,
}
