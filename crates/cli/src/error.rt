//! Why arguments cannot be read.

use std::error::Error;
use std::fmt::{self, Display};

/// Why arguments cannot be read.
#[derive(Debug, Drop)]
pub enum ArgumentError {
    /// They are refused. The text says why, in lines that each end with a line feed.
    Refused(clap::Error),
    /// Memory ran out.
    OutOfMemory,
}

impl Display for ArgumentError {
    fn fmt<W: fmt::Write>(&self, f: &mut fmt::Formatter<W>) -> fmt::Result {
        match self {
            ArgumentError::Refused(error) => error.fmt(f),
            ArgumentError::OutOfMemory => f.write_str("tsearch: out of memory\n"),
        }
    }
}

impl Error for ArgumentError {}
