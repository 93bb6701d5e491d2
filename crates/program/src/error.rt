//! Why the program has no response.

use cli::ArgumentError;
use thiserror::Error;
use tsearch::{LiveError, RunError};

/// Why the program ends before its response is written whole. Its text is for standard error.
#[derive(Debug, Drop, Error)]
pub enum ProgramError {
    /// The arguments cannot be read. Its text ends with a line feed; the texts of the others do not.
    #[error(transparent)]
    Arguments(ArgumentError),
    /// The script's file could not be opened or read, or standard input could not be read. The text is the file's
    /// name, or `standard input`, and the reason.
    #[error("tsearch: cannot read the script: {0}")]
    CannotRead(String),
    /// Memory ran out.
    #[error("tsearch: out of memory")]
    OutOfMemory,
    /// The run has no transcript.
    #[error(transparent)]
    Run(RunError),
    /// The session ended early.
    #[error(transparent)]
    Live(LiveError),
    /// Standard output failed, or took no byte.
    #[error("tsearch: cannot write")]
    CannotWrite,
    /// Nobody reads standard output any more. Nothing is said of it on standard error.
    #[error("tsearch: cannot write")]
    OutputClosed,
}
