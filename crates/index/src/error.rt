//! Why a command is refused.

use documents::Command;
use std::alloc::AllocError;

/// A command that could not be applied, handed back.
#[derive(Debug, Drop)]
pub struct ApplyError {
    /// The command that was handed in.
    pub command: Command,
    /// Memory ran out, a name has too many handles, or the copies of a `CopyUnder` are no documents of an index.
    pub error: AllocError,
}
