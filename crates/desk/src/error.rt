//! Why a call is refused.

use documents::{Body, Name};
use std::alloc::{AllocError, AllocFailed};

/// Why an opening is refused.
#[derive(Clone, Copy, Debug, PartialEq, Eq)]
pub enum OpenError {
    /// Memory ran out.
    OutOfMemory,
    /// A reading got no place: there are fewer places than readings.
    NoPlace,
}

impl From<AllocError> for OpenError {
    ghost use Rattle.std.specs.Prelude.{◌≡◌};
    ghost use Rattle.desk.specs.declared.error.OpenError.TheVariants.{OutOfMemory};

    ghost from_gives = { λ _ e. e ≡ OutOfMemory };

    fn from(_: AllocError) -> OpenError {
        OpenError::OutOfMemory
    }
}

impl<T: Drop> From<AllocFailed<T>> for OpenError {
    ghost use Rattle.std.specs.Prelude.{◌≡◌};
    ghost use Rattle.desk.specs.declared.error.OpenError.TheVariants.{OutOfMemory};

    ghost from_gives = { λ _ e. e ≡ OutOfMemory };

    fn from(_: AllocFailed<T>) -> OpenError {
        OpenError::OutOfMemory
    }
}

/// Why a put is refused. The causes are checked in this order.
#[derive(Clone, Copy, Debug, PartialEq, Eq)]
pub enum PutErrorKind {
    /// The greatest number of commands has been accepted already.
    Full,
    /// Memory ran out.
    OutOfMemory,
}

/// A put that was refused, with name and body handed back.
#[derive(Drop)]
pub struct PutError {
    /// Why it was refused.
    pub kind: PutErrorKind,
    /// The name that was handed in.
    pub name: Name,
    /// The body that was handed in.
    pub body: Body,
}

/// Why a remove is refused. The causes are checked in this order.
#[derive(Clone, Copy, Debug, PartialEq, Eq)]
pub enum RemoveError {
    /// There is no document of this name, or under this prefix, after all accepted commands.
    NoSuchFile,
    /// The greatest number of commands has been accepted already.
    Full,
    /// Memory ran out, or the name has too many handles.
    OutOfMemory,
}

impl From<AllocError> for RemoveError {
    ghost use Rattle.std.specs.Prelude.{◌≡◌};
    ghost use Rattle.desk.specs.declared.error.RemoveError.TheVariants.{OutOfMemory};

    ghost from_gives = { λ _ e. e ≡ OutOfMemory };

    fn from(_: AllocError) -> RemoveError {
        RemoveError::OutOfMemory
    }
}

/// Why a copy of all documents under a name is refused. The causes are checked in this order.
#[derive(Clone, Copy, Debug, PartialEq, Eq)]
pub enum CopyError {
    /// There is no document whose name begins with the first name, after all accepted commands.
    NoSuchFile,
    /// A name would have more bytes than names can have.
    TooLong,
    /// The greatest number of commands has been accepted already.
    Full,
    /// Memory ran out, or a name has too many handles.
    OutOfMemory,
}

impl From<AllocError> for CopyError {
    ghost use Rattle.std.specs.Prelude.{◌≡◌};
    ghost use Rattle.desk.specs.declared.error.CopyError.TheVariants.{OutOfMemory};

    ghost from_gives = { λ _ e. e ≡ OutOfMemory };

    fn from(_: AllocError) -> CopyError {
        CopyError::OutOfMemory
    }
}
