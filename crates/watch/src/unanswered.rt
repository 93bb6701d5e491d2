//! Why a search has no answer.

use std::alloc::{AllocError, AllocFailed};

/// The watch said that the answer is not wanted.
#[derive(Clone, Copy, Debug, PartialEq, Eq)]
pub struct CalledOff;

/// Why a search has no answer.
#[derive(Clone, Copy, Debug, PartialEq, Eq)]
pub enum Unanswered {
    /// Memory ran out, or a name or a body has too many handles.
    OutOfMemory,
    /// The watch said that the answer is no longer wanted.
    CalledOff,
}

impl From<AllocError> for Unanswered {
    ghost use Rattle.std.specs.Prelude.{◌≡◌};
    ghost use Rattle.watch.specs.declared.unanswered.Unanswered.TheVariants.{OutOfMemory};

    ghost from_gives = { λ _ e. e ≡ OutOfMemory };

    fn from(_: AllocError) -> Unanswered {
        Unanswered::OutOfMemory
    }
}

impl<T: Drop> From<AllocFailed<T>> for Unanswered {
    ghost use Rattle.std.specs.Prelude.{◌≡◌};
    ghost use Rattle.watch.specs.declared.unanswered.Unanswered.TheVariants.{OutOfMemory};

    ghost from_gives = { λ _ e. e ≡ OutOfMemory };

    fn from(_: AllocFailed<T>) -> Unanswered {
        Unanswered::OutOfMemory
    }
}

impl From<CalledOff> for Unanswered {
    ghost use Rattle.std.specs.Prelude.{◌≡◌};
    ghost use Rattle.watch.specs.declared.unanswered.Unanswered.TheVariants.{CalledOff as called_off};

    ghost from_gives = { λ _ e. e ≡ called_off };

    fn from(_: CalledOff) -> Unanswered {
        Unanswered::CalledOff
    }
}
