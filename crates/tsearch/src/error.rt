//! Why a session ends early, beside what ends its loop.

ghost use Rattle.std.specs.Prelude.{◌≡◌};

use event_loop::LiveError;
use published::OpenError;
use transcript::WriteError;

/// The error of a session whose index could not be opened.
pub(crate) fn of_opening(error: OpenError) -> LiveError
    ensures no_place { error ≡ OpenError.NoPlace → result ≡ LiveError.NoPlace }
    ensures memory { error ≡ OpenError.OutOfMemory → result ≡ LiveError.OutOfMemory }
{
    match error {
        OpenError::NoPlace => LiveError::NoPlace,
        OpenError::OutOfMemory => LiveError::OutOfMemory,
    }
}

/// The error of a session whose text was not written whole.
pub(crate) fn of_writing(error: WriteError) -> LiveError
    ensures failed { error ≡ WriteError.Failed → result ≡ LiveError.CannotWrite }
    ensures stopped { error ≡ WriteError.Stopped → result ≡ LiveError.CannotWrite }
    ensures closed { error ≡ WriteError.Closed → result ≡ LiveError.OutputClosed }
    ensures memory { error ≡ WriteError.OutOfMemory → result ≡ LiveError.OutOfMemory }
{
    match error {
        WriteError::Failed | WriteError::Stopped => LiveError::CannotWrite,
        WriteError::Closed => LiveError::OutputClosed,
        WriteError::OutOfMemory => LiveError::OutOfMemory,
    }
}
