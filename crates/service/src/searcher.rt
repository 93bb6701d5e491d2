//! How reader 0 searches.

ghost use Rattle.std.specs.Prelude.{◌≡◌, IfOk};
ghost use mathlib.Core.List.{IsPrefix};
ghost use Rattle.documents.specs.State.{state_of};
ghost use Rattle.prepare.specs.Prepared.{request_of};
ghost use Rattle.views.specs.ShownOf.{IsShownOf};

use prepare::Prepared;
use published::Reading;
use std::alloc::Global;
use views::Shown;
use watch::{Unanswered, Watch};

/// What a service answers searches with itself, as reader 0.
pub trait Searcher {
    /// Searches what is published. Each part of the search has a copy of `watch`.
    ///
    /// `CalledOff` means that the search was given up. `OutOfMemory` means that memory ran out, that a name or a body has
    /// too many handles, or that the service was closed.
    fn search<W: Watch + Copy>(
        alloc: Global,
        reading: &mut Reading,
        prepared: &Prepared,
        watch: W,
    ) -> Result<Shown, Unanswered>
        ensures opening { reading.new.opening ≡ reading.old.opening }
        ensures seen { IsPrefix reading.old.commands reading.new.commands }
        ensures answer { IfOk result (IsShownOf (state_of reading.new.commands) (request_of prepared.now)) };
}
