//! What a search asks of documents.

ghost use Rattle.std.specs.Prelude.{◌≡◌, IfOk, IfErr};
ghost use Rattle.std.specs.FinMap.{len};
ghost use Rattle.query.specs.Query.{formula_of};
ghost use Rattle.watch.specs.CalledOff.{IsCalledOffOnlyIf};
ghost use Rattle.documents.specs.State.{State, IsState};
ghost use Rattle.documents.specs.Shared.{AreCandidates};

use crate::document::Candidates;
use prefixes::Prefixes;
use query::Query;
use std::alloc::Global;
use watch::{Unanswered, Watch};

/// Documents that can be searched, as some commands leave them.
pub trait Corpus {
    /// How many commands there were, and the documents that they leave.
    ghost state: { Self → State };

    /// The version: the number of commands.
    fn version(&self) -> u32
        ensures version { result ≡ (state self.now).version }
        ensures state { IsState (state self.now) };

    /// The number of documents.
    fn documents(&self) -> u32
        ensures { result ≡ len (state self.now).documents };

    /// How many documents have trigrams that meet the query, and those of them whose names begin with one of the prefixes, in the
    /// order of their names: all of them, or the first ones, of which there are `most` or more.
    ///
    /// `CalledOff` is returned only after `watch.wants()` said `false`, and nothing is asked after that. `OutOfMemory` means that memory
    /// ran out, that a name or a body has too many handles, or that the documents cannot be selected yet.
    fn candidates<W: Watch>(
        &self,
        alloc: Global,
        query: &Query,
        prefixes: &Prefixes,
        most: usize,
        watch: &mut W,
    ) -> Result<Candidates, Unanswered>
        ensures candidates { IfOk result (λ found. AreCandidates (formula_of query.now) prefixes.now most (state self.now).documents found) }
        ensures called_off { IfErr result (IsCalledOffOnlyIf (W.has_said_no watch.new)) };
}
