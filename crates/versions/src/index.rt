//! An index that can be searched.

ghost use Rattle.std.specs.Prelude.{◌≡◌, ◌<◌, ◌^◌, [], option_map, IfOk};
ghost use Rattle.std.specs.FinMap.{get, len};
ghost use Rattle.documents.specs.State.{state, state_of, body_bytes};
ghost use Rattle.versions.specs.Private.Version.{bodies_of, IsVersion};

use crate::bodies::body_under;
use crate::draft::Draft;
use crate::gather::gather;
use crate::sets::Sets;
use documents::{Body, Candidates, Corpus, Name};
use names::Names;
use prefixes::Prefixes;
use query::Query;
use std::alloc::{AllocError, Global};
use std::marker::Model;
use watch::{Unanswered, Watch};

/// The documents that commands leave, with the trigrams of all their bodies. It never changes: commands are applied to a `Draft`.
///
/// Contracts see it as its state: how many commands were applied, and the body under each name.
#[derive(Drop)]
pub struct Index {
    version: u32,
    names: Names,
    /// All contents that have a name are there.
    sets: Sets,
}

impl Model for Index {
    ghost use Rattle.documents.specs.State.{State, state, state_code};
    ghost use Rattle.versions.specs.Private.Version.{bodies_of, IsDraft};

    ghost Value = { State };

    ghost coded = { state_code };

    ghost view = { λ i. state i.version (bodies_of i.names) };

    ghost invariant = { λ i. IsDraft i.version i.version i.names i.sets };
}

impl Index {
    /// The index with no commands. It takes no memory.
    pub fn new(alloc: Global) -> Index
        ensures { result ≡ state_of [] }
    {
        Index::of(0, Names::new(alloc), Sets::new(alloc))
    }

    /// The same index again. An `Err` means that memory ran out, or that something has too many handles.
    pub fn share(&self) -> Result<Index, AllocError>
        ensures { IfOk result (λ index. index ≡ self.now) }
    {
        Ok(Index::of(self.version, self.names.share()?, self.sets.share()?))
    }

    /// The same documents, to which commands can be applied. An `Err` is as that of `share`.
    pub fn draft(&self) -> Result<Draft, AllocError>
        ensures { IfOk result (λ draft. draft ≡ self.now) }
    {
        Ok(Draft::of(
            self.version,
            self.version,
            self.names.share()?,
            self.sets.share()?,
        ))
    }

    /// The total length of the documents' bodies, in bytes. A body that several documents have counts for each of them.
    pub fn held_bytes(&self) -> u64
        ensures { result ≡ body_bytes self.now.documents }
    {
        self.names.bytes()
    }

    /// The body of the document with this name, if there is one.
    pub fn body(&self, name: &Name) -> Option<&Body>
        ensures { option_map (λ body. body.now) result ≡ get self.now.documents name.now }
    {
        body_under(&self.names, name)
    }

    /// The index of a version whose contents are all in the segments.
    pub(crate) fn of(version: u32, names: Names, sets: Sets) -> Index
        requires whole { IsVersion version version names sets }
        requires few { len names < 2 ^ 32 }
        ensures { result ≡ state version (bodies_of names) }
    {
        Index {
            version,
            names,
            sets,
        }
    }
}

impl Corpus for Index {
    ghost state = { λ s. s };

    fn version(&self) -> u32 {
        self.version
    }

    fn documents(&self) -> u32 {
        self.names.len() as u32
    }

    /// Each segment is asked for the contents that meet the query, and then the names that have them are gone through.
    fn candidates<W: Watch>(
        &self,
        alloc: Global,
        query: &Query,
        prefixes: &Prefixes,
        most: usize,
        watch: &mut W,
    ) -> Result<Candidates, Unanswered> {
        let chosen = self.sets.select(alloc, query, watch)?;
        let found = self.names.chosen(alloc, &chosen, prefixes, most, watch)?;
        let documents = gather(alloc, &found.named, watch)?;
        Ok(Candidates {
            count: found.count as u32,
            documents,
        })
    }
}
