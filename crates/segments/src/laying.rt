//! Tables while they are made.

ghost use Rattle.std.specs.Prelude.{◌≡◌, ◌<◌, ◌≤◌, ◌++◌, ◌∷◌, [], IfOk, All};
ghost use Rattle.segments.specs.Private.PlaceBytes.{AreBelow};
ghost use Rattle.segments.specs.Private.Table.{place_set, laid};

use crate::places::push_set;
use crate::table::Table;
use std::alloc::{AllocError, Global};
use std::marker::Model;

/// A table while it is made: sets are added, each with a trigram above those before it.
///
/// Contracts see it as a number that all places are below, and the list of the sets.
#[derive(Drop)]
pub(crate) struct Laying {
    count: usize,
    trigrams: Vec<u32>,
    ends: Vec<usize>,
    bytes: Vec<u8>,
    /// How many places all sets have together, or 2^64 - 1 if they have more.
    pairs: u64,
}

impl Model for Laying {
    ghost use Rattle.segments.specs.Private.Table.{Laid, laid, sets_from, IsCountedTable};

    ghost Value = { Laid };

    ghost view = { λ l. laid l.count (sets_from l.count 0 l.trigrams.items l.ends.items l.bytes.items) };

    ghost invariant = { λ l. IsCountedTable l.count l.trigrams.items l.ends.items l.bytes.items l.pairs };
}

impl Laying {
    /// No sets yet. All places will be below `count`.
    pub(crate) fn new(alloc: Global, count: usize) -> Laying
        requires { count ≤ 4294967296 }
        ensures { result ≡ laid count [] }
    {
        Laying {
            count,
            trigrams: Vec::new(alloc),
            ends: Vec::new(alloc),
            bytes: Vec::new(alloc),
            pairs: 0,
        }
    }

    /// The same with one more set, whose trigram is above all others. An `Err` means that memory ran out.
    pub(crate) fn with(self, trigram: u32, places: &[u32]) -> Result<Laying, AllocError>
        requires above { All (λ s. s.trigram < trigram) self.sets }
        requires places { AreBelow self.count places.now }
        ensures { IfOk result (λ more. more ≡ laid self.count (self.sets ++ place_set trigram places.now ∷ [])) }
    {
        let mut more = self;
        push_set(&mut more.bytes, more.count, places)?;
        more.ends.push(more.bytes.len())?;
        more.trigrams.push(trigram)?;
        more.pairs = more.pairs.saturating_add(places.len() as u64);
        Ok(more)
    }

    /// The table of the sets, in no more memory than it needs.
    pub(crate) fn finish(self) -> Table
        ensures { result ≡ self.sets }
    {
        let mut whole = self;
        whole.trigrams.shrink_to_fit();
        whole.ends.shrink_to_fit();
        whole.bytes.shrink_to_fit();
        Table::new(
            whole.count,
            whole.trigrams,
            whole.ends,
            whole.bytes,
            whole.pairs,
        )
    }
}
