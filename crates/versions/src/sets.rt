//! The segments of an index.

ghost use Rattle.std.specs.Prelude.{◌≡◌, ◌++◌, ℕ, [], IfOk, IfErr};
ghost use Rattle.std.specs.List.Sorted.{IsStrictlyIncreasing};
ghost use Rattle.query.specs.Query.{formula_of};
ghost use Rattle.watch.specs.CalledOff.{IsCalledOffOnlyIf};
ghost use Rattle.segments.specs.Contents.{has, selected, AllDiffer};
ghost use Rattle.versions.specs.Private.Version.{said};
ghost use Rattle.versions.specs.Private.Merging.{KeepsNamed};

use crate::merging::{due, merged};
use names::Names;
use query::Query;
use segments::Segment;
use std::alloc::{AllocError, Global};
use std::marker::Model;
use std::sync::Arc;
use watch::{Unanswered, Watch};

/// Segments. It costs a handle for each of them to have them twice.
///
/// Contracts see the list of their contents, one segment's after the other's.
#[derive(Drop)]
pub(crate) struct Sets {
    segments: Vec<Arc<Segment>>,
}

impl Model for Sets {
    ghost use Rattle.std.specs.Prelude.{List};
    ghost use Rattle.segments.specs.Contents.{Content};
    ghost use Rattle.versions.specs.Private.Version.{said};

    ghost Value = { List Content };

    ghost view = { λ s. said s.segments.items };
}

impl Sets {
    /// No segments. This takes no memory.
    pub(crate) fn new(alloc: Global) -> Sets
        ensures { result ≡ [] }
    {
        Sets {
            segments: Vec::new(alloc),
        }
    }

    /// These segments.
    pub(crate) fn of(segments: Vec<Arc<Segment>>) -> Sets
        ensures { result ≡ said segments.items }
    {
        Sets { segments }
    }

    /// The segments, of which the last ones become one if that is due, and memory suffices: contents that none of these names has go
    /// then.
    pub(crate) fn settled(self, names: &Names) -> Sets
        requires differ { AllDiffer self }
        ensures { KeepsNamed names.now self result }
    {
        let due = due(&self.segments, names);
        if due == 0 {
            return self;
        }
        let at = self.segments.len().saturating_sub(due);
        let (old, new) = self.segments.split_at(at);
        match merged(self.allocator(), old, new, names) {
            Ok(sets) => sets,
            Err(_) => self,
        }
    }

    /// Where its memory comes from.
    pub(crate) fn allocator(&self) -> Global {
        *self.segments.allocator()
    }

    /// The same segments again. An `Err` means that memory ran out, or that a segment has too many handles.
    pub(crate) fn share(&self) -> Result<Sets, AllocError>
        ensures { IfOk result (λ sets. sets ≡ self.now) }
    {
        let segments = shared(&self.segments, self.allocator())?;
        Ok(Sets { segments })
    }

    /// The segments with one more. An `Err` means that memory ran out.
    pub(crate) fn with(self, segment: Segment) -> Result<Sets, AllocError>
        ensures { IfOk result (λ sets. sets ≡ self ++ segment) }
    {
        let Sets { mut segments } = self;
        let alloc = *segments.allocator();
        segments.push(Arc::new(alloc, segment)?)?;
        Ok(Sets { segments })
    }

    /// The segments, and then those of the others. An `Err` means that memory ran out.
    pub(crate) fn joined(self, others: Sets) -> Result<Sets, AllocError>
        ensures { IfOk result (λ sets. sets ≡ self ++ others) }
    {
        let Sets { mut segments } = self;
        let Sets { segments: mut more } = others;
        segments.append(&mut more)?;
        Ok(Sets { segments })
    }

    /// The numbers of the contents that meet the query, rising. An `Err` means that memory ran out, or that `watch` called it off.
    pub(crate) fn select<W: Watch>(
        &self,
        alloc: Global,
        query: &Query,
        watch: &mut W,
    ) -> Result<Vec<u32>, Unanswered>
        ensures rising { IfOk result (λ numbers. IsStrictlyIncreasing numbers.items) }
        ensures chosen { IfOk result (λ numbers. (n : ℕ) → has numbers.items n ≡ has (selected (formula_of query.now) self.now) n) }
        ensures called_off { IfErr result (IsCalledOffOnlyIf (W.has_said_no watch.new)) }
    {
        let mut numbers = Vec::new(alloc);
        for segment in &self.segments {
            let found = segment.select(alloc, query, watch)?;
            numbers.extend_from_slice(found.as_slice())?;
        }
        numbers.sort_unstable();
        numbers.dedup();
        Ok(numbers)
    }
}

/// Another handle to each of these segments.
pub(crate) fn shared(
    segments: &[Arc<Segment>],
    alloc: Global,
) -> Result<Vec<Arc<Segment>>, AllocError>
    ensures { IfOk result (λ shared. said shared.items ≡ said segments.now) }
{
    let mut shared = Vec::with_capacity(alloc, segments.len())?;
    for segment in segments {
        shared.push(Arc::try_clone(segment)?)?;
    }
    Ok(shared)
}
