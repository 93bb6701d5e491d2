//! Segments, and how several become one.

ghost use Rattle.std.specs.Prelude.{◌≡◌, ◌<◌, ◌≤◌, ◌++◌, IfOk, IfErr, OnOk, All, min, length};
ghost use Rattle.query.specs.Query.{formula_of};
ghost use Rattle.watch.specs.CalledOff.{IsCalledOffOnlyIf};
ghost use Rattle.segments.specs.Contents.{numbers_of, pairs_in, selected, AllDiffer, contents_in, kept};
ghost use Rattle.segments.specs.Private.Joins.{AddsPlaces, AddsTrigrams};
ghost use Rattle.segments.specs.Private.Places.{contents_at, IsSegment};
ghost use Rattle.std.specs.List.Sorted.{IsStrictlyIncreasing};

use crate::join::{joined, push_targets};
use crate::merge::kept_numbers;
use crate::select::{narrow, numbers_at};
use crate::table::Table;
use query::Query;
use std::alloc::{AllocError, Global};
use std::marker::Model;
use watch::{Unanswered, Watch};

/// The trigrams of a list of contents. It is made once and never changes.
///
/// Contracts see it as the list of its contents, each with its number and its trigrams.
#[derive(Drop)]
pub struct Segment {
    /// The numbers of the contents, rising. The place of a content is that of its number here.
    numbers: Vec<u32>,
    /// For each trigram that some content has, the places of the contents that have it.
    table: Table,
}

impl Model for Segment {
    ghost use Rattle.std.specs.Prelude.{List};
    ghost use Rattle.segments.specs.Contents.{Content};
    ghost use Rattle.segments.specs.Private.Places.{contents_at, IsSegment};

    ghost Value = { List Content };

    ghost view = { λ s. contents_at s.numbers.items s.table };

    ghost invariant = { λ s. IsSegment s.numbers.items s.table };
}

impl Segment {
    /// One segment of those contents of these segments that have one of the numbers to be kept. No two contents of the
    /// segments have the same number, and those to be kept rise; a number that no content has is passed over.
    ///
    /// An `Err` means that memory ran out.
    pub fn merge(alloc: Global, segments: &[&Segment], keep: &[u32]) -> Result<Segment, AllocError>
        requires differ { AllDiffer (contents_in segments.now) }
        requires rising { IsStrictlyIncreasing keep.now }
        ensures { IfOk result (λ merged. merged ≡ kept keep.now (contents_in segments.now)) }
    {
        let numbers = kept_numbers(alloc, segments, keep)?;
        let table = joined(alloc, segments, numbers.as_slice())?;
        Ok(Segment { numbers, table })
    }

    /// The segment of contents with these numbers, whose trigrams are in the table.
    pub(crate) fn of(numbers: Vec<u32>, table: Table) -> Segment
        requires { IsSegment numbers.items table }
        ensures { result ≡ contents_at numbers.items table }
    {
        Segment { numbers, table }
    }

    /// Adds the trigrams that some content has.
    pub(crate) fn push_trigrams(&self, trigrams: &mut Vec<u32>) -> Result<(), AllocError>
        ensures { OnOk result (AddsTrigrams self.now trigrams.old.items trigrams.new.items) }
    {
        self.table.push_trigrams(trigrams)
    }

    /// Adds the targets of the contents that have the trigram. There is one target, or none, for each content. What `read` has
    /// does not matter, nor does `next`, by which it is quick for one trigram after the other in their order.
    pub(crate) fn push_places(
        &self,
        trigram: u32,
        targets: &[Option<u32>],
        next: &mut usize,
        read: &mut Vec<u32>,
        places: &mut Vec<u32>,
    ) -> Result<(), AllocError>
        requires { length targets.now ≡ length self.now }
        ensures { OnOk result (AddsPlaces trigram targets.now self.now places.old.items places.new.items) }
    {
        read.clear();
        self.table.places_near(trigram, next).push_to(read)?;
        push_targets(read.as_slice(), targets, places)
    }

    /// How many contents there are.
    pub fn len(&self) -> usize
        ensures { result ≡ length self.now }
    {
        self.numbers.len()
    }

    /// How many pairs of a content and a trigram that it has there are, or 2^64 - 1 if there are more. This takes no time.
    pub fn pairs(&self) -> u64
        ensures { result ≡ min (pairs_in self.now) 18446744073709551615 }
    {
        self.table.pairs()
    }

    /// The numbers of the contents, rising.
    pub fn numbers(&self) -> &[u32]
        ensures { result.now ≡ numbers_of self.now }
    {
        self.numbers.as_slice()
    }

    /// Adds the numbers of the contents, rising. An `Err` means that memory ran out.
    pub fn push_numbers(&self, numbers: &mut Vec<u32>) -> Result<(), AllocError>
        ensures { OnOk result (numbers.new.items ≡ numbers.old.items ++ numbers_of self.now) }
    {
        numbers.extend_from_slice(self.numbers())?;
        Ok(())
    }

    /// The numbers of the contents whose trigrams meet the query, rising.
    ///
    /// Calls nest as deep as the query is high.
    ///
    /// An `Err` means that memory ran out, or that `watch` called it off.
    pub fn select<W: Watch>(
        &self,
        alloc: Global,
        query: &Query,
        watch: &mut W,
    ) -> Result<Vec<u32>, Unanswered>
        ensures chosen { IfOk result (λ numbers. numbers.items ≡ selected (formula_of query.now) self.now) }
        ensures called_off { IfErr result (IsCalledOffOnlyIf (W.has_said_no watch.new)) }
    {
        let places = narrow(&self.table, alloc, query, self.numbers.len(), None, watch)?;
        numbers_at(alloc, self.numbers.as_slice(), places.as_slice(), watch)
    }
}
