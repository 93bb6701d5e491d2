//! Which contents of a segment meet a query.

ghost use Rattle.std.specs.Prelude.{◌≡◌, ◌<◌, ◌≤◌, ◌||◌, ℕ, [], IfOk, IfErr, IsTrue, All, length, map, filter, slice_index, slice_index_or, false};
ghost use Rattle.std.specs.List.{list_all};
ghost use Rattle.std.specs.List.Sorted.{IsStrictlyIncreasing};
ghost use Rattle.query.specs.Query.{formula_of, formulas_of, texts, all_of, one_of};
ghost use Rattle.query.specs.Pairs.{texts_in};
ghost use Rattle.watch.specs.CalledOff.{IsCalledOffOnlyIf};
ghost use Rattle.segments.specs.Contents.{has};
ghost use Rattle.segments.specs.Private.Selection.{chosen, trigrams_with, places_within, Fits, Rises};

use crate::places::PACE;
use crate::table::Table;
use crate::within::{all_within, end_of, is_none_within, mark, marked_within, those_with};
use query::{Pairs, Query, Trigram, trigrams_in_turn};
use std::alloc::Global;
use watch::{Pace, Unanswered, Watch};

/// The numbers at these places.
pub(crate) fn numbers_at<W: Watch>(
    alloc: Global,
    numbers: &[u32],
    places: &[u32],
    watch: &mut W,
) -> Result<Vec<u32>, Unanswered>
    requires { All (λ p. p < length numbers.now) places.now }
    ensures numbers { IfOk result (λ found. found.items ≡ map (λ p. slice_index numbers.now p) places.now) }
    ensures called_off { IfErr result (IsCalledOffOnlyIf (W.has_said_no watch.new)) }
{
    let mut pace = Pace::each(PACE);
    let mut found = Vec::with_capacity(alloc, places.len())?;
    for place in places {
        pace.look(watch)?;
        found.push(numbers[*place as usize])?;
    }
    Ok(found)
}

/// Those places that meet the query, of these, or of all below `count`.
#[cycle(narrow)]
pub(crate) fn narrow<W: Watch>(
    table: &Table,
    alloc: Global,
    query: &Query,
    count: usize,
    within: Option<&[u32]>,
    watch: &mut W,
) -> Result<Vec<u32>, Unanswered>
    requires fits { Fits count table.now }
    requires rises { Rises (places_within count within) }
    ensures chosen { IfOk result (λ found. found.items ≡ chosen table.now (formula_of query.now) (places_within count within.entry)) }
    ensures called_off { IfErr result (IsCalledOffOnlyIf (W.has_said_no watch.new)) }
{
    if is_none_within(count, within) {
        return Ok(Vec::new(alloc));
    }
    match query {
        Query::Any => all_within(alloc, count, within, watch),
        Query::None => Ok(Vec::new(alloc)),
        Query::Has(trigram) => those_with(table, alloc, *trigram, count, within, watch),
        Query::Pairs(pairs) => narrow_by_texts(table, alloc, pairs, count, within, watch),
        Query::And(members) => {
            narrow_by_all(table, alloc, members.as_slice(), count, within, watch)
        }
        Query::Or(members) => {
            narrow_by_any(table, alloc, members.as_slice(), count, within, watch)
        }
    }
}

/// The member that the fewest places can meet comes first, so the longer sets are examined for few places.
#[cycle(narrow)]
fn narrow_by_all<W: Watch>(
    table: &Table,
    alloc: Global,
    members: &[Query],
    count: usize,
    within: Option<&[u32]>,
    watch: &mut W,
) -> Result<Vec<u32>, Unanswered>
    requires fits { Fits count table.now }
    requires rises { Rises (places_within count within) }
    ensures chosen { IfOk result (λ found. found.items
        ≡ chosen table.now (all_of (formulas_of (map formula_of members.now))) (places_within count within.entry)) }
    ensures called_off { IfErr result (IsCalledOffOnlyIf (W.has_said_no watch.new)) }
{
    let first = fewest(table, members, watch)?;
    let mut found = match members.get(first) {
        Some(member) => narrow(table, alloc, member, count, within, watch)?,
        None => all_within(alloc, count, within, watch)?,
    };
    for i in 0..members.len() {
        if i != first {
            found = narrow(
                table,
                alloc,
                &members[i],
                count,
                Some(found.as_slice()),
                watch,
            )?;
        }
    }
    Ok(found)
}

#[cycle(narrow)]
fn narrow_by_any<W: Watch>(
    table: &Table,
    alloc: Global,
    members: &[Query],
    count: usize,
    within: Option<&[u32]>,
    watch: &mut W,
) -> Result<Vec<u32>, Unanswered>
    requires fits { Fits count table.now }
    requires rises { Rises (places_within count within) }
    ensures chosen { IfOk result (λ found. found.items
        ≡ chosen table.now (one_of (formulas_of (map formula_of members.now))) (places_within count within.entry)) }
    ensures called_off { IfErr result (IsCalledOffOnlyIf (W.has_said_no watch.new)) }
{
    let mut marks = vec![in alloc; false; end_of(count, within)]?;
    for member in members {
        let found = narrow(table, alloc, member, count, within, watch)?;
        mark(&mut marks, found.as_slice());
    }
    marked_within(alloc, count, within, &marks, watch)
}

/// Those of the places whose trigrams have all those of one of the texts.
fn narrow_by_texts<W: Watch>(
    table: &Table,
    alloc: Global,
    pairs: &Pairs,
    count: usize,
    within: Option<&[u32]>,
    watch: &mut W,
) -> Result<Vec<u32>, Unanswered>
    requires fits { Fits count table.now }
    requires rises { Rises (places_within count within) }
    ensures chosen { IfOk result (λ found. found.items ≡ chosen table.now (texts (texts_in pairs.now)) (places_within count within.entry)) }
    ensures called_off { IfErr result (IsCalledOffOnlyIf (W.has_said_no watch.new)) }
{
    let texts = pairs.texts(alloc)?;
    let mut marks = vec![in alloc; false; end_of(count, within)]?;
    for text in &texts {
        let trigrams = trigrams_in_turn(alloc, text.as_slice())?;
        let found = narrow_by_trigrams(table, alloc, trigrams.as_slice(), count, within, watch)?;
        mark(&mut marks, found.as_slice());
    }
    marked_within(alloc, count, within, &marks, watch)
}

/// Those of the places that have all of these trigrams. The rarest comes first.
fn narrow_by_trigrams<W: Watch>(
    table: &Table,
    alloc: Global,
    trigrams: &[Trigram],
    count: usize,
    within: Option<&[u32]>,
    watch: &mut W,
) -> Result<Vec<u32>, Unanswered>
    requires fits { Fits count table.now }
    requires rises { Rises (places_within count within) }
    ensures found { IfOk result (λ found. found.items
        ≡ filter (λ p. list_all (trigrams_with table.now p) trigrams.now) (places_within count within.entry)) }
    ensures called_off { IfErr result (IsCalledOffOnlyIf (W.has_said_no watch.new)) }
{
    let first = rarest(table, trigrams, watch)?;
    let mut found = match trigrams.get(first) {
        Some(trigram) => those_with(table, alloc, *trigram, count, within, watch)?,
        None => all_within(alloc, count, within, watch)?,
    };
    for i in 0..trigrams.len() {
        if found.is_empty() {
            return Ok(found);
        }
        if i != first {
            found = table
                .places(trigrams[i])
                .among(alloc, found.as_slice(), watch)?;
        }
    }
    Ok(found)
}

/// The place of the trigram that the fewest contents have (the first such).
fn rarest<W: Watch>(table: &Table, trigrams: &[Trigram], watch: &mut W) -> Result<usize, Unanswered>
    ensures { IfErr result (IsCalledOffOnlyIf (W.has_said_no watch.new)) }
{
    let mut pace = Pace::each(PACE);
    let mut first = 0;
    let mut fewest = usize::MAX;
    for (i, trigram) in trigrams.iter().enumerate() {
        pace.look(watch)?;
        let size = table.places(*trigram).size();
        if size == 0 {
            return Ok(i);
        }
        if size < fewest {
            first = i;
            fewest = size;
        }
    }
    Ok(first)
}

/// The place of the member that the fewest contents can meet, by what is quickly known (the first such).
fn fewest<W: Watch>(table: &Table, members: &[Query], watch: &mut W) -> Result<usize, Unanswered>
    ensures { IfErr result (IsCalledOffOnlyIf (W.has_said_no watch.new)) }
{
    let mut pace = Pace::each(PACE);
    let mut first = 0;
    let mut fewest = usize::MAX;
    for (i, member) in members.iter().enumerate() {
        pace.look(watch)?;
        let size = most(table, member);
        if size == 0 {
            return Ok(i);
        }
        if size < fewest {
            first = i;
            fewest = size;
        }
    }
    Ok(first)
}

/// So many bytes at most tell which contents meet the query, as far as it is quickly known.
fn most(table: &Table, query: &Query) -> usize {
    match query {
        Query::None => 0,
        Query::Has(trigram) => table.places(*trigram).size(),
        _ => usize::MAX,
    }
}
