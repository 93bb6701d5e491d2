//! The contents that several documents have, each matched once before the documents.

ghost use Rattle.std.specs.Prelude.{◌≡◌, ◌≤◌, ℕ, IsTrue, List, [], ◌++◌, map, length, All, IfOk, IfErr, OnOk};
ghost use Rattle.ere.specs.Tree.{form};
ghost use Rattle.prepare.specs.Pattern.{Test as TestValue};
ghost use Rattle.prepare.specs.Tests.{test_of};
ghost use Rattle.views.specs.Places.{hits_at, IsPlaced};
ghost use Rattle.watch.specs.CalledOff.{IsCalledOffOnlyIf};
ghost use Rattle.search.specs.Selects.{IsAsked};
ghost use Rattle.views.specs.Found.{lines_of_document};
ghost use Rattle.search.specs.Private.Added.{AddsPlacesUpTo, AddsUpTo};
ghost use Rattle.search.specs.Private.Known.{EntryHasBody, HasBody, HasEnough, IsEntry, IsInside, moved_to, room_for};
ghost use Rattle.search.specs.Private.Ways.{Finds};
ghost use denote.Param.Send.{IsSync, IsSend};

use crate::gathered::{Wanted, asked, is_over, number_of};
use crate::matching::{is_reached, scan_body};
use crate::repeated::{Numbers, find_repeated};
use crate::side_by_side::{DOCUMENTS, PART, bytes_of, documents_with};
use crate::way::{Way, compile_for_lines, way_by};
use documents::{Held, SharedDocument};
use prepare::Test;
use std::alloc::Global;
use std::thread::{Threads, join};
use views::{Place, Places};
use watch::{Pace, Unanswered, Watch, ask};

/// How many places are added between two looks at whether the answer is wanted.
const PLACES: usize = 16_384;

/// The places of lines of one content, which hold under each of its names.
#[derive(Drop)]
pub(crate) struct Entry {
    /// The number of the content.
    pub(crate) number: u32,
    /// The content.
    pub(crate) held: Held,
    /// Whether these are all its lines that pass the test, and not only the first of them.
    pub(crate) whole: bool,
    /// Where they are.
    pub(crate) places: Vec<Place>,
}

/// Contents that were matched before the documents.
#[derive(Drop)]
pub(crate) struct Known {
    /// One entry for each of them.
    pub(crate) entries: Vec<Entry>,
    /// Where the entries are.
    pub(crate) numbers: Numbers,
}

impl Known {
    ghost use Rattle.std.specs.Prelude.{◌≡◌, [], Contains, IfSome};

    /// No content.
    pub(crate) fn none(alloc: Global) -> Known
        ensures { result.entries.items ≡ [] }
    {
        Known {
            entries: Vec::new(alloc),
            numbers: Numbers::none(alloc),
        }
    }

    /// The entry of the content with this number.
    pub(crate) fn entry(&self, number: u32) -> Option<&Entry>
        ensures { IfSome result (λ entry. Contains self.now.entries.items entry.now × (entry.now.number ≡ number)) }
    {
        if self.entries.is_empty() {
            return None;
        }
        let place = self.numbers.entry(number)?;
        let entry = self.entries.get(place)?;
        if entry.number != number {
            return None;
        }
        Some(entry)
    }
}

// ---- matching contents

/// Matches each content that several of the documents have, for what is wanted.
///
/// `CalledOff` is returned once `watch` says that the answer is not wanted. `OutOfMemory` means that memory ran out, or that a name or
/// a body has too many handles.
pub(crate) fn know<W: Watch>(
    alloc: Global,
    wanted: &Wanted<'_>,
    documents: &[SharedDocument],
    watch: &mut W,
) -> Result<Known, Unanswered>
    ensures entries { IfOk result (λ known. All (IsEntry (test_of wanted.now.prepared.now.line)) known.entries.items) }
    ensures bodies { IfOk result (λ known. (body : ℕ → List ℕ) → All (HasBody body) documents.now → All (EntryHasBody body) known.entries.items) }
    ensures called_off { IfErr result (IsCalledOffOnlyIf (W.has_said_no watch.new)) }
{
    let found = find_repeated(alloc, documents, watch)?;
    let entries = entries_of(alloc, wanted, found.firsts.as_slice(), watch)?;
    with_numbers(found.numbers, entries, watch)
}

/// The same, in up to `most` parts of about equal bytes, each in a thread of its own where one can be started.
pub(crate) fn know_side_by_side<R: Threads + Sync, W: Watch + Copy + Send>(
    rt: &R,
    alloc: Global,
    wanted: &Wanted<'_>,
    documents: &[SharedDocument],
    most: usize,
    watch: W,
) -> Result<Known, Unanswered>
    ensures entries { IfOk result (λ known. All (IsEntry (test_of wanted.now.prepared.now.line)) known.entries.items) }
    ensures bodies { IfOk result (λ known. (body : ℕ → List ℕ) → All (HasBody body) documents.now → All (EntryHasBody body) known.entries.items) }
    ensures called_off { IfErr result (IsCalledOffOnlyIf ((w : W) × W.has_said_no w)) }
{
    let mut own = watch;
    let found = find_repeated(alloc, documents, &mut own)?;
    let firsts = found.firsts.as_slice();
    let bytes = bytes_of(firsts, &mut own)?;
    let parts = (bytes / PART).min(most).max(1);
    let entries = entries_by_parts(rt, alloc, wanted, firsts, parts, watch)?;
    with_numbers(found.numbers, entries, &mut own)
}

/// The entries of these documents' contents, made in so many parts.
#[cycle(entries_by_parts)]
fn entries_by_parts<R: Threads + Sync, W: Watch + Copy + Send>(
    rt: &R,
    alloc: Global,
    wanted: &Wanted<'_>,
    documents: &[SharedDocument],
    parts: usize,
    watch: W,
) -> Result<Vec<Entry>, Unanswered>
    ensures entries { IfOk result (λ entries. All (IsEntry (test_of wanted.now.prepared.now.line)) entries.items) }
    ensures bodies { IfOk result (λ entries. (body : ℕ → List ℕ) → All (HasBody body) documents.now → All (EntryHasBody body) entries.items) }
    ensures called_off { IfErr result (IsCalledOffOnlyIf ((w : W) × W.has_said_no w)) }
{
    if parts < 2 {
        let mut watch = watch;
        return entries_of(alloc, wanted, documents, &mut watch);
    }
    let low = parts / 2;
    let high = parts - low;
    let mut own = watch;
    let bytes = bytes_of(documents, &mut own)?;
    let at = documents_with(documents, bytes / parts * low, &mut own)?;
    let (first, others) = documents.split_at(at);
    let front = move || -> Result<Vec<Entry>, Unanswered>
        requires { IsSync R.row × IsSend W.row }
        ensures entries { IfOk result (λ entries. All (IsEntry (test_of wanted.entry.now.prepared.now.line)) entries.items) }
        ensures bodies { IfOk result (λ entries. (body : ℕ → List ℕ) → All (HasBody body) first.entry.now → All (EntryHasBody body) entries.items) }
        ensures called_off { IfErr result (IsCalledOffOnlyIf ((w : W) × W.has_said_no w)) }
    { entries_by_parts(rt, alloc, wanted, first, low, watch) };
    let back = move || -> Result<Vec<Entry>, Unanswered>
        requires { IsSync R.row × IsSend W.row }
        ensures entries { IfOk result (λ entries. All (IsEntry (test_of wanted.entry.now.prepared.now.line)) entries.items) }
        ensures bodies { IfOk result (λ entries. (body : ℕ → List ℕ) → All (HasBody body) others.entry.now → All (EntryHasBody body) entries.items) }
        ensures called_off { IfErr result (IsCalledOffOnlyIf ((w : W) × W.has_said_no w)) }
    { entries_by_parts(rt, alloc, wanted, others, high, watch) };
    let (found, rest) = join(rt, front, back);
    let mut entries = found?;
    let mut rest = rest?;
    entries.append(&mut rest)?;
    Ok(entries)
}

/// The entries of these documents' contents. If there is none, the pattern is not compiled.
fn entries_of<W: Watch>(
    alloc: Global,
    wanted: &Wanted<'_>,
    documents: &[SharedDocument],
    watch: &mut W,
) -> Result<Vec<Entry>, Unanswered>
    ensures entries { IfOk result (λ entries. All (IsEntry (test_of wanted.now.prepared.now.line)) entries.items) }
    ensures bodies { IfOk result (λ entries. (body : ℕ → List ℕ) → All (HasBody body) documents.now → All (EntryHasBody body) entries.items) }
    ensures called_off { IfErr result (IsCalledOffOnlyIf (W.has_said_no watch.new)) }
{
    if documents.is_empty() {
        return Ok(Vec::new(alloc));
    }
    ask(watch)?;
    let compiled = compile_for_lines(alloc, &wanted.prepared.line.tree);
    ask(watch)?;
    let mut way = way_by(alloc, &wanted.prepared.line.tree, &compiled)?;
    entries_by(alloc, wanted, &mut way, documents, watch)
}

/// The same by this way. Once there are more lines, or names, than are shown, no further content is matched: the documents behind are
/// not looked at.
fn entries_by<W: Watch>(
    alloc: Global,
    wanted: &Wanted<'_>,
    way: &mut Way<'_>,
    documents: &[SharedDocument],
    watch: &mut W,
) -> Result<Vec<Entry>, Unanswered>
    requires way { Finds (form wanted.now.prepared.now.line.tree) way.old }
    ensures entries { IfOk result (λ entries. All (IsEntry (test_of wanted.now.prepared.now.line)) entries.items) }
    ensures bodies { IfOk result (λ entries. (body : ℕ → List ℕ) → All (HasBody body) documents.now → All (EntryHasBody body) entries.items) }
    ensures called_off { IfErr result (IsCalledOffOnlyIf (W.has_said_no watch.new)) }
{
    let most = asked(wanted.view, wanted.limit);
    let mut entries = Vec::new(alloc);
    let mut count = 0usize;
    for document in documents {
        if is_over(wanted.limit, count) {
            return Ok(entries);
        }
        ask(watch)?;
        let entry = entry_of(alloc, &wanted.prepared.line, way, document, most, watch)?;
        count = count.saturating_add(number_of(wanted.view, entry.places.len()));
        entries.push(entry)?;
    }
    Ok(entries)
}

/// The entry of this document's content, with up to `most` places.
fn entry_of<W: Watch>(
    alloc: Global,
    test: &Test,
    way: &mut Way<'_>,
    document: &SharedDocument,
    most: Option<usize>,
    watch: &mut W,
) -> Result<Entry, Unanswered>
    requires way { Finds (form test.now.tree) way.old }
    ensures way { Finds (form test.now.tree) way.new }
    ensures entry { IfOk result (IsEntry (test_of test.now)) }
    ensures bodies { IfOk result (λ entry. (body : ℕ → List ℕ) → HasBody body document.now → EntryHasBody body entry) }
    ensures called_off { IfErr result (IsCalledOffOnlyIf (W.has_said_no watch.new)) }
{
    let mut places = Vec::new(alloc);
    scan_body(test, way, 0, document.held.body(), most, &mut places, watch)?;
    let held = document.held.share()?;
    Ok(Entry {
        number: document.number,
        held,
        whole: !is_reached(most, places.len()),
        places,
    })
}

/// The same entries, to be found by their numbers.
fn with_numbers<W: Watch>(
    numbers: Numbers,
    entries: Vec<Entry>,
    watch: &mut W,
) -> Result<Known, Unanswered>
    ensures entries { IfOk result (λ known. known.entries.items ≡ entries.items) }
    ensures called_off { IfErr result (IsCalledOffOnlyIf (W.has_said_no watch.new)) }
{
    let mut numbers = numbers;
    let mut pace = Pace::each(DOCUMENTS);
    let mut place = 0u32;
    for entry in &entries {
        pace.look(watch)?;
        numbers.enter(entry.number, place);
        place = place.saturating_add(1);
    }
    Ok(Known { entries, numbers })
}

// ---- listing their lines

/// Whether the entry has so many places as are looked for, where there are `before` already, or all.
pub(crate) fn has_enough(entry: &Entry, most: Option<usize>, before: usize) -> bool
    ensures { IsTrue result → HasEnough most before entry.now }
{
    entry.whole || is_reached(most, before.saturating_add(entry.places.len()))
}

/// Adds the lines of an entry under the name of this document, and stops as soon as there are `most` hits.
///
/// `CalledOff` is returned once `watch` says that the answer is not wanted. `OutOfMemory` means that memory ran out, or that a name or
/// a body has too many handles. After an `Err` there are no hits.
pub(crate) fn list_entry<W: Watch>(
    entry: &Entry,
    document: &SharedDocument,
    most: Option<usize>,
    hits: &mut Places,
    watch: &mut W,
) -> Result<(), Unanswered>
    requires inside { IsInside entry.now }
    ensures hits { OnOk result ((test : TestValue) → IsEntry test entry.now → HasEnough most (length hits.old) entry.now
        → AddsUpTo most (IsAsked test) (lines_of_document document.now.name entry.now.held) hits.old hits.new) }
    ensures called_off { IfErr result (IsCalledOffOnlyIf (W.has_said_no watch.new)) }
{
    match add_entry(
        entry,
        document,
        most,
        &mut hits.documents,
        &mut hits.places,
        watch,
    ) {
        Ok(()) => Ok(()),
        Err(error) => {
            // Some places may be in no document that is there.
            hits.places.clear();
            Err(error)
        }
    }
}

/// Adds the places of an entry, until there are `most`, and a handle to its content under the name of this document if any are added.
/// An `Err` can leave places without their document.
fn add_entry<W: Watch>(
    entry: &Entry,
    document: &SharedDocument,
    most: Option<usize>,
    documents: &mut Vec<SharedDocument>,
    places: &mut Vec<Place>,
    watch: &mut W,
) -> Result<(), Unanswered>
    requires placed { All (IsPlaced documents.old.items) places.old.items }
    requires inside { IsInside entry.now }
    ensures placed { OnOk result (All (IsPlaced documents.new.items) places.new.items) }
    ensures hits { OnOk result ((test : TestValue) → IsEntry test entry.now → HasEnough most (length places.old.items) entry.now
        → AddsUpTo most (IsAsked test) (lines_of_document document.now.name entry.now.held)
        (hits_at documents.old.items places.old.items) (hits_at documents.new.items places.new.items)) }
    ensures called_off { IfErr result (IsCalledOffOnlyIf (W.has_said_no watch.new)) }
{
    let Ok(number) = u32::try_from(documents.len()) else {
        return Err(Unanswered::OutOfMemory);
    };
    let count = room_for(most, places.len(), entry.places.len());
    if count == 0 {
        return Ok(());
    }
    append_moved(places, &entry.places[..count], number, watch)?;
    let own = SharedDocument {
        number: document.number,
        name: document.name.share()?,
        held: entry.held.share()?,
    };
    documents.push(own)?;
    Ok(())
}

/// How many of so many places are added behind `before`, until there are `most`.
fn room_for(most: Option<usize>, before: usize, count: usize) -> usize
    ensures count { result ≡ room_for most before count }
    ensures within { result ≤ count }
{
    match most {
        Some(most) => most.saturating_sub(before).min(count),
        None => count,
    }
}

/// Appends these places, in the document with this number.
fn append_moved<W: Watch>(
    places: &mut Vec<Place>,
    added: &[Place],
    document: u32,
    watch: &mut W,
) -> Result<(), Unanswered>
    ensures places { OnOk result (places.new.items ≡ places.old.items ++ map (moved_to document) added.now) }
    ensures called_off { IfErr result (IsCalledOffOnlyIf (W.has_said_no watch.new)) }
{
    let mut pace = Pace::each(PLACES);
    for place in added {
        pace.look(watch)?;
        places.push(Place {
            document,
            line: place.line,
            start: place.start,
            end: place.end,
        })?;
    }
    Ok(())
}
