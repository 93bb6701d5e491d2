//! What is shown of documents, gathered document after document.

ghost use Rattle.std.specs.List.Sorted.{IsStrictlyIncreasing};
ghost use Rattle.std.specs.Prelude.{All, map, ◌≡◌, ◌+◌, ◌≤◌, ◌∷◌, [], false, length, take, drop, IfOk, IfErr, OnOk};
ghost use Rattle.ere.specs.Tree.{form};
ghost use Rattle.watch.specs.CalledOff.{IsCalledOffOnlyIf};
ghost use Rattle.watch.specs.declared.unanswered.Unanswered.TheVariants.{OutOfMemory};
ghost use Rattle.search.specs.Private.Known.{AreTold, FindsHits, IsTold, Knows};
ghost use Rattle.search.specs.Private.Gathered.{Gathers, GathersMore, HaveOwnNames, AddsRows, all_or_one, asked, beyond, kept_of, left_from, number_of, one_more, shown_hits, shows_lines};
ghost use Rattle.search.specs.Private.Seekers.{CanShow, IsOneLine};
ghost use Rattle.search.specs.Private.Ways.{AreFew, Finds};
ghost use Rattle.views.specs.Rows.{at_most, is_over, limited};
ghost use Rattle.views.specs.View.{shows_names};

use crate::known::{Known, has_enough, list_entry};
use crate::matching::{few_documents, scan_document};
use crate::rows::append_rows;
use crate::seeker::{Seeker, compile_shown, shown_seeker};
use crate::way::{Way, compile_for_lines, found_by, way_by};
use documents::SharedDocument;
use prepare::Prepared;
use request::View;
use std::alloc::Global;
use views::{FoundBy, Lines, Places};
use watch::{Unanswered, Watch, ask};

/// What is to be gathered.
#[derive(Clone, Copy)]
pub(crate) struct Wanted<'p> {
    /// What is searched for.
    pub(crate) prepared: &'p Prepared,
    /// What is shown of lines. For an answer it is `View::Lines`, whatever the view that is asked for.
    pub(crate) view: View,
    /// The most lines, or names, that are shown.
    pub(crate) limit: Option<u32>,
    /// The contents that were matched before.
    pub(crate) known: &'p Known,
}

/// What is shown of some documents.
#[derive(Drop)]
pub(crate) struct Gathered {
    /// Where lines alone are shown, these lines; otherwise none.
    pub(crate) hits: Places,
    /// Where other rows are shown, their text.
    pub(crate) text: Vec<u8>,
    /// How many rows there are.
    pub(crate) rows: usize,
    /// How many lines are shown, or names.
    pub(crate) count: usize,
    /// Whether there are more of them.
    pub(crate) more: bool,
    /// By which way lines were looked at, after the first few.
    pub(crate) found_by: FoundBy,
}

/// What is shown of these documents, which have different names. Where lines near hits are shown, the first stretch has
/// a gap before it too. No line is looked at once it is known that there are more than are shown. `watch` is asked whether
/// the answer is wanted before each document, before each further piece of one, and before each pass over a line that
/// looks for a column or a span.
///
/// `CalledOff` is returned once `watch` says that the answer is not wanted. `OutOfMemory` means that memory ran out, or
/// that a name or a body has too many handles.
pub(crate) fn gather<W: Watch>(
    alloc: Global,
    wanted: &Wanted<'_>,
    documents: &[SharedDocument],
    watch: &mut W,
) -> Result<Gathered, Unanswered>
    requires known { Knows wanted.now }
    ensures gathers { IfOk result (λ gathered. HaveOwnNames documents.now → AreTold wanted.now documents.now → Gathers wanted.now documents.now gathered) }
    ensures called_off { IfErr result (IsCalledOffOnlyIf (W.has_said_no watch.new)) }
{
    let mut gathered = Gathered {
        hits: Places::new(alloc),
        text: Vec::new(alloc),
        rows: 0,
        count: 0,
        more: false,
        found_by: FoundBy::Matcher,
    };
    let few = gather_few(alloc, wanted, documents, &mut gathered, watch)?;
    gather_compiled(alloc, wanted, &documents[few..], &mut gathered, watch)?;
    Ok(gathered)
}

/// Gathers from the first few documents (see `few_documents`), looking at each line by itself. Returns how many documents these
/// are.
fn gather_few<W: Watch>(
    alloc: Global,
    wanted: &Wanted<'_>,
    documents: &[SharedDocument],
    gathered: &mut Gathered,
    watch: &mut W,
) -> Result<usize, Unanswered>
    requires known { Knows wanted.now }
    ensures few { IfOk result (AreFew (form wanted.now.prepared.now.line.tree) documents.now) }
    ensures gathers { IfOk result (λ few. AreTold wanted.now documents.now → GathersMore wanted.now (take few documents.now) gathered.old gathered.new) }
    ensures called_off { IfErr result (IsCalledOffOnlyIf (W.has_said_no watch.new)) }
{
    let few = few_documents(&wanted.prepared.line, documents);
    if few == 0 {
        return Ok(0);
    }
    let mut way = Way::Matcher;
    let none = None;
    let mut seeker = shown_seeker(alloc, wanted, &none)?;
    gather_by(
        wanted,
        &mut way,
        &mut seeker,
        &documents[..few],
        gathered,
        watch,
    )?;
    Ok(few)
}

/// Gathers from these documents, by the compiled pattern if there is one. If there is nothing to be looked at, the pattern is
/// not compiled.
fn gather_compiled<W: Watch>(
    alloc: Global,
    wanted: &Wanted<'_>,
    documents: &[SharedDocument],
    gathered: &mut Gathered,
    watch: &mut W,
) -> Result<(), Unanswered>
    requires known { Knows wanted.now }
    ensures gathers { OnOk result (AreTold wanted.now documents.now → GathersMore wanted.now documents.now gathered.old gathered.new) }
    ensures called_off { IfErr result (IsCalledOffOnlyIf (W.has_said_no watch.new)) }
{
    if documents.is_empty() {
        return Ok(());
    }
    if gathered.more {
        return Ok(());
    }
    ask(watch)?;
    let compiled = compile_for_lines(alloc, &wanted.prepared.line.tree);
    ask(watch)?;
    let mut way = way_by(alloc, &wanted.prepared.line.tree, &compiled)?;
    gathered.found_by = found_by(&way);
    ask(watch)?;
    let shown = compile_shown(alloc, wanted);
    ask(watch)?;
    let mut seeker = shown_seeker(alloc, wanted, &shown)?;
    gather_by(wanted, &mut way, &mut seeker, documents, gathered, watch)
}

/// Gathers from these documents, by this way and with this seeker.
fn gather_by<W: Watch>(
    wanted: &Wanted<'_>,
    way: &mut Way<'_>,
    seeker: &mut Option<Seeker<'_>>,
    documents: &[SharedDocument],
    gathered: &mut Gathered,
    watch: &mut W,
) -> Result<(), Unanswered>
    requires way { Finds (form wanted.now.prepared.now.line.tree) way.old }
    requires seeker { CanShow wanted.now seeker.old }
    requires known { Knows wanted.now }
    ensures gathers { OnOk result (AreTold wanted.now documents.now → GathersMore wanted.now documents.now gathered.old gathered.new) }
    ensures called_off { IfErr result (IsCalledOffOnlyIf (W.has_said_no watch.new)) }
{
    for document in documents {
        if gathered.more {
            return Ok(());
        }
        ask(watch)?;
        gather_one(wanted, way, seeker, document, gathered, watch)?;
    }
    Ok(())
}

/// Gathers from one document: looks for as many of its hits as say what is shown of it, and adds its rows.
fn gather_one<W: Watch>(
    wanted: &Wanted<'_>,
    way: &mut Way<'_>,
    seeker: &mut Option<Seeker<'_>>,
    document: &SharedDocument,
    gathered: &mut Gathered,
    watch: &mut W,
) -> Result<(), Unanswered>
    requires way { Finds (form wanted.now.prepared.now.line.tree) way.old }
    requires seeker { CanShow wanted.now seeker.old }
    requires known { Knows wanted.now }
    requires more { gathered.old.more ≡ false }
    ensures way { Finds (form wanted.now.prepared.now.line.tree) way.new }
    ensures seeker { CanShow wanted.now seeker.new }
    ensures gathers { OnOk result (IsTold wanted.now.known.now.entries.items document.now → GathersMore wanted.now (document.now ∷ []) gathered.old gathered.new) }
    ensures called_off { IfErr result (IsCalledOffOnlyIf (W.has_said_no watch.new)) }
{
    let left = left_of(wanted.limit, gathered.count);
    let before = gathered.hits.lines().len();
    let most = beyond(before, asked(wanted.view, left))?;
    find_hits(wanted, way, document, most, &mut gathered.hits, watch)?;
    add_rows(wanted, left, before, document, seeker, gathered, watch)?;
    keep(wanted, &mut gathered.hits);
    Ok(())
}

/// Adds the hits of one document, and stops as soon as there are `most`. If its content was matched before, it is not matched again.
///
/// After an `Err` there are no hits.
fn find_hits<W: Watch>(
    wanted: &Wanted<'_>,
    way: &mut Way<'_>,
    document: &SharedDocument,
    most: Option<usize>,
    hits: &mut Places,
    watch: &mut W,
) -> Result<(), Unanswered>
    requires way { Finds (form wanted.now.prepared.now.line.tree) way.old }
    requires known { Knows wanted.now }
    ensures way { Finds (form wanted.now.prepared.now.line.tree) way.new }
    ensures hits { OnOk result (FindsHits wanted.now document.now most hits.old hits.new) }
    ensures called_off { IfErr result (IsCalledOffOnlyIf (W.has_said_no watch.new)) }
{
    if let Some(entry) = wanted.known.entry(document.number) {
        if has_enough(entry, most, hits.lines().len()) {
            return list_entry(entry, document, most, hits, watch);
        }
    }
    scan_document(&wanted.prepared.line, way, document, most, hits, watch)
}

/// How many hits of a document say what is shown of it, where so many lines, or names, are left of the limit. `None` means all.
pub(crate) fn asked(view: View, left: Option<u32>) -> Option<usize>
    ensures { result ≡ asked view left }
{
    match view {
        View::Names => Some(1),
        View::Counts => all_or_one(left),
        _ => one_over(left),
    }
}

/// How many hits of a document say how many it has, or, where nothing is left of the limit, that it has one.
fn all_or_one(left: Option<u32>) -> Option<usize>
    ensures { result ≡ all_or_one left }
{
    match left {
        Some(0) => Some(1),
        _ => None,
    }
}

/// So many more than there are before. An `Err` is `OutOfMemory`: no memory holds them.
fn beyond(before: usize, most: Option<usize>) -> Result<Option<usize>, Unanswered>
    ensures sum { IfOk result (λ sum. sum ≡ beyond before most) }
    ensures memory { IfErr result (λ e. e ≡ OutOfMemory) }
{
    match most {
        Some(most) => Ok(Some(sum_of(before, most)?)),
        None => Ok(None),
    }
}

/// Adds the rows of one document, of which the hits behind the first `before` were found, up to what is left of the limit.
fn add_rows<W: Watch>(
    wanted: &Wanted<'_>,
    left: Option<u32>,
    before: usize,
    document: &SharedDocument,
    seeker: &mut Option<Seeker<'_>>,
    gathered: &mut Gathered,
    watch: &mut W,
) -> Result<(), Unanswered>
    requires before { before ≤ length gathered.old.hits }
    requires rising { IsStrictlyIncreasing (map (λ h. h.line) (shown_hits wanted.now.view left (drop before gathered.old.hits))) }
    requires lines { All (λ h. IsOneLine h.text) (shown_hits wanted.now.view left (drop before gathered.old.hits)) }
    requires seeker { CanShow wanted.now seeker.old }
    ensures seeker { CanShow wanted.now seeker.new }
    ensures rows { OnOk result (AddsRows wanted.now left document.now (drop before gathered.old.hits) gathered.old gathered.new) }
    ensures called_off { IfErr result (IsCalledOffOnlyIf (W.has_said_no watch.new)) }
{
    let (_, found) = gathered.hits.lines().split_at(before);
    let number = number_of(wanted.view, found.len());
    gathered.more = is_over(left, number);
    let count = at_most(left, number);
    if count == 0 {
        return Ok(());
    }
    let hits = shown_hits(wanted.view, left, &found);
    let rows = append_rows(&mut gathered.text, wanted, document, &hits, seeker, watch)?;
    gathered.rows = sum_of(gathered.rows, rows)?;
    gathered.count = sum_of(gathered.count, count)?;
    Ok(())
}

/// How many lines, or names, there are to be shown of a document with so many hits.
pub(crate) fn number_of(view: View, hits: usize) -> usize
    ensures { result ≡ number_of view hits }
{
    if shows_names(view) {
        return hits.min(1);
    }
    hits
}

/// The hits of a document whose rows are shown, where so many lines, or names, are left of the limit.
fn shown_hits<'a>(view: View, left: Option<u32>, found: &Lines<'a>) -> Lines<'a>
    ensures { result ≡ shown_hits view left found.now }
{
    if shows_names(view) {
        return found.again();
    }
    let (first, _) = found.split_at(at_most(left, found.len()));
    first
}

/// Keeps the hits up to the limit where lines alone are shown, and otherwise none.
fn keep(wanted: &Wanted<'_>, hits: &mut Places)
    ensures { hits.new ≡ kept_of wanted.now.view (limited wanted.now.limit hits.old) }
{
    if !shows_lines(wanted.view) {
        hits.places.clear();
        hits.documents.clear();
        return;
    }
    if let Some(most) = wanted.limit {
        hits.truncate(most as usize);
    }
}

/// Whether names are shown, and not lines.
fn shows_names(view: View) -> bool
    ensures { result ≡ shows_names view }
{
    match view {
        View::Names | View::Counts => true,
        _ => false,
    }
}

/// Whether lines alone are shown.
fn shows_lines(view: View) -> bool
    ensures { result ≡ shows_lines view }
{
    match view {
        View::Lines => true,
        _ => false,
    }
}

/// The sum. An `Err` is `OutOfMemory`: the sum is too great. No memory holds so many rows.
pub(crate) fn sum_of(left: usize, right: usize) -> Result<usize, Unanswered>
    ensures sum { IfOk result (λ sum. sum ≡ left + right) }
    ensures memory { IfErr result (λ e. e ≡ OutOfMemory) }
{
    match left.checked_add(right) {
        Some(sum) => Ok(sum),
        None => Err(Unanswered::OutOfMemory),
    }
}

/// Whether there are more than the limit.
pub(crate) fn is_over(limit: Option<u32>, count: usize) -> bool
    ensures { result ≡ is_over limit count }
{
    match limit {
        Some(most) => count > most as usize,
        None => false,
    }
}

/// So many, but no more than the limit.
fn at_most(limit: Option<u32>, count: usize) -> usize
    ensures { result ≡ at_most limit count }
{
    match limit {
        Some(most) => count.min(most as usize),
        None => count,
    }
}

/// How many hits say that there are more than the limit.
fn one_over(limit: Option<u32>) -> Option<usize>
    ensures { result ≡ one_more limit }
{
    match limit {
        Some(most) => Some(most as usize + 1),
        None => None,
    }
}

/// What is left of a limit after `count` lines or names, and 0 if these are more. `None` if there is no limit.
pub(crate) fn left_of(limit: Option<u32>, count: usize) -> Option<u32>
    ensures { result ≡ left_from limit count }
{
    match limit {
        Some(most) => {
            if count >= most as usize {
                return Some(0);
            }
            Some(most - count as u32)
        }
        None => None,
    }
}
