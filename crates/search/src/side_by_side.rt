//! What is shown of documents, gathered in several parts side by side.

ghost use Rattle.std.specs.Prelude.{◌≡◌, ◌≤◌, ◌++◌, false, length, drop, ◌+◌, List, IfOk, IfErr, OnOk, IsTrue, ◌⊎◌};
ghost use Rattle.documents.specs.declared.document.SharedDocument.{SharedDocument};
ghost use Rattle.watch.specs.CalledOff.{IsCalledOffOnlyIf};
ghost use Rattle.watch.specs.declared.unanswered.Unanswered.TheVariants.{OutOfMemory};
ghost use Rattle.search.specs.Private.Known.{AreTold, Knows};
ghost use Rattle.search.specs.Private.Gathered.{HasGap, HaveOwnNames, Joins, cut_gap, gap_rows, left_from, shows_context};
ghost use Rattle.views.specs.Parts.{text_of_parts};
ghost use Rattle.views.specs.Text.{text_of_hits, text_of_rows};
ghost use Rattle.views.specs.Rows.{is_over};
ghost use denote.Param.Send.{IsSync, IsSend};

use crate::ahead::append_first;
use crate::gathered::{Gathered, Wanted, gather, is_over, left_of, sum_of};
use crate::matching::body_size;
use documents::SharedDocument;
use request::View;
use std::alloc::Global;
use std::thread::{Threads, join};
use views::{FoundBy, Passage, Places};
use watch::{Pace, Unanswered, Watch};

/// A part has at least so many bytes of bodies. To start a thread and to wait for it takes as long as to look through some
/// twentieth of that.
pub(crate) const PART: usize = 524_288;

/// How many documents' lengths are added up between two looks at whether the answer is wanted.
pub(crate) const DOCUMENTS: usize = 8192;

/// What stands between two stretches of lines.
const GAP: &[u8] = b"--\n";

/// What is shown of documents, part after part.
#[derive(Drop)]
pub(crate) struct Joined {
    /// The text.
    pub(crate) parts: Vec<Passage>,
    /// How many rows there are.
    pub(crate) rows: usize,
    /// How many lines are shown, or names.
    pub(crate) count: usize,
    /// Whether there are more of them.
    pub(crate) more: bool,
    /// By which way lines were looked at: the matcher only if no part went another way.
    pub(crate) found_by: FoundBy,
}

/// What is shown of these documents, gathered in up to `most` parts of about equal bytes, each in a thread of its own
/// where one can be started. Where lines alone are shown, each forms the text of its first lines, of about `ahead`
/// bytes in all. `watch` is copied for each part.
///
/// `CalledOff` is returned once one of the copies says that the answer is not wanted. `OutOfMemory` means that memory
/// ran out, or that a name or a body has too many handles.
pub(crate) fn gather_side_by_side<R: Threads + Sync, W: Watch + Copy + Send>(
    rt: &R,
    alloc: Global,
    wanted: &Wanted<'_>,
    documents: &[SharedDocument],
    most: usize,
    ahead: usize,
    watch: W,
) -> Result<Joined, Unanswered>
    requires known { Knows wanted.now }
    ensures joins { IfOk result (λ joined. HaveOwnNames documents.now → AreTold wanted.now documents.now → Joins wanted.now wanted.now.limit documents.now joined) }
    ensures called_off { IfErr result (IsCalledOffOnlyIf ((w : W) × W.has_said_no w)) }
{
    let mut own = watch;
    let bytes = bytes_of(documents, &mut own)?;
    let parts = (bytes / PART).min(most).max(1);
    gather_parts(rt, alloc, wanted, documents, parts, ahead / parts, watch)
}

/// The bytes of the documents' bodies together. An `Err` is `CalledOff`.
pub(crate) fn bytes_of<W: Watch>(
    documents: &[SharedDocument],
    watch: &mut W,
) -> Result<usize, Unanswered>
    ensures { IfErr result (IsCalledOffOnlyIf (W.has_said_no watch.new)) }
{
    let mut pace = Pace::each(DOCUMENTS);
    let mut bytes: usize = 0;
    for document in documents {
        pace.look(watch)?;
        bytes = bytes.saturating_add(body_size(document));
    }
    Ok(bytes)
}

/// How many documents, from the first on, have so many bytes together. No answer depends on it. An `Err` is `CalledOff`.
pub(crate) fn documents_with<W: Watch>(
    documents: &[SharedDocument],
    bytes: usize,
    watch: &mut W,
) -> Result<usize, Unanswered>
    ensures within { IfOk result (λ count. count ≤ length documents.now) }
    ensures called_off { IfErr result (IsCalledOffOnlyIf (W.has_said_no watch.new)) }
{
    let mut pace = Pace::each(DOCUMENTS);
    let mut left = bytes;
    for at in 0..documents.len() {
        pace.look(watch)?;
        let size = body_size(&documents[at]);
        if size >= left {
            return Ok(at + 1);
        }
        left -= size;
    }
    Ok(documents.len())
}

/// What is shown of these documents, gathered in so many parts, each with `ahead` bytes of text. The documents are halved by their
/// bytes at each step, and the front half goes to a new thread.
#[cycle(gather_parts)]
fn gather_parts<R: Threads + Sync, W: Watch + Copy + Send>(
    rt: &R,
    alloc: Global,
    wanted: &Wanted<'_>,
    documents: &[SharedDocument],
    parts: usize,
    ahead: usize,
    watch: W,
) -> Result<Joined, Unanswered>
    requires known { Knows wanted.now }
    ensures joins { IfOk result (λ joined. HaveOwnNames documents.now → AreTold wanted.now documents.now → Joins wanted.now wanted.now.limit documents.now joined) }
    ensures called_off { IfErr result (IsCalledOffOnlyIf ((w : W) × W.has_said_no w)) }
{
    if parts < 2 {
        let mut watch = watch;
        return gather_part(alloc, wanted, documents, ahead, &mut watch);
    }
    let low = parts / 2;
    let high = parts - low;
    let mut own = watch;
    let bytes = bytes_of(documents, &mut own)?;
    let at = documents_with(documents, bytes / parts * low, &mut own)?;
    let (first, others) = documents.split_at(at);
    let front = move || -> Result<Joined, Unanswered>
        requires threads { IsSync R.row × IsSend W.row }
        requires known { Knows wanted.now }
        ensures joins { IfOk result (λ joined. HaveOwnNames first.entry.now → AreTold wanted.entry.now first.entry.now → Joins wanted.entry.now wanted.entry.now.limit first.entry.now joined) }
        ensures called_off { IfErr result (IsCalledOffOnlyIf ((w : W) × W.has_said_no w)) }
    { gather_parts(rt, alloc, wanted, first, low, ahead, watch) };
    let back = move || -> Result<Joined, Unanswered>
        requires threads { IsSync R.row × IsSend W.row }
        requires known { Knows wanted.now }
        ensures joins { IfOk result (λ joined. HaveOwnNames others.entry.now → AreTold wanted.entry.now others.entry.now → Joins wanted.entry.now wanted.entry.now.limit others.entry.now joined) }
        ensures called_off { IfErr result (IsCalledOffOnlyIf ((w : W) × W.has_said_no w)) }
    { gather_parts(rt, alloc, wanted, others, high, ahead, watch) };
    let (found, rest) = join(rt, front, back);
    let found = found?;
    if found.more {
        return Ok(found);
    }
    let rest = rest?;
    let mut watch = watch;
    let fitting = fitted(alloc, wanted, found.count, rest, others, ahead, &mut watch)?;
    join_parts(alloc, wanted, found, fitting)
}

/// Drops the documents, in so many parts, each in a thread of its own where one can be started. Of many documents each handle is some
/// way from the others in memory.
#[cycle(drop_by_parts)]
pub(crate) fn drop_by_parts<R: Threads + Sync>(
    rt: &R,
    documents: Vec<SharedDocument>,
    parts: usize,
) {
    let mut first = documents;
    if parts < 2 || first.len() < DOCUMENTS {
        return;
    }
    let low = parts / 2;
    let high = parts - low;
    let at = first.len() / parts * low;
    let Ok(others) = first.split_off(at) else {
        return;
    };
    let front = move || -> ()
        requires { IsSync R.row }
    { drop_by_parts(rt, first, low) };
    let back = move || -> ()
        requires { IsSync R.row }
    { drop_by_parts(rt, others, high) };
    let _ = join(rt, front, back);
}

/// What is shown of these documents in one part, with about `ahead` bytes of text.
///
/// `CalledOff` is returned once `watch` says that the answer is not wanted. `OutOfMemory` means that memory ran out, or
/// that a name or a body has too many handles.
pub(crate) fn gather_part<W: Watch>(
    alloc: Global,
    wanted: &Wanted<'_>,
    documents: &[SharedDocument],
    ahead: usize,
    watch: &mut W,
) -> Result<Joined, Unanswered>
    requires known { Knows wanted.now }
    ensures joins { IfOk result (λ joined. HaveOwnNames documents.now → AreTold wanted.now documents.now → Joins wanted.now wanted.now.limit documents.now joined) }
    ensures called_off { IfErr result (IsCalledOffOnlyIf (W.has_said_no watch.new)) }
{
    let gathered = gather(alloc, wanted, documents, watch)?;
    let (count, more, found_by) = (gathered.count, gathered.more, gathered.found_by);
    let (from, rows) = without_gap(wanted.view, gathered.rows);
    let part = part_of(wanted.prepared.zero, gathered, from, ahead, watch)?;
    let mut parts = Vec::new(alloc);
    parts.push(part)?;
    Ok(Joined {
        parts,
        rows,
        count,
        more,
        found_by,
    })
}

/// Whether lines near hits are shown.
fn shows_context(view: View) -> bool
    ensures { result ≡ shows_context view }
{
    match view {
        View::Context(_) => true,
        _ => false,
    }
}

/// How many bytes the gap before the first stretch of lines has, and how many of so many rows are left without it.
fn without_gap(view: View, rows: usize) -> (usize, usize)
    ensures { result ≡ cut_gap (shows_context view) rows }
{
    if rows == 0 {
        return (0, 0);
    }
    if !shows_context(view) {
        return (0, rows);
    }
    (GAP.len(), rows - 1)
}

/// The text of what was gathered, without its first `from` bytes, then that of the hits, of which `ahead` bytes are formed.
fn part_of<W: Watch>(
    zero: bool,
    gathered: Gathered,
    from: usize,
    ahead: usize,
    watch: &mut W,
) -> Result<Passage, Unanswered>
    ensures part { IfOk result (λ part. part ≡ drop from gathered.text.items ++ text_of_hits zero gathered.hits) }
    ensures called_off { IfErr result (IsCalledOffOnlyIf (W.has_said_no watch.new)) }
{
    let mut text = gathered.text;
    let from = from.min(text.len());
    let formed = append_first(&mut text, zero, gathered.hits.lines(), ahead, watch)?;
    Ok(Passage {
        text,
        from,
        places: gathered.hits,
        formed,
        zero,
    })
}

/// A part that is this text. It is all formed.
fn text_part(alloc: Global, text: Vec<u8>) -> Passage
    ensures { result ≡ text.items }
{
    Passage {
        text,
        from: 0,
        places: Places::new(alloc),
        formed: 0,
        zero: false,
    }
}

/// What is shown of the documents at the back, where so many lines, or names, before them count in the limit. If what was
/// gathered of them is too much, it is gathered again.
fn fitted<W: Watch>(
    alloc: Global,
    wanted: &Wanted<'_>,
    before: usize,
    back: Joined,
    documents: &[SharedDocument],
    ahead: usize,
    watch: &mut W,
) -> Result<Joined, Unanswered>
    requires known { Knows wanted.now }
    ensures joins { IfOk result (λ joined. HaveOwnNames documents.now → AreTold wanted.now documents.now → Joins wanted.now wanted.now.limit documents.now back
        → Joins wanted.now (left_from wanted.now.limit before) documents.now joined) }
    ensures called_off { IfErr result (IsCalledOffOnlyIf (W.has_said_no watch.new)) }
{
    let limit = left_of(wanted.limit, before);
    if fits(limit, before, &back) {
        return Ok(back);
    }
    let wanted = Wanted {
        prepared: wanted.prepared,
        view: wanted.view,
        limit,
        known: wanted.known,
    };
    gather_part(alloc, &wanted, documents, ahead, watch)
}

/// Whether what was gathered up to the whole limit is what is shown up to what is left of it.
fn fits(left: Option<u32>, before: usize, back: &Joined) -> bool
    ensures { IsTrue result → (before ≡ 0) ⊎ ((back.now.more ≡ false) × (is_over left back.now.count ≡ false)) }
{
    if before == 0 {
        return true;
    }
    if back.more {
        return false;
    }
    !is_over(left, back.count)
}

/// What is shown of the documents at the front, and of those at the back.
fn join_parts(
    alloc: Global,
    wanted: &Wanted<'_>,
    front: Joined,
    back: Joined,
) -> Result<Joined, Unanswered>
    ensures joins { IfOk result (λ joined. (first others : List SharedDocument) → HaveOwnNames (first ++ others) → front.more ≡ false
        → Joins wanted.now wanted.now.limit first front → Joins wanted.now (left_from wanted.now.limit front.count) others back
        → Joins wanted.now wanted.now.limit (first ++ others) joined) }
    ensures memory { IfErr result (λ e. e ≡ OutOfMemory) }
{
    let mut all = front;
    add_gap(alloc, wanted, &mut all, back.rows)?;
    let mut parts = back.parts;
    all.parts.append(&mut parts)?;
    all.rows = sum_of(all.rows, back.rows)?;
    all.count = sum_of(all.count, back.count)?;
    all.more = back.more;
    all.found_by = joined_way(all.found_by, back.found_by);
    Ok(all)
}

/// The way of two parts: the matcher only if neither went another way.
fn joined_way(front: FoundBy, back: FoundBy) -> FoundBy {
    match front {
        FoundBy::Matcher => back,
        _ => front,
    }
}

/// Adds the gap between the stretches of lines that are there and those of the so many rows that follow, if there are any of both.
fn add_gap(
    alloc: Global,
    wanted: &Wanted<'_>,
    all: &mut Joined,
    after: usize,
) -> Result<(), Unanswered>
    ensures text { OnOk result (text_of_parts all.new.parts.items ≡ text_of_parts all.old.parts.items
        ++ text_of_rows wanted.now.prepared.now.zero (gap_rows (shows_context wanted.now.view) all.old.rows after)) }
    ensures rows { OnOk result (all.new.rows ≡ all.old.rows + length (gap_rows (shows_context wanted.now.view) all.old.rows after)) }
    ensures count { OnOk result (all.new.count ≡ all.old.count) }
    ensures memory { IfErr result (λ e. e ≡ OutOfMemory) }
{
    if !has_gap(wanted.view, all.rows, after) {
        return Ok(());
    }
    let gap = Vec::from_slice(alloc, GAP)?;
    all.parts.push(text_part(alloc, gap))?;
    all.rows = sum_of(all.rows, 1)?;
    Ok(())
}

/// Whether there is a gap between so many rows and so many.
fn has_gap(view: View, before: usize, after: usize) -> bool
    ensures { HasGap result (gap_rows (shows_context view) before after) }
{
    if before == 0 {
        return false;
    }
    if after == 0 {
        return false;
    }
    shows_context(view)
}
