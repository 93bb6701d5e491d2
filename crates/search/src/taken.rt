//! What a search takes out of an index, so that names and lines can be matched without the index.

ghost use Rattle.std.specs.Prelude.{◌≡◌, ◌==◌, IfOk, IfErr, IfNone, IfSome, IsFalse, length};
ghost use Rattle.watch.specs.declared.unanswered.Unanswered.TheVariants.{OutOfMemory};
ghost use Rattle.watch.specs.CalledOff.{IsCalledOffOnlyIf};
ghost use Rattle.search.specs.Private.Gathered.{shown_with};
ghost use Rattle.prepare.specs.Prepared.{pattern_of, request_of};
ghost use Rattle.query.specs.Query.{formula_of};
ghost use Rattle.search.specs.Front.{AreFronts};
ghost use Rattle.search.specs.Private.Parts.{AreFirstFronted, IsTakenUpTo};
ghost use Rattle.search.specs.Taken.{IsTakenOf};

use crate::gathered::{Wanted, gather};
use crate::known::{Known, know, know_side_by_side};
use crate::names::named;
use crate::side_by_side::{Joined, drop_by_parts, gather_part, gather_side_by_side};
use documents::{Candidates, Corpus, SharedDocument};
use prefixes::Prefixes;
use prepare::{Prepared, front_of};
use request::View;
use std::alloc::{AllocError, Global};
use std::thread::Threads;
use views::{Answer, Contents, Shown, ShownContents};
use watch::{NoWatch, Unanswered, Watch};

/// What a search has taken out of an index: the version, the counts, and the candidates. It does not borrow the
/// index, which can change or be dropped while names and lines are matched. Names and bodies are shared, so it takes
/// only a few words of memory for each candidate.
///
/// `IsTakenOf` says from which state of the index, and for which pattern, it was taken.
#[derive(Drop)]
pub struct Taken<'p> {
    /// The patterns to be matched.
    pub(crate) prepared: &'p Prepared,
    /// The version of the index.
    pub(crate) version: u32,
    /// The number of documents that it had.
    pub(crate) documents: u32,
    /// The number of all candidates.
    pub(crate) count: u32,
    /// The candidates, but for those that what names begin with leaves out, in the order of their names.
    pub(crate) candidates: Vec<SharedDocument>,
}

/// Takes out of the index what a search needs: the documents whose trigrams meet the condition of the pattern. If the
/// names that are asked for begin with a text, as for the name pattern `^src/`, or with one of some prefixes, only the
/// documents under these are taken. No other name and no line is looked at.
///
/// An `Err` means that memory ran out, or that a name or a body has too many handles.
pub fn take<'p, C: Corpus>(
    alloc: Global,
    corpus: &C,
    prepared: &'p Prepared,
) -> Result<Taken<'p>, AllocError>
    ensures { IfOk result (IsTakenOf (C.state corpus.now) (request_of prepared.now)) }
{
    match take_watched(alloc, corpus, prepared, &mut NoWatch) {
        Ok(taken) => Ok(taken),
        // `CalledOff` would become an `AllocError` too, but to `NoWatch` each answer is wanted.
        Err(_) => Err(AllocError),
    }
}

/// The same as `take`, but `watch` can call the search off. While it is asked, the index is borrowed: a watch that waits holds up
/// what changes the index.
///
/// `CalledOff` is returned only after `watch.wants()` said `false`, and nothing is asked after that. `OutOfMemory` means that memory ran
/// out, or that a name or a body has too many handles.
pub fn take_watched<'p, C: Corpus, W: Watch>(
    alloc: Global,
    corpus: &C,
    prepared: &'p Prepared,
    watch: &mut W,
) -> Result<Taken<'p>, Unanswered>
    ensures taken { IfOk result (IsTakenOf (C.state corpus.now) (request_of prepared.now)) }
    ensures called_off { IfErr result (IsCalledOffOnlyIf (W.has_said_no watch.new)) }
{
    let taken = take_up_to(alloc, corpus, prepared, usize::MAX, watch)?;
    Ok(taken)
}

/// The same, but of the documents only the first ones, in the order of their names, if there are `most` or more.
pub(crate) fn take_up_to<'p, C: Corpus, W: Watch>(
    alloc: Global,
    corpus: &C,
    prepared: &'p Prepared,
    most: usize,
    watch: &mut W,
) -> Result<Taken<'p>, Unanswered>
    ensures taken { IfOk result (IsTakenUpTo most (C.state corpus.now) (request_of prepared.now)) }
    ensures called_off { IfErr result (IsCalledOffOnlyIf (W.has_said_no watch.new)) }
{
    let found = fronted(alloc, corpus, prepared, most, watch)?;
    Ok(Taken {
        prepared,
        version: corpus.version(),
        documents: corpus.documents(),
        count: found.count,
        candidates: found.documents,
    })
}

/// How many candidates there are, and those of them whose names begin as each name begins that is asked for, in the order of
/// their names: all, or the first ones, if there are `most` or more.
fn fronted<C: Corpus, W: Watch>(
    alloc: Global,
    corpus: &C,
    prepared: &Prepared,
    most: usize,
    watch: &mut W,
) -> Result<Candidates, Unanswered>
    ensures fronted { IfOk result (AreFirstFronted most (C.state corpus.now) (pattern_of prepared.now) (formula_of prepared.now.query)) }
    ensures called_off { IfErr result (IsCalledOffOnlyIf (W.has_said_no watch.new)) }
{
    match front(alloc, prepared)? {
        Some(front) => corpus.candidates(alloc, &prepared.query, &front, most, watch),
        None => corpus.candidates(alloc, &prepared.query, &prepared.under, most, watch),
    }
}

/// The text with which every name begins that passes the tests of names, unless the prefixes that are asked for say more.
fn front(alloc: Global, prepared: &Prepared) -> Result<Option<Prefixes>, AllocError>
    ensures some { IfOk result (λ found. IfSome found (AreFronts (pattern_of prepared.now))) }
    ensures none { IfOk result (λ found. IfNone found (AreFronts (pattern_of prepared.now) prepared.now.under)) }
{
    let front = front_of(alloc, &prepared.names)?;
    if !says_more(prepared, &front) {
        return Ok(None);
    }
    let one = Prefixes::one(alloc, front)?;
    Ok(Some(one))
}

/// Whether this text at the front of names leaves out more than the prefixes that are asked for, as far as one can see.
fn says_more(prepared: &Prepared, front: &[u8]) -> bool
    ensures { IsFalse result → IsFalse (length prepared.now.under == 0) }
{
    prepared.under.is_empty() || prepared.under.have(front)
}

impl Taken<'_> {
    ghost use Rattle.std.specs.Prelude.{IfOk, IfErr};
    ghost use Rattle.documents.specs.State.{State};
    ghost use Rattle.prepare.specs.Request.{Request};
    ghost use Rattle.watch.specs.CalledOff.{IsCalledOffOnlyIf};
    ghost use Rattle.views.specs.ShownOf.{IsShownOf};
    ghost use Rattle.views.specs.Scan.{IsAnswerOf};
    ghost use Rattle.search.specs.Taken.{IsTakenOf};

    /// Matches the names and then the lines, and returns the answer for the pattern in the state that the index had
    /// when the candidates were taken. What was taken is dropped.
    ///
    /// An `Err` means that memory ran out, or that a name or a body has too many handles.
    pub fn answer(self, alloc: Global) -> Result<Answer, AllocError>
        ensures { IfOk result (λ answer. (state : State) (request : Request) → IsTakenOf state request self.entry → IsAnswerOf state request.pattern answer) }
    {
        match self.answer_watched(alloc, &mut NoWatch) {
            Ok(answer) => Ok(answer),
            // `CalledOff` would become an `AllocError` too, but to `NoWatch` each answer is wanted.
            Err(_) => Err(AllocError),
        }
    }

    /// The same as `answer`, but `watch` can call the search off.
    ///
    /// `CalledOff` is returned only after `watch.wants()` said `false`, and nothing is asked after that. `OutOfMemory`
    /// means that memory ran out, or that a name or a body has too many handles.
    pub fn answer_watched<W: Watch>(
        self,
        alloc: Global,
        watch: &mut W,
    ) -> Result<Answer, Unanswered>
        ensures answer { IfOk result (λ answer. (state : State) (request : Request) → IsTakenOf state request self.entry → IsAnswerOf state request.pattern answer) }
        ensures called_off { IfErr result (IsCalledOffOnlyIf (W.has_said_no watch.new)) }
    {
        let kept = named(alloc, self.prepared, self.candidates, watch)?;
        let none = Known::none(alloc);
        let wanted = Wanted {
            prepared: self.prepared,
            view: View::Lines,
            limit: None,
            known: &none,
        };
        let known = know(alloc, &wanted, kept.as_slice(), watch)?;
        let wanted = with_known(&wanted, &known);
        let gathered = gather(alloc, &wanted, kept.as_slice(), watch)?;
        let contents = Contents {
            version: self.version,
            hits: gathered.hits,
            documents: self.documents,
            candidates: self.count,
        };
        Ok(Answer { contents })
    }

    /// Matches the names and then the lines, and returns what the request shows of the answer, in the state that the
    /// index had when the candidates were taken. It looks at no more lines than it must: once enough is found for a
    /// limit, at none. `watch` can call the search off.
    ///
    /// `CalledOff` is returned only after `watch.wants()` said `false`. `OutOfMemory` means that memory ran out, or
    /// that a name or a body has too many handles.
    pub fn show<W: Watch>(self, alloc: Global, watch: &mut W) -> Result<Shown, Unanswered>
        ensures shown { IfOk result (λ shown. (state : State) (request : Request) → IsTakenOf state request self.entry → IsShownOf state request shown) }
        ensures called_off { IfErr result (IsCalledOffOnlyIf (W.has_said_no watch.new)) }
    {
        let kept = named(alloc, self.prepared, self.candidates, watch)?;
        let none = Known::none(alloc);
        let wanted = wanted_by(self.prepared, &none);
        let known = know(alloc, &wanted, kept.as_slice(), watch)?;
        let wanted = with_known(&wanted, &known);
        let joined = gather_part(alloc, &wanted, kept.as_slice(), 0, watch)?;
        with_counts(
            alloc,
            self.prepared.view,
            self.version,
            self.documents,
            self.count,
            joined,
        )
    }

    /// The same as `show`, but where the documents whose lines are matched have 1 MiB or more together, they are cut
    /// into up to `most` parts, which are matched side by side, each in a thread of its own where one can be started.
    /// Each part has a copy of `watch`. The text of the first lines is formed too, of about `ahead` bytes in all.
    ///
    /// `CalledOff` is returned only after `wants()` of one of the copies said `false`. `OutOfMemory` means that memory
    /// ran out, or that a name or a body has too many handles.
    pub fn show_by<R: Threads + Sync, W: Watch + Copy + Send>(
        self,
        rt: &R,
        alloc: Global,
        most: usize,
        ahead: usize,
        watch: W,
    ) -> Result<Shown, Unanswered>
        ensures shown { IfOk result (λ shown. (state : State) (request : Request) → IsTakenOf state request self.entry → IsShownOf state request shown) }
        ensures called_off { IfErr result (IsCalledOffOnlyIf ((w : W) × W.has_said_no w)) }
    {
        let mut own = watch;
        let kept = named(alloc, self.prepared, self.candidates, &mut own)?;
        let none = Known::none(alloc);
        let wanted = wanted_by(self.prepared, &none);
        let known = know_side_by_side(rt, alloc, &wanted, kept.as_slice(), most, watch)?;
        let wanted = with_known(&wanted, &known);
        let joined = gather_side_by_side(rt, alloc, &wanted, kept.as_slice(), most, ahead, watch)?;
        drop_by_parts(rt, kept, most);
        with_counts(
            alloc,
            self.prepared.view,
            self.version,
            self.documents,
            self.count,
            joined,
        )
    }
}

/// What is gathered for a search, where these contents were matched before.
pub(crate) fn wanted_by<'p>(prepared: &'p Prepared, known: &'p Known) -> Wanted<'p>
    ensures prepared { result.prepared.now ≡ prepared.now }
    ensures limit { result.limit ≡ prepared.now.limit }
    ensures view { result.view ≡ prepared.now.view }
    ensures known { result.known.now ≡ known.now }
{
    Wanted {
        prepared,
        view: prepared.view,
        limit: prepared.limit,
        known,
    }
}

/// The same, where these contents were matched before.
fn with_known<'p>(wanted: &Wanted<'p>, known: &'p Known) -> Wanted<'p>
    ensures prepared { result.prepared.now ≡ wanted.now.prepared.now }
    ensures limit { result.limit ≡ wanted.now.limit }
    ensures view { result.view ≡ wanted.now.view }
    ensures known { result.known.now ≡ known.now }
{
    Wanted {
        prepared: wanted.prepared,
        view: wanted.view,
        limit: wanted.limit,
        known,
    }
}

/// What is shown, with the counts of the index.
pub(crate) fn with_counts(
    alloc: Global,
    view: View,
    version: u32,
    documents: u32,
    candidates: u32,
    joined: Joined,
) -> Result<Shown, Unanswered>
    ensures shown { IfOk result (λ shown. shown ≡ shown_with view version documents candidates joined) }
    ensures memory { IfErr result (λ e. e ≡ OutOfMemory) }
{
    let contents = ShownContents {
        view,
        version,
        count: joined.count,
        more: joined.more,
        rows: joined.rows,
        parts: joined.parts,
        documents,
        candidates,
        found_by: joined.found_by,
        times: None,
    };
    Ok(Shown {
        contents: Box::new(alloc, contents)?,
    })
}
