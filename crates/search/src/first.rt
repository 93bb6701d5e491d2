//! What a search with a limit takes out of an index first.

ghost use Rattle.std.specs.Prelude.{IfOk, IfErr};
ghost use Rattle.watch.specs.CalledOff.{IsCalledOffOnlyIf};
ghost use Rattle.prepare.specs.Prepared.{request_of};
ghost use Rattle.search.specs.Taken.{IsFirstOf};

use crate::known::Known;
use crate::names::named;
use crate::side_by_side::{documents_with, gather_part};
use crate::taken::{Taken, take_up_to, wanted_by, with_counts};
use documents::Corpus;
use prepare::Prepared;
use std::alloc::{AllocError, Global};
use views::Shown;
use watch::{Unanswered, Watch};

/// The first candidates have about so many bytes of bodies at most, unless the first of them has more by itself. If they
/// are not enough, they are looked through in vain.
const FIRST_BYTES: usize = 1_048_576;

/// What was taken first.
#[derive(Drop)]
pub enum First<'p> {
    /// All that a search needs.
    All(Taken<'p>),
    /// A part of it, which is enough if the limit of the search is reached in it.
    Part(FirstPart<'p>),
}

/// The first candidates of a search, in the order of their names, and the counts of all of them.
#[derive(Drop)]
pub struct FirstPart<'p> {
    /// What was taken, in which the last candidates are missing.
    pub(crate) taken: Taken<'p>,
}

/// The same as `take`, but if there are `most` candidates or more, only the first ones are taken, in the order of their
/// names: `most`, or fewer if their bodies are long.
///
/// `watch` can call the search off: `CalledOff` is returned only after `watch.wants()` said `false`, and nothing is asked after that.
/// `OutOfMemory` means that memory ran out, or that a name or a body has too many handles.
pub fn take_first<'p, C: Corpus, W: Watch>(
    alloc: Global,
    corpus: &C,
    prepared: &'p Prepared,
    most: usize,
    watch: &mut W,
) -> Result<First<'p>, Unanswered>
    ensures first { IfOk result (IsFirstOf (C.state corpus.now) (request_of prepared.now)) }
    ensures called_off { IfErr result (IsCalledOffOnlyIf (W.has_said_no watch.new)) }
{
    let mut taken = take_up_to(alloc, corpus, prepared, most, watch)?;
    if taken.candidates.len() < most {
        return Ok(First::All(taken));
    }
    let few = documents_with(taken.candidates.as_slice(), FIRST_BYTES, watch)?;
    taken.candidates.truncate(few);
    Ok(First::Part(FirstPart { taken }))
}

impl FirstPart<'_> {
    ghost use Rattle.std.specs.Prelude.{IfOk, IfErr, IfSome, IfNone};
    ghost use Rattle.documents.specs.State.{State};
    ghost use Rattle.prepare.specs.Request.{Request};
    ghost use Rattle.watch.specs.CalledOff.{IsCalledOffOnlyIf};
    ghost use Rattle.views.specs.ShownOf.{IsShownOf};
    ghost use Rattle.search.specs.Taken.{IsPartOf};

    /// Matches the names and then the lines, and returns what the request shows of the answer, in the state that the index
    /// had when the candidates were taken, with the text of the first lines, of about `ahead` bytes. `None` means that the
    /// limit is not reached: then it depends on the other candidates too. `watch` can call the search off.
    ///
    /// `CalledOff` is returned only after `watch.wants()` said `false`. `OutOfMemory` means that memory ran out, or
    /// that a name or a body has too many handles.
    pub fn show<W: Watch>(
        self,
        alloc: Global,
        ahead: usize,
        watch: &mut W,
    ) -> Result<Option<Shown>, Unanswered>
        ensures shown { IfOk result (λ found. IfSome found (λ shown. (state : State) (request : Request) → IsPartOf state request self.entry → IsShownOf state request shown)) }
        ensures called_off { IfErr result (IsCalledOffOnlyIf (W.has_said_no watch.new)) }
    {
        let Taken {
            prepared,
            version,
            documents,
            count,
            candidates,
        } = self.taken;
        let kept = named(alloc, prepared, candidates, watch)?;
        let none = Known::none(alloc);
        let wanted = wanted_by(prepared, &none);
        let joined = gather_part(alloc, &wanted, kept.as_slice(), ahead, watch)?;
        if !joined.more {
            return Ok(None);
        }
        let shown = with_counts(alloc, prepared.view, version, documents, count, joined)?;
        Ok(Some(shown))
    }
}
