//! Searches of what is published.

ghost use Rattle.std.specs.Prelude.{◌≡◌, IfOk, IfSome};
ghost use mathlib.Core.List.{IsPrefix};
ghost use Rattle.documents.specs.State.{State, state_of};
ghost use Rattle.prepare.specs.Prepared.{request_of};
ghost use Rattle.prepare.specs.Request.{Request as RequestValue};
ghost use Rattle.views.specs.ShownOf.{IsShownOf};
ghost use Rattle.search.specs.Taken.{IsFirstOf, IsTakenOf};

use index::Index;
use prepare::Prepared;
use published::Reading;
use search::{First, Taken, take_watched};
use service::Searcher;
use std::alloc::Global;
use views::Shown;
use watch::{Unanswered, Watch, ask};

/// How many candidates a search with a limit takes at first, and twice its limit more. Most of them have a hit, unless
/// their names are asked for too. To take so few and match their lines takes a small part of a millisecond.
const FIRST: usize = 64;

/// How many candidates are taken at first.
pub(crate) fn first_of(limit: u32) -> usize {
    FIRST.saturating_add((limit as usize).saturating_mul(2))
}

/// Searches the published index as reader 0: takes and matches. While names and lines are matched, both copies of the index can
/// change. If the search has a limit, the first candidates are taken and matched before all others. If they are not enough, all are
/// taken anew, at the version that is published then.
pub struct IndexSearcher;

impl Searcher for IndexSearcher {
    fn search<W: Watch + Copy>(
        alloc: Global,
        reading: &mut Reading,
        prepared: &Prepared,
        watch: W,
    ) -> Result<Shown, Unanswered> {
        let mut own = watch;
        if let Some(limit) = prepared.limit {
            ask(&mut own)?;
            let first = take_first(alloc, reading, prepared, first_of(limit), watch)?;
            if let Some(shown) = show_first(alloc, first, &mut own)? {
                return Ok(shown);
            }
        }
        ask(&mut own)?;
        take(alloc, reading, prepared, watch)?.show(alloc, &mut own)
    }
}

/// What is shown of what was taken first, if that is enough.
fn show_first<W: Watch>(
    alloc: Global,
    first: First<'_>,
    watch: &mut W,
) -> Result<Option<Shown>, Unanswered>
    ensures { IfOk result (λ found. IfSome found (λ shown. (state : State) (request : RequestValue) → IsFirstOf state request first.entry → IsShownOf state request shown)) }
{
    match first {
        First::All(taken) => Ok(Some(taken.show(alloc, watch)?)),
        First::Part(part) => part.show(alloc, 0, watch),
    }
}

/// Takes the first candidates of a search. An `Err` is `OutOfMemory` if the service was closed too.
pub(crate) fn take_first<'p, W: Watch + Copy>(
    alloc: Global,
    reading: &mut Reading,
    prepared: &'p Prepared,
    most: usize,
    watch: W,
) -> Result<First<'p>, Unanswered>
    ensures opening { reading.new.opening ≡ reading.old.opening }
    ensures seen { IsPrefix reading.old.commands reading.new.commands }
    ensures first { IfOk result (IsFirstOf (state_of reading.new.commands) (request_of prepared.now)) }
{
    match reading.look(|index| first_of_index(alloc, index, prepared, most, watch)) {
        Some(Ok(first)) => Ok(first),
        Some(Err(why)) => Err(why),
        None => Err(Unanswered::OutOfMemory),
    }
}

/// Takes the first candidates of a search out of an index.
fn first_of_index<'p, W: Watch + Copy>(
    alloc: Global,
    index: &Index,
    prepared: &'p Prepared,
    most: usize,
    watch: W,
) -> Result<First<'p>, Unanswered>
    ensures { IfOk result (IsFirstOf index.now (request_of prepared.now)) }
{
    let mut own = watch;
    search::take_first(alloc, index, prepared, most, &mut own)
}

/// Takes the candidates of a search. An `Err` is `OutOfMemory` if the service was closed too.
pub(crate) fn take<'p, W: Watch + Copy>(
    alloc: Global,
    reading: &mut Reading,
    prepared: &'p Prepared,
    watch: W,
) -> Result<Taken<'p>, Unanswered>
    ensures opening { reading.new.opening ≡ reading.old.opening }
    ensures seen { IsPrefix reading.old.commands reading.new.commands }
    ensures taken { IfOk result (IsTakenOf (state_of reading.new.commands) (request_of prepared.now)) }
{
    match reading.look(|index| taken_of_index(alloc, index, prepared, watch)) {
        Some(Ok(taken)) => Ok(taken),
        Some(Err(why)) => Err(why),
        None => Err(Unanswered::OutOfMemory),
    }
}

/// Takes the candidates of a search out of an index.
fn taken_of_index<'p, W: Watch + Copy>(
    alloc: Global,
    index: &Index,
    prepared: &'p Prepared,
    watch: W,
) -> Result<Taken<'p>, Unanswered>
    ensures { IfOk result (IsTakenOf index.now (request_of prepared.now)) }
{
    let mut own = watch;
    take_watched(alloc, index, prepared, &mut own)
}
