//! Readers answer searches, each with a reading of its own.

ghost use Rattle.std.specs.Prelude.{◌≡◌, IfOk, IfSome};
ghost use Rattle.documents.specs.State.{State, state_of};
ghost use Rattle.prepare.specs.Prepared.{request_of};
ghost use Rattle.prepare.specs.Request.{Request as RequestValue};
ghost use Rattle.views.specs.ShownOf.{IsShownOf};
ghost use Rattle.search.specs.Taken.{IsFirstOf};

use crate::gate::{Gate, Point};
use crate::has_reader::HasReader;
use crate::searching::first_of;
use prepare::Prepared;
use search::First;
use service::{Done, Found, Look, Naming, Reader, Request, Task, Wish};
use std::alloc::Global;
use std::thread::Threads;
use std::time::Clock;
use views::Shown;
use watch::{Unanswered, Watch, ask};

/// Has a reader search what is published, and calls the gate at each point of the search. It waits for nothing but the gate
/// and the threads that it starts: a large search may go on in several (see `Task`). The search is given up once it
/// was called off, or its time is over: that is looked at before it begins, and then as `watch::Watch::wants`
/// says. Of the answer's text, about `ahead` bytes are formed here.
///
/// The `Done` has no answer if memory ran out, if the search was given up, or if the service was closed.
pub fn answer<J: Naming, R: Clock + Threads + Sync, G: Gate>(
    rt: &R,
    alloc: Global,
    reader: &mut Reader<J>,
    task: Task,
    ahead: usize,
    gate: &G,
) -> Done<J>
    ensures { result ≡ task }
{
    let (number, request, wish, parts) = task.into_parts();
    let look = Look { rt, wish: &wish };
    answer_by(
        rt, alloc, reader, number, request, &wish, parts, ahead, gate, look,
    )
}

/// Answers the search of this number for what has a reader of its service.
pub(crate) fn answer_by<
    J: Naming,
    H: HasReader<J>,
    R: Clock + Threads + Sync,
    G: Gate,
    W: Watch + Copy + Send,
>(
    rt: &R,
    alloc: Global,
    holder: &mut H,
    number: u32,
    request: Request,
    wish: &Wish,
    parts: usize,
    ahead: usize,
    gate: &G,
    watch: W,
) -> Done<J>
    ensures { result ≡ number }
{
    gate.turn(number, Point::Begin);
    let found = search_by(
        rt,
        alloc,
        holder,
        request.prepared(),
        wish,
        gate,
        number,
        parts,
        ahead,
        watch,
    );
    gate.turn(number, Point::Done);
    Done::new(number, request, wish, found)
}

/// Searches as `IndexSearcher` does, but for what has a reader: a large search may go on in so many threads, and some text of the answer is formed. While
/// candidates are taken, only `wish` is looked at: the search could not wait there for its next turn, since the version that it reads is
/// kept for it.
fn search_by<
    J: Naming,
    H: HasReader<J>,
    R: Clock + Threads + Sync,
    G: Gate,
    W: Watch + Copy + Send,
>(
    rt: &R,
    alloc: Global,
    holder: &mut H,
    prepared: &Prepared,
    wish: &Wish,
    gate: &G,
    number: u32,
    parts: usize,
    ahead: usize,
    watch: W,
) -> Result<Found<J>, Unanswered>
    ensures { IfOk result (λ found. IsShownOf (state_of found.seen.commands) (request_of prepared.now) found.answer) }
{
    let mut own = watch;
    let look = Look { rt, wish };
    if let Some(limit) = prepared.limit {
        ask(&mut own)?;
        let (first, seen) = holder.take_first(alloc, prepared, first_of(limit), look)?;
        gate.turn(number, Point::Matching);
        if let Some(shown) = show_first_by(rt, alloc, first, parts, ahead, watch)? {
            return Ok(seen.found(holder.timed(shown)));
        }
    }
    ask(&mut own)?;
    let (taken, seen) = holder.take(alloc, prepared, look)?;
    gate.turn(number, Point::Matching);
    let shown = taken.show_by(rt, alloc, parts, ahead, watch)?;
    Ok(seen.found(holder.timed(shown)))
}

/// What is shown of what was taken first, if that is enough.
fn show_first_by<R: Threads + Sync, W: Watch + Copy + Send>(
    rt: &R,
    alloc: Global,
    first: First<'_>,
    parts: usize,
    ahead: usize,
    watch: W,
) -> Result<Option<Shown>, Unanswered>
    ensures { IfOk result (λ found. IfSome found (λ shown. (state : State) (request : RequestValue) → IsFirstOf state request first.entry → IsShownOf state request shown)) }
{
    match first {
        First::All(taken) => Ok(Some(taken.show_by(rt, alloc, parts, ahead, watch)?)),
        First::Part(part) => {
            let mut own = watch;
            part.show(alloc, ahead, &mut own)
        }
    }
}
