//! One event after the other.

ghost use Rattle.std.specs.Prelude.{◌≡◌, ◌≢◌, ℕ, ◌+◌, ◌<◌, ◌≤◌, ◌^◌, ◌⊎◌, true, List, [], ◌∷◌, ◌++◌, None, IfOk, OnOk, OnErr};
ghost use Rattle.input.specs.Read.{EndsBy, IsReadOf, inbox_state};
ghost use Rattle.service.specs.Service.{ServiceState, SetsAside, first_service};
ghost use Rattle.event_loop.specs.Running.{Start, start_at, now, Answers, AnswersFront, TakesOne, FailsAtOne};
ghost use Rattle.event_loop.specs.Serving.{IsServing, IsCutOff, IsDone, IsAdvanced, MayTakeNow, TakesEvent, FailsAtEvent};

use crate::crew::{Crew, Event};
use crate::error::{LiveError, of_inbox, of_reading};
use crate::sink::{News, Sink};
use crossbeam_channel::RecvTimeoutError;
use input::{Inbox, ReadItem};
use service::{Done, Reply, Searcher, Service, Source, Task};
use std::alloc::Global;
use std::sync::Wait;
use std::thread::Threads;
use std::time::{Clock, Duration};

/// How many searches are open at most. No further item is taken until one of them is answered.
const MAX_OPEN: usize = 1024;

/// The types of a run or a session.
pub trait World {
    /// The name of its opening.
    type Opening: service::Naming;
    /// The name of its reading.
    type Items: input::Naming;
    /// The runtime.
    type Runtime: Threads + Wait + Clock + Sync;
    /// What the bodies of loads are read from.
    type Source: Source;
    /// Who reads the items and answers the searches.
    type Crew: Crew<Self::Opening, Self::Items>;
    /// How a search is answered that the crew cannot have.
    type Searcher: Searcher;
    /// What takes the entries.
    type Sink: Sink<Self::Output>;
    /// An output that belongs to the sink.
    type Output;
}

/// What a run or a session needs throughout.
#[derive(Drop)]
pub struct Plan<'a, R> {
    /// The runtime.
    pub rt: &'a R,
    /// The allocator.
    pub alloc: Global,
    /// How many readers there are in addition to reader 0.
    pub readers: u32,
}

/// Carries out the items of the input, from the first to the last, and waits for all answers. The sink takes the entries.
///
/// An `Err` is the error that ended the reading, after all that was read before it; or the sink's; or it is
/// `TooManySearches`, `OutOfMemory` if there is no room for an item that was read, or `CannotRead` if an event did not come,
/// which never happens.
pub fn carry_out_all<W: World>(
    plan: &Plan<'_, W::Runtime>,
    service: &mut Service<W::Opening>,
    crew: &mut W::Crew,
    inbox: &mut Inbox<W::Items>,
    sink: &mut W::Sink,
    source: &mut W::Source,
    out: &mut W::Output,
) -> Result<(), LiveError>
    requires first { service.old ≡ first_service service.old.limits plan.now.readers }
    requires inbox { inbox.old ≡ inbox_state [] [] None }
    requires read { IsReadOf W.Items.input inbox.old.came }
    ensures ok { OnOk result (IsDone W.Sink.does (W.Source.holds source.old) plan.now.readers W.Items.input
        (start_at service.old.limits (W.Source.failed source.old) sink.old out.old) (now service.new (W.Source.failed source.new) sink.new out.new)) }
    ensures err { OnErr result (IsCutOff W.Sink.does W.Sink.fails (W.Source.holds source.old) plan.now.readers W.Items.input
        (start_at service.old.limits (W.Source.failed source.old) sink.old out.old) (W.Source.failed source.new) sink.new out.new) }
    ensures same { (path body : List ℕ) → (W.Source.holds source.new path body → W.Source.holds source.old path body)
        × (W.Source.holds source.old path body → W.Source.holds source.new path body) }
    ensures counted { W.Source.failed source.old ≤ W.Source.failed source.new }
{
    for _ in plan.rt.forever() {
        if !step::<W>(plan, service, crew, inbox, sink, source, out)? {
            return end_of_reading(inbox);
        }
    }
    unreachable!()
}

/// The error that ended the reading, if one did.
fn end_of_reading<K: input::Naming>(inbox: &Inbox<K>) -> Result<(), LiveError>
    ensures { OnOk result (inbox.now.over ≢ None → EndsBy K.input inbox.now.came None) }
{
    match inbox.over() {
        Some(Some(error)) => Err(of_reading(error)),
        _ => Ok(()),
    }
}

/// Takes the next item, or waits for the next event. Returns whether it goes on. If it does not, the reading has ended, all
/// items are taken, and no search is open.
fn step<W: World>(
    plan: &Plan<'_, W::Runtime>,
    service: &mut Service<W::Opening>,
    crew: &mut W::Crew,
    inbox: &mut Inbox<W::Items>,
    sink: &mut W::Sink,
    source: &mut W::Source,
    out: &mut W::Output,
) -> Result<bool, LiveError>
    ensures ok { IfOk result (λ goes_on. (start : Start W.Sink W.Output)
        → IsServing W.Sink.does (W.Source.holds source.old) plan.now.readers W.Items.input start inbox.old (now service.old (W.Source.failed source.old) sink.old out.old)
        → IsAdvanced W.Sink.does (W.Source.holds source.old) plan.now.readers W.Items.input start goes_on inbox.new (now service.new (W.Source.failed source.new) sink.new out.new)) }
    ensures err { OnErr result ((start : Start W.Sink W.Output)
        → IsServing W.Sink.does (W.Source.holds source.old) plan.now.readers W.Items.input start inbox.old (now service.old (W.Source.failed source.old) sink.old out.old)
        → IsCutOff W.Sink.does W.Sink.fails (W.Source.holds source.old) plan.now.readers W.Items.input start (W.Source.failed source.new) sink.new out.new) }
    ensures same { (path body : List ℕ) → (W.Source.holds source.new path body → W.Source.holds source.old path body)
        × (W.Source.holds source.old path body → W.Source.holds source.new path body) }
    ensures counted { W.Source.failed source.old ≤ W.Source.failed source.new }
{
    if service.is_full() {
        return Err(LiveError::TooManySearches);
    }
    let waits = service.open_searches();
    if !may_take(plan.readers, crew.is_alone(), waits) {
        return take_event::<W>(plan, service, crew, inbox, sink, out);
    }
    match inbox.next_ready(waits == 0) {
        Some(read) => {
            take::<W>(plan, service, crew, sink, source, out, read)?;
            crew.permit(plan.rt);
            Ok(true)
        }
        None if waits == 0 && inbox.over().is_some() => Ok(false),
        None => take_event::<W>(plan, service, crew, inbox, sink, out),
    }
}

/// Whether an item that is no sync can be taken while so many searches are open.
fn may_take(readers: u32, is_alone: bool, searches: usize) -> bool
    ensures { result ≡ true → (searches ≡ 0) ⊎ (0 < readers) }
{
    searches == 0 || (readers > 0 && !is_alone && searches < MAX_OPEN)
}

/// An event that is there already. As long as none is and a thread reads, the service catches up, piece by piece; `None` means that
/// it has nothing to catch up with.
fn ready_event<W: World>(
    plan: &Plan<'_, W::Runtime>,
    service: &mut Service<W::Opening>,
    crew: &W::Crew,
) -> Option<Event<W::Opening, W::Items>>
    ensures { service.new ≡ service.old }
{
    for _ in plan.rt.forever() {
        if let Some(event) = crew.ready(plan.rt) {
            return Some(event);
        }
        if crew.reads_here() || !service.catch_up(plan.rt) {
            return None;
        }
    }
    unreachable!()
}

/// Waits for the next event.
fn next_event<W: World>(
    plan: &Plan<'_, W::Runtime>,
    service: &mut Service<W::Opening>,
    crew: &mut W::Crew,
) -> Option<Event<W::Opening, W::Items>>
    ensures { service.new ≡ service.old }
{
    match ready_event::<W>(plan, service, crew) {
        Some(event) => Some(event),
        None => crew.next(plan.rt),
    }
}

/// Waits for the next answer after the end of the reading, for about this long if there is a limit. `Timeout` means that none came
/// in this time, and `Disconnected` that none comes, which never happens.
fn next_answer<W: World>(
    plan: &Plan<'_, W::Runtime>,
    service: &mut Service<W::Opening>,
    crew: &W::Crew,
    limit: Option<Duration>,
) -> Result<Done<W::Opening>, RecvTimeoutError>
    ensures { service.new ≡ service.old }
{
    let next = match ready_event::<W>(plan, service, crew) {
        Some(event) => Ok(event),
        None => crew.next_within(plan.rt, limit),
    };
    match next {
        Ok(Event::Answer(done)) => Ok(done),
        Ok(Event::Read(_)) => Err(RecvTimeoutError::Disconnected),
        Err(error) => Err(error),
    }
}

/// Waits for the next event, and takes it. Returns `true`.
fn take_event<W: World>(
    plan: &Plan<'_, W::Runtime>,
    service: &mut Service<W::Opening>,
    crew: &mut W::Crew,
    inbox: &mut Inbox<W::Items>,
    sink: &mut W::Sink,
    out: &mut W::Output,
) -> Result<bool, LiveError>
    ensures ok { IfOk result (λ goes_on. (goes_on ≡ true)
        × TakesEvent W.Sink.does W.Items.input inbox.old service.old sink.old out.old inbox.new service.new sink.new out.new) }
    ensures err { OnErr result (FailsAtEvent W.Sink.fails service.old sink.old out.old service.new sink.new out.new) }
{
    if inbox.over().is_some() && service.open_searches() > 0 {
        await_answer::<W>(plan, service, crew, sink, out)?;
        return Ok(true);
    }
    match next_event::<W>(plan, service, crew) {
        Some(Event::Read(next)) => match inbox.take_in(next) {
            Ok(()) => Ok(true),
            Err(error) => Err(of_inbox(error)),
        },
        Some(Event::Answer(done)) => {
            take_answer::<W>(plan, service, crew, sink, out, done)?;
            Ok(true)
        }
        None => Err(LiveError::CannotRead),
    }
}

/// Waits, after the end of the reading, until an open search has got its entry, and tells the sink of it. What is written next is
/// this entry, which begins as that of any search does. So the sink can write of that beginning, byte by byte, while the search
/// takes long, and thereby finds whether anybody still reads.
fn await_answer<W: World>(
    plan: &Plan<'_, W::Runtime>,
    service: &mut Service<W::Opening>,
    crew: &W::Crew,
    sink: &mut W::Sink,
    out: &mut W::Output,
) -> Result<(), LiveError>
    requires { service.old.awaited ≢ [] }
    ensures ok { OnOk result (Answers W.Sink.does service.old sink.old out.old service.new sink.new out.new) }
    ensures err { OnErr result ((last : ServiceState) × AnswersFront W.Sink.fails service.old sink.old out.old last sink.new out.new) }
{
    let mut ahead = 0;
    for _ in plan.rt.forever() {
        match next_answer::<W>(plan, service, crew, sink.patience(ahead)) {
            Ok(done) => {
                note_begun::<W>(plan, service, crew);
                if let Some(entry) = service.answered::<W::Searcher, W::Runtime>(
                    plan.rt, plan.alloc, done,
                ) {
                    return sink.finish(plan.rt, plan.alloc, ahead, entry, out);
                }
            }
            Err(RecvTimeoutError::Timeout) => ahead = sink.begin(ahead, out)?,
            Err(RecvTimeoutError::Disconnected) => return Err(LiveError::CannotRead),
        }
    }
    unreachable!()
}

/// Has the service take note of what was taken for searches.
fn note_begun<W: World>(
    plan: &Plan<'_, W::Runtime>,
    service: &mut Service<W::Opening>,
    crew: &W::Crew,
)
    ensures { SetsAside service.old service.new }
{
    for _ in plan.rt.forever() {
        match crew.take_begun(plan.rt) {
            Some(begun) => service.set_aside(&begun),
            None => return,
        }
    }
    unreachable!()
}

/// Tells the sink what a reader answered.
fn take_answer<W: World>(
    plan: &Plan<'_, W::Runtime>,
    service: &mut Service<W::Opening>,
    crew: &W::Crew,
    sink: &mut W::Sink,
    out: &mut W::Output,
    done: Done<W::Opening>,
) -> Result<(), LiveError>
    ensures ok { OnOk result (Answers W.Sink.does service.old sink.old out.old service.new sink.new out.new) }
    ensures err { OnErr result (AnswersFront W.Sink.fails service.old sink.old out.old service.new sink.new out.new) }
{
    note_begun::<W>(plan, service, crew);
    match service.answered::<W::Searcher, W::Runtime>(plan.rt, plan.alloc, done) {
        Some(entry) => sink.note(plan.rt, plan.alloc, News::Answer(entry), out),
        None => Ok(()),
    }
}

/// Takes an item, and tells the sink what became of it. A search is handed out.
fn take<W: World>(
    plan: &Plan<'_, W::Runtime>,
    service: &mut Service<W::Opening>,
    crew: &W::Crew,
    sink: &mut W::Sink,
    source: &mut W::Source,
    out: &mut W::Output,
    read: ReadItem,
) -> Result<(), LiveError>
    requires few { service.old.searches + 1 < 2 ^ 32 }
    requires may { MayTakeNow plan.now.readers service.old read.item }
    ensures ok { OnOk result (TakesOne W.Sink.does (W.Source.holds source.old) plan.now.readers read
        (now service.old (W.Source.failed source.old) sink.old out.old) (now service.new (W.Source.failed source.new) sink.new out.new)) }
    ensures err { OnErr result (FailsAtOne W.Sink.does W.Sink.fails (W.Source.holds source.old) plan.now.readers read
        (now service.old (W.Source.failed source.old) sink.old out.old) (W.Source.failed source.new) sink.new out.new) }
    ensures same { (path body : List ℕ) → (W.Source.holds source.new path body → W.Source.holds source.old path body)
        × (W.Source.holds source.old path body → W.Source.holds source.new path body) }
    ensures counted { W.Source.failed source.old ≤ W.Source.failed source.new }
{
    match service.take(plan.rt, plan.alloc, source, read) {
        Reply::Entry(entry) => sink.note(plan.rt, plan.alloc, News::Entry(entry), out),
        Reply::Search(task) => {
            sink.note(plan.rt, plan.alloc, News::Open(service.searches()), out)?;
            hand_out::<W>(plan, service, crew, sink, out, task)
        }
        Reply::Cancelled(entry) => sink.note(plan.rt, plan.alloc, News::Answer(entry), out),
        Reply::Nothing => Ok(()),
    }
}

/// Hands a search to the readers. If they cannot have it, it is answered here, and the sink gets its entry.
fn hand_out<W: World>(
    plan: &Plan<'_, W::Runtime>,
    service: &mut Service<W::Opening>,
    crew: &W::Crew,
    sink: &mut W::Sink,
    out: &mut W::Output,
    task: Task,
) -> Result<(), LiveError>
    ensures ok { OnOk result (Answers W.Sink.does service.old sink.old out.old service.new sink.new out.new) }
    ensures err { OnErr result (AnswersFront W.Sink.fails service.old sink.old out.old service.new sink.new out.new) }
{
    let lane = task.lane(plan.alloc);
    let Some(task) = crew.hand_out(plan.rt, lane, task) else {
        return Ok(());
    };
    match service.answer_here::<W::Searcher, W::Runtime>(plan.rt, plan.alloc, &task) {
        Some(entry) => sink.note(plan.rt, plan.alloc, News::Answer(entry), out),
        None => Ok(()),
    }
}
