//! A session, from its first item to its last.

ghost use Rattle.std.specs.Prelude.{◌≡◌, ◌≢◌, ℕ, ◌<◌, ◌≤◌, List, [], None, IfOk, OnErr};
ghost use Rattle.input.specs.Read.{IsReadOf, inbox_state};
ghost use Rattle.service.specs.Opening.{opened_state};
ghost use Rattle.service.specs.Service.{first_service};
ghost use Rattle.published.specs.declared.opening.TheConstants.{MAX_COMMANDS};
ghost use Rattle.tsearch.specs.Served.{IsServed, IsBroken, limits_in};

use crate::crew::ThreadedCrew;
use crate::error::of_opening;
use crate::written::Written;
use documents::Lengths;
use event_loop::{LiveError, Plan, World, carry_out_all};
use input::{Feed, Inbox};
use service::{Reader, Service, Source, open};
use std::alloc::Global;
use std::io::{BufRead, Write};
use std::marker::{Brand, PhantomData};
use std::sync::Wait;
use std::thread::Threads;
use std::time::Clock;
use workers::{Gate, IndexSearcher};

/// How a session is run.
#[derive(Clone, Copy, Debug, PartialEq, Eq)]
pub struct LiveOptions {
    /// How many readers there are in addition to reader 0, 0 to 16: so many searches are at work at once.
    pub readers: u32,
    /// How many commands are accepted at most, 1 to 4,294,967,294.
    pub max_commands: u32,
    /// How long names, bodies and lines may be.
    pub lengths: Lengths,
    /// After how many milliseconds a search that has no answer yet is given up, if there is such a limit.
    pub search_ms: Option<u32>,
    /// Whether each answer shows how long it waited and worked, and the way its lines were found.
    pub times: bool,
    /// Whether each answer also shows its number of candidates and of documents.
    pub stats: bool,
}

/// Serves a session: takes items from the input as they come, carries each one out, and writes the text of each entry as
/// soon as it is known, until the input ends or a fault ends the reading, and no search is open. Returns the status of the
/// session: 2 if anything was refused, otherwise 0 if some search has a hit, and otherwise 1, as `transcript::status` does
/// for a run.
///
/// The calling thread carries out the items and writes. With readers, a thread reads the input, and others answer searches, as
/// many at once as there are readers: a search does not hold up the items after it, and other searches in turn with it. Its answer
/// is written when it comes. A sync, and what follows it, waits until no search is open.
/// Without readers, or if no thread can be started, the calling thread reads, and answers each search at once. A reader
/// calls the gate at each point of a search.
///
/// Each text is written whole and flushed. But while the input has ended and a search is open, the first bytes of the next text,
/// which are those of `search `, may be written and flushed one by one before the others, at most 7 in some 63 seconds: so the
/// session ends soon if nobody reads the output any more. At most 16 items are read ahead and 1,024 searches are open, so a reader of the
/// output that stops also stops the input. Neither the script nor the entries are kept.
///
/// What is written is the text of the entries of legal steps that take exactly the items of the input
/// (`docs/DEFINITIONS.md`). After an `Err`, which says why the session ended early, it is a beginning of such a text, for
/// the first of the items. The source holds afterwards what it held before, and its count of failures has not fallen.
///
/// The threads are not waited for. After an `Err` the one that reads may still wait for the input: it ends when its read
/// returns, or with the process.
///
/// `NoPlace` means that a reader got no place, `CannotRead` that the input failed, `CannotWrite` that the output failed or
/// took no byte, `OutputClosed` that nobody reads the output any more, and `OutOfMemory` that memory ran out for the session
/// itself, for a line, or for the text of an entry. `LineTooLong`, `TooManyLines` and `TooManySearches` mean that a limit
/// was reached, which `LiveError` states. What was read before the input failed, or before there was no memory for a line,
/// or before a limit of lines, is carried out first, and all searches are answered. After any other error, searches that
/// are open have no answer.
pub fn serve<
    R: Threads + Wait + Clock + Sync + Send + Copy + 'static,
    S: Source,
    I: BufRead + Drop + Send + 'static,
    O: Write,
    G: Gate + Copy + Send + 'static,
>(
    rt: &R,
    alloc: Global,
    input: I,
    options: LiveOptions,
    source: &mut S,
    out: &mut O,
    gate: G,
) -> Result<u8, LiveError>
    requires readers { options.readers ≤ 16 }
    requires commands { (0 < options.max_commands) × (options.max_commands ≤ MAX_COMMANDS) }
    ensures ok { IfOk result (IsServed options (S.holds source.old) (S.failed source.old) (S.failed source.new)
        (I.remaining input) (O.contents out.old) (O.contents out.new)) }
    ensures err { OnErr result (IsBroken options (S.holds source.old) (S.failed source.old) (S.failed source.new)
        (I.remaining input) (O.contents out.old) (O.contents out.new)) }
    ensures same { (path body : List ℕ) → (S.holds source.new path body → S.holds source.old path body)
        × (S.holds source.old path body → S.holds source.new path body) }
    ensures counted { S.failed source.old ≤ S.failed source.new }
{
    let opened = match open(
        rt,
        alloc,
        options.max_commands,
        options.lengths,
        options.search_ms,
        options.times,
        options.readers,
    ) {
        Ok(opened) => opened,
        Err(error) => return Err(of_opening(error)),
    };
    let history = input::Opened::new();
    serve_as::<Brand, Brand, R, S, I, O, G>(
        rt, alloc, opened, history, input, options, source, out, gate,
    )
}

/// Serves a session under the names of its opening and of its reading.
fn serve_as<
    J: service::Naming + Send + Sync + 'static,
    K: input::Naming + Send + Sync + 'static,
    R: Threads + Wait + Clock + Sync + Send + Copy + 'static,
    S: Source,
    I: BufRead + Drop + Send + 'static,
    O: Write,
    G: Gate + Copy + Send + 'static,
>(
    rt: &R,
    alloc: Global,
    opened: service::Opened,
    history: input::Opened,
    input: I,
    options: LiveOptions,
    source: &mut S,
    out: &mut O,
    gate: G,
) -> Result<u8, LiveError>
    requires opened { opened ≡ opened_state J.book (limits_in options) options.readers }
    requires history { history.book ≡ K.book }
    requires input { I.remaining input ≡ K.input }
    ensures ok { IfOk result (IsServed options (S.holds source.old) (S.failed source.old) (S.failed source.new)
        K.input (O.contents out.old) (O.contents out.new)) }
    ensures err { OnErr result (IsBroken options (S.holds source.old) (S.failed source.old) (S.failed source.new)
        K.input (O.contents out.old) (O.contents out.new)) }
    ensures same { (path body : List ℕ) → (S.holds source.new path body → S.holds source.old path body)
        × (S.holds source.old path body → S.holds source.new path body) }
    ensures counted { S.failed source.old ≤ S.failed source.new }
{
    let Ok((service, readers)) = opened.named::<J, R>(rt, alloc) else {
        return Err(LiveError::OutOfMemory);
    };
    let mut service = service;
    let (book, front) = history.named::<K>();
    let inbox = Inbox::new(alloc, front.again());
    let feed = Feed::new(alloc, book, front, input, options.lengths.most_bytes());
    let crew = ThreadedCrew::start(rt, alloc, feed, readers, gate);
    let served = serve_all(rt, alloc, options, &mut service, crew, inbox, source, out);
    service.close(rt);
    served
}

/// The types of a session.
struct Live<J, K, R, S, I, O> {
    of: PhantomData<(J, K, R, S, I, O)>,
}

impl<
    J: service::Naming,
    K: input::Naming,
    R: Threads + Wait + Clock + Sync,
    S: Source,
    I: BufRead + Drop,
    O: Write,
> World for Live<J, K, R, S, I, O> {
    type Opening = J;

    type Items = K;

    type Runtime = R;

    type Source = S;

    type Crew = ThreadedCrew<J, K, I>;

    type Searcher = IndexSearcher;

    type Sink = Written;

    type Output = O;
}

/// Serves a session with a service before its first item.
fn serve_all<
    J: service::Naming,
    K: input::Naming,
    R: Threads + Wait + Clock + Sync,
    S: Source,
    I: BufRead + Drop,
    O: Write,
>(
    rt: &R,
    alloc: Global,
    options: LiveOptions,
    service: &mut Service<J>,
    crew: ThreadedCrew<J, K, I>,
    inbox: Inbox<K>,
    source: &mut S,
    out: &mut O,
) -> Result<u8, LiveError>
    requires first { service.old ≡ first_service (limits_in options) options.readers }
    requires inbox { inbox ≡ inbox_state [] [] None }
    requires read { IsReadOf K.input inbox.came }
    ensures ok { IfOk result (IsServed options (S.holds source.old) (S.failed source.old) (S.failed source.new)
        K.input (O.contents out.old) (O.contents out.new)) }
    ensures err { OnErr result (IsBroken options (S.holds source.old) (S.failed source.old) (S.failed source.new)
        K.input (O.contents out.old) (O.contents out.new)) }
    ensures same { (path body : List ℕ) → (S.holds source.new path body → S.holds source.old path body)
        × (S.holds source.old path body → S.holds source.new path body) }
    ensures counted { S.failed source.old ≤ S.failed source.new }
{
    let plan = Plan {
        rt,
        alloc,
        readers: options.readers,
    };
    let mut crew = crew;
    let mut inbox = inbox;
    let mut written = Written::new(alloc, options.stats, options.readers as usize + 1);
    let done = carry_out_all::<Live<J, K, R, S, I, O>>(
        &plan,
        service,
        &mut crew,
        &mut inbox,
        &mut written,
        source,
        out,
    );
    crew.close(rt);
    match done {
        Ok(()) => Ok(written.marks.status()),
        Err(error) => Err(error),
    }
}
