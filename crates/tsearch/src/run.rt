//! Runs of scripts.

ghost use Rattle.std.specs.Prelude.{◌≡◌, ℕ, ◌<◌, ◌≤◌, ◌↔◌, List, [], None, Some, IfOk, IsErrOf, MatchBool, length};
ghost use Rattle.input.specs.Read.{IsReadOf, inbox_state};
ghost use Rattle.published.specs.declared.opening.TheConstants.{MAX_COMMANDS};
ghost use Rattle.service.specs.Opening.{opened_state};
ghost use Rattle.service.specs.Service.{first_service};
ghost use Rattle.tsearch.specs.Legal.{IsLegal, limits_in};
ghost use Rattle.tsearch.specs.Private.Sinks.{IsLegalFor};

use crate::crew::{Lent, ThreadedCrew};
use core::mem::replace_with;
use documents::Lengths;
use event_loop::{LiveError, Plan, World, carry_out_all};
use input::{Feed, Inbox};
use published::OpenError;
use script::MAX_SCRIPT;
use service::{Collected, Reader, Service, Source, open};
use std::alloc::Global;
use std::io::BufRead;
use std::marker::{Brand, PhantomData};
use std::sync::Wait;
use std::thread::{self, Threads};
use std::time::Clock;
use thiserror::Error;
use transcript::{Entry, Transcript};
use workers::{Gate, IndexSearcher};

/// How a script is run.
#[derive(Clone, Copy, Debug, PartialEq, Eq)]
pub struct Options {
    /// How many readers there are in addition to reader 0, 0 to 16: so many searches are at work at once.
    pub readers: u32,
    /// How many commands are accepted at most, 1 to 4,294,967,294.
    pub max_commands: u32,
    /// How long names, bodies and lines may be.
    pub lengths: Lengths,
    /// After how many milliseconds a search that has no answer yet is given up, if there is such a limit.
    pub search_ms: Option<u32>,
    /// Whether each answer shows how long it waited and worked, and the way its lines were found.
    pub times: bool,
}

/// Why a run has no transcript.
#[derive(Debug, Drop, Error)]
pub enum RunError {
    /// Memory ran out for the run itself.
    #[error("tsearch: out of memory")]
    OutOfMemory,
    /// A reader got no place.
    #[error("tsearch: no place for a reader")]
    NoPlace,
    /// The script has over 67,108,864 bytes. This is checked first.
    #[error("tsearch: script too long")]
    ScriptTooLong,
}

/// Runs a script, and returns what became of each of its items.
///
/// The script is read on the calling thread, which is the one writer. The readers answer searches, each in a thread of its
/// own, and take the next one as soon as they are free. Without readers, or if no thread can be started, or if a reader
/// gives no answer that is accepted, the calling thread answers a search, as reader 0. A sync waits for the answers of all
/// searches before it. A reader calls the gate at each point of a search; reader 0 does not.
///
/// The transcript is legal for the script (`docs/DEFINITIONS.md`), whatever the number of readers and however their
/// steps interleave: each search is answered for the documents after some published list of commands, and lists
/// exactly the lines with a match. A refused item has an entry in the transcript, and the run goes on with the next,
/// except after the three faults that end the reading of a script: a bad put, a put that the script's end cuts
/// short, or one with a byte other than a line feed after its bytes.
///
/// Whatever the result, the source holds afterwards what it held before, and its count of failures has not fallen.
///
/// `ScriptTooLong` is returned exactly when the script has over 67,108,864 bytes. `NoPlace` means that a reader got no
/// place, and `OutOfMemory` that memory ran out for the run itself, or for the text of a line. After an `Err` there is no
/// transcript. All workers have ended when `run` returns.
pub fn run<R: Threads + Wait + Clock + Sync, S: Source + Drop, G: Gate>(
    rt: &R,
    alloc: Global,
    script: &[u8],
    options: Options,
    source: &mut S,
    gate: &G,
) -> Result<Transcript, RunError>
    requires readers { options.readers ≤ 16 }
    requires commands { 0 < options.max_commands }
    requires few_commands { options.max_commands ≤ MAX_COMMANDS }
    ensures legal { IfOk result (λ transcript. IsLegal script.now options (S.holds source.old)
        (S.failed source.old) (S.failed source.new) transcript.entries.items) }
    ensures same { (path body : List ℕ) → (S.holds source.new path body → S.holds source.old path body)
        × (S.holds source.old path body → S.holds source.new path body) }
    ensures counted { S.failed source.old ≤ S.failed source.new }
    ensures too_long { IsErrOf result RunError.ScriptTooLong ↔ (MAX_SCRIPT < length script.now) }
{
    if is_too_long(script) {
        return Err(RunError::ScriptTooLong);
    }
    let opened = match open(
        rt,
        alloc,
        options.max_commands,
        options.lengths,
        options.search_ms,
        options.times,
        options.readers,
    ) {
        Ok(opened) => opened,
        Err(OpenError::NoPlace) => return Err(RunError::NoPlace),
        Err(OpenError::OutOfMemory) => return Err(RunError::OutOfMemory),
    };
    let history = input::Opened::new();
    match run_as::<Brand, Brand, R, S, G>(
        rt, alloc, opened, history, script, options, source, gate,
    ) {
        Ok(entries) => Ok(Transcript { entries }),
        Err(_) => Err(RunError::OutOfMemory),
    }
}

/// Whether a script is longer than a run accepts.
fn is_too_long(script: &[u8]) -> bool
    ensures { MatchBool result (MAX_SCRIPT < length script.now) (length script.now ≤ MAX_SCRIPT) }
{
    script.len() > MAX_SCRIPT
}

/// Runs the script under the names of its opening and of its reading.
fn run_as<
    J: service::Naming + Send + Sync + 'static,
    K: input::Naming + Send + Sync + 'static,
    R: Threads + Wait + Clock + Sync,
    S: Source + Drop,
    G: Gate,
>(
    rt: &R,
    alloc: Global,
    opened: service::Opened,
    history: input::Opened,
    script: &[u8],
    options: Options,
    source: &mut S,
    gate: &G,
) -> Result<Vec<Entry>, LiveError>
    requires opened { opened ≡ opened_state J.book (limits_in options) options.readers }
    requires history { history.book ≡ K.book }
    requires input { K.input ≡ Some script.now }
    ensures legal { IfOk result (λ entries. IsLegal script.now options (S.holds source.old)
        (S.failed source.old) (S.failed source.new) entries.items) }
    ensures same { (path body : List ℕ) → (S.holds source.new path body → S.holds source.old path body)
        × (S.holds source.old path body → S.holds source.new path body) }
    ensures counted { S.failed source.old ≤ S.failed source.new }
{
    let Ok((service, readers)) = opened.named::<J, R>(rt, alloc) else {
        return Err(LiveError::OutOfMemory);
    };
    let mut service = service;
    let (book, front) = history.named::<K>();
    let inbox = Inbox::new(alloc, front.again());
    let feed = Feed::new(alloc, book, front, script, options.lengths.most_bytes());
    let of = PhantomData;
    let lent = Lent {
        rt,
        alloc,
        gate,
        of: &of,
    };
    let hands = Hands {
        readers,
        feed,
        inbox,
    };
    let ran = in_scope(&lent, options, &mut service, hands, source);
    service.close(rt);
    ran
}

/// The types of a run.
struct Scripted<J, K, R, S, I> {
    of: PhantomData<(J, K, R, S, I)>,
}

impl<
    J: service::Naming,
    K: input::Naming,
    R: Threads + Wait + Clock + Sync,
    S: Source,
    I: BufRead + Drop,
> World for Scripted<J, K, R, S, I> {
    type Opening = J;

    type Items = K;

    type Runtime = R;

    type Source = S;

    type Crew = ThreadedCrew<J, K, I>;

    type Searcher = IndexSearcher;

    type Sink = Collected;

    type Output = ();
}

/// What a run works with, besides its service: the readers, the script, and what came of it.
#[derive(Drop)]
struct Hands<J: service::Naming, K: input::Naming, I: BufRead + Drop> {
    readers: Vec<Reader<J>>,
    feed: Feed<K, I>,
    inbox: Inbox<K>,
}

/// Runs the script with workers in a scope. All of them have ended when it returns.
fn in_scope<
    J: service::Naming + Send + Sync + 'static,
    K: input::Naming + Send + Sync + 'static,
    R: Threads + Wait + Clock + Sync,
    S: Source + Drop,
    I: BufRead + Drop,
    G: Gate,
>(
    lent: &Lent<'_, J, K, R, G>,
    options: Options,
    service: &mut Service<J>,
    hands: Hands<J, K, I>,
    source: &mut S,
) -> Result<Vec<Entry>, LiveError>
    requires first { service.old ≡ first_service (limits_in options) options.readers }
    requires inbox { hands.inbox ≡ inbox_state [] [] None }
    requires read { IsReadOf K.input hands.inbox.came }
    ensures legal { IfOk result (λ entries. IsLegalFor K.input options (S.holds source.old)
        (S.failed source.old) (S.failed source.new) entries.items) }
    ensures same { (path body : List ℕ) → (S.holds source.new path body → S.holds source.old path body)
        × (S.holds source.old path body → S.holds source.new path body) }
    ensures counted { S.failed source.old ≤ S.failed source.new }
{
    replace_with(
        source,
        hands,
        |source: S, hands: Hands<J, K, I>| -> (S, Result<Vec<Entry>, LiveError>)
            requires first { service.now ≡ first_service (limits_in options) options.readers }
            requires inbox { hands.inbox ≡ inbox_state [] [] None }
            requires read { IsReadOf K.input hands.inbox.came }
            ensures legal { IfOk result.1 (λ entries. IsLegalFor K.input options
                (S.holds source) (S.failed source) (S.failed result.0) entries.items) }
            ensures same { (path body : List ℕ) → (S.holds result.0 path body → S.holds source path body)
                × (S.holds source path body → S.holds result.0 path body) }
            ensures counted { S.failed source ≤ S.failed result.0 }
        { scoped(lent, options, service, hands, source) },
    )
}

/// A closure can keep only values that can be dropped, so the source is passed through it by value.
fn scoped<
    J: service::Naming + Send + Sync + 'static,
    K: input::Naming + Send + Sync + 'static,
    R: Threads + Wait + Clock + Sync,
    S: Source + Drop,
    I: BufRead + Drop,
    G: Gate,
>(
    lent: &Lent<'_, J, K, R, G>,
    options: Options,
    service: &mut Service<J>,
    hands: Hands<J, K, I>,
    source: S,
) -> (S, Result<Vec<Entry>, LiveError>)
    requires first { service.old ≡ first_service (limits_in options) options.readers }
    requires inbox { hands.inbox ≡ inbox_state [] [] None }
    requires read { IsReadOf K.input hands.inbox.came }
    ensures legal { IfOk result.1 (λ entries. IsLegalFor K.input options
        (S.holds source) (S.failed source) (S.failed result.0) entries.items) }
    ensures same { (path body : List ℕ) → (S.holds result.0 path body → S.holds source path body)
        × (S.holds source path body → S.holds result.0 path body) }
    ensures counted { S.failed source ≤ S.failed result.0 }
{
    thread::scope(
        thread::scope_env(),
        lent.rt,
        move |scope| -> (S, Result<Vec<Entry>, LiveError>)
            requires first { service.now ≡ first_service (limits_in options) options.readers }
            requires inbox { hands.inbox ≡ inbox_state [] [] None }
            requires read { IsReadOf K.input hands.inbox.came }
            ensures legal { IfOk result.1 (λ entries. IsLegalFor K.input options
                (S.holds source) (S.failed source) (S.failed result.0) entries.items) }
            ensures same { (path body : List ℕ) → (S.holds result.0 path body → S.holds source path body)
                × (S.holds source path body → S.holds result.0 path body) }
            ensures counted { S.failed source ≤ S.failed result.0 }
        {
            let mut source = source;
            let Hands {
                readers,
                feed,
                inbox,
            } = hands;
            let crew = ThreadedCrew::in_scope(scope, lent, feed, readers);
            let ran = collect_all(
                lent.rt,
                lent.alloc,
                options,
                service,
                crew,
                inbox,
                &mut source,
            );
            (source, ran)
        },
    )
}

/// Carries out the whole script, and returns the entries in the order of the items.
fn collect_all<
    J: service::Naming,
    K: input::Naming,
    R: Threads + Wait + Clock + Sync,
    S: Source,
    I: BufRead + Drop,
>(
    rt: &R,
    alloc: Global,
    options: Options,
    service: &mut Service<J>,
    crew: ThreadedCrew<J, K, I>,
    inbox: Inbox<K>,
    source: &mut S,
) -> Result<Vec<Entry>, LiveError>
    requires first { service.old ≡ first_service (limits_in options) options.readers }
    requires inbox { inbox ≡ inbox_state [] [] None }
    requires read { IsReadOf K.input inbox.came }
    ensures legal { IfOk result (λ entries. IsLegalFor K.input options (S.holds source.old)
        (S.failed source.old) (S.failed source.new) entries.items) }
    ensures same { (path body : List ℕ) → (S.holds source.new path body → S.holds source.old path body)
        × (S.holds source.old path body → S.holds source.new path body) }
    ensures counted { S.failed source.old ≤ S.failed source.new }
{
    let plan = Plan {
        rt,
        alloc,
        readers: options.readers,
    };
    let mut crew = crew;
    let mut inbox = inbox;
    let mut collected = Collected::new(alloc);
    let done = carry_out_all::<Scripted<J, K, R, S, I>>(
        &plan,
        service,
        &mut crew,
        &mut inbox,
        &mut collected,
        source,
        &mut (),
    );
    crew.close(rt);
    match done {
        Ok(()) => Ok(collected.into_entries()),
        Err(error) => Err(error),
    }
}
