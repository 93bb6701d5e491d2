//! Searches that are ready to be answered.

ghost use Rattle.std.specs.Prelude.{◌≡◌, IfOk, IfErr};
ghost use Rattle.prepare.specs.Prepared.{request_of};
ghost use Rattle.script.specs.Items.{find};
ghost use Rattle.steps.specs.Asked.{Asks, IsFaultOf};
ghost use Rattle.service.specs.Private.Requests.{search_of};
ghost use Rattle.service.specs.Private.Entries.{IsReasonOfWords, reason_of_fault, reason_of_find};

use crate::question::{Question, Texts};
use crate::wish::Wish;
use ere::{EreError, EreErrorKind};
use prepare::{FindError, Prepared};
use request::{FindFault, read_find};
use std::alloc::Global;
use std::marker::Model;
use transcript::SearchReason;

/// A search with its patterns, read. Contracts see it as its item and what was read.
#[derive(Debug, Drop)]
pub struct Request {
    /// The texts of the search.
    pub(crate) question: Question,
    /// Its patterns, read.
    pub(crate) prepared: Prepared,
}

impl Model for Request {
    ghost use Rattle.service.specs.Request.{Asked};
    ghost use Rattle.prepare.specs.Prepared.{request_of};
    ghost use Rattle.steps.specs.Asked.{Asks};

    ghost Value = { Asked };

    ghost use Rattle.std.specs.Coded.{codes};
    ghost use Rattle.prepare.specs.contracts.pattern.Prepared as patterns;

    ghost coded = { Prim.hlevel (codes, patterns.the_row.coded) };

    ghost view = { λ r. record { item = r.question; prepared = r.prepared } };

    ghost invariant = { λ r. Asks r.question (request_of r.prepared) };
}

impl Request {
    /// Reads the patterns of a search.
    ///
    /// An `Err` says why it is refused: for the first fault of its options, of its name patterns or of its pattern, in
    /// this order, or since memory ran out.
    pub(crate) fn read(alloc: Global, question: Question) -> Result<Request, SearchReason>
        ensures ok { IfOk result (λ request. request.item ≡ question) }
        ensures err { IfErr result (IsFaultOf question) }
    {
        match prepare(alloc, question.texts()) {
            Ok(prepared) => Ok(Request { question, prepared }),
            Err(reason) => Err(reason),
        }
    }

    /// Its patterns, read.
    pub fn prepared(&self) -> &Prepared
        ensures { result.now ≡ self.now.prepared }
    {
        &self.prepared
    }
}

/// Reads the patterns of a search. An `Err` says why it is refused.
fn prepare(alloc: Global, texts: &Texts) -> Result<Prepared, SearchReason>
    ensures ok { IfOk result (λ prepared. Asks (search_of texts.now) (request_of prepared)) }
    ensures err { IfErr result (IsFaultOf (search_of texts.now)) }
{
    match texts {
        Texts::Search { case, pattern } => match Prepared::with_case(alloc, pattern, *case) {
            Ok(prepared) => Ok(prepared),
            Err(error) => Err(reason_of_fault(false, error)),
        },
        Texts::SearchIn {
            case,
            name_pattern,
            pattern,
        } => match Prepared::within_with_case(alloc, name_pattern, pattern, *case) {
            Ok(prepared) => Ok(prepared),
            Err(error) => Err(reason_of_fault(error.in_name, error.error)),
        },
        Texts::Find { words } => prepare_find(alloc, words),
    }
}

/// Reads the words and the patterns of a search with options. An `Err` says why it is refused.
fn prepare_find(alloc: Global, words: &[u8]) -> Result<Prepared, SearchReason>
    ensures ok { IfOk result (λ prepared. Asks (find words.now) (request_of prepared)) }
    ensures err { IfErr result (IsFaultOf (find words.now)) }
{
    let find = match read_find(alloc, words) {
        Ok(find) => find,
        Err(fault) => return Err(reason_of_words(alloc, fault)),
    };
    match Prepared::find(alloc, &find) {
        Ok(prepared) => Ok(prepared),
        Err(error) => Err(reason_of_find(error)),
    }
}

/// The reason of a fault in the words of a search with options.
fn reason_of_words(alloc: Global, fault: FindFault<'_>) -> SearchReason
    ensures { IsReasonOfWords fault.entry result }
{
    match fault {
        FindFault::OutOfMemory => SearchReason::OutOfMemory,
        _ => {
            let mut words = Vec::new(alloc);
            match fault.write_reason(&mut words) {
                Ok(()) => SearchReason::Options(words),
                Err(_) => SearchReason::OutOfMemory,
            }
        }
    }
}

/// The reason of a fault in a pattern of a search with options.
fn reason_of_find(error: FindError) -> SearchReason
    ensures { result ≡ reason_of_find error }
{
    if error.error.kind == EreErrorKind::OutOfMemory {
        SearchReason::OutOfMemory
    } else if error.name == 0 {
        SearchReason::Pattern(error.error)
    } else {
        SearchReason::NamePatternAt(error.name, error.error)
    }
}

fn reason_of_fault(in_name: bool, error: EreError) -> SearchReason
    ensures { result ≡ reason_of_fault in_name error }
{
    if error.kind == EreErrorKind::OutOfMemory {
        SearchReason::OutOfMemory
    } else if in_name {
        SearchReason::NamePattern(error)
    } else {
        SearchReason::Pattern(error)
    }
}

/// A search that a reader is to answer. Contracts see it as the number of the search.
#[derive(Drop)]
pub struct Task {
    /// The number of the search, from 1.
    pub(crate) number: u32,
    /// The search, with its patterns.
    pub(crate) request: Request,
    /// Whether it is still wanted.
    pub(crate) wish: Wish,
    /// In how many threads its lines may be matched: in one for each reader and one more if no other search was open when
    /// it was asked, and otherwise in one.
    pub(crate) parts: usize,
}

impl Task {
    /// The lane in which the search waits for a reader: the word after its `--lane`, and no byte if it has none, or if there is no
    /// memory for it.
    pub fn lane(&self, alloc: Global) -> Vec<u8> {
        match self.request.question.texts() {
            Texts::Find { words } => lane_of(alloc, words),
            _ => Vec::new(alloc),
        }
    }

    /// Its number, the search with its patterns, whether it is still wanted, and in how many threads its lines may be matched.
    pub fn into_parts(self) -> (u32, Request, Wish, usize)
        ensures { result.0 ≡ self }
    {
        let Task {
            number,
            request,
            wish,
            parts,
        } = self;
        (number, request, wish, parts)
    }
}

/// The lane in the words of a search with options.
fn lane_of(alloc: Global, words: &[u8]) -> Vec<u8> {
    let lane = match read_find(alloc, words) {
        Ok(find) => find.options.lane,
        Err(_) => None,
    };
    match Vec::from_slice(alloc, lane.unwrap_or(&[])) {
        Ok(lane) => lane,
        Err(_) => Vec::new(alloc),
    }
}

impl Model for Task {
    ghost use Rattle.std.specs.Prelude.{ℕ};

    ghost Value = { ℕ };

    ghost view = { λ t. t.number };
}
