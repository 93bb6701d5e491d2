//! The state machine.

ghost use Rattle.std.specs.Prelude.{◌≡◌, ◌≢◌, ℕ, ◌+◌, ◌<◌, ◌≤◌, ◌^◌, ◌⊎◌, List, [], ◌∷◌, All, length, Some, Contains, MatchBool, IfSome, IfNone, IfOk, OnOk, OnErr, true, is_some, take, slice_get};
ghost use mathlib.Core.List.{IsPrefix};
ghost use Rattle.documents.specs.State.{state_of};
ghost use Rattle.prepare.specs.Prepared.{request_of};
ghost use Rattle.views.specs.ShownOf.{IsShownOf};
ghost use Rattle.input.specs.Owned.{ShowsOwned};
ghost use Rattle.script.specs.Items.{Item, numbered, cancel as cancel_item};
ghost use Rattle.published.specs.Counts.{AreCountsOf};
ghost use Rattle.published.specs.Desk.{desk_state};
ghost use Rattle.published.specs.History.{known, Known};
ghost use Rattle.transcript.specs.declared.entry.Entry.TheVariants.{Found as found_entry, SearchRefused as refused_entry};
ghost use Rattle.transcript.specs.declared.entry.SearchReason.TheVariants.{OutOfMemory as out_of_memory, TooSlow as too_slow};
ghost use Rattle.steps.specs.LegalRows.{status_entry};
ghost use Rattle.steps.specs.Rows.{searches_of, version_in, failures_in};
ghost use Rattle.steps.specs.Steps.{OpenSearch as OpenSearchValue};
ghost use Rattle.service.specs.Collected.{number_in};
ghost use Rattle.service.specs.Service.{ServiceState, Takes, Gives, SetsAside, IsFound, IsCounted, written_by, failures_by, IsKind, HasNumber};
ghost use Rattle.service.specs.Private.Closing.{CanClose, IsAsked, IsRefused, IsCancelled, IsPlaceOf, IsGivenUp, IsOwnEntry, with_kept, with_search};

use crate::begun::Begun;
use crate::done::{Done, Found};
use crate::items::{Outcome, carry_out};
use crate::naming::Naming;
use crate::open_search::OpenSearch;
use crate::question::Question;
use crate::reply::Reply;
use crate::searcher::Searcher;
use crate::source::Source;
use crate::tasks::{Request, Task};
use crate::turns::Turns;
use crate::wish::{Look, Wish};
use documents::Lengths;
use input::ReadItem;
use prepare::Prepared;
use published::{Counts, Desk, Reading, Told};
use std::alloc::{AllocError, Global};
use std::collections::VecDeque;
use std::marker::{Model, PhantomData};
use std::sync::Wait;
use std::thread::Threads;
use std::time::{Clock, Duration, Instant};
use transcript::{Entry, Reason, SearchReason};
use views::Shown;
use watch::Unanswered;

/// About how many bytes of bodies the second copy of the index gets at a time. A piece takes a few milliseconds.
const PIECE: usize = 65_536;

/// The accepted commands, what was published last, and the open searches. It takes items and answers, one after the
/// other, and says which entry each gets.
///
/// Contracts see it as a `ServiceState`. End it with `close`.
pub struct Service<J: Naming> {
    desk: Desk,
    /// What was published last.
    told: Told,
    /// The reading of reader 0.
    reading: Reading,
    /// Versions that were published, rising: all that open searches can still get.
    kept: VecDeque<u32>,
    /// How many searches have been taken.
    searches: u32,
    /// The open searches, in their order.
    awaited: Vec<OpenSearch>,
    /// The turns of the readers.
    turns: Turns,
    /// How long names, bodies and lines may be.
    lengths: Lengths,
    /// How many milliseconds a search has at most, if there is such a limit.
    search_ms: Option<u32>,
    /// Whether each answer shows its times.
    times: bool,
    of: PhantomData<J>,
}

impl<J: Naming> Model for Service<J> {
    ghost use Rattle.std.specs.Prelude.{◌≡◌, is_some};
    ghost use Rattle.service.specs.Service.{ServiceState};
    ghost use Rattle.service.specs.Private.Closing.{IsService, service_of};

    ghost Value = { ServiceState };

    ghost view = { λ s. service_of s.desk s.lengths (is_some s.search_ms) s.told s.kept.items s.searches s.awaited.items s.turns };

    ghost invariant = { λ s. (s.desk.opening ≡ J.book) × (s.told.opening ≡ J.book) × (s.reading.opening ≡ J.book)
        × IsService (service_of s.desk s.lengths (is_some s.search_ms) s.told s.kept.items s.searches s.awaited.items s.turns)
        × (s.desk.published ≡ s.told.commands) };
}

impl<J: Naming> Service<J> {
    /// A service before its first item.
    pub(crate) fn new(
        alloc: Global,
        desk: Desk,
        told: Told,
        reading: Reading,
        kept: VecDeque<u32>,
        turns: Turns,
        lengths: Lengths,
        search_ms: Option<u32>,
        times: bool,
    ) -> Service<J>
        requires opening { (desk.opening ≡ J.book) × (told.opening ≡ J.book) × (reading.opening ≡ J.book) }
        requires empty { (desk.accepted ≡ []) × (desk.published ≡ []) × (told.commands ≡ []) }
        requires kept { kept.items ≡ 0 ∷ [] }
        ensures { result ≡ record { limits = record { commands = desk.limit; lengths = lengths; timed = is_some search_ms }; accepted = []; told = []; kept = 0 ∷ []; searches = 0; awaited = []; turns = turns } }
    {
        Service {
            desk,
            told,
            reading,
            kept,
            searches: 0,
            awaited: Vec::new(alloc),
            turns,
            lengths,
            search_ms,
            times,
            of: PhantomData,
        }
    }

    /// How many searches have been taken. The last of them has this number.
    pub fn searches(&self) -> u32
        ensures { result ≡ self.now.searches }
    {
        self.searches
    }

    /// How many searches are open.
    pub fn open_searches(&self) -> usize
        ensures { result ≡ length self.now.awaited }
    {
        self.awaited.len()
    }

    /// Whether 4,294,967,295 searches were taken, the most that can be counted. No further item can be taken then.
    pub fn is_full(&self) -> bool
        ensures { MatchBool result (self.now.searches + 1 ≡ 2 ^ 32) (self.now.searches + 1 < 2 ^ 32) }
    {
        self.searches == u32::MAX
    }

    /// Takes the next item. Only a load asks the source, and only once. The step is legal if `MayTake` allows it: a sync needs
    /// that no search is open, and without readers every item does.
    pub fn take<R: Threads + Wait + Clock + Sync, S: Source>(
        &mut self,
        rt: &R,
        alloc: Global,
        source: &mut S,
        read: ReadItem,
    ) -> Reply
        requires { self.old.searches + 1 < 2 ^ 32 }
        ensures takes { (shown : Item) → ShowsOwned read.item shown
            → Takes (S.holds source.old) self.old (numbered read.line shown) (written_by result) self.new }
        ensures kind { (shown : Item) → ShowsOwned read.item shown → IsKind shown result }
        ensures number { HasNumber self.new.searches result }
        ensures counted { IsCounted (failures_by result) (S.failed source.old) (S.failed source.new) }
        ensures no_less { S.failed source.old ≤ S.failed source.new }
        ensures same { (path body : List ℕ) → (S.holds source.new path body → S.holds source.old path body)
            × (S.holds source.old path body → S.holds source.new path body) }
        ensures few { self.new.searches ≤ self.old.searches + 1 }
    {
        let line = read.line;
        match carry_out(
            rt,
            alloc,
            &mut self.desk,
            self.lengths,
            &mut self.told,
            source,
            read,
        ) {
            Outcome::Entry(entry) => {
                self.note(&entry);
                Reply::Entry(entry)
            }
            Outcome::Search(question) => self.ask(rt, alloc, question),
            Outcome::Sync => Reply::Nothing,
            Outcome::Cancel(number) => self.cancel(line, number),
            Outcome::Status => Reply::Entry(self.status(rt, line)),
        }
    }

    /// Keeps the version of a publish, and drops the kept versions that no open search can get any more.
    fn note(&mut self, entry: &Entry)
        ensures rest { self.new ≡ with_kept self.new.kept self.old }
        ensures kept { (version : ℕ) → Contains self.new.kept version → Contains self.old.kept version ⊎ Contains (version_in (Some entry.now)) version }
    {
        if let Entry::Published { version, .. } = entry {
            let least = self.least_needed(*version);
            forget_below(&mut self.kept, least);
            keep(&mut self.kept, *version);
        }
    }

    /// The least version that an open search can get; the one published now, if none is open.
    fn least_needed(&self, version: u32) -> u32 {
        match self.awaited.first() {
            Some(search) => search.least,
            None => version,
        }
    }

    /// Takes a search: it is open then, or refused.
    fn ask<R: Clock>(&mut self, rt: &R, alloc: Global, question: Question) -> Reply
        requires few { self.old.searches + 1 < 2 ^ 32 }
        requires search { searches_of question ≡ 1 }
        ensures { IsAsked question self.old result self.new }
    {
        match Request::read(alloc, question) {
            Ok(request) => self.open(rt, alloc, request),
            Err(reason) => self.refuse(reason),
        }
    }

    /// Takes a search, which is refused.
    fn refuse(&mut self, reason: SearchReason) -> Reply
        requires few { self.old.searches + 1 < 2 ^ 32 }
        ensures { IsRefused reason self.old result self.new }
    {
        self.searches += 1;
        Reply::Entry(Entry::SearchRefused {
            search: self.searches,
            reason,
        })
    }

    /// Takes a search whose patterns were read: it is open then, or refused for memory.
    fn open<R: Clock>(&mut self, rt: &R, alloc: Global, request: Request) -> Reply
        requires few { self.old.searches + 1 < 2 ^ 32 }
        requires search { searches_of request.item ≡ 1 }
        ensures { IsAsked request.item self.old result self.new }
    {
        let Ok(wish) = Wish::new(rt, alloc, self.search_ms, self.times) else {
            return self.refuse(SearchReason::OutOfMemory);
        };
        match self.await_answer(alloc, &request.question, &wish) {
            Ok(number) => Reply::Search(Task {
                number,
                request,
                wish,
                parts: self.parts(),
            }),
            Err(_) => self.refuse(SearchReason::OutOfMemory),
        }
    }

    /// In how many threads the lines of the search that was opened last may be matched: as many as there are readers and one
    /// more if no other is open, since a part more keeps the processors busy where parts take unequally long.
    fn parts(&self) -> usize {
        if self.awaited.len() == 1 {
            self.turns.readers()
        } else {
            1
        }
    }

    /// Opens the search with this question, and returns its number. After an `Err`, which means that memory ran out, nothing
    /// has changed.
    fn await_answer(
        &mut self,
        alloc: Global,
        question: &Question,
        wish: &Wish,
    ) -> Result<u32, AllocError>
        requires few { self.old.searches + 1 < 2 ^ 32 }
        ensures ok { OnOk result (self.new ≡ with_search question.now self.old) }
        ensures number { IfOk result (λ number. number ≡ self.old.searches + 1) }
        ensures err { OnErr result (self.new ≡ self.old) }
    {
        let number = self.searches + 1;
        let search = OpenSearch {
            number,
            question: question.again(alloc)?,
            least: self.told.version(),
            wish: wish.again()?,
        };
        self.awaited.push(search)?;
        self.searches = number;
        Ok(number)
    }

    /// Takes a cancel of the search with this number: if it is open, it is refused now, and its reader gives it up.
    fn cancel(&mut self, line: u32, number: u32) -> Reply
        ensures cancelled { IsCancelled line number self.old result self.new }
        ensures kind { IsKind (cancel_item number) result }
        ensures no_failure { failures_by result ≡ 0 }
        ensures searches { self.new.searches ≡ self.old.searches }
    {
        if number == 0 || number > self.searches {
            return Reply::Entry(Entry::Refused {
                line,
                reason: Reason::NoSuchSearch,
            });
        }
        match place_in(&self.awaited, number) {
            Some(place) => {
                let search = &self.awaited[place];
                search.wish.call_off();
                Reply::Cancelled(self.refuse_at(place, SearchReason::Cancelled))
            }
            None => Reply::Nothing,
        }
    }

    /// The entry of a status on this line.
    fn status<R: Wait>(&mut self, rt: &R, line: u32) -> Entry
        ensures entry { result ≡ status_entry line (length self.old.told) self.old.accepted self.old.limits.commands (length self.old.awaited) }
        ensures same { self.new ≡ self.old }
    {
        let counts = count_last(rt, &mut self.reading, &self.told);
        Entry::Status {
            line,
            version: counts.version,
            documents: counts.documents,
            bytes: counts.bytes,
            accepted: self.desk.accepted(),
            most: self.desk.limit(),
            open: self.awaited.len() as u32,
        }
    }

    /// The entry of the search that a reader has answered. It is refused as too slow if the reader gave it up since its
    /// time was over. If there is no answer, or it is not accepted, the patterns are read again and the search is
    /// answered here, from what was published last; if memory or its time runs out for that too, it is refused. `None`
    /// means that the search is not open.
    pub fn answered<F: Searcher, R: Wait + Clock>(
        &mut self,
        rt: &R,
        alloc: Global,
        done: Done<J>,
    ) -> Option<Entry>
        ensures some { IfSome result (λ entry. Gives self.old entry self.new) }
        ensures own { IfSome result (λ entry. number_in entry ≡ done) }
        ensures none { IfNone result (self.new ≡ self.old) }
        ensures not_open { IfNone result (All (λ search. search.number ≢ done) self.old.awaited) }
        ensures searches { self.new.searches ≡ self.old.searches }
    {
        let place = place_in(&self.awaited, done.number)?;
        let Done {
            number: _,
            question,
            found,
            is_late,
        } = done;
        match found {
            Some(found) => Some(self.accept::<F, R>(rt, alloc, place, &question, found)),
            None if is_late && self.search_ms.is_some() => {
                Some(self.refuse_at(place, SearchReason::TooSlow))
            }
            _ => Some(self.answer_anew::<F, R>(rt, alloc, place)),
        }
    }

    /// Answers an open search here, as reader 0, from what was published last. It is refused if memory or its time runs
    /// out. `None` means that the search is not open.
    pub fn answer_here<F: Searcher, R: Wait + Clock>(
        &mut self,
        rt: &R,
        alloc: Global,
        task: &Task,
    ) -> Option<Entry>
        ensures some { IfSome result (λ entry. Gives self.old entry self.new) }
        ensures own { IfSome result (λ entry. number_in entry ≡ task.now) }
        ensures none { IfNone result (self.new ≡ self.old) }
        ensures not_open { IfNone result (All (λ search. search.number ≢ task.now) self.old.awaited) }
        ensures searches { self.new.searches ≡ self.old.searches }
    {
        let place = place_in(&self.awaited, task.number)?;
        Some(self.answer_at::<F, R>(rt, alloc, place, &task.request))
    }

    /// Takes note of a search for which a reader has taken what it needs: the reader's next turn is set aside for it, so that it can
    /// be answered after searches that are taken later. Of what one reader takes, note is to be taken in that order, and before the
    /// search is answered.
    pub fn set_aside(&mut self, begun: &Begun)
        ensures { SetsAside self.old self.new }
    {
        if place_in(&self.awaited, begun.number).is_some() {
            self.turns
                .set_aside(begun.number, begun.reader, begun.version);
        }
    }

    /// Whether a reader's answer is accepted for the search at this place.
    fn can_stand(&self, place: usize, question: &Question, seen: &Told, answer: &Shown) -> bool
        requires place { place < length self.now.awaited }
        requires opening { seen.now.opening ≡ J.book }
        requires exact { IsFound question.now seen.now.commands answer.now }
        ensures { MatchBool result (CanClose self.now place answer.now) Unit }
    {
        let search = &self.awaited[place];
        let version = answer.version();
        if !question.is_same(&search.question) || version < search.least {
            return false;
        }
        seen.begins(&self.told) && self.kept.binary_search(&version).is_ok()
    }

    /// Reads the patterns of the search at this place again, and answers it here, as reader 0, or refuses it if memory runs
    /// out.
    fn answer_anew<F: Searcher, R: Wait + Clock>(
        &mut self,
        rt: &R,
        alloc: Global,
        place: usize,
    ) -> Entry
        requires { place < length self.old.awaited }
        ensures gives { Gives self.old result self.new }
        ensures own { IsOwnEntry self.old.awaited place result }
        ensures searches { self.new.searches ≡ self.old.searches }
    {
        let Ok(question) = self.awaited[place].question.again(alloc) else {
            return self.refuse_at(place, SearchReason::OutOfMemory);
        };
        match Request::read(alloc, question) {
            Ok(request) => self.answer_at::<F, R>(rt, alloc, place, &request),
            Err(_) => self.refuse_at(place, SearchReason::OutOfMemory),
        }
    }

    /// Answers the search at this place here, as reader 0, or refuses it if memory or its time runs out.
    fn answer_at<F: Searcher, R: Wait + Clock>(
        &mut self,
        rt: &R,
        alloc: Global,
        place: usize,
        request: &Request,
    ) -> Entry
        requires { place < length self.old.awaited }
        ensures gives { Gives self.old result self.new }
        ensures own { IsOwnEntry self.old.awaited place result }
        ensures searches { self.new.searches ≡ self.old.searches }
    {
        if !request.question.is_same(&self.awaited[place].question) {
            return self.refuse_at(place, SearchReason::OutOfMemory);
        }
        let search = &self.awaited[place];
        let prepared = &request.prepared;
        match answer_last::<F, R>(
            rt,
            alloc,
            &mut self.reading,
            &self.told,
            prepared,
            &search.wish,
        ) {
            Ok(answer) => self.close_here(place, answer),
            Err(error) => self.give_up(place, error),
        }
    }

    /// Closes the search at this place, which has no answer since its time or memory ran out.
    fn give_up(&mut self, place: usize, error: Unanswered) -> Entry
        requires { place < length self.old.awaited }
        ensures gives { Gives self.old result self.new }
        ensures own { IsOwnEntry self.old.awaited place result }
        ensures searches { self.new.searches ≡ self.old.searches }
    {
        if error == Unanswered::CalledOff && self.search_ms.is_some() {
            return self.refuse_at(place, SearchReason::TooSlow);
        }
        self.refuse_at(place, SearchReason::OutOfMemory)
    }

    /// Closes the search at this place with what a reader found for this question, if that is accepted. Otherwise the search is
    /// answered anew.
    fn accept<F: Searcher, R: Wait + Clock>(
        &mut self,
        rt: &R,
        alloc: Global,
        place: usize,
        question: &Question,
        found: Found<J>,
    ) -> Entry
        requires place { place < length self.old.awaited }
        requires exact { IsFound question.now found.seen.commands found.answer }
        ensures gives { Gives self.old result self.new }
        ensures own { IsOwnEntry self.old.awaited place result }
        ensures searches { self.new.searches ≡ self.old.searches }
    {
        let Found {
            reader,
            seen,
            answer,
            of: _,
        } = found;
        if self.can_stand(place, question, &seen, &answer) {
            return self.close_by::<F, R>(rt, alloc, place, reader, answer);
        }
        self.answer_anew::<F, R>(rt, alloc, place)
    }

    /// Closes the search at this place with the answer of a reader. If no turn is in order for it, the search is answered anew.
    fn close_by<F: Searcher, R: Wait + Clock>(
        &mut self,
        rt: &R,
        alloc: Global,
        place: usize,
        reader: u32,
        answer: Shown,
    ) -> Entry
        requires place { place < length self.old.awaited }
        requires closes { CanClose self.old place answer }
        ensures gives { Gives self.old result self.new }
        ensures own { IsOwnEntry self.old.awaited place result }
        ensures searches { self.new.searches ≡ self.old.searches }
    {
        match self.close_with(place, reader, answer) {
            Some(entry) => entry,
            None => self.answer_anew::<F, R>(rt, alloc, place),
        }
    }

    /// Closes the search at this place with an answer of reader 0, which is never older than its last one.
    fn close_here(&mut self, place: usize, answer: Shown) -> Entry
        requires place { place < length self.old.awaited }
        requires closes { CanClose self.old place answer }
        ensures gives { Gives self.old result self.new }
        ensures own { IsOwnEntry self.old.awaited place result }
        ensures searches { self.new.searches ≡ self.old.searches }
    {
        match self.close_with(place, 0, answer) {
            Some(entry) => entry,
            None => self.refuse_at(place, SearchReason::OutOfMemory),
        }
    }

    /// Closes the search at this place with an answer. `None` means that no turn is in order for it: it is open still.
    fn close_with(&mut self, place: usize, reader: u32, answer: Shown) -> Option<Entry>
        requires place { place < length self.old.awaited }
        requires closes { CanClose self.old place answer }
        ensures gives { IfSome result (λ entry. Gives self.old entry self.new) }
        ensures own { IfSome result (IsOwnEntry self.old.awaited place) }
        ensures none { IfNone result (SetsAside self.old self.new) }
        ensures searches { self.new.searches ≡ self.old.searches }
    {
        let number = self.awaited[place].number;
        let turn = self.turns.take(number, reader, answer.version())?;
        let search = self.awaited.remove(place);
        Some(Entry::Found {
            search: search.number,
            reader: turn.reader,
            turn: turn.turn,
            answer,
        })
    }

    /// Closes the search at this place without an answer.
    fn refuse_at(&mut self, place: usize, reason: SearchReason) -> Entry
        requires { place < length self.old.awaited }
        ensures { IsGivenUp place reason self.old result self.new }
    {
        let number = self.awaited[place].number;
        self.turns.give_back(number);
        let search = self.awaited.remove(place);
        Entry::SearchRefused {
            search: search.number,
            reason,
        }
    }

    /// Brings the copy of the index that is not searched further up to date, ahead of the next publish, by a piece: commands that
    /// come to some `PIECE` bytes of bodies, or a part of one. Returns whether more is left. It is for a time when no event is
    /// ready: one that comes meanwhile waits for this piece alone.
    ///
    /// The first piece after a publish waits for searches that are taking their candidates from that copy.
    pub fn catch_up<R: Wait>(&mut self, rt: &R) -> bool
        ensures { self.new ≡ self.old }
    {
        self.desk.catch_up(rt, PIECE)
    }

    /// Ends the service. Its readers give up the searches that are open, and afterwards find nothing any more.
    pub fn close<R: Wait>(self, rt: &R) {
        let Service {
            desk,
            told: _,
            reading: _,
            kept: _,
            searches: _,
            awaited,
            turns: _,
            lengths: _,
            search_ms: _,
            times: _,
            of: _,
        } = self;
        for search in awaited.as_slice() {
            search.wish.call_off();
        }
        desk.close(rt);
    }
}

/// Drops the versions below this one from the front of a list.
fn forget_below(kept: &mut VecDeque<u32>, least: u32)
    ensures { (version : ℕ) → Contains kept.new.items version → Contains kept.old.items version }
{
    while let Some(version) = kept.front() {
        if *version >= least {
            return;
        }
        let _ = kept.pop_front();
    }
}

/// Adds a version, if the list does not end with it. Where there is no memory for it, it is left out: then an answer of
/// this version is not accepted, and the search is answered anew.
fn keep(kept: &mut VecDeque<u32>, version: u32)
    ensures { (v : ℕ) → Contains kept.new.items v → Contains kept.old.items v ⊎ (v ≡ version) }
{
    if kept.back() != Some(&version) {
        let _ = kept.push_back(version);
    }
}

/// Searches until the answer is of the version that was published last. An `Err` means that memory ran out, or that the
/// search is not wanted any more.
fn answer_last<F: Searcher, R: Wait + Clock>(
    rt: &R,
    alloc: Global,
    reading: &mut Reading,
    told: &Told,
    prepared: &Prepared,
    wish: &Wish,
) -> Result<Shown, Unanswered>
    requires { reading.old.opening ≡ told.now.opening }
    ensures answer { IfOk result (IsShownOf (state_of told.now.commands) (request_of prepared.now)) }
    ensures opening { reading.new.opening ≡ reading.old.opening }
{
    let begun = Instant::now(rt).ok();
    reading.learn(told);
    let look = Look { rt, wish };
    for _ in rt.forever() {
        match F::search(alloc, reading, prepared, look) {
            Ok(answer) => {
                if answer.version() == told.version() {
                    let worked = begun.and_then(|begun| begun.elapsed(rt).ok());
                    let worked = worked.unwrap_or(Duration::ZERO);
                    return Ok(wish.timed(rt, worked, answer));
                }
            }
            Err(error) => return Err(error),
        }
    }
    unreachable!()
}

/// Counts until the counts are of the version that was published last.
fn count_last<R: Wait>(rt: &R, reading: &mut Reading, told: &Told) -> Counts
    requires { reading.old.opening ≡ told.now.opening }
    ensures counts { AreCountsOf (state_of told.now.commands) result }
    ensures opening { reading.new.opening ≡ reading.old.opening }
{
    reading.learn(told);
    for _ in rt.forever() {
        if let Some(counts) = reading.counts() {
            if counts.version == told.version() {
                return counts;
            }
        }
    }
    unreachable!()
}

/// The place of the search with this number among these. `None` if none of them has it.
fn place_in(awaited: &[OpenSearch], number: u32) -> Option<usize>
    ensures some { IfSome result (IsPlaceOf awaited.now number) }
    ensures within { IfSome result (λ place. place < length awaited.now) }
    ensures none { IfNone result (All (λ search. search.number ≢ number) awaited.now) }
{
    for place in 0..awaited.len() {
        let search = &awaited[place];
        if search.number == number {
            return Some(place);
        }
    }
    None
}
