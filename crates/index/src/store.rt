//! What an index keeps of its documents: names and bodies by number, and the sets by which they are found.

ghost use Rattle.std.specs.Prelude.{◌||◌, ◌≡◌, ℕ, false, ◌+◌, ◌<◌, ◌^◌, List, [], ◌∷◌, ◌++◌, length, map, OnOk, IfOk, IfSome, IsSome, IsTrue, None, OnErr};
ghost use Rattle.query.specs.Trigrams.{ListsTrigrams};
ghost use Rattle.posting.specs.ListValue.{has};
ghost use Rattle.index.specs.Private.Numbered.{document, document_at, body_bytes};
ghost use Rattle.posting.specs.Postings.{is_listed};
ghost use Rattle.index.specs.Private.Sets.{is_waiting, trigrams_at, IsAmongWaiting, NoneIsLeft};
ghost use Rattle.index.specs.Private.Slots.{documents_in, documents_of_slot, without_number, with_body_at, RiseTo};
ghost use Rattle.index.specs.Private.Store.{stored, IsStore, HasPlaceFor, IsReadyFor};

use crate::analysed::Analysed;
use crate::sets::{Change, Sets, Waiting};
use crate::slots::{Occupant, Slot, compact, exchange, give_back, number_from, occupant_at, take};
use posting::{Entry, Trigrams, WHOLE};
use std::alloc::{AllocError, Global};
use std::thread::Threads;

/// For bodies whose trigrams are kept in more bytes, together, it is not looked for what they have in common.
const MANY_BYTES: usize = 262_144;

/// More work is too much for one piece, in bytes of bodies, if a body is replaced.
const LONG: usize = 4_096;

/// The same if a document is taken out. Less is not counted.
const SHORT: usize = 512;

/// To take a number out of a set, the numbers to its nearer end are passed, and those behind it move, of which so many count as one.
const MOVED: usize = 64;

/// To put documents into empty sets counts as so much for each byte in which their trigrams are kept, and as so much for each
/// document. By measurement this holds for 2,000 documents of 300 bytes, for 20,000 of 1,500 and for Go's tree.
const FOR_A_BYTE: usize = 2;

const FOR_A_DOCUMENT: usize = 128;

/// Less work is never too much, whatever there is: it takes less than a millisecond.
const LEAST: usize = 8_192;

/// The documents of an index, with their sets.
#[derive(Drop)]
pub(crate) struct Store {
    /// The slots of the documents, rising by their numbers.
    pub(crate) slots: Vec<Slot>,
    /// The sets by which they are found.
    pub(crate) sets: Sets,
    /// How many documents there are.
    pub(crate) count: usize,
    /// The total length of all bodies, in bytes.
    pub(crate) held_bytes: u64,
    /// In how many bytes the trigrams of all bodies are kept, together. No contract depends on it, nor on the next two.
    pub(crate) trigram_bytes: usize,
    /// Whether `fill` follows.
    pub(crate) expects_fill: bool,
    /// What it has taken since then to take documents out of their sets, in bytes of bodies.
    pub(crate) taken: usize,
}

impl Store {
    /// The store of no documents. It takes no memory.
    pub(crate) fn new(alloc: Global) -> Store
        ensures documents { stored result ≡ [] }
        ensures store { IsStore 0 result }
    {
        Store {
            slots: Vec::new(alloc),
            sets: Sets::new(alloc),
            count: 0,
            held_bytes: 0,
            trigram_bytes: 0,
            expects_fill: false,
            taken: 0,
        }
    }

    /// Makes room for a document with this number and these trigrams. An `Err` means that memory ran out. The
    /// documents stay as they are in either case.
    pub(crate) fn make_room(&mut self, number: u32, trigrams: &Trigrams) -> Result<(), AllocError>
        requires { (last : ℕ) × IsStore last self.old }
        ensures documents { stored self.new ≡ stored self.old }
        ensures store { (last : ℕ) → IsStore last self.old → IsStore last self.new }
        ensures ok { OnOk result ((body : List ℕ) → ListsTrigrams body trigrams.now → HasPlaceFor self.new number body) }
    {
        self.finish()?;
        self.slots.reserve(1)?;
        self.sets.make_room(number, trigrams)
    }

    /// Takes out the document with this number, if there is one. If that is much work, `later` is asked for and nothing waits yet,
    /// its number waits to be taken out of the sets of its trigrams, and it is dropped then. This takes no memory, and gives back what
    /// the other documents do not need; room that was made may go with it. Where `fill` follows, and this has taken about as long as it
    /// takes to put all that are left into empty sets, the sets are emptied, and all documents wait.
    pub(crate) fn take_out(&mut self, number: u32, later: bool)
        requires { (last : ℕ) × IsStore last self.old }
        ensures documents { stored self.new ≡ without_number number (stored self.old) }
        ensures store { (last : ℕ) → IsStore last self.old → IsStore last self.new }
    {
        self.count_taken(number);
        self.take_out_now(number, later);
    }

    /// Counts what it takes to take out the document with this number. If it is too much, and `fill` follows, the sets are emptied.
    fn count_taken(&mut self, number: u32)
        requires { (last : ℕ) × IsStore last self.old }
        ensures documents { stored self.new ≡ stored self.old }
        ensures store { (last : ℕ) → IsStore last self.old → IsStore last self.new }
    {
        if !self.expects_fill || self.sets.has_waiting(number) {
            return;
        }
        self.taken = self.taken.saturating_add(self.work_of_all(number));
        self.start_over_if_too_much();
    }

    /// Takes out the document with this number, if there is one.
    fn take_out_now(&mut self, number: u32, later: bool)
        requires { (last : ℕ) × IsStore last self.old }
        ensures documents { stored self.new ≡ without_number number (stored self.old) }
        ensures store { (last : ℕ) → IsStore last self.old → IsStore last self.new }
    {
        if let Some(occupant) = take(&mut self.slots, number) {
            self.held_bytes -= occupant.held.body().as_bytes().len() as u64;
            self.count -= 1;
            self.trigram_bytes = less_by(self.trigram_bytes, &occupant.held);
            let waits = self.is_long(later, number, occupant.held.trigrams());
            self.sets.take_out(number, occupant.held, waits);
            compact(&mut self.slots, self.count);
            give_back(&mut self.slots);
        }
    }

    /// What it takes to take out the document with this number, if there is one.
    fn work_of_all(&self, number: u32) -> usize
        requires { (last : ℕ) × IsStore last self.now }
    {
        match occupant_at(&self.slots, number) {
            Some(occupant) => self.work_of(number, occupant.held.trigrams()),
            None => 0,
        }
    }

    /// What it takes to change the sets of these trigrams for the document with this number.
    fn work_of(&self, number: u32, trigrams: &Trigrams) -> usize {
        self.sets.postings.work(trigrams, self.share(number))
    }

    /// Whether it is too much for one piece to take this number out of the sets of these trigrams, if that is asked.
    fn is_long(&self, is_asked: bool, number: u32, trigrams: &Trigrams) -> bool {
        is_asked && self.work_of(number, trigrams) > SHORT
    }

    /// Which part of a set is passed to take out this number, in parts of `WHOLE`, as if each set had as many below it.
    fn share(&self, number: u32) -> usize {
        let (first, last) = match (self.slots.first(), self.slots.last()) {
            (Some(first), Some(last)) => (first.number, last.number),
            _ => (0, 0),
        };
        let behind = last.saturating_sub(number) as usize;
        let before = number.saturating_sub(first) as usize;
        let passed = behind.min(before).saturating_add(behind / MOVED);
        let parts = passed.saturating_mul(WHOLE);
        parts
            .checked_div(behind.saturating_add(before))
            .unwrap_or(0)
    }

    /// Whether it has taken about as long as to put all documents into empty sets.
    fn is_too_much(&self) -> bool {
        let documents = self.count.saturating_mul(FOR_A_DOCUMENT);
        let trigrams = self.trigram_bytes.saturating_mul(FOR_A_BYTE);
        self.taken > documents.saturating_add(trigrams).max(LEAST)
    }

    /// Empties the sets, and has all documents wait, if it has taken about as long as to put them into empty sets. The documents stay
    /// as they are. It needs no memory.
    pub(crate) fn start_over_if_too_much(&mut self)
        ensures documents { stored self.new ≡ stored self.old }
        ensures store { (last : ℕ) → IsStore last self.old → IsStore last self.new }
    {
        if self.is_too_much() {
            self.start_over();
        }
    }

    /// Empties the sets, and has all documents wait for `fill`. The documents stay as they are. It needs no memory.
    fn start_over(&mut self)
        ensures documents { stored self.new ≡ stored self.old }
        ensures waits { (number : ℕ) → IsAmongWaiting number self.new.sets.waiting }
        ensures store { (last : ℕ) → IsStore last self.old → IsStore last self.new }
    {
        let alloc = *self.slots.allocator();
        self.sets.start_over(alloc);
        self.taken = 0;
    }

    /// Puts in a document with this number, for which there is room.
    pub(crate) fn put_in(&mut self, number: u32, occupant: Occupant)
        requires store { (last : ℕ) × IsStore last self.old × (last < number) }
        requires room { HasPlaceFor self.old number occupant.held }
        requires bytes { body_bytes (stored self.old) + length occupant.held < 2 ^ 64 }
        ensures documents { stored self.new ≡ stored self.old ++ document number occupant.name occupant.held ∷ [] }
        ensures store { IsStore number self.new }
    {
        self.sets.put_in(number, occupant.held.trigrams());
        self.held_bytes += occupant.held.body().as_bytes().len() as u64;
        self.trigram_bytes = more_by(self.trigram_bytes, &occupant.held);
        self.count += 1;
        self.slots.push_reserved(Slot {
            number,
            occupant: Some(occupant),
        });
    }

    /// Puts in a document with this number, for which there is room, but for its trigrams: they wait for `fill`.
    pub(crate) fn put_later(&mut self, number: u32, occupant: Occupant)
        requires store { (last : ℕ) × IsStore last self.old × (last < number) }
        requires room { HasPlaceFor self.old number [] }
        requires bytes { body_bytes (stored self.old) + length occupant.held < 2 ^ 64 }
        ensures documents { stored self.new ≡ stored self.old ++ document number occupant.name occupant.held ∷ [] }
        ensures store { IsStore number self.new }
    {
        self.sets.put_later(number);
        self.held_bytes += occupant.held.body().as_bytes().len() as u64;
        self.trigram_bytes = more_by(self.trigram_bytes, &occupant.held);
        self.count += 1;
        self.slots.push_reserved(Slot {
            number,
            occupant: Some(occupant),
        });
    }

    /// Puts the documents that wait into the sets of their trigrams, in up to `threads` threads. An `Err` means that memory
    /// ran out; some may then still wait. The documents stay as they are in either case.
    pub(crate) fn fill<R: Threads + Sync>(
        &mut self,
        rt: &R,
        threads: usize,
    ) -> Result<(), AllocError>
        requires { (last : ℕ) × IsStore last self.old }
        ensures documents { stored self.new ≡ stored self.old }
        ensures store { (last : ℕ) → IsStore last self.old → IsStore last self.new }
    {
        self.expects_fill = false;
        self.taken = 0;
        self.finish()?;
        let Some(waiting) = &self.sets.waiting else {
            return Ok(());
        };
        let alloc = *self.slots.allocator();
        let first = waiting.first();
        let entries = entries_from(alloc, first, self.slots.as_slice())?;
        match self.sets.postings.fill(rt, threads, entries.as_slice()) {
            Ok(()) => {
                self.sets.waiting = None;
                Ok(())
            }
            Err(error) => Err(error),
        }
    }

    /// Goes on with what waits: as `fill_one`, and puts documents from a number on that wait into the sets of their trigrams, one
    /// after the other. Returns how much of `most` is left; if that is not 0, none waits any more. An `Err` means that
    /// memory ran out. The documents stay as they are in either case.
    pub(crate) fn fill_some(&mut self, most: usize) -> Result<usize, AllocError>
        requires { (last : ℕ) × IsStore last self.old }
        ensures documents { stored self.new ≡ stored self.old }
        ensures store { (last : ℕ) → IsStore last self.old → IsStore last self.new }
    {
        let left = self.fill_one(most)?;
        self.fill_from(left)
    }

    fn fill_from(&mut self, most: usize) -> Result<usize, AllocError>
        requires { (last : ℕ) × IsStore last self.old }
        ensures documents { stored self.new ≡ stored self.old }
        ensures store { (last : ℕ) → IsStore last self.old → IsStore last self.new }
    {
        let none = Trigrams::new(*self.slots.allocator(), &[])?;
        let mut left = most;
        while left > 0 {
            let Some(work) = self.fill_next(&none, left)? else {
                return Ok(left);
            };
            left = left.saturating_sub(work);
        }
        Ok(0)
    }

    /// Goes on with the first document that waits, if documents from a number on wait: puts it into the sets of its trigrams, until
    /// the work comes to `most`. `none` are no trigrams. Returns how much work that was, `None` if none of them waits any more. An
    /// `Err` means that memory ran out. The documents stay as they are in either case.
    fn fill_next(&mut self, none: &Trigrams, most: usize) -> Result<Option<usize>, AllocError>
        requires store { (last : ℕ) × IsStore last self.old }
        requires none { none.now ≡ [] }
        ensures documents { stored self.new ≡ stored self.old }
        ensures store { (last : ℕ) → IsStore last self.old → IsStore last self.new }
        ensures work { IfOk result (λ done. IfSome done (λ work. 0 < work)) }
    {
        let first = match &self.sets.waiting {
            Some(Waiting::From { first, .. }) => *first,
            _ => return Ok(None),
        };
        let Some(number) = number_from(&self.slots, first) else {
            self.sets.waiting = None;
            return Ok(None);
        };
        let trigrams = trigrams_of(&self.slots, number, none);
        let work = self.sets.put_next(number, trigrams, none, most)?;
        Ok(Some(work))
    }

    /// Goes on with the document that waits alone, if one does: puts it into the sets of its trigrams and takes it out of those
    /// of the body before, in pieces (`Sets::move_some`). Returns how much of `most` is left; if that is not 0, it waits no more. An
    /// `Err` means that memory ran out. The documents stay as they are in either case.
    pub(crate) fn fill_one(&mut self, most: usize) -> Result<usize, AllocError>
        requires { (last : ℕ) × IsStore last self.old }
        ensures documents { stored self.new ≡ stored self.old }
        ensures store { (last : ℕ) → IsStore last self.old → IsStore last self.new }
    {
        let (number, is_replaced) = match &self.sets.waiting {
            Some(Waiting::One { number, old, .. }) => (*number, old.is_some()),
            _ => return Ok(most),
        };
        let left = self.move_waiting(number, most)?;
        if is_replaced && self.expects_fill {
            self.taken = self.taken.saturating_add(most.saturating_sub(left));
        }
        Ok(left)
    }

    /// The same for the document with this number, if it is the one that waits alone.
    fn move_waiting(&mut self, number: u32, most: usize) -> Result<usize, AllocError>
        requires { (last : ℕ) × IsStore last self.old }
        ensures documents { stored self.new ≡ stored self.old }
        ensures store { (last : ℕ) → IsStore last self.old → IsStore last self.new }
    {
        let none = Trigrams::new(*self.slots.allocator(), &[])?;
        let share = self.share(number);
        let trigrams = trigrams_of(&self.slots, number, &none);
        self.sets.move_some(number, trigrams, &none, most, share)
    }

    /// Sees to it that no document is left in sets of a body that it no longer has. An `Err` means that memory ran out. The
    /// documents stay as they are in either case.
    fn finish(&mut self) -> Result<(), AllocError>
        requires { (last : ℕ) × IsStore last self.old }
        ensures documents { stored self.new ≡ stored self.old }
        ensures store { (last : ℕ) → IsStore last self.old → IsStore last self.new }
        ensures ok { OnOk result (NoneIsLeft self.new.sets.waiting) }
    {
        if !self.sets.has_left() {
            return Ok(());
        }
        self.fill_one(usize::MAX)?;
        if self.sets.has_left() {
            return Err(AllocError);
        }
        Ok(())
    }

    /// Whether a body with these trigrams has many that the document with this number has not, or the other way round. An `Err`
    /// means that memory ran out. No contract depends on it.
    pub(crate) fn changes_much(&self, number: u32, new: &Trigrams) -> Result<bool, AllocError>
        requires { (last : ℕ) × IsStore last self.now }
    {
        let Some(occupant) = occupant_at(&self.slots, number) else {
            return Ok(false);
        };
        let old = occupant.held.trigrams();
        if old.size().saturating_add(new.size()) > MANY_BYTES {
            return Ok(true);
        }
        let (fresh, gone) = new.differences(old)?;
        let work = self.work_of(number, &fresh);
        Ok(work.saturating_add(self.work_of(number, &gone)) > LONG)
    }

    /// Makes room for the document with this number to have a body with these trigrams in place of its own. An `Err`
    /// means that memory ran out. The documents stay as they are in either case.
    pub(crate) fn prepare(&mut self, number: u32, trigrams: &Trigrams) -> Result<Change, AllocError>
        requires store { (last : ℕ) × IsStore last self.old }
        requires there { IsSome (document_at number (stored self.old)) }
        ensures documents { stored self.new ≡ stored self.old }
        ensures store { (last : ℕ) → IsStore last self.old → IsStore last self.new }
        ensures ok { IfOk result (λ change. (body : List ℕ) → ListsTrigrams body trigrams.now → IsReadyFor self.new number body change) }
    {
        self.finish()?;
        match occupant_at(&self.slots, number) {
            Some(occupant) => self
                .sets
                .prepare(number, occupant.held.trigrams(), trigrams),
            None => unreachable!(),
        }
    }

    /// What it has taken, with what it takes to change the document with this number so.
    fn taken_with(&self, number: u32, change: &Change) -> usize {
        if !self.expects_fill {
            return self.taken;
        }
        let work = self.work_of(number, &change.fresh);
        let more = work.saturating_add(self.work_of(number, &change.gone));
        self.taken.saturating_add(more)
    }

    /// Replaces the body of the document with this number, for which there is room. Where `fill` follows, and
    /// too much was taken out, as `take_out` says, all documents wait.
    pub(crate) fn replace(&mut self, number: u32, change: &Change, held: Analysed)
        requires store { (last : ℕ) × IsStore last self.old }
        requires room { IsReadyFor self.old number held change.now }
        requires bytes { body_bytes (stored self.old) + length held < 2 ^ 64 }
        ensures documents { stored self.new ≡ map (with_body_at number held) (stored self.old) }
        ensures store { (last : ℕ) → IsStore last self.old → IsStore last self.new }
    {
        self.taken = self.taken_with(number, change);
        if self.is_too_much() {
            self.start_over();
            self.replace_later(number, held);
            return;
        }
        self.sets.replace(number, change);
        self.held_bytes += held.body().as_bytes().len() as u64;
        self.trigram_bytes = more_by(self.trigram_bytes, &held);
        if let Some(old) = exchange(&mut self.slots, number, held) {
            self.held_bytes -= old.body().as_bytes().len() as u64;
            self.trigram_bytes = less_by(self.trigram_bytes, &old);
        }
    }

    /// Replaces the body of the document with this number, which is one of those from some number on that wait, and goes on to wait
    /// with all its trigrams. It needs no memory.
    pub(crate) fn replace_later(&mut self, number: u32, held: Analysed)
        requires store { (last : ℕ) × IsStore last self.old }
        requires there { IsSome (document_at number (stored self.old)) }
        requires waits { IsAmongWaiting number self.old.sets.waiting }
        requires bytes { body_bytes (stored self.old) + length held < 2 ^ 64 }
        ensures documents { stored self.new ≡ map (with_body_at number held) (stored self.old) }
        ensures store { (last : ℕ) → IsStore last self.old → IsStore last self.new }
    {
        self.held_bytes += held.body().as_bytes().len() as u64;
        self.trigram_bytes = more_by(self.trigram_bytes, &held);
        if let Some(old) = exchange(&mut self.slots, number, held) {
            self.sets.withdraw(number, old.trigrams());
            self.held_bytes -= old.body().as_bytes().len() as u64;
            self.trigram_bytes = less_by(self.trigram_bytes, &old);
        }
    }

    /// Replaces the body of the document with this number. Its number then waits to be moved to the sets of the trigrams of the new
    /// one. Nothing waits yet.
    pub(crate) fn replace_in_pieces(&mut self, number: u32, held: Analysed)
        requires store { (last : ℕ) × IsStore last self.old }
        requires idle { self.old.sets.waiting ≡ None }
        requires there { IsSome (document_at number (stored self.old)) }
        requires bytes { body_bytes (stored self.old) + length held < 2 ^ 64 }
        ensures documents { stored self.new ≡ map (with_body_at number held) (stored self.old) }
        ensures store { (last : ℕ) → IsStore last self.old → IsStore last self.new }
    {
        self.held_bytes += held.body().as_bytes().len() as u64;
        self.trigram_bytes = more_by(self.trigram_bytes, &held);
        if let Some(old) = exchange(&mut self.slots, number, held) {
            self.held_bytes -= old.body().as_bytes().len() as u64;
            self.trigram_bytes = less_by(self.trigram_bytes, &old);
            self.sets.waiting = Some(Waiting::One {
                number,
                from: 0,
                old: Some(old),
            });
        }
    }

    /// Replaces the body of the document with this number. Its number then waits (`replace_in_pieces`) if that is asked for and
    /// nothing waits yet. An `Err` means that memory ran out; the documents stay as they are then.
    pub(crate) fn replace_body(
        &mut self,
        number: u32,
        held: Analysed,
        in_pieces: bool,
    ) -> Result<(), AllocError>
        requires store { (last : ℕ) × IsStore last self.old }
        requires there { IsSome (document_at number (stored self.old)) }
        requires bytes { body_bytes (stored self.old) + length held < 2 ^ 64 }
        ensures ok { OnOk result (stored self.new ≡ map (with_body_at number held) (stored self.old)) }
        ensures err { OnErr result (stored self.new ≡ stored self.old) }
        ensures store { (last : ℕ) → IsStore last self.old → IsStore last self.new }
    {
        if in_pieces {
            if self.is_idle() {
                self.replace_in_pieces(number, held);
                return Ok(());
            }
        }
        if self.sets.has_waiting(number) {
            self.replace_later(number, held);
            return Ok(());
        }
        let change = self.prepare(number, held.trigrams())?;
        self.replace(number, &change, held);
        Ok(())
    }

    /// Whether nothing waits.
    pub(crate) fn is_idle(&self) -> bool
        ensures { IsTrue result → self.now.sets.waiting ≡ None }
    {
        self.sets.waiting.is_none()
    }
}

/// The trigrams of the document with this number; `none`, which are no trigrams, if there is no such document.
fn trigrams_of<'a>(slots: &'a [Slot], number: u32, none: &'a Trigrams) -> &'a Trigrams
    requires rise { (last : ℕ) × RiseTo last slots.now }
    requires none { none.now ≡ [] }
    ensures { (t : ℕ) → has result.now t ≡ trigrams_at (documents_in slots.now) number t }
{
    match occupant_at(slots, number) {
        Some(occupant) => occupant.held.trigrams(),
        None => none,
    }
}

/// So many bytes, and those in which the trigrams of this body are kept.
fn more_by(bytes: usize, held: &Analysed) -> usize {
    bytes.saturating_add(held.trigrams().size())
}

/// So many bytes without those in which the trigrams of this body are kept.
fn less_by(bytes: usize, held: &Analysed) -> usize {
    bytes.saturating_sub(held.trigrams().size())
}

/// The numbers of the documents from the number `first` on, each with its trigrams.
///
/// An `Err` means that memory ran out.
fn entries_from(alloc: Global, first: u32, slots: &[Slot]) -> Result<Vec<Entry<'_>>, AllocError>
    ensures { IfOk result (λ entries. (t n : ℕ) → is_listed entries.items t n ≡ is_waiting first (documents_in slots.now) t n) }
{
    let mut entries = Vec::new(alloc);
    for at in 0..slots.len() {
        add_entry(first, &slots[at], &mut entries)?;
    }
    Ok(entries)
}

/// Adds the document in this slot, if there is one and its number is not below `first`.
fn add_entry<'a>(first: u32, slot: &'a Slot, entries: &mut Vec<Entry<'a>>) -> Result<(), AllocError>
    ensures { OnOk result ((t n : ℕ) → is_listed entries.new.items t n
        ≡ (is_listed entries.old.items t n || is_waiting first (documents_of_slot slot.now.number slot.now.occupant) t n)) }
{
    if let Some(occupant) = &slot.occupant {
        if slot.number >= first {
            entries.push(Entry {
                number: slot.number,
                trigrams: occupant.held.trigrams(),
            })?;
        }
    }
    Ok(())
}
