//! A slot for each trigram, on pages that are made as they are needed. The head of list.rt says how they lie in memory.

ghost use Rattle.std.specs.Prelude.{◌≡◌, ℕ, ◌*◌, ◌<◌, ◌≤◌, if◌then◌else◌, ◌==◌, length, slice_index, IfOk, OnOk, OnErr, IsTrue, None};
ghost use Rattle.std.specs.List.{list_all};
ghost use Rattle.posting.specs.Private.PageTable.{page_size, page_count, SameDirectory};
ghost use Rattle.posting.specs.Private.Pages.{trigram_count, slot_of_code, FitsSlot, place_of, code_of, slot_of, free_limit, HasPage, SamePages, AddsPage, CopiesPage};

use query::Trigram;
use std::alloc::{AllocError, Global};
use std::marker::Model;

/// How many trigrams have their slots on a page.
const PAGE: usize = 64;

/// The pages of this many sets are not given back.
const FEW: usize = 512;

/// Numbers below this fit into a slot.
pub(crate) const SLOT_LIMIT: u32 = 2147483648;

/// What there is for a trigram.
#[derive(Clone, Copy, Drop)]
pub(crate) enum Slot {
    /// No number.
    Free,
    /// One number.
    One(u32),
    /// The list at this place.
    Listed(usize),
}

/// What a number in a slot says.
fn decode(code: u32) -> Slot
    ensures { result ≡ slot_of_code code }
{
    if code >= SLOT_LIMIT {
        return Slot::One(code - SLOT_LIMIT);
    }
    if code == 0 {
        return Slot::Free;
    }
    Slot::Listed((code - 1) as usize)
}

fn encode(slot: Slot) -> u32
    requires { FitsSlot slot }
    ensures { slot_of_code result ≡ slot }
{
    match slot {
        Slot::Free => 0,
        Slot::One(number) => number + SLOT_LIMIT,
        Slot::Listed(place) => (place + 1) as u32,
    }
}

/// Whether all slots of a page are free.
fn are_free(slots: &[u32]) -> bool
    ensures { result ≡ list_all (λ code. code == 0) slots.now }
{
    slots.iter().all(|code| *code == 0)
}

/// How many slots are in use after one of them was written.
fn used_after(used: usize, old: u32, new: u32) -> usize {
    match (old, new) {
        (0, 0) => used,
        (0, _) => used.saturating_add(1),
        (_, 0) => used.saturating_sub(1),
        _ => used,
    }
}

/// Makes a directory reach this place, with no page at the places that it gets.
fn lengthen(directory: &mut Vec<u32>, at: usize) -> Result<(), AllocError>
    requires { at < page_count }
    ensures entries { SameDirectory directory.old.items directory.new.items }
    ensures ok { OnOk result (at < length directory.new.items) }
{
    if directory.len() <= at {
        directory.resize(at + 1, 0)?;
    }
    Ok(())
}

/// Makes room for so many more items. Where there is none, the vector grows by an eighth, so that little room stands
/// idle, and by 8 items at least.
///
/// An `Err` means that memory ran out. The items stay in either case.
pub(crate) fn reserve<T>(items: &mut Vec<T>, more: usize) -> Result<(), AllocError>
    ensures { items.new.items ≡ items.old.items }
{
    if items.capacity() - items.len() >= more {
        return Ok(());
    }
    items.reserve_exact(more.max(items.len() / 8).max(8))
}

/// The slots of all trigrams, and the directory that leads to their pages.
#[derive(Drop)]
pub(crate) struct Pages {
    directory: Vec<u32>,
    slots: Vec<u32>,
    // how many slots are not free, and the most that were not since pages were last given back
    used: usize,
    most: usize,
}

impl Model for Pages {
    ghost use Rattle.posting.specs.Private.PageTable.{PageTable, IsPaged};

    ghost Value = { PageTable };

    ghost view = { λ p. record { directory = p.directory.items; slots = p.slots.items } };

    ghost invariant = { λ p. IsPaged (record { directory = p.directory.items; slots = p.slots.items }) };
}

impl Pages {
    /// No pages. They take no memory.
    pub(crate) fn new(alloc: Global) -> Pages
        ensures { (t : ℕ) → place_of result t ≡ None }
    {
        Pages {
            directory: Vec::new(alloc),
            slots: Vec::new(alloc),
            used: 0,
            most: 0,
        }
    }

    /// Whether there is no page, nor a place for one.
    pub(crate) fn is_bare(&self) -> bool
        ensures { IsTrue result → (trigram : ℕ) → place_of self.now trigram ≡ None }
    {
        self.directory.is_empty()
    }

    /// The slot of a trigram. It is free if there is no page for it.
    pub(crate) fn slot(&self, trigram: Trigram) -> Slot
        ensures value { result ≡ slot_of self.now trigram }
        ensures bound { trigram < trigram_count }
    {
        match self.place(trigram) {
            Some(place) => decode(self.slots[place]),
            None => Slot::Free,
        }
    }

    /// Where the slot of a trigram is, if there is a page for it.
    fn place(&self, trigram: Trigram) -> Option<usize>
        ensures place { result ≡ place_of self.now trigram }
        ensures bound { trigram < trigram_count }
    {
        let number = trigram.number() as usize;
        let page = self.page(number / PAGE);
        if page == 0 {
            return None;
        }
        Some((page - 1) * PAGE + number % PAGE)
    }

    /// 0 if there is no page for these 64 trigrams, else one more than the place of the page.
    fn page(&self, at: usize) -> usize
        ensures value { result ≡ slice_index self.now.directory at }
        ensures bound { result ≤ page_count }
    {
        match self.directory.get(at) {
            Some(page) => *page as usize,
            None => 0,
        }
    }

    /// Makes the page of a trigram if there is none. All slots stay as they are.
    ///
    /// An `Err` means that memory ran out.
    pub(crate) fn make_page(&mut self, trigram: Trigram) -> Result<(), AllocError>
        ensures slots { (t : ℕ) → slot_of self.new t ≡ slot_of self.old t }
        ensures limits { (t : ℕ) → free_limit self.old t ≤ free_limit self.new t }
        ensures ok { OnOk result (HasPage self.new trigram) }
    {
        match self.place(trigram) {
            Some(_) => Ok(()),
            None => self.add_page(trigram.number() as usize / PAGE, &[0; PAGE]),
        }
    }

    /// Writes the slot of a trigram, for which there is a page.
    pub(crate) fn set_slot(&mut self, trigram: Trigram, slot: Slot)
        requires page { HasPage self.old trigram }
        requires fits { FitsSlot slot }
        ensures slots { (t : ℕ) → slot_of self.new t ≡ (if t == trigram then slot else slot_of self.old t) }
        ensures limits { (t : ℕ) → free_limit self.new t ≡ free_limit self.old t }
        ensures bound { trigram < trigram_count }
    {
        if let Some(place) = self.place(trigram) {
            let code = encode(slot);
            self.used = used_after(self.used, self.slots[place], code);
            self.most = self.most.max(self.used);
            self.slots[place] = code;
        }
    }

    /// Adds a page with these slots.
    ///
    /// An `Err` means that memory ran out. All slots are then as they were.
    fn add_page(&mut self, page: usize, slots: &[u32]) -> Result<(), AllocError>
        requires bound { page < page_count }
        requires absent { free_limit self.old (page * page_size) ≡ 0 }
        requires whole { length slots.now ≡ page_size }
        ensures ok { OnOk result (AddsPage self.old self.new page slots.now) }
        ensures err { OnErr result (SamePages self.old self.new) }
    {
        lengthen(&mut self.directory, page)?;
        reserve(&mut self.slots, PAGE)?;
        self.slots.extend_from_slice(slots)?;
        let end = self.slots.len() / PAGE;
        self.directory[page] = end as u32;
        Ok(())
    }

    /// Gives back the pages without a set once less than a quarter of the sets are left. While there were only a few,
    /// nothing is given back, so that what is put in and taken out in turn need not be made each time.
    ///
    /// What cannot be given back, since memory for a smaller copy is refused, is kept.
    pub(crate) fn give_back(&mut self)
        ensures { (t : ℕ) → slot_of self.new t ≡ slot_of self.old t }
    {
        if self.most <= FEW || self.used >= self.most / 4 {
            return;
        }
        if let Ok(fewer) = self.pages_in_use() {
            *self = fewer;
        }
    }

    /// A copy without the pages whose slots are all free.
    fn pages_in_use(&self) -> Result<Pages, AllocError>
        ensures { IfOk result (λ fewer. (t : ℕ) → slot_of fewer t ≡ slot_of self.now t) }
    {
        let mut fewer = Pages::new(*self.slots.allocator());
        fewer.used = self.used;
        fewer.most = self.used;
        for page in 0..self.directory.len() {
            fewer.copy_page(self, page)?;
        }
        Ok(fewer)
    }

    /// Adds the page of these 64 trigrams as it is in other pages, if it is there and one of its slots is not free.
    ///
    /// An `Err` means that memory ran out.
    fn copy_page(&mut self, from: &Pages, at: usize) -> Result<(), AllocError>
        requires bound { at < length from.now.directory }
        requires absent { free_limit self.old (at * page_size) ≡ 0 }
        ensures { OnOk result (CopiesPage from.now self.old self.new at) }
    {
        let end = from.page(at) * PAGE;
        if end == 0 {
            return Ok(());
        }
        let slots = &from.slots[end - PAGE..end];
        if are_free(slots) {
            return Ok(());
        }
        self.add_page(at, slots)
    }
}
