//! The sets of one part of the trigrams.

ghost use Rattle.std.specs.Prelude.{◌≡◌, ◌≢◌, ℕ, ◌<◌, ◌≤◌, ◌||◌, ◌&&◌, ◌==◌, false, [], IfSome, IfNone, OnOk, OnErr, IsTrue};
ghost use Rattle.posting.specs.ListValue.{has, without};
ghost use Rattle.posting.specs.Postings.{slot_limit, set_of, holds, SameSets, KeepsRoom};
ghost use Rattle.posting.specs.Private.Pages.{StandsFor, trigram_count};
ghost use Rattle.posting.specs.Private.Parts.{part_of, place_in_part};
ghost use Rattle.posting.specs.Private.Sets.{members_of};

use crate::list::List;
use crate::owned::{Owned, add_list, drop_list, give_back, make_first};
use crate::pages::{Pages, SLOT_LIMIT, Slot};
use query::Trigram;
use std::alloc::{AllocError, Global};
use std::marker::Model;

/// How many parts the trigrams have. Trigrams whose first byte leaves the same remainder are in one part, so that the trigrams
/// of a usual text spread over all parts.
pub(crate) const PARTS: usize = 8;

/// The part of a trigram.
pub(crate) fn part_of(trigram: Trigram) -> usize
    ensures part { result ≡ part_of trigram }
    ensures bound { result < 8 }
    ensures is_trigram { trigram < trigram_count }
{
    trigram.number() as usize / 65536 % PARTS
}

/// The trigram that stands for this one in its part.
pub(crate) fn place_in_part(trigram: Trigram) -> Trigram
    ensures { result ≡ place_in_part trigram }
{
    let number = trigram.number();
    Trigram::of([
        (number / 524288) as u8,
        (number / 256 % 256) as u8,
        (number % 256) as u8,
    ])
}

/// A set of numbers for each trigram of a part.
///
/// Contracts see it as a table, as `Postings`.
#[derive(Drop)]
pub(crate) struct Part {
    pages: Pages,
    lists: Vec<Owned>,
}

/// The set of a trigram, where it stands.
#[derive(Clone, Copy)]
pub(crate) enum Set<'a> {
    /// No number.
    Empty,
    /// One number.
    One(u32),
    /// A list of numbers.
    List(&'a List),
}

impl Model for Part {
    ghost use Rattle.std.specs.Prelude.{List};
    ghost use Rattle.posting.specs.Postings.{NumberSet};
    ghost use Rattle.posting.specs.Private.Pages.{IsSound, slot_of, table_of};

    ghost Value = { List NumberSet };

    ghost view = { λ p. table_of p.pages p.lists.items };

    ghost invariant = { λ p. IsSound (slot_of p.pages) p.lists.items };
}

impl Part {
    /// A part whose sets are all empty. This takes no memory yet.
    pub(crate) fn new(alloc: Global) -> Part
        ensures { (trigram n : ℕ) → holds result trigram n ≡ false }
    {
        Part {
            pages: Pages::new(alloc),
            lists: Vec::new(alloc),
        }
    }

    /// Whether there is no set, nor room for one. Otherwise all sets can still be empty.
    pub(crate) fn is_bare(&self) -> bool
        ensures { IsTrue result → (trigram n : ℕ) → holds self.now trigram n ≡ false }
    {
        self.pages.is_bare()
    }

    /// The allocator of its lists.
    pub(crate) fn allocator(&self) -> Global {
        *self.lists.allocator()
    }

    /// Makes room for a number in the set of a trigram. The sets keep their numbers.
    ///
    /// An `Err` means that memory ran out.
    pub(crate) fn make_room(&mut self, trigram: Trigram, number: u32) -> Result<(), AllocError>
        ensures members { (t : ℕ) → (set_of self.new t).members ≡ (set_of self.old t).members }
        ensures room { KeepsRoom self.old self.new }
        ensures ok { OnOk result (number < (set_of self.new trigram).limit) }
    {
        match self.pages.slot(trigram) {
            Slot::Free => make_first(&mut self.pages, &mut self.lists, trigram, number),
            Slot::One(held) => {
                let list = List::one(*self.lists.allocator(), held);
                add_list(&mut self.pages, &mut self.lists, trigram, list)
            }
            Slot::Listed(place) => {
                let owned = &mut self.lists[place];
                owned.list.room_for(number)
            }
        }
    }

    /// Puts a number into the set of a trigram, which has room for it and does not have it.
    pub(crate) fn insert(&mut self, trigram: Trigram, number: u32)
        requires room { number < (set_of self.old trigram).limit }
        requires absent { has (set_of self.old trigram).members number ≡ false }
        ensures at { (n : ℕ) → has (set_of self.new trigram).members n ≡ (has (set_of self.old trigram).members n || number == n) }
        ensures others { (t : ℕ) → t ≢ trigram → set_of self.new t ≡ set_of self.old t }
    {
        match self.pages.slot(trigram) {
            Slot::Listed(place) => {
                let owned = &mut self.lists[place];
                owned.list.insert(number);
            }
            _ => self.pages.set_slot(trigram, Slot::One(number)),
        }
    }

    /// Takes a number out of the set of a trigram.
    pub(crate) fn remove(&mut self, trigram: Trigram, number: u32)
        ensures at { (set_of self.new trigram).members ≡ without number (set_of self.old trigram).members }
        ensures others { (t : ℕ) → t ≢ trigram → set_of self.new t ≡ set_of self.old t }
        ensures empty { (set_of self.new trigram).members ≡ [] → (set_of self.new trigram).limit ≤ slot_limit }
    {
        match self.pages.slot(trigram) {
            Slot::Free => {}
            Slot::One(held) => {
                if held == number {
                    self.pages.set_slot(trigram, Slot::Free);
                }
            }
            Slot::Listed(place) => {
                let owned = &mut self.lists[place];
                owned.list.remove(number);
                match small(&owned.list) {
                    Some(slot) => drop_list(&mut self.pages, &mut self.lists, place, trigram, slot),
                    None => owned.list.give_back(),
                }
            }
        }
    }

    /// Gives back memory that the sets do not need.
    pub(crate) fn give_back(&mut self)
        ensures members { (t : ℕ) → (set_of self.new t).members ≡ (set_of self.old t).members }
        ensures limits { (t : ℕ) → (set_of self.old t).limit ≤ slot_limit → (set_of self.new t).limit ≤ slot_limit }
    {
        give_back(&mut self.lists);
        self.pages.give_back();
    }

    /// The set of a trigram.
    pub(crate) fn set(&self, trigram: Trigram) -> Set<'_>
        ensures { members_of result ≡ (set_of self.now trigram).members }
    {
        match self.pages.slot(trigram) {
            Slot::Free => Set::Empty,
            Slot::One(number) => Set::One(number),
            Slot::Listed(place) => Set::List(&self.lists[place].list),
        }
    }

    /// Puts a number into the set of a trigram, unless it is there.
    ///
    /// An `Err` means that memory ran out. The sets then have the numbers that they had.
    pub(crate) fn put(&mut self, trigram: Trigram, number: u32) -> Result<(), AllocError>
        ensures ok { OnOk result ((t n : ℕ) → holds self.new t n ≡ (holds self.old t n || (trigram == t && number == n))) }
        ensures err { OnErr result (SameSets self.old self.new) }
    {
        if self.set(trigram).has(number) {
            return Ok(());
        }
        self.make_room(trigram, number)?;
        self.insert(trigram, number);
        Ok(())
    }
}

impl<'a> Set<'a> {
    /// Whether the number is in the set.
    fn has(&self, number: u32) -> bool
        ensures { result ≡ has (members_of self.now) number }
    {
        match self {
            Set::Empty => false,
            Set::One(held) => *held == number,
            Set::List(list) => list.has(number),
        }
    }
}

/// The slot in which the set of a list can stand without the list, if there is one.
fn small(list: &List) -> Option<Slot>
    ensures some { IfSome result (λ slot. StandsFor slot list.now.members) }
    ensures none { IfNone result (list.now.members ≢ []) }
{
    let mut numbers = list.numbers();
    match numbers.next() {
        None => Some(Slot::Free),
        Some(number) => {
            if number < SLOT_LIMIT && numbers.next().is_none() {
                Some(Slot::One(number))
            } else {
                None
            }
        }
    }
}
