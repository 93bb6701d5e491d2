//! The entries of a run, in the order of its items.

ghost use Rattle.std.specs.Prelude.{◌≡◌, ◌<◌, ℕ, MatchBool, OnOk, OnErr, [], ◌∷◌};
ghost use Rattle.service.specs.Collected.{pushed, filled, number_in, place_in};

use std::alloc::{AllocError, Global};
use std::marker::Model;
use transcript::Entry;

/// Entries in the order of their items, each search's with its place. A search that is open has an entry too, which is
/// replaced when it is answered.
#[derive(Debug, Drop)]
pub struct Collected {
    entries: Vec<Entry>,
    /// The place of each search's entry: search number N, from 1, is at index N - 1.
    places: Vec<usize>,
}

impl Model for Collected {
    ghost use Rattle.service.specs.Collected.{CollectedState};

    ghost Value = { CollectedState };

    ghost view = { λ c. record { entries = c.entries.items; places = c.places.items } };
}

impl Collected {
    /// No entries.
    pub fn new(alloc: Global) -> Collected
        ensures { (result.entries ≡ []) × (result.places ≡ []) }
    {
        Collected {
            entries: Vec::new(alloc),
            places: Vec::new(alloc),
        }
    }

    /// Adds the entry of the next item. For a search that is open, it is the one that it has until it is answered. An `Err`
    /// means that memory ran out; nothing is added then.
    pub fn push(&mut self, entry: Entry) -> Result<(), AllocError>
        ensures ok { OnOk result (self.new ≡ pushed entry self.old) }
        ensures err { OnErr result (self.new ≡ self.old) }
    {
        let place = self.entries.len();
        if is_of_search(&entry) {
            self.places.push(place)?;
            if self.entries.push(entry).is_err() {
                let _ = self.places.pop();
                return Err(AllocError);
            }
            return Ok(());
        }
        self.entries.push(entry)?;
        Ok(())
    }

    /// Replaces the entry of the search that this one is of. Without such a search nothing changes.
    pub fn fill(&mut self, entry: Entry)
        ensures { 0 < number_in entry → self.new ≡ filled entry self.old }
    {
        let number = number_of(&entry);
        if number == 0 {
            return;
        }
        if let Some(place) = self.places.get(number as usize - 1) {
            if let Some(slot) = self.entries.get_mut(*place) {
                *slot = entry;
            }
        }
    }

    /// The entries.
    pub fn into_entries(self) -> Vec<Entry>
        ensures { result.items ≡ self.entries }
    {
        let Collected { entries, places: _ } = self;
        entries
    }
}

/// Whether the entry is that of a search.
fn is_of_search(entry: &Entry) -> bool
    ensures { MatchBool result ((at : ℕ) → place_in at entry.now ≡ at ∷ []) ((at : ℕ) → place_in at entry.now ≡ []) }
{
    match entry {
        Entry::Found { .. } => true,
        Entry::SearchRefused { .. } => true,
        _ => false,
    }
}

/// The number of the search that the entry is of, or 0.
fn number_of(entry: &Entry) -> u32
    ensures { result ≡ number_in entry.now }
{
    match entry {
        Entry::Found { search, .. } => *search,
        Entry::SearchRefused { search, .. } => *search,
        _ => 0,
    }
}
