//! The turns of readers.

ghost use Rattle.std.specs.Prelude.{◌≡◌, ◌⊎◌, ◌<◌, [], ◌∷◌, ◌++◌, length, IfSome, IfNone};
ghost use Rattle.steps.specs.Steps.{given};
ghost use Rattle.service.specs.Turns.{GivesTurn, StillHave, given_aside, last_of};
ghost use Rattle.service.specs.Private.NextTurns.{IsNext, with_last};

use std::alloc::Global;
use std::marker::Model;

/// The last turn of a reader, and the version that it answers from in it. Before the first one, both are 0.
#[derive(Clone, Copy, Debug, PartialEq, Eq)]
pub struct Last {
    /// How many turns the reader has had.
    pub turn: u32,
    /// The version of the last one.
    pub version: u32,
}

/// A turn that is set aside for a search.
#[derive(Clone, Copy, Debug, PartialEq, Eq)]
pub struct Aside {
    /// The number of the search.
    pub number: u32,
    /// The reader.
    pub reader: u32,
    /// Which of the reader's turns it is.
    pub turn: u32,
    /// The version of what the reader has taken for the search.
    pub version: u32,
}

/// A turn of a reader.
#[derive(Clone, Copy, Debug, PartialEq, Eq)]
pub(crate) struct Turn {
    pub(crate) reader: u32,
    pub(crate) turn: u32,
}

/// The turns that readers have had. As the turns of a reader rise, the versions of its answers never fall, in whichever order
/// the answers come.
#[derive(Debug, Drop)]
pub(crate) struct Turns {
    /// The last turn of each reader, reader 0 first.
    lasts: Vec<Last>,
    /// The turns that are set aside.
    aside: Vec<Aside>,
}

impl Model for Turns {
    ghost use Rattle.service.specs.Turns.{TurnsState};

    ghost Value = { TurnsState };

    ghost view = { λ t. record { lasts = t.lasts.items; aside = t.aside.items } };
}

impl Turns {
    /// No reader has had a turn but those that are its last ones here.
    pub(crate) fn new(alloc: Global, lasts: Vec<Last>) -> Turns
        ensures { result ≡ record { lasts = lasts.items; aside = [] } }
    {
        Turns {
            lasts,
            aside: Vec::new(alloc),
        }
    }

    /// How many readers there are, with reader 0.
    pub(crate) fn readers(&self) -> usize
        ensures { result ≡ length self.now.lasts }
    {
        self.lasts.len()
    }

    /// The turn in which the search of this number is answered from this version: the one that is set aside for it, or the next
    /// one of this reader. `None` means that neither is in order.
    pub(crate) fn take(&mut self, number: u32, reader: u32, version: u32) -> Option<Turn>
        ensures some { IfSome result (λ t. GivesTurn self.old (given t.reader t.turn version) self.new) }
        ensures none { IfNone result (StillHave self.old self.new) }
    {
        match self.take_aside(number) {
            Some(aside) if aside.version == version => Some(Turn {
                reader: aside.reader,
                turn: aside.turn,
            }),
            _ => self.next(reader, version),
        }
    }

    /// Sets the reader's next turn aside for the search of this number, in place of an earlier one. Where that is not in order,
    /// or there is no memory for it, none is set aside.
    pub(crate) fn set_aside(&mut self, number: u32, reader: u32, version: u32)
        ensures { StillHave self.old self.new }
    {
        let _ = self.take_aside(number);
        if let Some(turn) = self.next(reader, version) {
            self.keep(Aside {
                number,
                reader: turn.reader,
                turn: turn.turn,
                version,
            });
        }
    }

    /// Keeps a turn that is set aside, if there is memory for it.
    fn keep(&mut self, aside: Aside)
        ensures { (self.new ≡ self.old) ⊎ (self.new ≡ record self.old { aside = self.old.aside ++ aside ∷ [] }) }
    {
        let _ = self.aside.push(aside);
    }

    /// The turn that is set aside for the search of this number is not needed any more.
    pub(crate) fn give_back(&mut self, number: u32)
        ensures { StillHave self.old self.new }
    {
        let _ = self.take_aside(number);
    }

    /// The next turn of the reader, in which it answers from this version. `None` means that there is no such reader, that it
    /// has answered from a later version, or that there are too many turns.
    fn next(&mut self, reader: u32, version: u32) -> Option<Turn>
        ensures some { IfSome result (λ t. (t.reader ≡ reader) × IsNext self.old.lasts t.reader version t.turn × (self.new ≡ with_last t.reader t.turn version self.old)) }
        ensures none { IfNone result (self.new ≡ self.old) }
    {
        let last = self.last(reader)?;
        if version < last.version {
            return None;
        }
        let turn = last.turn.checked_add(1)?;
        self.lasts[reader as usize] = Last { turn, version };
        Some(Turn { reader, turn })
    }

    /// The last turn of a reader, if there is one of this number.
    fn last(&self, reader: u32) -> Option<Last>
        ensures { IfSome result (λ l. (reader < length self.now.lasts) × (l ≡ last_of self.now.lasts reader)) }
    {
        if reader as usize >= self.lasts.len() {
            return None;
        }
        Some(self.lasts[reader as usize])
    }

    /// Takes the turn that is set aside for the search of this number, if there is one.
    fn take_aside(&mut self, number: u32) -> Option<Aside>
        ensures gives { IfSome result (λ aside. GivesTurn self.old (given_aside aside) self.new) }
        ensures still { StillHave self.old self.new }
    {
        let place = self.place_of(number)?;
        let aside = self.aside.remove(place);
        Some(aside)
    }

    /// Where the turn is that is set aside for the search of this number, if there is one.
    fn place_of(&self, number: u32) -> Option<usize>
        ensures { IfSome result (λ place. place < length self.now.aside) }
    {
        for place in 0..self.aside.len() {
            if self.aside[place].number == number {
                return Some(place);
            }
        }
        None
    }
}
