//! What a search asks for.

ghost use Rattle.std.specs.Prelude.{◌≡◌, MatchBool, IfOk};
ghost use Rattle.service.specs.Private.Requests.{search_of};

use ere::Case;
use std::alloc::{AllocError, Global};
use std::marker::Model;

/// The texts of a search, as its item has them. Contracts see it as the item.
#[derive(Debug, Drop)]
pub(crate) struct Question {
    texts: Texts,
}

/// The texts of each kind of search. `input::OwnedItem` has the same.
#[derive(Debug, PartialEq, Eq, Drop)]
pub(crate) enum Texts {
    Search {
        case: Case,
        pattern: Vec<u8>,
    },
    SearchIn {
        case: Case,
        name_pattern: Vec<u8>,
        pattern: Vec<u8>,
    },
    Find {
        words: Vec<u8>,
    },
}

impl Model for Question {
    ghost use Rattle.script.specs.Items.{Item};
    ghost use Rattle.service.specs.Private.Requests.{search_of};

    ghost Value = { Item };

    ghost view = { λ q. search_of q.texts };
}

impl Question {
    /// The search with these texts.
    pub(crate) fn new(texts: Texts) -> Question
        ensures { result ≡ search_of texts }
    {
        Question { texts }
    }

    /// A copy. An `Err` means that memory ran out.
    pub(crate) fn again(&self, alloc: Global) -> Result<Question, AllocError>
        ensures { IfOk result (λ question. question ≡ self.now) }
    {
        let texts = match &self.texts {
            Texts::Search { case, pattern } => Texts::Search {
                case: *case,
                pattern: Vec::from_slice(alloc, pattern)?,
            },
            Texts::SearchIn {
                case,
                name_pattern,
                pattern,
            } => Texts::SearchIn {
                case: *case,
                name_pattern: Vec::from_slice(alloc, name_pattern)?,
                pattern: Vec::from_slice(alloc, pattern)?,
            },
            Texts::Find { words } => Texts::Find {
                words: Vec::from_slice(alloc, words)?,
            },
        };
        Ok(Question { texts })
    }

    /// The texts.
    pub(crate) fn texts(&self) -> &Texts
        ensures { search_of result.now ≡ self.now }
    {
        &self.texts
    }

    /// Whether both ask for the same.
    pub(crate) fn is_same(&self, other: &Question) -> bool
        ensures { MatchBool result (self.now ≡ other.now) Unit }
    {
        self.texts == other.texts
    }
}
