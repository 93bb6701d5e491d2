//! Answers of searches.

use crate::places::{Hit, Lines, Places};
use std::marker::Model;

/// The answer of a search. It keeps the names and the bodies of the documents that it shows, and shares them with the
/// index: they stay in memory until the answer is dropped.
///
/// Contracts see it as its version, its hits, the number of documents, and the number of candidates.
#[derive(Debug, Drop)]
pub struct Answer {
    /// What it has.
    pub contents: Contents,
}

/// What an answer has.
#[derive(Debug, Drop)]
pub struct Contents {
    /// The version that was searched.
    pub version: u32,
    /// The lines that contain a match, in order.
    pub hits: Places,
    /// The number of documents that the index had.
    pub documents: u32,
    /// The number of candidates among them.
    pub candidates: u32,
}

impl Model for Answer {
    ghost use Rattle.views.specs.Found.{Answer as AnswerValue};

    ghost Value = { AnswerValue };

    ghost use Rattle.views.specs.Hits.{answer_of};

    ghost view = { λ a. answer_of a.contents };
}

impl Answer {
    ghost use Rattle.std.specs.Prelude.{◌≡◌, length, option_map, slice_get};
    ghost use Rattle.views.specs.Hits.{hit_of};

    /// The version that was searched: the number of commands that were applied to the index.
    pub fn version(&self) -> u32
        ensures { result ≡ self.now.version }
    {
        self.contents.version
    }

    /// The lines that contain a match, rising by the bytes of their documents' names and then by line number.
    pub fn hits(&self) -> Lines<'_>
        ensures { result ≡ self.now.hits }
    {
        self.contents.hits.lines()
    }

    /// How many lines contain a match.
    pub fn hit_count(&self) -> usize
        ensures { result ≡ length self.now.hits }
    {
        self.contents.hits.lines().len()
    }

    /// The hit at this index in the order of `hits`, counted from 0. `None` if there are not so many.
    pub fn hit(&self, at: usize) -> Option<Hit<'_>>
        ensures { option_map hit_of result ≡ slice_get self.now.hits at }
    {
        self.contents.hits.lines().get(at)
    }

    /// The number of documents that the index had.
    pub fn documents(&self) -> u32
        ensures { result ≡ self.now.documents }
    {
        self.contents.documents
    }

    /// The number of candidates: the documents whose trigrams meet the condition of the pattern (Russ Cox, "Regular
    /// Expression Matching with a Trigram Index", 2012). A name pattern has no effect on it.
    pub fn candidates(&self) -> u32
        ensures { result ≡ self.now.candidates }
    {
        self.contents.candidates
    }
}
