//! Searches that have no entry yet.

use crate::question::Question;
use crate::wish::Wish;
use std::marker::Model;

/// A search that has no entry yet. Contracts see it as its number, its item, and the version that was published last when
/// it was asked.
#[derive(Drop)]
pub(crate) struct OpenSearch {
    /// Its number, from 1.
    pub(crate) number: u32,
    /// Its texts.
    pub(crate) question: Question,
    /// The version that was published last when it was asked. Its answer is of this version or a later one.
    pub(crate) least: u32,
    /// Whether it is still wanted.
    pub(crate) wish: Wish,
}

impl Model for OpenSearch {
    ghost use Rattle.steps.specs.Steps.{OpenSearch as OpenSearchValue};

    ghost Value = { OpenSearchValue };

    ghost view = { λ s. record { number = s.number; item = s.question; least = s.least } };
}
