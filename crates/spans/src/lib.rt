//! Where in a line the matches of a tree are: definitions for contracts, with their laws, and the type of a part of a line.
#![tactic(auto)]

mod laws;
mod span;

pub use laws::{
    matches_have_starts, no_starts_without_matches, one_list_of_spans, spans_are_words,
    whole_words_by_positions,
};
pub use span::Span;
