//! The analysis of a pattern into the query that every document with a matching line meets (Russ Cox,
//! "Regular Expression Matching with a Trigram Index", 2012).
#![tactic(auto)]

mod analysis;
mod laws;
mod texts;

pub use analysis::analyse;
pub use laws::{
    known_texts_are_the_words, matching_line_meets_condition, sets_have_each_text_once,
    trigrams_are_held,
};
pub use query::{Query, Trigram, simplify, trigrams_of};
