//! Trigrams of texts, and queries over sets of trigrams (Russ Cox, "Regular Expression Matching with a Trigram
//! Index", 2012).
#![tactic(auto)]

mod body;
mod number;
mod order;
mod pairs;
mod query;
mod texts;

pub use body::trigrams_of;
pub use number::Trigram;
pub use pairs::Pairs;
pub use query::{Connective, Query, join, simplify};
pub use texts::{are_same_texts, joined, joined_texts, query_of_joins, trigrams_in_turn};
