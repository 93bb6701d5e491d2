//! What searches ask for, read once: patterns, the patterns of names, the condition on trigrams that every document with
//! a hit meets, and what is shown of the hits.
#![tactic(auto)]

mod anchored;
mod asked;
mod begun;
mod front;
mod pattern;
mod requested;
mod shown;

pub use anchored::anchored_text;
pub use asked::Test;
pub use ere::{EreError, EreErrorKind};
pub use front::front_of;
pub use pattern::{Prepared, WithinError};
pub use requested::FindError;
