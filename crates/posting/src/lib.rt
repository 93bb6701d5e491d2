//! Posting lists: for each trigram the set of the documents that have it, as in Russ Cox's "Regular
//! Expression Matching with a Trigram Index" (2012).
#![tactic(auto)]

mod filling;
mod gaps;
mod laws;
mod list;
mod owned;
mod pages;
mod part;
mod postings;
mod trigrams;

pub use filling::Entry;
pub use laws::prepared_sets_have_room;
pub use list::{List, Lookup, Numbers};
pub use postings::{Postings, WHOLE};
pub use trigrams::{Trigrams, TrigramsIterator};
