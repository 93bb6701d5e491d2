//! The index of documents: by name or its beginning, and by the trigrams of their bodies.
//!
//! Contracts see an index as its state: how many commands were applied, and the documents that they leave.
#![tactic(auto)]

mod analysed;
mod by_name;
mod catalog;
mod copying;
mod error;
mod groups;
mod index;
mod moving;
mod sets;
mod slots;
mod store;

pub use analysed::Analysed;
pub use error::ApplyError;
pub use index::Index;
