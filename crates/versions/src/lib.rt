//! An index as a value: names in chunks, and segments.
#![tactic(auto)]

mod bodies;
mod draft;
mod fresh;
mod gather;
mod growing;
mod index;
mod merging;
mod sets;
mod update;

pub use draft::Draft;
pub use index::Index;
pub use update::{Like, Update};
