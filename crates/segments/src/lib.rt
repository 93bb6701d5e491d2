//! Immutable segments: which trigrams each of a list of contents has.
#![tactic(auto)]

mod bits;
mod builder;
mod common;
mod content;
mod gaps;
mod join;
mod keys;
mod laying;
mod marks;
mod merge;
mod order;
mod places;
mod segment;
mod select;
mod table;
mod within;

pub use builder::Builder;
pub use content::Analysed;
pub use marks::Marks;
pub use segment::Segment;
