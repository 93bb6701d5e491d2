//! Prefixes of names: names that begin with one of some texts.
#![tactic(auto)]

mod reduced;

pub use reduced::Prefixes;
