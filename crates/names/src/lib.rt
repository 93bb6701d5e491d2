//! Names and their contents, as a map whose versions share what is the same.
#![tactic(auto)]

mod builder;
mod chosen;
mod chunk;
mod content;
mod draft;
mod edge;
mod names;
mod numbers;
mod puts;
mod rest;
mod texts;
mod under;

pub use chosen::Chosen;
pub use content::{Content, Named};
pub use names::Names;
pub use puts::Put;
