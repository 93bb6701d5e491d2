//! The words of the item `find`: its options, and its pattern.
//!
//! The item is this program's own. What follows `find ` are options, each a word and some with another word after it,
//! then the word `--`, and then the pattern. Most letters are those of `grep`.
#![tactic(auto)]

mod fault;
mod find;
mod laws;
mod names;
mod options;
mod settings;
mod words;

pub use fault::FindFault;
pub use find::{Find, read_find};
pub use laws::{every_option_is_named, one_find, one_first_fault};
pub use names::OptionName;
pub use options::{FindOptions, NameTest, View};
