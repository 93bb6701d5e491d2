//! The lines of a text that contain a match of a tree, found from match to match.
//!
//! A tree is translated into a pattern of the toolchain's regular expression engine, which searches a whole
//! text at once: it looks for a literal if every match has one, and its automaton reads each byte about once.
//! The tree's anchors become the engine's line anchors, and no set holds the line feed, so no match crosses
//! the end of its line.
#![tactic(auto)]

mod compiled;
mod finding;
mod laws;
mod line;
mod translate;
mod work;

pub use compiled::Compiled;
pub use finding::{Finder, FirstLine};
pub use laws::first_line_is_one;
pub use line::{line_start, lines_before};
