//! Searches of an index. Which documents are looked through is
//! found by their trigrams (Russ Cox, "Regular Expression Matching with a Trigram Index", 2012), and which of their
//! lines contain a match by POSIX.1-2017 XBD 9.4.
#![tactic(auto)]

mod ahead;
mod first;
mod gathered;
mod known;
mod laws;
mod matching;
mod names;
mod piece;
mod repeated;
mod rows;
mod scan;
mod seeker;
mod side_by_side;
mod taken;
mod way;

pub use first::{First, FirstPart, take_first};
pub use laws::answers_follow_commands;
pub use scan::find;
pub use taken::{Taken, take, take_watched};
pub use watch::{NoWatch, Unanswered, Watch};
