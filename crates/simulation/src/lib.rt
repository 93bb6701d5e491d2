//! Whether a line contains a match of an extended regular expression (POSIX.1-2017 XBD 9.4), and where the first one is, in
//! a time for each byte that, as far as is measured, depends on the tree alone.
#![tactic(auto)]

mod cells;
mod ends;
mod gaps;
mod node;
mod pack;
mod run;
mod sequence;
mod simulation;
mod step;
mod turns;

pub use simulation::Simulation;
pub use watch::{CalledOff, Watch};
