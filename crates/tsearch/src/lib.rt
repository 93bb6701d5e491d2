//! `tsearch`: carries out commands and searches, from a script or as they come.
//!
//! `run` carries out a script, with readers that search beside the updates, and returns its transcript. `serve` serves a session:
//! it takes items from an input, and writes each entry as soon as it is known.
#![tactic(auto)]

mod crew;
mod error;
mod marks;
pub mod run;
mod serving;
mod write;
mod written;

pub use event_loop::LiveError;
pub use run::{Options, RunError};
pub use service::{Fault, Source};
pub use serving::{LiveOptions, serve};
pub use workers::{Gate, Point};
