//! One writer and many readings over two copies of a handle to an index.
//!
//! A `Desk` accepts commands, which no one sees until it publishes them. A `Reading` searches what is
//! published, in a thread of its own, and never waits. What a reading has seen only grows: each search
//! answers from at least all that the reading has met or learnt of.
#![tactic(auto)]

mod batches;
mod counts;
mod desk;
mod error;
mod exchange;
mod hints;
mod laws;
mod opening;
mod pending;
mod reading;
mod rule;
mod shown;
mod told;

pub use counts::Counts;
pub use desk::Desk;
pub use error::{CopyError, OpenError, PutError, PutErrorKind, RemoveError};
pub use laws::faults_are_one;
pub use opening::{MAX_COMMANDS, MAX_READINGS, open, open_with_places};
pub use reading::Reading;
pub use told::Told;
