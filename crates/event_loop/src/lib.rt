//! The loop of a run or a session: it carries out one item, or takes one answer, after the other.
//!
//! `carry_out_all` has a `Service` take the items that a `Crew` reads and the answers that it finds, and tells a `Sink` of the entries.
//! What they are is one `World`. Which threads there are and how they share the searches is the crew's.
#![tactic(auto)]

mod collecting;
mod crew;
mod error;
mod items;
mod sink;

pub use crew::{Crew, Event};
pub use error::LiveError;
pub use items::{Plan, World, carry_out_all};
pub use sink::{News, Sink};
