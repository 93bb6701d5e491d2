//! Documents: names, bodies, commands, the state that commands leave, and what a search asks of documents.
//!
//! `docs/DEFINITIONS.md` says which documents commands leave.
#![tactic(auto)]

mod body;
mod command;
mod corpus;
mod document;
mod error;
mod held;
mod laws;
mod lengths;
mod name;

pub use body::{Body, MAX_BODY};
pub use command::Command;
pub use corpus::Corpus;
pub use document::{Candidates, SharedDocument};
pub use error::{BodyError, BodyErrorKind, HeldError, NameError};
pub use held::Held;
pub use laws::{documents_are_puts, state_follows_commands};
pub use lengths::{Lengths, USUAL_BODY, USUAL_NAME};
pub use name::{MAX_NAME, Name};
pub use query::Query;
