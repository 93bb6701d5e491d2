//! Watches, which can call a search off while it works.
#![tactic(auto)]

mod looks;
mod pace;
mod unanswered;

pub use looks::{NoWatch, Watch, ask};
pub use pace::Pace;
pub use unanswered::{CalledOff, Unanswered};
