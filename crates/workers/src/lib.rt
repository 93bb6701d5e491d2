//! What answers the searches of a `service`, in threads: readers, the queue in which searches wait for one, and where threads wait.
#![tactic(auto)]

mod answering;
mod gate;
mod has_reader;
mod lanes;
mod mailbox;
mod queue;
mod searching;
mod turn;
mod work;

pub use answering::answer;
pub use gate::{Gate, Point};
pub use mailbox::Mailbox;
pub use queue::{Assignment, Queue, Released, Stops};
pub use searching::IndexSearcher;
