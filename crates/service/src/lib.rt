//! The state machine of runs and sessions. A `Service` takes items and answers, one after the other, and says which entry
//! each of them gets. It starts no thread and writes nothing. Crate `workers` has what answers searches for it, in any thread.
#![tactic(auto)]

mod begun;
mod collected;
mod done;
mod items;
mod naming;
mod open_search;
mod opening;
mod question;
mod reader;
mod reply;
mod searcher;
mod service;
mod source;
mod tasks;
mod turns;
mod wish;

pub use begun::Begun;
pub use collected::Collected;
pub use done::{Done, Found};
pub use naming::Naming;
pub use opening::{Opened, open};
pub use reader::Reader;
pub use reply::Reply;
pub use searcher::Searcher;
pub use service::Service;
pub use source::{Fault, Source};
pub use tasks::{Request, Task};
pub use turns::{Aside, Last};
pub use wish::{Look, Wish};
