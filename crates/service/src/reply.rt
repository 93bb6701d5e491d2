//! What became of items.

use crate::tasks::Task;
use transcript::Entry;

/// What became of an item.
#[derive(Drop)]
pub enum Reply {
    /// It has its entry.
    Entry(Entry),
    /// It is a search, which is open now. A reader is to answer it, or `Service::answer_here`.
    Search(Task),
    /// It is a cancel of an open search, which has this entry.
    Cancelled(Entry),
    /// It has no entry: it is a sync, or a cancel of a search that has its entry.
    Nothing,
}
