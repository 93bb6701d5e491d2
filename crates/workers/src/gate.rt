//! Where workers are in their searches.

/// A point in a worker's search.
#[derive(Clone, Copy, Debug, PartialEq, Eq)]
pub enum Point {
    /// The search begins: nothing has been looked at yet.
    Begin,
    /// The candidates are taken, and their names and lines are matched next. What is published can change meanwhile.
    Matching,
    /// The search is over: it has its answer, or the worker has none for it.
    Done,
}

/// What workers call at each point that a search reaches. A call returns before the worker goes on, so it can
/// hold the worker there. Several workers may call at once.
pub trait Gate: Sync {
    /// The search with this number, from 1, is at this point.
    fn turn(&self, search: u32, point: Point);

    /// Whether searches let those that wait work at each place where they can be stopped, and not only after a while.
    fn stops(&self) -> bool {
        false
    }
}
