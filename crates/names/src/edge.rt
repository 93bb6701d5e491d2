//! Where names are parted.

/// A place among names in order, given by a text. Some names lie before it, and all later ones behind it.
#[derive(Clone, Copy, Debug, PartialEq, Eq)]
pub(crate) enum Edge {
    /// Before the text: names that are below it lie before the edge.
    Before,
    /// After the text: names that are not above it lie before the edge.
    After,
    /// After all names that begin with the text: these, and those that are below it, lie before the edge.
    AfterUnder,
}
