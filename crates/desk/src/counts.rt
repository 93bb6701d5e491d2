//! How much an index holds.

/// How much an index holds.
#[derive(Clone, Copy, Debug, PartialEq, Eq)]
pub struct Counts {
    /// How many commands were applied to it.
    pub version: u32,
    /// How many documents it has.
    pub documents: u32,
    /// The length of their bodies together, in bytes.
    pub bytes: u64,
}
