//! What readers take for searches.

/// A search for which a reader has taken what it needs.
#[derive(Clone, Copy, Debug, PartialEq, Eq)]
pub struct Begun {
    /// The number of the search, from 1.
    pub number: u32,
    /// The number of the reader, from 1.
    pub reader: u32,
    /// The version of what was taken.
    pub version: u32,
}
