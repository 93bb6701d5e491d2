//! Contents of which a segment is made.

use query::Trigram;

/// A body, as a segment is made of it: its number, and its trigrams.
#[derive(Clone, Copy)]
pub struct Analysed<'a> {
    /// The number. No two contents have the same.
    pub number: u32,
    /// The trigrams, rising, each once.
    pub trigrams: &'a [Trigram],
}
