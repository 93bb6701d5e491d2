//! Items that were read.

use crate::OwnedItem;

/// An item that was read, and the number of its line.
#[derive(Debug, Drop)]
pub struct ReadItem {
    /// The number of the item's line, from 1. The lines of bodies count too.
    pub line: u32,
    /// What the line says.
    pub item: OwnedItem,
}
