//! Commands, with handles to what they hold.

use documents::{Held, Name};

/// Where a content perhaps is. It is a hint: whether one is there, and which body it has, is found out where the hint is used.
#[derive(Drop)]
pub struct Like {
    /// A name that it was put under.
    pub name: Name,
    /// How many commands there were before that.
    pub version: u32,
    /// Its number: how many commands there were before it was put first.
    pub number: u32,
}

/// A command on the documents, with handles to what it holds. It is as `documents::Command` in all else.
#[derive(Drop)]
pub enum Update {
    /// Puts in a document with this name and body. The third part says where the same body perhaps is already: both names
    /// have the same content then.
    Put(Name, Held, Option<Like>),
    /// Removes the document with this name.
    Remove(Name),
    /// Removes each document whose name begins with this prefix.
    RemoveUnder(Name),
    /// Copies each document whose name begins with the first name under the name with the second one in its place.
    CopyUnder(Name, Name),
}
