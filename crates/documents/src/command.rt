//! Commands on documents.

use crate::body::Body;
use crate::name::Name;

/// A command on the documents.
#[derive(Debug, Drop)]
pub enum Command {
    /// Puts in a document with this name and body. If a document has the name already, its body is replaced.
    Put(Name, Body),
    /// Removes the document with this name. If there is none, no document changes.
    Remove(Name),
    /// Removes each document whose name begins with this prefix. If there is none, no document changes.
    RemoveUnder(Name),
    /// Puts each document whose name begins with the first name, as the documents are before the command, under the name with the
    /// second one in its place, also over a document that has this name. If there is none, no document changes.
    CopyUnder(Name, Name),
}
