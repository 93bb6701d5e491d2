//! Documents as an index hands them out.

ghost use Rattle.std.specs.Prelude.{◌≡◌, IfOk};

use crate::held::Held;
use crate::name::Name;
use std::alloc::AllocError;

/// A document of an index. Its name and its body are handles: the index has the same bytes, and they stay in memory
/// for as long as either has them.
#[derive(Drop)]
pub struct SharedDocument {
    /// By this the index finds the body. Documents that an index hands out for one query have the same number only if they have the
    /// same body.
    pub number: u32,
    /// Its name.
    pub name: Name,
    /// Its body.
    pub held: Held,
}

impl SharedDocument {
    /// Another handle to the document. An `Err` means that its name or its body has too many handles.
    pub fn share(&self) -> Result<SharedDocument, AllocError>
        ensures { IfOk result (λ shared. shared ≡ self.now) }
    {
        Ok(SharedDocument {
            number: self.number,
            name: self.name.share()?,
            held: self.held.share()?,
        })
    }
}

/// What an index finds for a query.
#[derive(Drop)]
pub struct Candidates {
    /// The number of all documents that meet the query.
    pub count: u32,
    /// All of them that were asked for, or the first ones, in the order of their names.
    pub documents: Vec<SharedDocument>,
}
