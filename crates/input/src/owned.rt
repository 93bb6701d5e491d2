//! Items that own their bytes.

ghost use Rattle.std.specs.Prelude.{◌≡◌, IfOk, IfErr};
ghost use Rattle.script.specs.Line.{shown_item};
ghost use Rattle.input.specs.Owned.{ShowsOwned};

use crate::error::StreamError;
use ere::Case;
use script::Item;
use std::alloc::Global;

/// An item that owns its bytes, so it can outlive the text of its line and go to another thread. `script::Item`
/// says what each kind is.
#[derive(Debug, Drop)]
pub enum OwnedItem {
    /// A put whose bytes were all read. The name and the body are not checked yet: they may be empty or invalid.
    Put {
        name: Vec<u8>,
        body: Vec<u8>,
    },
    /// A put of so many bytes, which were not kept, since they are more than are to be kept, or there was no memory for
    /// them.
    SkippedPut {
        name: Vec<u8>,
        size: usize,
    },
    Load {
        name: Vec<u8>,
        path: Vec<u8>,
    },
    Remove {
        name: Vec<u8>,
    },
    RemoveUnder {
        prefix: Vec<u8>,
    },
    CopyUnder {
        from: Vec<u8>,
        to: Vec<u8>,
    },
    Publish,
    Search {
        case: Case,
        pattern: Vec<u8>,
    },
    SearchIn {
        case: Case,
        name_pattern: Vec<u8>,
        pattern: Vec<u8>,
    },
    Find {
        request: Vec<u8>,
    },
    Sync,
    Cancel {
        search: u32,
    },
    Status,
    BadLine,
    BadPut,
    Truncated,
    BodyNotClosed,
}

impl OwnedItem {
    /// A copy of an item that has no body.
    ///
    /// An `Err` is `OutOfMemory`: memory ran out.
    pub(crate) fn of(alloc: Global, item: Item<'_>) -> Result<OwnedItem, StreamError>
        ensures shows { IfOk result (λ owned. ShowsOwned owned (shown_item item.entry)) }
        ensures err { IfErr result (λ error. error ≡ StreamError.OutOfMemory) }
    {
        Ok(match item {
            Item::Load { name, path } => OwnedItem::Load {
                name: copy_of(alloc, name)?,
                path: copy_of(alloc, path)?,
            },
            Item::Remove { name } => OwnedItem::Remove {
                name: copy_of(alloc, name)?,
            },
            Item::RemoveUnder { prefix } => OwnedItem::RemoveUnder {
                prefix: copy_of(alloc, prefix)?,
            },
            Item::CopyUnder { from, to } => OwnedItem::CopyUnder {
                from: copy_of(alloc, from)?,
                to: copy_of(alloc, to)?,
            },
            Item::Publish => OwnedItem::Publish,
            Item::Search { case, pattern } => OwnedItem::Search {
                case,
                pattern: copy_of(alloc, pattern)?,
            },
            Item::SearchIn {
                case,
                name_pattern,
                pattern,
            } => OwnedItem::SearchIn {
                case,
                name_pattern: copy_of(alloc, name_pattern)?,
                pattern: copy_of(alloc, pattern)?,
            },
            Item::Find { request } => OwnedItem::Find {
                request: copy_of(alloc, request)?,
            },
            Item::Sync => OwnedItem::Sync,
            Item::Cancel { search } => OwnedItem::Cancel { search },
            Item::Status => OwnedItem::Status,
            Item::BadLine => OwnedItem::BadLine,
        })
    }
}

/// A copy of the bytes.
///
/// An `Err` is `OutOfMemory`: memory ran out.
pub fn copy_of(alloc: Global, bytes: &[u8]) -> Result<Vec<u8>, StreamError>
    ensures copy { IfOk result (λ copy. copy.items ≡ bytes.now) }
    ensures err { IfErr result (λ error. error ≡ StreamError.OutOfMemory) }
{
    match Vec::from_slice(alloc, bytes) {
        Ok(copy) => Ok(copy),
        Err(_) => Err(StreamError::OutOfMemory),
    }
}
