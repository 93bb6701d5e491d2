//! The header of a put: the name and the size in its line.

ghost use Rattle.std.specs.Prelude.{◌≡◌, ℕ, List, MatchOption, option_map};
ghost use Rattle.script.specs.Fields.{IsPutHeader};
ghost use Rattle.script.specs.Private.Headers.{HasHeader, LacksHeader};

use crate::cuts::{cut_at_last, size_of};

/// The name and the size of a put.
#[derive(Clone, Copy, Debug)]
pub struct Header<'a> {
    /// The name, not checked yet.
    pub name: &'a [u8],
    /// How many bytes the body has, 0 to 999,999,999.
    pub size: usize,
}

/// The name and the size in what follows `put `.
fn put_header(fields: &[u8]) -> Option<Header<'_>>
    ensures { MatchOption result ((name : List ℕ) (size : ℕ) → IsPutHeader fields.now name size
        → ⊥) (λ header. IsPutHeader fields.now header.name.now header.size) }
{
    let (name, digits) = cut_at_last(b' ', fields)?;
    let size = size_of(digits)?;
    Some(Header {
        name,
        size: size as usize,
    })
}

/// The name and the size of a put, from what follows the space after `put`, if there is one. `None` for a bad put.
pub fn header_in(others: Option<&[u8]>) -> Option<Header<'_>>
    ensures { MatchOption result
        (LacksHeader (option_map (λ rest. rest.now) others.entry))
        (λ header. HasHeader (option_map (λ rest. rest.now) others.entry) header.name.now header.size) }
{
    match others {
        Some(fields) => put_header(fields),
        None => None,
    }
}
