//! The text that follows a `^` at the front of a tree.

ghost use Rattle.std.specs.Prelude.{◌≡◌, ℕ, IfOk, List, length, map, take};
ghost use Rattle.ere.specs.Language.{ContainsMatch};
ghost use Rattle.ere.specs.Tree.{form, trees_of};
ghost use Rattle.prepare.specs.Anchored.{anchored_text, byte_of, bytes_after_start, bytes_in, is_start, leading_bytes, only};

use ere::{ByteSet, Ere};
use std::alloc::{AllocError, Global};

/// The text with which every line begins that contains a match of the tree, as far as the tree shows it at a glance:
/// `src/` for the tree of `^src/[a-z]`. It is what follows a `^` at the front, up to the first member that is no set
/// of exactly one byte, and empty for a tree that does not begin so. So it is empty for `^a|^b` and for `(^a)b`.
///
/// An `Err` means that memory ran out.
pub fn anchored_text(alloc: Global, tree: &Ere) -> Result<Vec<u8>, AllocError>
    ensures text { IfOk result (λ text. text.items ≡ anchored_text (form tree.now)) }
    ensures begins { IfOk result (λ text. (line : List ℕ) → ContainsMatch (form tree.now) line
        → take (length text.items) line ≡ text.items) }
{
    match tree {
        Ere::Empty => Ok(Vec::new(alloc)),
        Ere::Set(_) => Ok(Vec::new(alloc)),
        Ere::Start => Ok(Vec::new(alloc)),
        Ere::End => Ok(Vec::new(alloc)),
        Ere::Cat(members) => bytes_after_start(alloc, members),
        Ere::Alt(_) => Ok(Vec::new(alloc)),
        Ere::Repeat(_, _, _) => Ok(Vec::new(alloc)),
    }
}

/// The bytes of the sets of one byte each that come right after the first member, if that is `^`.
fn bytes_after_start(alloc: Global, members: &[Ere]) -> Result<Vec<u8>, AllocError>
    ensures { IfOk result (λ text. text.items ≡ bytes_after_start (trees_of (map form members.now))) }
{
    match members {
        [first, rest @ ..] if is_start(first) => leading_bytes(alloc, rest),
        _ => Ok(Vec::new(alloc)),
    }
}

/// The bytes of the sets of one byte each with which the members begin.
fn leading_bytes(alloc: Global, members: &[Ere]) -> Result<Vec<u8>, AllocError>
    ensures { IfOk result (λ text. text.items ≡ leading_bytes (trees_of (map form members.now))) }
{
    let mut text = Vec::new(alloc);
    for member in members {
        match byte_of(member) {
            Some(byte) => text.push(byte)?,
            None => return Ok(text),
        }
    }
    Ok(text)
}

fn is_start(tree: &Ere) -> bool
    ensures { result ≡ is_start (form tree.now) }
{
    match tree {
        Ere::Empty => false,
        Ere::Set(_) => false,
        Ere::Start => true,
        Ere::End => false,
        Ere::Cat(_) => false,
        Ere::Alt(_) => false,
        Ere::Repeat(_, _, _) => false,
    }
}

/// The byte of a tree that is a set of exactly one byte.
fn byte_of(tree: &Ere) -> Option<u8>
    ensures { result ≡ byte_of (form tree.now) }
{
    match tree {
        Ere::Empty => None,
        Ere::Set(set) => only_byte(set),
        Ere::Start => None,
        Ere::End => None,
        Ere::Cat(_) => None,
        Ere::Alt(_) => None,
        Ere::Repeat(_, _, _) => None,
    }
}

/// The byte of the set, if it has exactly one.
fn only_byte(set: &ByteSet) -> Option<u8>
    ensures { result ≡ only (bytes_in set.now) }
{
    let mut found = None;
    for i in 0..256usize {
        let byte = i as u8;
        if set.has(byte) {
            match found {
                Some(_) => return None,
                None => found = Some(byte),
            }
        }
    }
    found
}
