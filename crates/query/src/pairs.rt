//! Texts of two parts, kept in little memory.

ghost use Rattle.std.specs.Prelude.{◌≡◌, ◌++◌, IfOk, OnOk, IsTrue, length, map};
ghost use Rattle.std.specs.List.{flat_map};
ghost use Rattle.query.specs.Texts.{texts_of, joined_texts};
ghost use Rattle.query.specs.Pairs.{parts_of, texts_in};

use crate::texts::{are_same_texts, joined_texts};
use std::alloc::{AllocError, Global};

/// Texts of two parts: each of the left parts, followed by each of the right parts. Each part is kept once, so 256
/// texts of 16 parts on either side take the memory of 32 parts, or of 16 if both sides have the same.
#[derive(Clone, Debug, PartialEq, Eq, Drop)]
pub struct Pairs {
    /// The lengths of all parts.
    lengths: Vec<usize>,
    /// The bytes of all parts, one after the other.
    bytes: Vec<u8>,
    /// How many of the parts, from the first on, are left parts.
    lefts: usize,
    /// The place of the first right part. All parts from there on are right parts.
    rights: usize,
}

impl Pairs {
    /// The texts of these parts.
    ///
    /// An `Err` means that memory ran out.
    pub fn of(alloc: Global, left: &[Vec<u8>], right: &[Vec<u8>]) -> Result<Pairs, AllocError>
        ensures { IfOk result (λ pairs. texts_in pairs ≡ joined_texts (texts_of left.now) (texts_of right.now)) }
    {
        let mut lengths = Vec::new(alloc);
        let mut bytes = Vec::new(alloc);
        let mut rights = 0;
        add_parts(&mut lengths, &mut bytes, left)?;
        if !are_same_texts(left, right) {
            rights = left.len();
            add_parts(&mut lengths, &mut bytes, right)?;
        }
        lengths.shrink_to_fit();
        bytes.shrink_to_fit();
        Ok(Pairs {
            lengths,
            bytes,
            lefts: left.len(),
            rights,
        })
    }

    /// All texts: each left part in turn, followed by each right part.
    ///
    /// An `Err` means that memory ran out.
    pub fn texts(&self, alloc: Global) -> Result<Vec<Vec<u8>>, AllocError>
        ensures { IfOk result (λ texts. texts_of texts.items ≡ texts_in self.now) }
    {
        let parts = self.parts(alloc)?;
        let (lefts, _) = parts.split_at(self.lefts.min(parts.len()));
        let (_, rights) = parts.split_at(self.rights.min(parts.len()));
        joined_texts(alloc, lefts, rights)
    }

    fn parts(&self, alloc: Global) -> Result<Vec<Vec<u8>>, AllocError>
        ensures { IfOk result (λ parts. texts_of parts.items ≡ parts_of self.now) }
    {
        let mut parts = Vec::new(alloc);
        let mut rest = self.bytes.as_slice();
        for length in &self.lengths {
            let (part, others) = rest.split_at((*length).min(rest.len()));
            parts.push(Vec::from_slice(alloc, part)?)?;
            rest = others;
        }
        Ok(parts)
    }

    /// The same texts again.
    ///
    /// An `Err` means that memory ran out.
    pub(crate) fn copy(&self, alloc: Global) -> Result<Pairs, AllocError>
        ensures { IfOk result (λ copy. texts_in copy ≡ texts_in self.now) }
    {
        Ok(Pairs {
            lengths: Vec::from_slice(alloc, self.lengths.as_slice())?,
            bytes: Vec::from_slice(alloc, self.bytes.as_slice())?,
            lefts: self.lefts,
            rights: self.rights,
        })
    }

    /// Whether both have the same texts, in the same order. After a `false` they may still have.
    pub(crate) fn is_same(&self, other: &Pairs) -> bool
        ensures { IsTrue result → texts_in self.now ≡ texts_in other.now }
    {
        // Most that differ do so in their last byte.
        self.bytes.last() == other.bytes.last()
            && self.bytes == other.bytes
            && self.lefts == other.lefts
            && self.rights == other.rights
            && self.lengths == other.lengths
    }

    /// The bytes of all parts.
    pub(crate) fn bytes(&self) -> &[u8]
        ensures { result.now ≡ self.now.bytes.items }
    {
        self.bytes.as_slice()
    }
}

/// Adds the lengths and the bytes of these parts.
fn add_parts(
    lengths: &mut Vec<usize>,
    bytes: &mut Vec<u8>,
    parts: &[Vec<u8>],
) -> Result<(), AllocError>
    ensures lengths { OnOk result (lengths.new.items ≡ lengths.old.items ++ map length (texts_of parts.now)) }
    ensures bytes { OnOk result (bytes.new.items ≡ bytes.old.items ++ flat_map (λ part. part) (texts_of parts.now)) }
{
    for part in parts {
        lengths.push(part.len())?;
        bytes.extend_from_slice(part.as_slice())?;
    }
    Ok(())
}
