//! Names of documents.

ghost use Rattle.std.specs.Prelude.{◌≡◌, ◌++◌, drop, IfOk, IfErr, IfSome, IfNone};
ghost use Rattle.documents.specs.Text.{IsName, IsNameOf, IsNameFault, has_bad_byte, usual_lengths};

use crate::error::NameError;
use crate::lengths::USUAL_NAME;
use std::alloc::{AllocError, Global};
use std::cmp::Ordering;
use std::marker::Model;
use std::sync::ArcSlice;

/// The greatest length of any name, in bytes (this program's choice).
pub const MAX_NAME: usize = 4_096;

/// The name of a document: 1 to 4,096 bytes, each of 33 to 126 or 128 to 255 (this program's choice). A
/// space would end a word of a script, and a control byte would spoil the lines that are printed.
///
/// Contracts see it as its bytes. Names are compared byte by byte, as unsigned numbers.
#[derive(Debug, Drop)]
pub struct Name {
    /// Shared by all handles to the name, so that its bytes are in memory only once.
    bytes: ArcSlice<u8>,
}

impl Model for Name {
    ghost use Rattle.std.specs.Prelude.{List, ℕ};
    ghost use Rattle.std.specs.Arc.{arc_slice_items};
    ghost use Rattle.documents.specs.Text.{IsName};

    ghost Value = { List ℕ };

    ghost view = { λ n. arc_slice_items n.bytes };

    ghost invariant = { λ n. IsName (arc_slice_items n.bytes) };
}

impl PartialEq for Name {
    ghost use Rattle.std.specs.Prelude.{nat_eq};
    ghost use Rattle.std.specs.Cmp.{partial_equiv_from_equiv};
    ghost use Rattle.std.specs.Cmp.Lexicographic.{pointwise, nat_list_eq_equiv};

    ghost eq = { pointwise nat_eq };

    ghost laws = { partial_equiv_from_equiv nat_list_eq_equiv };

    fn eq(&self, other: &Name) -> bool {
        self.bytes.as_slice() == other.bytes.as_slice()
    }
}

impl Eq for Name {
    ghost use Rattle.std.specs.Cmp.Lexicographic.{nat_list_eq_equiv};

    ghost laws = { nat_list_eq_equiv };
}

impl PartialOrd for Name {
    ghost use Rattle.std.specs.Prelude.{Some};
    ghost use Rattle.std.specs.Ordering.{nat_cmp};
    ghost use Rattle.std.specs.Cmp.Lexicographic.{slice_cmp, texts_po};

    ghost partial_cmp = { λ x y. Some (slice_cmp nat_cmp x y) };

    ghost laws = { texts_po };

    fn partial_cmp(&self, other: &Name) -> Option<Ordering> {
        Some(self.cmp(other))
    }
}

impl Ord for Name {
    ghost use Rattle.std.specs.Prelude.{refl};
    ghost use Rattle.std.specs.Ordering.{nat_cmp};
    ghost use Rattle.std.specs.Cmp.Lexicographic.{slice_cmp, nat_list_cmp_total, texts_ties};

    ghost cmp = { slice_cmp nat_cmp };

    ghost total = { nat_list_cmp_total };

    ghost matches_partial_cmp = { λ x y. refl };

    ghost matches_eq = { texts_ties };

    fn cmp(&self, other: &Name) -> Ordering {
        self.bytes.as_slice().cmp(&other.bytes.as_slice())
    }
}

impl Name {
    /// Makes a name of a copy of these bytes, if they are one of the usual length (`Lengths::usual`). An `Err` is as that
    /// of `within`.
    pub fn new(alloc: Global, bytes: &[u8]) -> Result<Name, NameError>
        ensures name { IfOk result (λ name. (name ≡ bytes.now) × IsNameOf usual_lengths.name bytes.now) }
        ensures fault { IfErr result (λ e. IsNameFault usual_lengths.name e bytes.now) }
    {
        Name::within(alloc, bytes, USUAL_NAME)
    }

    /// Makes a name of a copy of these bytes, if they are one of at most so many bytes. An `Err` is the first cause, in
    /// the order of `NameError`.
    #[tactic(auto, unfolding(crate::specs::Text::IsNameFault), using(crate::proofs::NameLemmas::name_of))]
    pub fn within(alloc: Global, bytes: &[u8], most: usize) -> Result<Name, NameError>
        ensures name { IfOk result (λ name. (name ≡ bytes.now) × IsNameOf most bytes.now) }
        ensures fault { IfErr result (λ e. IsNameFault most e bytes.now) }
    {
        if let Some(fault) = fault_of(bytes, most) {
            return Err(fault);
        }
        match ArcSlice::from_slice(alloc, bytes) {
            Ok(bytes) => Ok(Name { bytes }),
            Err(_) => Err(NameError::OutOfMemory),
        }
    }

    /// The name with this one in place of its first `length` bytes, if that is a name and there is memory for it.
    pub fn with_beginning(&self, alloc: Global, length: usize, beginning: &Name) -> Option<Name>
        ensures { IfSome result (λ name. name ≡ beginning.now ++ drop length self.now) }
    {
        let rest = self.as_bytes().get(length..)?;
        let mut bytes = Vec::from_slice(alloc, beginning.as_bytes()).ok()?;
        bytes.extend_from_slice(rest).ok()?;
        Name::within(alloc, bytes.as_slice(), MAX_NAME).ok()
    }

    /// The bytes of the name.
    pub fn as_bytes(&self) -> &[u8]
        ensures bytes { result.now ≡ self.now }
        ensures name { IsName self.now }
    {
        self.bytes.as_slice()
    }

    /// Another handle to the same name, with no memory of its own. An `Err` means that the name has too many handles.
    pub fn share(&self) -> Result<Name, AllocError>
        ensures { IfOk result (λ name. name ≡ self.now) }
    {
        let bytes = self.bytes.clone()?;
        Ok(Name { bytes })
    }
}

/// Why the bytes are not a name of at most so many bytes.
#[tactic(auto, unfolding(crate::specs::Text::IsNameFault))]
fn fault_of(bytes: &[u8], most: usize) -> Option<NameError>
    ensures none { IfNone result (IsNameOf most bytes.now) }
    ensures some { IfSome result (λ fault. IsNameFault most fault bytes.now) }
{
    if bytes.is_empty() {
        return Some(NameError::Empty);
    }
    if bytes.len() > most.min(MAX_NAME) {
        return Some(NameError::TooLong);
    }
    if has_bad_byte(bytes) {
        return Some(NameError::BadByte);
    }
    None
}

fn has_bad_byte(bytes: &[u8]) -> bool
    ensures { result ≡ has_bad_byte bytes.now }
{
    bytes.iter().any(|b| *b < 33 || *b == 127)
}
