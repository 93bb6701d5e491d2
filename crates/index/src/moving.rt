//! The names of one content that go over to another one with the same body.

ghost use Rattle.std.specs.Prelude.{◌≡◌, ℕ, All, IfOk, IfSome, OnOk};
ghost use Rattle.std.specs.Ordering.{nat_cmp};
ghost use Rattle.std.specs.Cmp.Lexicographic.{slice_cmp};
ghost use Rattle.std.specs.BTreeMap.{get};
ghost use Rattle.index.specs.Private.Contents.{is_number};
ghost use Rattle.index.specs.Private.Moving.{AreMoves, IsMove};
ghost use Rattle.index.specs.Private.Slots.{documents_in, RiseTo};

use crate::copying::Copied;
use crate::slots::{Slot, occupant_at};
use documents::Name;
use std::alloc::{AllocError, Global};
use std::collections::{BTreeMap, BTreeSet};

/// The names of the content `from`, for the content `to`, if these are two and have the same body. `None` can also mean that memory ran
/// out, or that a name has too many handles.
pub(crate) fn moves_between(
    alloc: Global,
    numbers: &BTreeMap<Name, u32>,
    groups: &BTreeMap<u32, BTreeSet<Name>>,
    slots: &[Slot],
    from: u32,
    to: u32,
) -> Option<Vec<Copied>>
    requires { (last : ℕ) × RiseTo last slots.now }
    ensures { IfSome result (λ moves. AreMoves from to numbers.now (documents_in slots.now) moves.items) }
{
    if from == to {
        return None;
    }
    let (one, other) = (occupant_at(slots, from)?, occupant_at(slots, to)?);
    if one.held.body().as_bytes() != other.held.body().as_bytes() {
        return None;
    }
    match groups.get(&from) {
        Some(names) => moves_of(alloc, numbers, names, from, to).ok(),
        None => only_move(alloc, numbers, &one.name, from, to).ok(),
    }
}

/// Those of these names that the content `from` has, for the content `to`.
fn moves_of(
    alloc: Global,
    numbers: &BTreeMap<Name, u32>,
    names: &BTreeSet<Name>,
    from: u32,
    to: u32,
) -> Result<Vec<Copied>, AllocError>
    ensures { IfOk result (λ moves. All (IsMove from to numbers.now) moves.items) }
{
    let mut moves = Vec::new(alloc);
    for name in names.iter() {
        add_move(numbers, name, from, to, &mut moves)?;
    }
    Ok(moves)
}

/// The same of one name.
fn only_move(
    alloc: Global,
    numbers: &BTreeMap<Name, u32>,
    name: &Name,
    from: u32,
    to: u32,
) -> Result<Vec<Copied>, AllocError>
    ensures { IfOk result (λ moves. All (IsMove from to numbers.now) moves.items) }
{
    let mut moves = Vec::new(alloc);
    add_move(numbers, name, from, to, &mut moves)?;
    Ok(moves)
}

/// Adds the name, if the content `from` has it.
fn add_move(
    numbers: &BTreeMap<Name, u32>,
    name: &Name,
    from: u32,
    to: u32,
    moves: &mut Vec<Copied>,
) -> Result<(), AllocError>
    ensures { OnOk result (All (IsMove from to numbers.now) moves.old.items → All (IsMove from to numbers.now) moves.new.items) }
{
    if !has_number(numbers, name, from) {
        return Ok(());
    }
    moves.push(Copied {
        name: name.share()?,
        number: to,
        old: Some(from),
    })?;
    Ok(())
}

/// Whether the name has this number.
pub(crate) fn has_number(numbers: &BTreeMap<Name, u32>, name: &Name, number: u32) -> bool
    ensures { result ≡ is_number number (get (slice_cmp nat_cmp) numbers.now name.now) }
{
    match numbers.get(name) {
        Some(found) => *found == number,
        None => false,
    }
}
