//! Copies of all documents whose names begin with a text: names that contents get, all of them or none.

ghost use Rattle.std.specs.Prelude.{◌≡◌, true, ℕ, List, [], ◌∷◌, ◌≤◌, length, take, bytes_eq, if◌then◌else◌, All, IfOk, IfSome, OnOk, OnErr, IsTrue};
ghost use Rattle.std.specs.Ordering.{nat_cmp};
ghost use Rattle.std.specs.Cmp.Lexicographic.{slice_cmp};
ghost use Rattle.std.specs.BTreeMap.{IsOrdered, btree_map_len, get};
ghost use Rattle.std.specs.FinMap.{insert, remove};
ghost use Rattle.prefixes.specs.Under.{begins_with};
ghost use Rattle.documents.specs.State.{body_bytes};
ghost use Rattle.index.specs.Private.Contents.{AreGroupsOf, IsLeft, body_at, named};
ghost use Rattle.index.specs.Private.Copying.{copied, copies_in, is_new, is_named, left_by, restored, number_again, AreApart, IsCopy, IsFree, IsEntered, AreLeft};
ghost use Rattle.index.specs.Private.Plain.{plain_documents};
ghost use Rattle.index.specs.Private.Slots.{documents_in, RiseTo};
ghost use Rattle.index.specs.Private.Store.{stored, IsStore};

use crate::catalog::{enter_copy, leave, length_at};
use crate::moving::has_number;
use crate::slots::{Slot, occupant_at};
use crate::store::Store;
use documents::Name;
use std::alloc::{AllocError, Global};
use std::collections::{BTreeMap, BTreeSet};
use std::ops::Bound;

/// How many names are gone through for one part of a copy.
const AT_ONCE: usize = 512;

/// A part of the names that contents get.
#[derive(Drop)]
pub(crate) struct Part {
    pub(crate) copies: Vec<Copied>,
    /// Where the next part begins. It is the same part again if there are no more, to see that none is left of it.
    pub(crate) next: Name,
    /// Whether there are more names.
    pub(crate) more: bool,
}

/// A name that the content with this number gets, and the number that the name had.
#[derive(Drop)]
pub(crate) struct Copied {
    pub(crate) name: Name,
    pub(crate) number: u32,
    pub(crate) old: Option<u32>,
}

/// Which content a name leaves.
#[derive(Clone, Copy)]
pub(crate) enum Leaves {
    /// The one that it had.
    Old,
    /// The one that it got.
    New,
}

/// The names that begin with `to` in place of `from`, for each name that begins with `from`, but for those that have the same content
/// already. An `Err` means that memory ran out, or that one would be too long.
pub(crate) fn copies_under(
    alloc: Global,
    numbers: &BTreeMap<Name, u32>,
    from: &Name,
    to: &Name,
) -> Result<Vec<Copied>, AllocError>
    ensures { IfOk result (λ copies. copies.items ≡ copies_in from.now to.now numbers.now numbers.now.entries) }
{
    let mut copies = Vec::new(alloc);
    for (name, number) in numbers.range((Bound::Included(from), Bound::Unbounded)) {
        if !begins(name, from) {
            return Ok(copies);
        }
        let copy = copy_of(alloc, numbers, from, to, name, *number)?;
        if is_new(&copy) {
            copies.push(copy)?;
        }
    }
    Ok(copies)
}

/// The names that begin with `to` in place of `from`, for some of the names that begin with `from`: the first `AT_ONCE` from `first` on.
/// An `Err` means that memory ran out, that one would be too long, or that a name has too many handles.
pub(crate) fn some_copies(
    alloc: Global,
    numbers: &BTreeMap<Name, u32>,
    from: &Name,
    to: &Name,
    first: &Name,
) -> Result<Part, AllocError>
    ensures { IfOk result (λ part. All (IsCopy from.now to.now numbers.now) part.copies.items) }
{
    let mut copies = Vec::new(alloc);
    let mut passed = 0usize;
    for (name, number) in numbers.range((Bound::Included(first), Bound::Unbounded)) {
        if !begins(name, from) {
            return part_of(copies, first, false);
        }
        if passed >= AT_ONCE {
            return part_of(copies, name, true);
        }
        passed += 1;
        add_copy(alloc, numbers, from, to, name, *number, &mut copies)?;
    }
    part_of(copies, first, false)
}

fn part_of(copies: Vec<Copied>, next: &Name, more: bool) -> Result<Part, AllocError>
    ensures { IfOk result (λ part. part.copies ≡ copies) }
{
    let next = next.share()?;
    Ok(Part { copies, next, more })
}

/// Adds the name with `to` in place of `from`, for the content with this number, which the name has, unless that name has the content
/// already.
fn add_copy(
    alloc: Global,
    numbers: &BTreeMap<Name, u32>,
    from: &Name,
    to: &Name,
    name: &Name,
    number: u32,
    copies: &mut Vec<Copied>,
) -> Result<(), AllocError>
    requires { begins_with from.now name.now ≡ true }
    ensures { OnOk result (All (IsCopy from.now to.now numbers.now) copies.old.items → All (IsCopy from.now to.now numbers.now) copies.new.items) }
{
    if !has_number(numbers, name, number) {
        return Ok(());
    }
    let copy = copy_of(alloc, numbers, from, to, name, number)?;
    if is_new(&copy) {
        copies.push(copy)?;
    }
    Ok(())
}

/// Whether no name begins with both texts, since neither text begins with the other.
pub(crate) fn are_apart(from: &Name, to: &Name) -> bool
    ensures { IsTrue result → AreApart from.now to.now }
{
    !begins(from, to) && !begins(to, from)
}

/// Whether the name begins with the prefix.
fn begins(name: &Name, prefix: &Name) -> bool
    ensures { result ≡ begins_with prefix.now name.now }
{
    name.as_bytes().starts_with(prefix.as_bytes())
}

/// The name with `to` in place of `from`, for the content with this number.
fn copy_of(
    alloc: Global,
    numbers: &BTreeMap<Name, u32>,
    from: &Name,
    to: &Name,
    name: &Name,
    number: u32,
) -> Result<Copied, AllocError>
    ensures { IfOk result (λ copy. copy ≡ copied from.now to.now numbers.now (name.now, number)) }
{
    let Some(name) = name.with_beginning(alloc, from.as_bytes().len(), to) else {
        return Err(AllocError);
    };
    let old = number_under(numbers, &name);
    Ok(Copied { name, number, old })
}

/// Whether the name has another content so far, or none.
fn is_new(copy: &Copied) -> bool
    ensures { result ≡ is_new copy.now }
{
    match copy.old {
        Some(old) => old != copy.number,
        None => true,
    }
}

/// Enters the names under their new numbers, one after the other, where the bodies of all documents come to `held_bytes`. Returns how
/// many were entered, and to what they come then. If it is not all of them, memory ran out.
pub(crate) fn enter_all(
    numbers: &mut BTreeMap<Name, u32>,
    groups: &mut BTreeMap<u32, BTreeSet<Name>>,
    store: &Store,
    copies: &[Copied],
    held_bytes: u64,
) -> (usize, u64)
    requires store { (last : ℕ) × IsStore last store.now }
    requires bytes { held_bytes ≡ body_bytes (plain_documents (named numbers.old (stored store.now))) }
    requires ordered { IsOrdered (slice_cmp nat_cmp) numbers.old }
    requires free { IsFree numbers.old groups.old (stored store.now) }
    ensures within { result.0 ≤ length copies.now }
    ensures entered { IsEntered (take result.0 copies.now) (stored store.now) numbers.old groups.old numbers.new groups.new }
    ensures bytes { result.1 ≡ body_bytes (plain_documents (named numbers.new (stored store.now))) }
{
    let mut bytes = held_bytes;
    for at in 0..copies.len() {
        match enter_one(numbers, groups, store, &copies[at], bytes) {
            Ok(more) => bytes = more,
            Err(_) => return (at, bytes),
        }
    }
    (copies.len(), bytes)
}

/// Enters the name under its new number, where the bodies of all documents come to `held_bytes`. Returns to what they come then.
/// After an `Err` nothing was entered.
fn enter_one(
    numbers: &mut BTreeMap<Name, u32>,
    groups: &mut BTreeMap<u32, BTreeSet<Name>>,
    store: &Store,
    copy: &Copied,
    held_bytes: u64,
) -> Result<u64, AllocError>
    requires store { (last : ℕ) × IsStore last store.now }
    requires bytes { held_bytes ≡ body_bytes (plain_documents (named numbers.old (stored store.now))) }
    requires ordered { IsOrdered (slice_cmp nat_cmp) numbers.old }
    requires free { IsFree numbers.old groups.old (stored store.now) }
    ensures ok { OnOk result (IsEntered (copy.now ∷ []) (stored store.now) numbers.old groups.old numbers.new groups.new) }
    ensures bytes { IfOk result (λ bytes. bytes ≡ body_bytes (plain_documents (named numbers.new (stored store.now)))) }
    ensures err { OnErr result (IsEntered [] (stored store.now) numbers.old groups.old numbers.new groups.new) }
    ensures kept { OnErr result (held_bytes ≡ body_bytes (plain_documents (named numbers.new (stored store.now)))) }
{
    let Some(bytes) = bytes_after(numbers, store, copy, held_bytes) else {
        return Err(AllocError);
    };
    enter_copy(numbers, groups, store, &copy.name, copy.number)?;
    Ok(bytes)
}

/// To what the bodies of all documents come once the name is entered, where they come to `held_bytes` so far, if that is a number of
/// 64 bits.
fn bytes_after(
    numbers: &BTreeMap<Name, u32>,
    store: &Store,
    copy: &Copied,
    held_bytes: u64,
) -> Option<u64>
    requires store { (last : ℕ) × IsStore last store.now }
    requires bytes { held_bytes ≡ body_bytes (plain_documents (named numbers.now (stored store.now))) }
    ensures { IfSome result (λ bytes. bytes ≡ body_bytes (insert (plain_documents (named numbers.now (stored store.now))) copy.now.name
        (body_at (stored store.now) copy.now.number))) }
{
    let others = bytes_of_others(numbers, store, &copy.name, held_bytes);
    let length = length_at(&store.slots, copy.number) as u64;
    match others.checked_add(length) {
        Some(bytes) => Some(bytes),
        None => None,
    }
}

/// To what the bodies of the documents with other names come, where those of all come to `held_bytes`.
fn bytes_of_others(
    numbers: &BTreeMap<Name, u32>,
    store: &Store,
    name: &Name,
    held_bytes: u64,
) -> u64
    requires store { (last : ℕ) × IsStore last store.now }
    requires bytes { held_bytes ≡ body_bytes (plain_documents (named numbers.now (stored store.now))) }
    ensures { result ≡ body_bytes (remove (plain_documents (named numbers.now (stored store.now))) name.now) }
{
    let Some(number) = number_under(numbers, name) else {
        return held_bytes;
    };
    let length = length_at(&store.slots, number) as u64;
    held_bytes - length
}

/// The number under a name, if it has one.
fn number_under(numbers: &BTreeMap<Name, u32>, name: &Name) -> Option<u32>
    ensures { result ≡ get (slice_cmp nat_cmp) numbers.now name.now }
{
    numbers.get(name).copied()
}

/// Gives the names the numbers that they had, where they have others now.
pub(crate) fn restore_all(numbers: &mut BTreeMap<Name, u32>, copies: &[Copied])
    requires ordered { IsOrdered (slice_cmp nat_cmp) numbers.old }
    ensures numbers { (q : List ℕ) → get (slice_cmp nat_cmp) numbers.new q ≡ restored copies.now q (get (slice_cmp nat_cmp) numbers.old q) }
    ensures ordered { IsOrdered (slice_cmp nat_cmp) numbers.new }
    ensures len { btree_map_len numbers.new ≤ btree_map_len numbers.old }
{
    for at in 0..copies.len() {
        restore_one(numbers, &copies[at]);
    }
}

/// Gives the name the number that it had, if it has another one now.
fn restore_one(numbers: &mut BTreeMap<Name, u32>, copy: &Copied)
    requires ordered { IsOrdered (slice_cmp nat_cmp) numbers.old }
    ensures numbers { (q : List ℕ) → get (slice_cmp nat_cmp) numbers.new q
        ≡ (if bytes_eq copy.now.name q then number_again copy.now.old (get (slice_cmp nat_cmp) numbers.old q) else get (slice_cmp nat_cmp) numbers.old q) }
    ensures ordered { IsOrdered (slice_cmp nat_cmp) numbers.new }
    ensures len { btree_map_len numbers.new ≤ btree_map_len numbers.old }
{
    let Some(old) = copy.old else {
        numbers.remove(&copy.name);
        return;
    };
    if let Some(number) = numbers.get_mut(&copy.name) {
        *number = old;
    }
}

/// The names leave the contents that they had, or those that they got. If a content goes with its last name, and that is much work, and
/// `later` is asked for, its number waits to be taken out of the sets of its trigrams.
pub(crate) fn leave_all(
    groups: &mut BTreeMap<u32, BTreeSet<Name>>,
    hints: &mut BTreeMap<u64, u32>,
    store: &mut Store,
    copies: &[Copied],
    leaves: Leaves,
    later: bool,
)
    requires store { (last : ℕ) × IsStore last store.old }
    requires groups { AreGroupsOf (stored store.old) groups.old }
    ensures left { AreLeft leaves copies.now (stored store.old) groups.old (stored store.new) groups.new }
    ensures store { (last : ℕ) → IsStore last store.old → IsStore last store.new }
{
    for at in 0..copies.len() {
        let copy = &copies[at];
        let number = left_by(leaves, copy);
        leave_one(groups, hints, store, number, &copy.name, later);
    }
}

/// The number of the content that the name leaves.
fn left_by(leaves: Leaves, copy: &Copied) -> Option<u32>
    ensures { result ≡ left_by leaves copy.now }
{
    match leaves {
        Leaves::Old => copy.old,
        Leaves::New => Some(copy.number),
    }
}

/// The name leaves the content with this number, if it has it.
fn leave_one(
    groups: &mut BTreeMap<u32, BTreeSet<Name>>,
    hints: &mut BTreeMap<u64, u32>,
    store: &mut Store,
    number: Option<u32>,
    name: &Name,
    later: bool,
)
    requires store { (last : ℕ) × IsStore last store.old }
    requires groups { AreGroupsOf (stored store.old) groups.old }
    ensures left { IsLeft number name.now (stored store.old) groups.old (stored store.new) groups.new }
    ensures store { (last : ℕ) → IsStore last store.old → IsStore last store.new }
{
    if has_name(groups, &store.slots, number, name) {
        leave(groups, hints, store, number, name, later);
    }
}

/// Whether the content with this number has the name.
fn has_name(
    groups: &BTreeMap<u32, BTreeSet<Name>>,
    slots: &[Slot],
    number: Option<u32>,
    name: &Name,
) -> bool
    requires { (last : ℕ) × RiseTo last slots.now }
    ensures { result ≡ is_named groups.now (documents_in slots.now) number name.now }
{
    let Some(number) = number else {
        return false;
    };
    if let Some(names) = groups.get(&number) {
        return names.contains(name);
    }
    match occupant_at(slots, number) {
        Some(occupant) => occupant.name.as_bytes() == name.as_bytes(),
        None => false,
    }
}
