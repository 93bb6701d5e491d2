//! The slots that hold the documents of an index, rising by their numbers.

ghost use Rattle.std.specs.Prelude.{◌≡◌, ◌≢◌, ℕ, ◌<◌, ◌≤◌, length, map, option_map, All, IfSome, IfNone, None, slice_index_or};
ghost use Rattle.std.specs.Vec.{vec_len, vec_capacity};
ghost use Rattle.index.specs.declared.slots.Slot.{Slot as SlotValue};
ghost use Rattle.index.specs.Private.Numbered.{document_at};
ghost use Rattle.index.specs.Private.Slots.{documents_in, numbers_in, RiseTo, FewAreEmpty, texts_of, without_number, with_body_at};

use crate::analysed::Analysed;
use documents::Name;
use std::mem::replace;

/// The name and the body of a document.
#[derive(Drop)]
pub(crate) struct Occupant {
    /// The name.
    pub(crate) name: Name,
    /// The body, with its trigrams.
    pub(crate) held: Analysed,
}

/// The slot of a document. It stays, empty, when the document is removed, so that a removal need not move the others.
#[derive(Drop)]
pub(crate) struct Slot {
    /// The number of the document.
    pub(crate) number: u32,
    /// The document, unless it was removed.
    pub(crate) occupant: Option<Occupant>,
}

/// The name and the body of the document with this number, if there is one.
pub(crate) fn occupant_at(slots: &[Slot], number: u32) -> Option<&Occupant>
    requires { (last : ℕ) × RiseTo last slots.now }
    ensures { option_map (λ e. texts_of e.now) result ≡ document_at number (documents_in slots.now) }
{
    match place_of(slots, number) {
        Some(place) => slots[place].occupant.as_ref(),
        None => None,
    }
}

/// The same, found at once if it is at the place `near`, which becomes the place behind it.
pub(crate) fn occupant_near<'a>(
    slots: &'a [Slot],
    near: &mut usize,
    number: u32,
) -> Option<&'a Occupant>
    requires { (last : ℕ) × RiseTo last slots.now }
    ensures { option_map (λ e. texts_of e.now) result ≡ document_at number (documents_in slots.now) }
{
    match place_near(slots, *near, number) {
        Some(place) => {
            *near = place.wrapping_add(1);
            slots[place].occupant.as_ref()
        }
        None => None,
    }
}

/// The number of the first slot whose number is not below this one, if there is one. The slot may be empty.
pub(crate) fn number_from(slots: &[Slot], first: u32) -> Option<u32>
    requires { (last : ℕ) × RiseTo last slots.now }
    ensures some { IfSome result (λ found. (n : ℕ) → first ≤ n → n < found → document_at n (documents_in slots.now) ≡ None) }
    ensures none { IfNone result ((n : ℕ) → first ≤ n → document_at n (documents_in slots.now) ≡ None) }
{
    let place = slots.partition_point(|slot| slot.number < first);
    if place == slots.len() {
        return None;
    }
    Some(slots[place].number)
}

/// Takes the document with this number, if there is one, out of its slot. The slot stays, empty.
pub(crate) fn take(slots: &mut Vec<Slot>, number: u32) -> Option<Occupant>
    requires { (last : ℕ) × RiseTo last slots.old.items }
    ensures occupant { option_map texts_of result ≡ document_at number (documents_in slots.old.items) }
    ensures documents { documents_in slots.new.items ≡ without_number number (documents_in slots.old.items) }
    ensures numbers { numbers_in slots.new.items ≡ numbers_in slots.old.items }
    ensures len { vec_len slots.new ≡ vec_len slots.old }
    ensures capacity { vec_capacity slots.new ≡ vec_capacity slots.old }
{
    match place_of(slots, number) {
        Some(place) => {
            let slot = &mut slots[place];
            slot.occupant.take()
        }
        None => None,
    }
}

/// Replaces the body of the document with this number, if there is one. Returns the body that it had.
pub(crate) fn exchange(slots: &mut [Slot], number: u32, held: Analysed) -> Option<Analysed>
    requires { (last : ℕ) × RiseTo last slots.old }
    ensures held { result ≡ option_map (λ d. d.1) (document_at number (documents_in slots.old)) }
    ensures documents { documents_in slots.new ≡ map (with_body_at number held) (documents_in slots.old) }
    ensures numbers { numbers_in slots.new ≡ numbers_in slots.old }
{
    match place_of(slots, number) {
        Some(place) => match &mut slots[place].occupant {
            Some(occupant) => Some(replace(&mut occupant.held, held)),
            None => None,
        },
        None => None,
    }
}

/// Drops the empty slots if half the number of slots is more than `documents`. If `documents` is the number of
/// documents in the slots, at most half of the slots (rounded up) are empty afterwards.
pub(crate) fn compact(slots: &mut Vec<Slot>, documents: usize)
    ensures documents { documents_in slots.new.items ≡ documents_in slots.old.items }
    ensures numbers { (last : ℕ) → RiseTo last slots.old.items → RiseTo last slots.new.items }
    ensures few { documents ≡ length (documents_in slots.old.items) → FewAreEmpty slots.new.items }
    ensures len { vec_len slots.new ≤ vec_len slots.old }
    ensures capacity { vec_capacity slots.new ≡ vec_capacity slots.old }
{
    if slots.len() / 2 > documents {
        slots.retain(|slot| slot.occupant.is_some());
    }
}

/// Gives back the room for slots that is not used, once less than a quarter of all room is used. The slots stay.
///
/// If memory for a smaller copy is refused, the room is kept.
pub(crate) fn give_back(slots: &mut Vec<Slot>)
    ensures { slots.new.items ≡ slots.old.items }
{
    if slots.len() < slots.capacity() / 4 {
        slots.shrink_to_fit();
    }
}

/// The place of the slot with this number, if there is one, which may be the place `near`.
fn place_near(slots: &[Slot], near: usize, number: u32) -> Option<usize>
    requires { (last : ℕ) × RiseTo last slots.now }
    ensures some { IfSome result (λ place. (place < length slots.now)
        × ((slot : SlotValue) → (slice_index_or slots.now place slot).number ≡ number)) }
    ensures none { IfNone result (All (λ s. s.number ≢ number) slots.now) }
{
    if near < slots.len() {
        let slot = &slots[near];
        if slot.number == number {
            return Some(near);
        }
    }
    place_of(slots, number)
}

/// The place of the slot with this number, if there is one.
fn place_of(slots: &[Slot], number: u32) -> Option<usize>
    requires { (last : ℕ) × RiseTo last slots.now }
    ensures some { IfSome result (λ place. (place < length slots.now)
        × ((slot : SlotValue) → (slice_index_or slots.now place slot).number ≡ number)) }
    ensures none { IfNone result (All (λ s. s.number ≢ number) slots.now) }
{
    let place = slots.partition_point(|slot| slot.number < number);
    if place == slots.len() {
        return None;
    }
    let slot = &slots[place];
    if slot.number != number {
        return None;
    }
    Some(place)
}
