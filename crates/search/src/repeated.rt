//! The contents that several documents have.

ghost use Rattle.std.specs.Prelude.{ℕ, List, All, IfOk, IfErr, OnOk};
ghost use Rattle.watch.specs.CalledOff.{IsCalledOffOnlyIf};
ghost use Rattle.search.specs.Private.Known.{HasBody};

use crate::matching::body_size;
use crate::side_by_side::DOCUMENTS;
use documents::SharedDocument;
use std::alloc::{AllocError, Global};
use watch::{Pace, Unanswered, Watch};

/// So many bytes of bodies stand again under further names, or a content is matched under each of its names: to look for fewer takes
/// no longer than to match them again.
const AGAIN: usize = 65_536;

/// What is known of a number.
#[derive(Clone, Copy)]
enum Mark {
    /// The slot has no number.
    Free,
    /// One document has it.
    Once,
    /// More than one has it.
    Again,
    /// More than one has it, and the first of them was taken.
    Taken,
    /// It is that of the entry at this place.
    Entry(u32),
}

/// A number, and what is known of it.
#[derive(Clone, Copy)]
struct Slot {
    number: u32,
    mark: Mark,
}

/// Numbers of contents, each in a slot. There are slots for all numbers up to the greatest, or, if that are fewer, twice as many as
/// there are numbers.
///
/// No answer depends on it: who finds a place by a number looks whether the number is there.
#[derive(Drop)]
pub(crate) struct Numbers {
    slots: Vec<Slot>,
    /// Whether the slot of a number is that which has it as its place.
    in_order: bool,
}

impl Numbers {
    /// Room for no number.
    pub(crate) fn none(alloc: Global) -> Numbers {
        Numbers {
            slots: Vec::new(alloc),
            in_order: true,
        }
    }

    ghost use Rattle.std.specs.Prelude.{◌≡◌, IfErr};
    ghost use Rattle.watch.specs.declared.unanswered.Unanswered.TheVariants.{OutOfMemory};

    /// Room for so many numbers, of which this is the greatest. An `Err` is `OutOfMemory`.
    fn with_room(alloc: Global, count: usize, greatest: u32) -> Result<Numbers, Unanswered>
        ensures { IfErr result (λ e. e ≡ OutOfMemory) }
    {
        let (twice, all) = (
            count.saturating_mul(2),
            (greatest as usize).saturating_add(1),
        );
        let Some(slots) = twice.min(all).checked_next_power_of_two() else {
            return Err(Unanswered::OutOfMemory);
        };
        let free = Slot {
            number: 0,
            mark: Mark::Free,
        };
        let slots = vec![in alloc; free; slots]?;
        Ok(Numbers {
            slots,
            in_order: all <= twice,
        })
    }

    /// The slot that has the number, or the free one where it can be entered.
    fn slot(&self, number: u32) -> usize {
        if self.in_order {
            return number as usize;
        }
        let last = self.slots.len().wrapping_sub(1);
        let spread = (number as u64).wrapping_mul(0x9E37_79B9_7F4A_7C15) >> 32;
        let mut at = spread as usize & last;
        for _ in 0..self.slots.len() {
            if self.ends_at(number, at) {
                return at;
            }
            at = at.wrapping_add(1) & last;
        }
        at
    }

    /// Whether this slot has the number, or none.
    fn ends_at(&self, number: u32, at: usize) -> bool {
        let Some(slot) = self.slots.get(at) else {
            return true;
        };
        match slot.mark {
            Mark::Free => true,
            _ => slot.number == number,
        }
    }

    /// Marks the number of a document, and returns whether it was marked before.
    fn meet(&mut self, number: u32) -> bool {
        let at = self.slot(number);
        let Some(slot) = self.slots.get_mut(at) else {
            return false;
        };
        slot.number = number;
        match slot.mark {
            Mark::Free => {
                slot.mark = Mark::Once;
                false
            }
            _ => {
                slot.mark = Mark::Again;
                true
            }
        }
    }

    /// Whether more than one document has the number, and this is the first time that it is asked for.
    fn take(&mut self, number: u32) -> bool {
        let at = self.slot(number);
        let Some(slot) = self.slots.get_mut(at) else {
            return false;
        };
        match slot.mark {
            Mark::Again => {
                slot.mark = Mark::Taken;
                true
            }
            _ => false,
        }
    }

    /// Enters the place of the entry with this number.
    pub(crate) fn enter(&mut self, number: u32, place: u32) {
        let at = self.slot(number);
        if let Some(slot) = self.slots.get_mut(at) {
            slot.number = number;
            slot.mark = Mark::Entry(place);
        }
    }

    /// The place of the entry with this number.
    pub(crate) fn entry(&self, number: u32) -> Option<usize> {
        let slot = self.slots.get(self.slot(number))?;
        match slot.mark {
            Mark::Entry(place) => Some(place as usize),
            _ => None,
        }
    }
}

/// The contents that several documents have.
#[derive(Drop)]
pub(crate) struct Repeated {
    /// The first document of each, if it pays to match it before the others.
    pub(crate) firsts: Vec<SharedDocument>,
    /// The numbers of all documents.
    pub(crate) numbers: Numbers,
}

/// The contents that several of these documents have.
///
/// `CalledOff` is returned once `watch` says that the answer is not wanted. `OutOfMemory` means that memory ran out, or that a name or
/// a body has too many handles.
pub(crate) fn find_repeated<W: Watch>(
    alloc: Global,
    documents: &[SharedDocument],
    watch: &mut W,
) -> Result<Repeated, Unanswered>
    ensures bodies { IfOk result (λ found. (body : ℕ → List ℕ) → All (HasBody body) documents.now → All (HasBody body) found.firsts.items) }
    ensures called_off { IfErr result (IsCalledOffOnlyIf (W.has_said_no watch.new)) }
{
    let mut firsts = Vec::new(alloc);
    if documents.len() < 2 {
        let numbers = Numbers::none(alloc);
        return Ok(Repeated { firsts, numbers });
    }
    let greatest = greatest_number(documents, watch)?;
    let mut numbers = Numbers::with_room(alloc, documents.len(), greatest)?;
    if mark_all(&mut numbers, documents, watch)? < AGAIN {
        return Ok(Repeated { firsts, numbers });
    }
    let mut pace = Pace::each(DOCUMENTS);
    for document in documents {
        pace.look(watch)?;
        keep_if_first(&mut numbers, document, &mut firsts)?;
    }
    Ok(Repeated { firsts, numbers })
}

/// Keeps the document if it is the first of several with its number. An `Err` means that memory ran out, or that its name or its body
/// has too many handles.
fn keep_if_first(
    numbers: &mut Numbers,
    document: &SharedDocument,
    firsts: &mut Vec<SharedDocument>,
) -> Result<(), AllocError>
    ensures { OnOk result ((body : ℕ → List ℕ) → HasBody body document.now → All (HasBody body) firsts.old.items
        → All (HasBody body) firsts.new.items) }
{
    if !numbers.take(document.number) {
        return Ok(());
    }
    firsts.push(document.share()?)?;
    Ok(())
}

/// The greatest number of these documents. An `Err` is `CalledOff`.
fn greatest_number<W: Watch>(documents: &[SharedDocument], watch: &mut W) -> Result<u32, Unanswered>
    ensures called_off { IfErr result (IsCalledOffOnlyIf (W.has_said_no watch.new)) }
{
    let mut pace = Pace::each(DOCUMENTS);
    let mut greatest = 0;
    for document in documents {
        pace.look(watch)?;
        greatest = greatest.max(document.number);
    }
    Ok(greatest)
}

/// Marks the numbers of these documents, and returns how many bytes the bodies have that stand there again. An `Err` is `CalledOff`.
fn mark_all<W: Watch>(
    numbers: &mut Numbers,
    documents: &[SharedDocument],
    watch: &mut W,
) -> Result<usize, Unanswered>
    ensures called_off { IfErr result (IsCalledOffOnlyIf (W.has_said_no watch.new)) }
{
    let mut pace = Pace::each(DOCUMENTS);
    let mut again = 0usize;
    for document in documents {
        pace.look(watch)?;
        if numbers.meet(document.number) {
            again = again.saturating_add(body_size(document));
        }
    }
    Ok(again)
}
