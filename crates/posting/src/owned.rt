//! The lists of the sets that need more than their slots.

ghost use Rattle.std.specs.Prelude.{◌≡◌, ◌≢◌, ℕ, ◌<◌, [], OnOk, OnErr};
ghost use Rattle.std.specs.Vec.{vec_capacity};
ghost use Rattle.posting.specs.Private.Pages.{few_lists, Widens, FitsSlot, IsUnlisted, slot_of, free_limit, HasPage, IsSound, set_at, set_of_list};

use crate::list::List;
use crate::pages::{Pages, SLOT_LIMIT, Slot, reserve};
use query::Trigram;
use std::alloc::AllocError;

/// The room for this many lists is not given back.
const FEW: usize = 512;

/// A list of numbers, and the trigram whose list it is.
#[derive(Drop)]
pub(crate) struct Owned {
    /// The trigram.
    pub(crate) trigram: Trigram,
    /// Its numbers.
    pub(crate) list: List,
}

/// Makes room for a number in a set whose slot is free. The sets keep their numbers.
///
/// An `Err` means that memory ran out.
pub(crate) fn make_first(
    pages: &mut Pages,
    lists: &mut Vec<Owned>,
    trigram: Trigram,
    number: u32,
) -> Result<(), AllocError>
    requires sound { IsSound (slot_of pages.old) lists.old.items }
    requires free { slot_of pages.old trigram ≡ Slot.Free }
    ensures sound { IsSound (slot_of pages.new) lists.new.items }
    ensures wider { Widens (set_at pages.old lists.old.items) (set_at pages.new lists.new.items) }
    ensures ok { OnOk result (number < (set_at pages.new lists.new.items trigram).limit) }
{
    pages.make_page(trigram)?;
    if number < SLOT_LIMIT {
        return Ok(());
    }
    let mut list = List::new(*lists.allocator());
    list.room_for(number)?;
    add_list(pages, lists, trigram, list)
}

/// Adds a list for a trigram that has none, but a page.
///
/// An `Err` means that memory ran out. All sets are then as they were.
pub(crate) fn add_list(
    pages: &mut Pages,
    lists: &mut Vec<Owned>,
    trigram: Trigram,
    list: List,
) -> Result<(), AllocError>
    requires sound { IsSound (slot_of pages.old) lists.old.items }
    requires page { HasPage pages.old trigram }
    requires unlisted { IsUnlisted (slot_of pages.old trigram) }
    ensures sound { IsSound (slot_of pages.new) lists.new.items }
    ensures at { OnOk result (set_at pages.new lists.new.items trigram ≡ set_of_list list) }
    ensures others { (t : ℕ) → t ≢ trigram → set_at pages.new lists.new.items t ≡ set_at pages.old lists.old.items t }
    ensures err { OnErr result (set_at pages.new lists.new.items trigram ≡ set_at pages.old lists.old.items trigram) }
{
    reserve(lists, 1)?;
    let place = lists.len();
    lists.push(Owned { trigram, list })?;
    pages.set_slot(trigram, Slot::Listed(place));
    Ok(())
}

/// Drops the list at a place, whose trigram gets another slot. The last list moves to the place, and no other list moves.
pub(crate) fn drop_list(
    pages: &mut Pages,
    lists: &mut Vec<Owned>,
    place: usize,
    trigram: Trigram,
    slot: Slot,
)
    requires sound { IsSound (slot_of pages.old) lists.old.items }
    requires listed { slot_of pages.old trigram ≡ Slot.Listed place }
    requires unlisted { IsUnlisted slot }
    requires fits { FitsSlot slot }
    ensures sound { IsSound (slot_of pages.new) lists.new.items }
    ensures at { slot_of pages.new trigram ≡ slot }
    ensures limits { (t : ℕ) → free_limit pages.new t ≡ free_limit pages.old t }
    ensures others { (t : ℕ) → t ≢ trigram → set_at pages.new lists.new.items t ≡ set_at pages.old lists.old.items t }
{
    lists.swap_remove(place);
    pages.set_slot(trigram, slot);
    if let Some(moved) = lists.get(place) {
        pages.set_slot(moved.trigram, Slot::Listed(place));
    }
}

/// Gives back the room for lists that is not used, once less than a quarter of it is used. While there is room for a few lists
/// only, nothing is given back.
///
/// If memory for a smaller copy is refused, the room is kept.
pub(crate) fn give_back(lists: &mut Vec<Owned>)
    ensures lists { lists.new.items ≡ lists.old.items }
    ensures none { lists.old.items ≡ [] → few_lists < vec_capacity lists.old → vec_capacity lists.new ≡ 0 }
{
    let room = lists.capacity();
    if room > FEW && lists.len() < room / 4 {
        lists.shrink_to_fit();
    }
}
