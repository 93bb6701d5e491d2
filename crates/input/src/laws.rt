//! Laws of streams. Each function does nothing: its clauses are the law.

ghost use Rattle.input.specs.Laws.{NextLinesAreOne, TakenBytesHaveAnItem, TakenItemIsFirst, TakenItemsAreOne};
ghost use Rattle.input.specs.ReadLaws.{ReadItemsAreAll, ReadItemsAreFirst};

/// An item that is taken from an input of known bytes is the first of the items that the input has. If the reading ends
/// with it, it is the only one.
pub fn taken_item_is_first()
    ensures { TakenItemIsFirst }
{}

/// The bytes that are taken determine the item, the number of its line, and that of the next line if the reading
/// goes on.
pub fn taken_items_are_one()
    ensures item { TakenItemsAreOne }
    ensures next { NextLinesAreOne }
    ensures some { TakenBytesHaveAnItem }
{}

/// What was read of known bytes are the first of the items that they have and, if the reading ended without an error, all
/// of them. So no item is a line that was cut short.
pub fn read_items_are_first()
    ensures first { ReadItemsAreFirst }
    ensures all { ReadItemsAreAll }
{}
