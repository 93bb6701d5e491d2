//! Which entries a run may write for its items, in which order: legal steps, their rows, and the laws that follow from
//! them. The crate has definitions and laws, and hardly any code.
#![tactic(auto)]

mod laws;

pub use laws::{
    Holding, answers_are_in_order, answers_are_not_older, cancels_refuse_open_searches,
    earlier_items_come_first, entries_keep_their_order, first_rows, lines_keep_their_order,
    memory_is_taken, next_rows, nothing_is_open, one_entry_each, rows_are_legal,
    searches_have_time, statuses_are_exact, steps_have_rows,
};
