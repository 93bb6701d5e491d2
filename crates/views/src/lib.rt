//! What is shown of an answer: the hits of an answer as places in its documents, the text of its rows, and what a client
//! gets of it.
#![tactic(auto)]

mod answer;
mod laws;
mod near;
mod parts;
mod places;
mod row;
mod shown;
mod text;

pub use answer::{Answer, Contents};
pub use laws::{one_answer, one_shown, times_show_nothing};
pub use near::append_stretches;
pub use parts::{Passage, PassageText};
pub use places::{Hit, Lines, Place, Places};
pub use row::{append_at_column, append_count, append_name, append_place, append_span};
pub use shown::{FoundBy, Shown, ShownContents, Times};
pub use text::{PIECE, after_name, append_all, append_hit, append_lines, form_lines};
