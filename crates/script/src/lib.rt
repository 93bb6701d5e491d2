//! The language of scripts: what a line says. `docs/SCRIPT.md` describes it.
#![tactic(auto)]

mod cuts;
mod feeds;
mod header;
mod item;
mod keywords;
mod laws;
mod line;

pub use feeds::line_feeds;
pub use item::Item;
pub use laws::{items_are_one, lines_say_one_thing, script_limit, texts_have_items};
pub use line::{Line, MAX_SCRIPT, is_blank_line, read_line};
