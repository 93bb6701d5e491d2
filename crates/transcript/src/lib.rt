//! What a run says of its items: entries, their texts, and the status that they give.
#![tactic(auto)]

mod entry;
mod output;
mod texts;
mod transcript;

pub use entry::{Entry, Reason, SearchReason, has_hit, is_refusal};
pub use output::{
    WriteError, flush_whole, write_entry, write_others, write_transcript, write_whole,
};
pub use texts::append_head;
pub use transcript::{Transcript, status};
