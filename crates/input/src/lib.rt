//! The items of a script that comes from a reader, taken one by one as they come. `docs/SCRIPT.md` describes
//! the language.
#![tactic(auto)]

mod body;
mod error;
mod feed;
mod fronts;
mod inbox;
mod laws;
mod line;
mod message;
mod owned;
mod read_item;
mod stream;

pub use error::StreamError;
pub use feed::Feed;
pub use fronts::{Book, Front, Naming, Opened};
pub use inbox::{Inbox, InboxError};
pub use laws::{read_items_are_first, taken_item_is_first, taken_items_are_one};
pub use message::{Ended, Next, Sent};
pub use owned::OwnedItem;
pub use read_item::ReadItem;
pub use stream::ItemStream;
