//! Extended regular expressions (EREs) in the POSIX locale: their trees, and the reader of patterns.
//!
//! A pattern follows POSIX.1-2017 XBD 9.4, with bracket expressions by 9.3.5 and anchors by 9.4.9. A
//! character is one byte. What POSIX leaves open is this program's choice (see `docs/PATTERNS.md`).
#![tactic(auto)]

mod brackets;
mod byte_set;
mod case;
mod classes;
mod error;
mod laws;
mod letters;
mod limits;
mod made;
mod parts;
mod reader;
mod sixteen;
mod token;
mod tree;

pub use byte_set::ByteSet;
pub use case::Case;
pub use classes::is_word_byte;
pub use error::{EreError, EreErrorKind};
pub use laws::{
    anchored_set, one_tree, only_the_empty_word, star_unrolls, surroundings_are_forgotten,
    tree_within_limits, whole_lines, whole_words,
};
pub use limits::{MAX_LEAVES, capped_leaves};
pub use made::{as_line, as_word, literal};
pub use reader::{parse, parse_with};
pub use tree::Ere;
