//! Whether a line contains a match of an extended regular expression.
//!
//! The matcher moves the set of all positions of the line through the tree: a position moves to wherever a word
//! of the tree that begins there ends. POSIX.1-2017 XBD 9.4 says what the words of each form of tree are, and
//! 9.4.9 those of anchors. Matching allocates nothing.
#![tactic(auto)]

mod one_word;
mod plain;
mod position_set;
mod positions;
mod star_height;
mod steps;
mod trees;
mod walk;
mod words;

ghost use Rattle.std.specs.Prelude.{◌≤◌, ◌<◌, ◌↔◌, IsTrue, length};
ghost use Rattle.ere.specs.Limits.{IsWithinLimits};
ghost use Rattle.ere.specs.Language.{ContainsMatch};
ghost use Rattle.ere.specs.Tree.{form};

use crate::one_word::OneWord;
use crate::position_set::PositionSet;
use crate::positions::Positions;
use crate::walk::advance;
use crate::words::BITS;
use ere::Ere;
use lines::MAX_LINE;
pub use steps::is_quick;
pub use words::{WORDS, step};

/// The number of words in a set of positions of a line that is neither short nor long. Each set is filled with
/// zeros when it is made, which takes less time for fewer words.
const FEWER: usize = 65;

/// Whether some part of the line is a match of the tree.
///
/// The tree is within the limits, and the line has at most `MAX_LINE` bytes. Nothing is allocated, and there are no
/// errors.
///
/// The time is mostly proportional to the length of the line times the leaves of the tree. Nested repeats without
/// a greatest count add little if each is at the front of the next one's body, as in `((a*a)*a)*` and
/// `((a*|b)*|c)*`: the time was measured to grow with the square of their number. After a part that cannot be
/// empty, as in `(a(aa*)*)*`, or under a count other than `?`, each level can still double the time.
///
/// The stack is bounded: calls nest as deep as the tree is high, which is at most 64 levels, and each level keeps at
/// most five sets of positions, of 536 bytes each for a line of 64 bytes or more, and of 2,072 for one of 4,160 or
/// more. The most that was measured is 8.5 KiB for a level and 516 KiB in all, for 62 nested stars and a line of
/// `MAX_LINE` bytes, and 912 KiB in all if Rattle's own compiler is used instead of LLVM.
pub fn matches(tree: &Ere, line: &[u8]) -> bool
    requires within_limits { IsWithinLimits (form tree.now) }
    requires line { length line.now ≤ MAX_LINE }
    ensures { IsTrue result ↔ ContainsMatch (form tree.now) line.now }
{
    // The positions of a short line fit in one word, which needs no bounds.
    if line.len() < BITS {
        is_led_on::<OneWord>(tree, line)
    } else if line.len() < FEWER * BITS {
        is_led_on::<Positions<FEWER>>(tree, line)
    } else {
        is_led_on::<Positions<WORDS>>(tree, line)
    }
}

/// Whether a word of the tree leads from some position of the line to that position or a later one.
fn is_led_on<S: PositionSet>(tree: &Ere, line: &[u8]) -> bool
    requires { length line.now < S.room }
    ensures { IsTrue result ↔ ContainsMatch (form tree.now) line.now }
{
    let mut at = S::through(line.len());
    advance(tree, line, &mut at);
    !at.is_empty()
}
