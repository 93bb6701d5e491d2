//! Where trees have the empty word.

ghost use Rattle.std.specs.Prelude.{◌≡◌, ◌≤◌, ◌↔◌, MatchOption, IsTrue, length};
ghost use Rattle.simulation.specs.Packing.{everywhere, gaps_of_both, gaps_of_either, gaps_of_times, only_at, nowhere};
ghost use Rattle.simulation.specs.Private.Reading.{HasNoFreeGap, IsFirstGap, IsFreeGap};

use crate::ends::{follows_word, precedes_word};
use crate::node::{Gaps, is_gap};

/// The empty word nowhere.
pub(crate) fn nowhere() -> Gaps
    ensures { result ≡ nowhere }
{
    only_at(false, false)
}

/// The empty word everywhere.
pub(crate) fn everywhere() -> Gaps
    ensures { result ≡ everywhere }
{
    Gaps {
        alone: true,
        start: true,
        inside: true,
        end: true,
    }
}

/// Whether the empty word is everywhere.
pub(crate) fn is_everywhere(gaps: Gaps) -> bool
    ensures { IsTrue result → gaps ≡ everywhere }
{
    gaps.alone && gaps.start && gaps.inside && gaps.end
}

/// Whether the empty word is nowhere.
pub(crate) fn is_nowhere(gaps: Gaps) -> bool
    ensures { IsTrue result → gaps ≡ nowhere }
{
    !(gaps.alone || gaps.start || gaps.inside || gaps.end)
}

/// The empty word at the line's start or end.
pub(crate) fn only_at(start: bool, end: bool) -> Gaps
    ensures { result ≡ only_at start end }
{
    Gaps {
        alone: start || end,
        start,
        inside: false,
        end,
    }
}

/// Where both have the empty word.
pub(crate) fn both_gaps(one: Gaps, two: Gaps) -> Gaps
    ensures { result ≡ gaps_of_both one two }
{
    Gaps {
        alone: one.alone && two.alone,
        start: one.start && two.start,
        inside: one.inside && two.inside,
        end: one.end && two.end,
    }
}

/// Where either has the empty word.
pub(crate) fn either_gaps(one: Gaps, two: Gaps) -> Gaps
    ensures { result ≡ gaps_of_either one two }
{
    Gaps {
        alone: one.alone || two.alone,
        start: one.start || two.start,
        inside: one.inside || two.inside,
        end: one.end || two.end,
    }
}

/// Where a number of words can all be empty.
pub(crate) fn times_gaps(least: u8, gaps: Gaps) -> Gaps
    ensures { result ≡ gaps_of_times least gaps }
{
    if least == 0 { everywhere() } else { gaps }
}

/// Whether the empty word is at the same positions.
pub(crate) fn are_same(one: Gaps, two: Gaps) -> bool
    ensures { IsTrue result → one ≡ two }
{
    one == two
}

/// The least position of the empty word, or `None` if there is none. With `whole_words` no word byte is to be right
/// before it or right after it.
pub(crate) fn first_gap(gaps: Gaps, line: &[u8], whole_words: bool) -> Option<usize>
    ensures { MatchOption result (HasNoFreeGap gaps line.now whole_words) (IsFirstGap gaps line.now whole_words) }
{
    if is_free_gap(gaps, line, whole_words, 0) {
        return Some(0);
    }
    // Between two bytes it is everywhere or nowhere.
    let next = if gaps.inside { 1 } else { line.len() };
    for at in next..line.len() + 1 {
        if is_free_gap(gaps, line, whole_words, at) {
            return Some(at);
        }
    }
    None
}

/// Whether the empty word is at the position, and with `whole_words` no word byte right before it or right after it.
fn is_free_gap(gaps: Gaps, line: &[u8], whole_words: bool, at: usize) -> bool
    requires { at ≤ length line.now }
    ensures { IsTrue result ↔ IsFreeGap gaps line.now whole_words at }
{
    is_gap(gaps, line, at) && !(whole_words && (follows_word(line, at) || precedes_word(line, at)))
}
