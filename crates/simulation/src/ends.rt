//! Where words of a node end in a line.

ghost use Rattle.std.specs.Prelude.{◌≡◌, ℕ, ◌<◌, ◌≤◌, ◌↔◌, ◌&&◌, not, MatchOption, IfOk, IfErr, IsTrue, length};
ghost use Rattle.spans.specs.Sides.{is_word_after, is_word_before};
ghost use Rattle.simulation.specs.Nodes.{shape};
ghost use Rattle.simulation.specs.Pending.{at};
ghost use Rattle.simulation.specs.Private.Reading.{AreClear, Ends, HasRoom, HasWanted, IsLastEnd, IsNextEnd, IsReadTo, IsStart, NoneEndsAfter};

use crate::cells::word_if;
use crate::node::Node;
use crate::step::step;
use ere::is_word_byte;
use watch::{CalledOff, Pace, Watch};

/// Which words of a node are looked for.
#[derive(Clone, Copy, Debug, PartialEq, Eq)]
pub(crate) struct WordRange {
    /// The least position at which they begin.
    pub(crate) first: usize,
    /// The position after the greatest one.
    pub(crate) past: usize,
    /// Whether no word byte is to be right before them or right after them.
    pub(crate) whole_words: bool,
}

/// Whether there is such a word in the line.
pub(crate) fn has_word<W: Watch>(
    node: &Node,
    line: &[u8],
    wanted: WordRange,
    entered: &mut [u64],
    cells: &mut [u64],
    pace: &mut Pace,
    watch: &mut W,
) -> Result<bool, CalledOff>
    requires { HasRoom (shape node.now) entered.old cells.old }
    ensures found { IfOk result (λ found. IsTrue found ↔ HasWanted line.now (shape node.now) wanted) }
    ensures called_off { IfErr result (λ _. W.has_said_no watch.new) }
{
    clear(cells);
    let end = next_end(
        node,
        line,
        wanted,
        wanted.first,
        entered,
        cells,
        pace,
        watch,
    )?;
    Ok(end.is_some())
}

/// The greatest position at which such a word ends, or `None` if there is none.
pub(crate) fn last_end<W: Watch>(
    node: &Node,
    line: &[u8],
    wanted: WordRange,
    entered: &mut [u64],
    cells: &mut [u64],
    pace: &mut Pace,
    watch: &mut W,
) -> Result<Option<usize>, CalledOff>
    requires { HasRoom (shape node.now) entered.old cells.old }
    ensures found { IfOk result
        (λ found. MatchOption found (HasWanted line.now (shape node.now) wanted → ⊥) (IsLastEnd line.now (shape node.now) wanted)) }
    ensures called_off { IfErr result (λ _. W.has_said_no watch.new) }
{
    clear(cells);
    let Some(first) = next_end(
        node,
        line,
        wanted,
        wanted.first,
        entered,
        cells,
        pace,
        watch,
    )?
    else {
        return Ok(None);
    };
    let mut last = first;
    loop {
        let Some(end) = next_end(node, line, wanted, last, entered, cells, pace, watch)? else {
            return Ok(Some(last));
        };
        last = end;
    }
}

/// Reads on from a position, up to the next one at which such a word ends. `None` if none ends after that position.
///
/// The cells are those of the position, and then those of the end. After an `Err` they are of no use.
fn next_end<W: Watch>(
    node: &Node,
    line: &[u8],
    wanted: WordRange,
    from: usize,
    entered: &mut [u64],
    cells: &mut [u64],
    pace: &mut Pace,
    watch: &mut W,
) -> Result<Option<usize>, CalledOff>
    requires room { HasRoom (shape node.now) entered.old cells.old }
    requires read { IsReadTo line.now from (shape node.now) wanted cells.old }
    ensures found { IfOk result (λ found. MatchOption found (NoneEndsAfter line.now (shape node.now) wanted from)
        (λ end. IsNextEnd line.now (shape node.now) wanted from end × IsReadTo line.now end (shape node.now) wanted cells.new)) }
    ensures called_off { IfErr result (λ _. W.has_said_no watch.new) }
{
    for here in from..line.len() {
        // Nothing begins any more, and nothing is pending.
        if here >= wanted.past && are_clear(cells) {
            return Ok(None);
        }
        pace.look(watch)?;
        begin(is_start(line, wanted, here), entered);
        step(node, 1, line, here, entered, cells);
        if is_end(line, wanted, here + 1, cells) {
            return Ok(Some(here + 1));
        }
    }
    Ok(None)
}

/// Whether a word that is looked for can begin at the position, which is no less than the least.
fn is_start(line: &[u8], wanted: WordRange, at: usize) -> bool
    requires least { wanted.first ≤ at }
    requires inside { at ≤ length line.now }
    ensures { IsTrue result ↔ IsStart line.now wanted at }
{
    at < wanted.past && !(wanted.whole_words && follows_word(line, at))
}

/// Whether the cell of the first copy is set, and a word that is looked for can end at the position.
fn is_end(line: &[u8], wanted: WordRange, here: usize, cells: &[u64]) -> bool
    requires { 0 < length cells.now }
    ensures { result ≡ (at cells.now 0 && not (wanted.whole_words && is_word_after line.now here)) }
{
    is_read(cells) && !(wanted.whole_words && precedes_word(line, here))
}

/// Whether the cell of the first copy is set.
fn is_read(cells: &[u64]) -> bool
    requires { 0 < length cells.now }
    ensures { result ≡ at cells.now 0 }
{
    cells[0] & 1 == 1
}

/// Whether a word byte is right before the position.
pub(crate) fn follows_word(line: &[u8], at: usize) -> bool
    requires { at ≤ length line.now }
    ensures { result ≡ is_word_before line.now at }
{
    at > 0 && is_word_byte(line[at - 1])
}

/// Whether a word byte is right after the position.
pub(crate) fn precedes_word(line: &[u8], at: usize) -> bool
    ensures { result ≡ is_word_after line.now at }
{
    at < line.len() && is_word_byte(line[at])
}

/// Sets the cell of the first copy if `held`, and clears it otherwise.
fn begin(held: bool, entered: &mut [u64])
    requires { 0 < length entered.old }
    ensures { at entered.new 0 ≡ held }
{
    entered[0] = word_if(held, 1);
}

/// Clears all cells.
fn clear(cells: &mut [u64])
    ensures { AreClear cells.new }
{
    for i in 0..cells.len() {
        cells[i] = 0;
    }
}

/// Whether no cell is set.
fn are_clear(cells: &[u64]) -> bool
    ensures { IsTrue result → AreClear cells.now }
{
    cells.iter().all(|word| *word == 0)
}
