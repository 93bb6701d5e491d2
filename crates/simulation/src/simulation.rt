//! The simulation of a tree.

ghost use Rattle.std.specs.Prelude.{◌≡◌, ◌||◌, length};
ghost use Rattle.simulation.specs.Nodes.{is_gap};
ghost use Rattle.simulation.specs.Private.Reading.{least_past};

use crate::ends::{WordRange, has_word, last_end};
use crate::gaps::first_gap;
use crate::node::{Gaps, Node, begins_at_start, count, is_gap};
use crate::pack::pack;
use ere::Ere;
use std::alloc::{AllocError, Global};
use watch::{CalledOff, Pace, Watch};

/// How many steps lie between two looks at whether the answer is wanted at most, where a byte does not take more. They take some tenths
/// of a millisecond. No answer depends on it.
const STEPS: usize = 32_768;

/// What is needed to look for matches of one tree in lines of any length.
///
/// The tree is packed into nodes. Each node has one cell for each of its copies, which are what a repeat of the tree
/// around it would write out. A byte of a line is read by one walk through the nodes. As far as is measured, its time
/// depends on the nodes and the words of their cells alone.
#[derive(Drop)]
pub struct Simulation {
    node: Node,
    // Where the tree has the empty word.
    gaps: Gaps,
    // Whether each of its words that is not empty begins at the line's start.
    at_start: bool,
    // What begins before the next byte. It is of no use after that byte.
    entered: Vec<u64>,
    // What has been read so far.
    cells: Vec<u64>,
    // When it asks next whether the answer is still wanted.
    pace: Pace,
}

impl Simulation {
    ghost use Rattle.std.specs.Prelude.{◌↔◌, IsTrue, IfOk, IfErr, MatchBool, MatchOption};
    ghost use Rattle.ere.specs.Language.{ContainsMatch};
    ghost use Rattle.ere.specs.Limits.{IsWithinLimits};
    ghost use Rattle.ere.specs.Tree.{Tree, form};
    ghost use Rattle.spans.specs.Passes.{HasNoEmpty, HasNoSpanAt, IsFirstEmpty, IsLongestEnd, NoSpanBegins, SomeSpanBegins};
    ghost use Rattle.simulation.specs.Simulations.{IsSimulationOf};

    /// The simulation of a tree, which is within the limits.
    ///
    /// An `Err` means that memory ran out.
    pub fn new(alloc: Global, tree: &Ere) -> Result<Simulation, AllocError>
        requires { IsWithinLimits (form tree.now) }
        ensures { IfOk result (IsSimulationOf (form tree.now)) }
    {
        let packed = pack(alloc, tree, 1)?;
        let at_start = begins_at_start(&packed.node);
        let steps = count(&packed.node).saturating_add(packed.size);
        Ok(Simulation {
            node: packed.node,
            gaps: packed.gaps,
            at_start,
            entered: vec![in alloc; 0; packed.size]?,
            cells: vec![in alloc; 0; packed.size]?,
            pace: Pace::each(STEPS.checked_div(steps).unwrap_or(1)),
        })
    }

    /// Whether some part of the line is a match of the tree. Nothing is allocated.
    ///
    /// The line can have any length. As far as is measured, the time for each of its bytes depends on the tree alone.
    ///
    /// `watch` is asked each 32,768 bytes, or more often: `CalledOff` means that it said that the answer is not wanted.
    pub fn matches<W: Watch>(&mut self, line: &[u8], watch: &mut W) -> Result<bool, CalledOff>
        requires { (tree : Tree) × IsSimulationOf tree self.old }
        ensures same { (tree : Tree) → IsSimulationOf tree self.old → IsSimulationOf tree self.new }
        ensures found { IfOk result (λ found. (tree : Tree) → IsSimulationOf tree self.old → IsTrue found ↔ ContainsMatch tree line.now) }
        ensures called_off { IfErr result (λ _. W.has_said_no watch.new) }
    {
        if has_gap(self.gaps, line) {
            return Ok(true);
        }
        let all = wanted(self.at_start, 0, line.len(), false);
        let found = has_word(
            &self.node,
            line,
            all,
            &mut self.entered,
            &mut self.cells,
            &mut self.pace,
            watch,
        )?;
        Ok(found)
    }

    /// Whether a match that is not empty begins at some position from `first` up to but not including `past`. With
    /// `whole_words` only matches with no letter, digit or `_` right before them and right after them count.
    ///
    /// This is one pass over the line, from `first` on. It stops at the first end of such a match, and where nothing is left
    /// that could become one. The line can have any length. As far as is measured, the time for each of its bytes depends
    /// on the tree alone. Nothing is allocated.
    ///
    /// `watch` is asked each 32,768 bytes, or more often: `CalledOff` means that it said that the answer is not wanted.
    pub fn has_span<W: Watch>(
        &mut self,
        line: &[u8],
        first: usize,
        past: usize,
        whole_words: bool,
        watch: &mut W,
    ) -> Result<bool, CalledOff>
        requires { (tree : Tree) × IsSimulationOf tree self.old }
        ensures same { (tree : Tree) → IsSimulationOf tree self.old → IsSimulationOf tree self.new }
        ensures found { IfOk result (λ found. (tree : Tree) → IsSimulationOf tree self.old
            → MatchBool found (SomeSpanBegins line.now tree whole_words first past) (NoSpanBegins line.now tree whole_words first past)) }
        ensures called_off { IfErr result (λ _. W.has_said_no watch.new) }
    {
        let block = wanted(self.at_start, first, past, whole_words);
        let found = has_word(
            &self.node,
            line,
            block,
            &mut self.entered,
            &mut self.cells,
            &mut self.pace,
            watch,
        )?;
        Ok(found)
    }

    /// The end of the longest match that begins at the position and is not empty, or `None` if there is none, as from the
    /// line's end on. With `whole_words` only matches with no letter, digit or `_` right before them and right after them
    /// count.
    ///
    /// This is one pass over the line, from `start` on. It stops where no match is pending any more. The line can have any
    /// length. As far as is measured, the time for each of its bytes depends on the tree alone. Nothing is allocated.
    ///
    /// `watch` is asked each 32,768 bytes, or more often: `CalledOff` means that it said that the answer is not wanted.
    pub fn longest_end<W: Watch>(
        &mut self,
        line: &[u8],
        start: usize,
        whole_words: bool,
        watch: &mut W,
    ) -> Result<Option<usize>, CalledOff>
        requires { (tree : Tree) × IsSimulationOf tree self.old }
        ensures same { (tree : Tree) → IsSimulationOf tree self.old → IsSimulationOf tree self.new }
        ensures found { IfOk result (λ found. (tree : Tree) → IsSimulationOf tree self.old
            → MatchOption found (HasNoSpanAt line.now tree whole_words start) (IsLongestEnd line.now tree whole_words start)) }
        ensures called_off { IfErr result (λ _. W.has_said_no watch.new) }
    {
        if start >= line.len() {
            return Ok(None);
        }
        let only = wanted(self.at_start, start, start + 1, whole_words);
        let found = last_end(
            &self.node,
            line,
            only,
            &mut self.entered,
            &mut self.cells,
            &mut self.pace,
            watch,
        )?;
        Ok(found)
    }

    /// The least position of an empty match, from 0 to the line's length, or `None` if there is none. With `whole_words` only
    /// positions count with no letter, digit or `_` right before them and right after them.
    ///
    /// Whether a position has the empty match is known without reading, and between two bytes all have it or none. So this
    /// takes as long as a look at both ends of the line or, with `whole_words` and an empty match between two bytes, at each
    /// position up to the one that is found. Nothing is allocated, and there are no errors.
    pub fn first_empty(&self, line: &[u8], whole_words: bool) -> Option<usize>
        requires { (tree : Tree) × IsSimulationOf tree self.now }
        ensures { (tree : Tree) → IsSimulationOf tree self.now
            → MatchOption result (HasNoEmpty line.now tree whole_words) (IsFirstEmpty line.now tree whole_words) }
    {
        first_gap(self.gaps, line, whole_words)
    }
}

/// Whether the empty word is at the line's start or its end.
fn has_gap(gaps: Gaps, line: &[u8]) -> bool
    ensures { result ≡ (is_gap gaps line.now 0 || is_gap gaps line.now (length line.now)) }
{
    is_gap(gaps, line, 0) || is_gap(gaps, line, line.len())
}

/// The words that begin at one of these positions. They cannot begin behind the line's start if `at_start`.
fn wanted(at_start: bool, first: usize, past: usize, whole_words: bool) -> WordRange
    ensures { result ≡ (record { first = first; past = least_past at_start past; whole_words = whole_words }) }
{
    WordRange {
        first,
        past: if at_start { past.min(1) } else { past },
        whole_words,
    }
}
