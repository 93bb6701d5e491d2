//! The first line of a text that contains a match.

use crate::compiled::Compiled;
use crate::line::{line_end, line_start, lines_before};
use regex_meta::Searcher;
use std::alloc::{AllocError, Global};
use std::ops::Range;

/// The first line of a text that contains a match.
#[derive(Clone, Copy, Debug, PartialEq, Eq)]
pub struct FirstLine {
    /// How many lines of the text are before it.
    pub before: usize,
    /// Where it starts, as an offset in the text, in bytes from 0.
    pub start: usize,
    /// The offset at which it ends: that of its line feed, or the text's length if it has none.
    pub end: usize,
}

/// Looks for the matches of a compiled pattern. It takes memory while it works. If memory runs out, it goes on
/// without it, so `first_line` and `matches` never fail.
pub struct Finder<'p> {
    /// The engine's searcher, with its tables.
    pub(crate) searcher: Searcher<'p>,
    /// The longest text that it should search at one go, in bytes.
    pub(crate) longest: usize,
}

// Written out, so a caller's proof sees one call.
impl Drop for Finder<'_> {
    fn drop(self) {
        let Finder {
            searcher: _searcher,
            longest: _longest,
        } = self;
    }
}

impl<'p> Finder<'p> {
    ghost use Rattle.std.specs.Prelude.{◌≡◌, ◌≢◌, ◌≤◌, ◌↔◌, ◌<◌, ℕ, IsTrue, IfOk, IfSome, IfNone, MatchOption, length, slice_index};
    ghost use Rattle.ere.specs.Tree.{Tree};
    ghost use Rattle.ere.specs.Language.{ContainsMatch};
    ghost use Rattle.engine.specs.FirstLine.{IsFirstLine, IsInside, HasNoMatch};
    ghost use Rattle.engine.specs.Patterns.{IsCompiledFrom, IsCompiledForLines, IsFinderOf, IsLineFinderOf};
    ghost use Rattle.engine.specs.NextMatch.{HasNoMatchFrom, IsNextMatch};

    /// A finder for the pattern. An `Err` means that memory ran out.
    pub fn new(alloc: Global, compiled: &'p Compiled) -> Result<Finder<'p>, AllocError>
        ensures finder { IfOk result (λ finder. (tree : Tree) → IsCompiledFrom tree compiled.now → IsFinderOf tree finder) }
        ensures lines { IfOk result (λ finder. (tree : Tree) → IsCompiledForLines tree compiled.now → IsLineFinderOf tree finder) }
    {
        Ok(Finder {
            searcher: Searcher::new(alloc, &compiled.program)?,
            longest: compiled.longest,
        })
    }

    /// The longest text that it should search at one go, in bytes, since nothing can stop it before the text's end. It takes longer
    /// ones too.
    pub fn longest(&self) -> usize
        ensures { result ≡ self.now.longest }
    {
        self.longest
    }

    /// The first line of the text that contains a match, or `None` if no line does.
    pub fn first_line(&mut self, text: &[u8]) -> Option<FirstLine>
        ensures same { (tree : Tree) → IsFinderOf tree self.old → IsFinderOf tree self.new }
        ensures inside { IfSome result (IsInside text.now) }
        ensures none { IfNone result ((tree : Tree) → IsLineFinderOf tree self.old → HasNoMatch tree text.now) }
        ensures some { IfSome result (λ line. (tree : Tree) → IsLineFinderOf tree self.old → IsFirstLine tree text.now line) }
    {
        let Some((from, _)) = self.searcher.find(text, 0) else {
            return None;
        };
        let start = line_start(text, from);
        // An empty rest after the last line feed is not a line, and an empty text has none.
        if start == text.len() {
            return None;
        }
        let before = lines_before(text, start);
        let end = line_end(text, from);
        Some(FirstLine { before, start, end })
    }

    /// Whether the line contains a match. The line has no line feed.
    pub fn matches(&mut self, line: &[u8]) -> bool
        requires { (k : ℕ) → k < length line.now → slice_index line.now k ≢ 10 }
        ensures same { (tree : Tree) → IsFinderOf tree self.old → IsFinderOf tree self.new }
        ensures found { (tree : Tree) → IsLineFinderOf tree self.old → IsTrue result ↔ ContainsMatch tree line.now }
    {
        self.searcher.is_match(line, 0)
    }

    /// The leftmost match of the line that begins at `from` or later, as offsets: of those that begin leftmost there one, and not
    /// always the longest. It can be empty. `None` if no match begins there. The line has no line feed, and `from` is at most
    /// its length.
    pub fn next_match(&mut self, line: &[u8], from: usize) -> Option<Range<usize>>
        requires no_feed { (k : ℕ) → k < length line.now → slice_index line.now k ≢ 10 }
        requires inside { from ≤ length line.now }
        ensures same { (tree : Tree) → IsFinderOf tree self.old → IsFinderOf tree self.new }
        ensures within { IfSome result (λ found. found.start ≤ length line.now) }
        ensures found { (tree : Tree) → IsFinderOf tree self.old
            → MatchOption result (HasNoMatchFrom line.now tree from) (λ found. IsNextMatch line.now tree from found.start found.end) }
    {
        match self.searcher.find(line, from) {
            Some((start, end)) => Some(start..end),
            None => None,
        }
    }
}
