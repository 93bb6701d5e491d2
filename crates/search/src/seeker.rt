//! How the matches within a line are looked for.

ghost use Rattle.std.specs.Prelude.{◌≡◌, ◌<◌, ◌≤◌, ℕ, false, IsTrue, length, IfOk, IfErr, IfSome, MatchOption};
ghost use Rattle.ere.specs.Tree.{Tree, form};
ghost use Rattle.engine.specs.Patterns.{IsCompiledFrom, IsFinderOf};
ghost use Rattle.simulation.specs.Simulations.{IsSimulationOf};
ghost use Rattle.spans.specs.FirstSpan.{HasNoSpan, IsFirstSpan, IsMatchAt};
ghost use Rattle.spans.specs.FirstStart.{HasNoStart, IsFirstStart};
ghost use Rattle.spans.specs.Passes.{IsLongestEnd, NoSpanBegins, SomeSpanBegins};
ghost use Rattle.spans.specs.Sides.{is_word_before};
ghost use Rattle.watch.specs.CalledOff.{IsCalledOffOnlyIf};
ghost use Rattle.prepare.specs.Prepared.{request_of};
ghost use Rattle.search.specs.Private.Seekers.{CanShow, IsLeastStart, IsOneLine, IsTried, shows_matches};
ghost use Rattle.views.specs.Rows.{shown_tree};

use crate::gathered::Wanted;
use crate::way::compile;
use engine::{Compiled, Finder};
use ere::{Ere, is_word_byte};
use prepare::Prepared;
use request::View;
use simulation::Simulation;
use spans::Span;
use std::alloc::{AllocError, Global};
use std::ops::Range;
use watch::{Unanswered, Watch, ask};

/// How many starts of matches are tried, each as the start of a span. Almost always the first one is a span's. If none of
/// these is, the start is found by halving, so that the number of passes over a line is bounded.
const TRIES: usize = 4;

/// What looks for the matches of a tree within a line.
#[derive(Drop)]
pub struct Seeker<'p> {
    /// Finds where matches begin, if the tree's pattern is compiled.
    pub(crate) finder: Option<Finder<'p>>,
    /// Finds where matches end, and where they begin if the finder does not say it.
    pub(crate) simulation: Simulation,
}

/// What is known of the first span after some starts were tried.
enum Tried {
    /// It is this one.
    Span(Span),
    /// It begins at this offset or later, if there is one.
    From(usize),
}

impl<'p> Seeker<'p> {
    ghost use Rattle.std.specs.Prelude.{◌≡◌, ◌≤◌, IfOk, IfErr, IfSome, MatchOption};
    ghost use Rattle.ere.specs.Limits.{IsWithinLimits};
    ghost use Rattle.ere.specs.Tree.{Tree, form};
    ghost use Rattle.engine.specs.Patterns.{IsCompiledFrom};
    ghost use Rattle.spans.specs.FirstSpan.{HasNoSpan, IsFirstSpan};
    ghost use Rattle.spans.specs.FirstStart.{HasNoStart, IsFirstStart};
    ghost use Rattle.watch.specs.CalledOff.{IsCalledOffOnlyIf};
    ghost use Rattle.search.specs.Private.Seekers.{IsOneLine, IsTried, Seeks};

    /// A seeker of the tree's matches. It uses the compiled pattern of the tree, if there is one and there is memory for it.
    ///
    /// An `Err` means that there is no memory for the simulation.
    pub fn new(
        alloc: Global,
        tree: &Ere,
        compiled: &'p Option<Compiled>,
    ) -> Result<Seeker<'p>, AllocError>
        requires limits { IsWithinLimits (form tree.now) }
        requires compiled { IfSome compiled.now (IsCompiledFrom (form tree.now)) }
        ensures { IfOk result (Seeks (form tree.now)) }
    {
        Ok(Seeker {
            finder: finder_by(alloc, compiled),
            simulation: Simulation::new(alloc, tree)?,
        })
    }

    /// The first part of the line from the offset `from` on that is a match and not empty: of these the ones that begin
    /// leftmost, and of them the longest (POSIX.1-2017 XBD 9.1). With `whole_words` only parts with no letter, digit or `_`
    /// right before them and right after them count. `None` if there is no such part. The line has no line feed.
    ///
    /// The line is passed over a few times or, if the start is found by halving, up to some thirty times for a line of 16,384
    /// bytes. `watch` is asked before each pass: `CalledOff` means that it said that the answer is not wanted.
    pub fn first_span<W: Watch>(
        &mut self,
        line: &[u8],
        from: usize,
        whole_words: bool,
        watch: &mut W,
    ) -> Result<Option<Span>, Unanswered>
        requires one_line { IsOneLine line.now }
        requires seeks { (tree : Tree) × Seeks tree self.old }
        ensures same { (tree : Tree) → Seeks tree self.old → Seeks tree self.new }
        ensures found { IfOk result (λ found. (tree : Tree) → Seeks tree self.old
            → MatchOption found (HasNoSpan line.now tree whole_words from) (IsFirstSpan line.now tree whole_words from)) }
        ensures called_off { IfErr result (IsCalledOffOnlyIf (W.has_said_no watch.new)) }
    {
        let next = match self.try_starts(line, from, whole_words, watch)? {
            Tried::Span(span) => return Ok(Some(span)),
            Tried::From(next) => next,
        };
        halved_span(&mut self.simulation, line, next, whole_words, watch)
    }

    /// Where the leftmost match in the line begins (POSIX.1-2017 XBD 9.1), as an offset from 0 to the line's length. The match
    /// can be empty. With `whole_words` only matches with no letter, digit or `_` right before them and right after them
    /// count. `None` if the line has no such match. The line has no line feed.
    ///
    /// `watch` is asked before each pass over the line: `CalledOff` means that it said that the answer is not wanted.
    pub fn first_start<W: Watch>(
        &mut self,
        line: &[u8],
        whole_words: bool,
        watch: &mut W,
    ) -> Result<Option<usize>, Unanswered>
        requires one_line { IsOneLine line.now }
        requires seeks { (tree : Tree) × Seeks tree self.old }
        ensures same { (tree : Tree) → Seeks tree self.old → Seeks tree self.new }
        ensures found { IfOk result (λ found. (tree : Tree) → Seeks tree self.old
            → MatchOption found (HasNoStart line.now tree whole_words) (IsFirstStart line.now tree whole_words)) }
        ensures called_off { IfErr result (IsCalledOffOnlyIf (W.has_said_no watch.new)) }
    {
        if whole_words {
            return halved_start(&mut self.simulation, line, true, watch);
        }
        match &mut self.finder {
            Some(finder) => {
                if line.len() > finder.longest() {
                    return halved_start(&mut self.simulation, line, false, watch);
                }
                // Whether an empty match is at the front is known without a pass.
                if let Some(0) = self.simulation.first_empty(line, false) {
                    return Ok(Some(0));
                }
                ask(watch)?;
                match finder.next_match(line, 0) {
                    Some(found) => Ok(Some(found.start)),
                    None => Ok(None),
                }
            }
            None => halved_start(&mut self.simulation, line, false, watch),
        }
    }

    /// Tries some starts of matches that the finder gives, from the offset `from` on, each as the start of a span.
    fn try_starts<W: Watch>(
        &mut self,
        line: &[u8],
        from: usize,
        whole_words: bool,
        watch: &mut W,
    ) -> Result<Tried, Unanswered>
        requires one_line { IsOneLine line.now }
        requires seeks { (tree : Tree) × Seeks tree self.old }
        ensures same { (tree : Tree) → Seeks tree self.old → Seeks tree self.new }
        ensures tried { IfOk result (λ tried. (tree : Tree) → Seeks tree self.old → IsTried line.now tree whole_words from tried) }
        ensures called_off { IfErr result (IsCalledOffOnlyIf (W.has_said_no watch.new)) }
    {
        match &mut self.finder {
            Some(finder) => {
                if line.len() > finder.longest() {
                    return Ok(Tried::From(from));
                }
                try_each(finder, &mut self.simulation, line, from, whole_words, watch)
            }
            None => Ok(Tried::From(from)),
        }
    }
}

// ---- the seeker of what is shown

/// The pattern of the tree whose matches are shown, compiled, if any are. `None` also means that its tables would be too large, or
/// that memory ran out.
pub(crate) fn compile_shown(alloc: Global, wanted: &Wanted<'_>) -> Option<Compiled>
    ensures { IfSome result (IsCompiledFrom (shown_tree (request_of wanted.now.prepared.now))) }
{
    if shows_matches(wanted.view) {
        return compile(alloc, wanted.prepared.shown_tree());
    }
    None
}

/// A seeker of the matches that are shown, or `None` if none are. It uses the compiled pattern of their tree, if there is one.
///
/// An `Err` means that there is no memory for the simulation.
pub(crate) fn shown_seeker<'p>(
    alloc: Global,
    wanted: &Wanted<'_>,
    compiled: &'p Option<Compiled>,
) -> Result<Option<Seeker<'p>>, AllocError>
    requires { IfSome compiled.now (IsCompiledFrom (shown_tree (request_of wanted.now.prepared.now))) }
    ensures { IfOk result (CanShow wanted.now) }
{
    if !shows_matches(wanted.view) {
        return Ok(None);
    }
    let seeker = Seeker::new(alloc, wanted.prepared.shown_tree(), compiled)?;
    Ok(Some(seeker))
}

/// Whether columns or spans are shown.
fn shows_matches(view: View) -> bool
    ensures { result ≡ shows_matches view }
{
    match view {
        View::Column | View::Spans => true,
        _ => false,
    }
}

// ---- a line

/// A finder of the compiled pattern, if there is one and there is memory for it.
fn finder_by<'p>(alloc: Global, compiled: &'p Option<Compiled>) -> Option<Finder<'p>>
    ensures { (tree : Tree) → IfSome compiled.now (IsCompiledFrom tree) → IfSome result (IsFinderOf tree) }
{
    if let Some(compiled) = compiled {
        if let Ok(finder) = Finder::new(alloc, compiled) {
            return Some(finder);
        }
    }
    None
}

/// Tries some starts of matches, from the offset `from` on, each as the start of a span.
fn try_each<W: Watch>(
    finder: &mut Finder<'_>,
    simulation: &mut Simulation,
    line: &[u8],
    from: usize,
    whole_words: bool,
    watch: &mut W,
) -> Result<Tried, Unanswered>
    requires one_line { IsOneLine line.now }
    requires simulation { (tree : Tree) × IsSimulationOf tree simulation.old }
    ensures finder { (tree : Tree) → IsFinderOf tree finder.old → IsFinderOf tree finder.new }
    ensures simulation { (tree : Tree) → IsSimulationOf tree simulation.old → IsSimulationOf tree simulation.new }
    ensures tried { IfOk result (λ tried. (tree : Tree) → IsFinderOf tree finder.old → IsSimulationOf tree simulation.old
        → IsTried line.now tree whole_words from tried) }
    ensures called_off { IfErr result (IsCalledOffOnlyIf (W.has_said_no watch.new)) }
{
    let mut next = from;
    let mut tries = 0;
    while tries < TRIES && next < line.len() {
        ask(watch)?;
        let Some(found) = finder.next_match(line, next) else {
            return Ok(Tried::From(line.len()));
        };
        let Range { start, end } = found;
        if reaches_end(line, start, end, whole_words) {
            return Ok(Tried::Span(Span { start, end }));
        }
        ask(watch)?;
        let longest = simulation.longest_end(line, start, whole_words, watch)?;
        if let Some(end) = longest {
            return Ok(Tried::Span(Span { start, end }));
        }
        next = start + 1;
        tries += 1;
    }
    Ok(Tried::From(next))
}

/// Whether a match is a span that reaches the line's end: it is not empty, and with `whole_words` no letter, digit or `_` is
/// right before it. So no span is longer that begins where it does.
fn reaches_end(line: &[u8], start: usize, end: usize, whole_words: bool) -> bool
    requires { start ≤ length line.now }
    ensures { IsTrue result → (tree : Tree) → IsMatchAt line.now tree false start end → IsLongestEnd line.now tree whole_words start end }
{
    start < end && end == line.len() && !(whole_words && follows_word(line, start))
}

/// Whether a letter, digit or `_` is right before the position.
fn follows_word(line: &[u8], at: usize) -> bool
    requires { at ≤ length line.now }
    ensures { result ≡ is_word_before line.now at }
{
    at > 0 && is_word_byte(line[at - 1])
}

/// The first span of the line from the offset `from` on, whose start is found by halving.
fn halved_span<W: Watch>(
    simulation: &mut Simulation,
    line: &[u8],
    from: usize,
    whole_words: bool,
    watch: &mut W,
) -> Result<Option<Span>, Unanswered>
    requires { (tree : Tree) × IsSimulationOf tree simulation.old }
    ensures same { (tree : Tree) → IsSimulationOf tree simulation.old → IsSimulationOf tree simulation.new }
    ensures found { IfOk result (λ found. (tree : Tree) → IsSimulationOf tree simulation.old
        → MatchOption found (HasNoSpan line.now tree whole_words from) (IsFirstSpan line.now tree whole_words from)) }
    ensures called_off { IfErr result (IsCalledOffOnlyIf (W.has_said_no watch.new)) }
{
    let Some(start) = least_start(simulation, line, from, line.len(), whole_words, watch)? else {
        return Ok(None);
    };
    ask(watch)?;
    let longest = simulation.longest_end(line, start, whole_words, watch)?;
    match longest {
        Some(end) => Ok(Some(Span { start, end })),
        // A span begins there, so one ends.
        None => Ok(None),
    }
}

/// Where the leftmost match in the line begins, found by halving. It can be empty. `None` if there is none.
fn halved_start<W: Watch>(
    simulation: &mut Simulation,
    line: &[u8],
    whole_words: bool,
    watch: &mut W,
) -> Result<Option<usize>, Unanswered>
    requires { (tree : Tree) × IsSimulationOf tree simulation.old }
    ensures same { (tree : Tree) → IsSimulationOf tree simulation.old → IsSimulationOf tree simulation.new }
    ensures found { IfOk result (λ found. (tree : Tree) → IsSimulationOf tree simulation.old
        → MatchOption found (HasNoStart line.now tree whole_words) (IsFirstStart line.now tree whole_words)) }
    ensures called_off { IfErr result (IsCalledOffOnlyIf (W.has_said_no watch.new)) }
{
    ask(watch)?;
    let empty = simulation.first_empty(line, whole_words);
    let past = empty.unwrap_or(line.len());
    match least_start(simulation, line, 0, past, whole_words, watch)? {
        Some(start) => Ok(Some(start)),
        None => Ok(empty),
    }
}

/// The least offset, from `from` on and before `past`, at which a span of the line begins, or `None` if none begins there.
fn least_start<W: Watch>(
    simulation: &mut Simulation,
    line: &[u8],
    from: usize,
    past: usize,
    whole_words: bool,
    watch: &mut W,
) -> Result<Option<usize>, Unanswered>
    requires { (tree : Tree) × IsSimulationOf tree simulation.old }
    ensures same { (tree : Tree) → IsSimulationOf tree simulation.old → IsSimulationOf tree simulation.new }
    ensures found { IfOk result (λ found. (tree : Tree) → IsSimulationOf tree simulation.old
        → MatchOption found (NoSpanBegins line.now tree whole_words from past) (IsLeastStart line.now tree whole_words from past)) }
    ensures called_off { IfErr result (IsCalledOffOnlyIf (W.has_said_no watch.new)) }
{
    let mut first = from;
    let mut width = 1;
    while first < past {
        // A block of positions, each twice as long as the one before, so that a start nearby is found soon.
        let end = first.saturating_add(width).min(past);
        ask(watch)?;
        let has = simulation.has_span(line, first, end, whole_words, watch)?;
        if has {
            let start = least_of(simulation, line, first, end, whole_words, watch)?;
            return Ok(Some(start));
        }
        first = end;
        width = width.saturating_mul(2);
    }
    Ok(None)
}

/// The least offset, from `from` on and before `past`, at which a span of the line begins. There is one.
fn least_of<W: Watch>(
    simulation: &mut Simulation,
    line: &[u8],
    from: usize,
    past: usize,
    whole_words: bool,
    watch: &mut W,
) -> Result<usize, Unanswered>
    requires simulation { (tree : Tree) × IsSimulationOf tree simulation.old }
    requires ordered { from ≤ past }
    ensures same { (tree : Tree) → IsSimulationOf tree simulation.old → IsSimulationOf tree simulation.new }
    ensures found { IfOk result (λ start. (tree : Tree) → IsSimulationOf tree simulation.old → SomeSpanBegins line.now tree whole_words from past
        → IsLeastStart line.now tree whole_words from past start) }
    ensures called_off { IfErr result (IsCalledOffOnlyIf (W.has_said_no watch.new)) }
{
    let mut low = from;
    let mut high = past;
    while high - low > 1 {
        let middle = low + (high - low) / 2;
        ask(watch)?;
        let has = simulation.has_span(line, low, middle, whole_words, watch)?;
        if has {
            high = middle;
        } else {
            low = middle;
        }
    }
    Ok(low)
}
