//! The ways in which lines that contain a match are found.

ghost use Rattle.std.specs.Prelude.{◌≡◌, ◌≢◌, ◌<◌, ◌↔◌, ℕ, IfOk, IfErr, IfSome, IsTrue, length, slice_index};
ghost use Rattle.ere.specs.Tree.{form};
ghost use Rattle.ere.specs.Language.{ContainsMatch};
ghost use Rattle.ere.specs.Limits.{IsWithinLimits};
ghost use Rattle.engine.specs.Patterns.{IsCompiledFrom, IsCompiledForLines};
ghost use Rattle.prepare.specs.Pattern.{Passes};
ghost use Rattle.prepare.specs.Tests.{test_of};
ghost use Rattle.watch.specs.CalledOff.{IsCalledOffOnlyIf};
ghost use Rattle.search.specs.Private.Ways.{Finds, found_by};

use engine::{Compiled, Finder};
use ere::Ere;
use lines::MAX_LINE;
use matcher::{is_quick, matches};
use prepare::Test;
use simulation::Simulation;
use std::alloc::{AllocError, Global};
use views::FoundBy;
use watch::{Unanswered, Watch};

/// How the lines that contain a match of a tree are found. All ways find the same lines.
#[derive(Drop)]
pub enum Way<'p> {
    /// By the engine, over a whole text at once. It cannot be stopped there, so a line that is too long for that goes by a
    /// simulation.
    FromMatchToMatch(Finder<'p>),
    /// By the matcher, line by line, for a tree for which a line costs it few steps. A line that is too long for it goes by
    /// a simulation.
    Matcher,
    /// By the simulation, line by line. Its time for a byte is bounded for every tree.
    Simulation(Simulation),
}

/// The greatest length of a piece of a body, in bytes, whatever the way.
const MAX_PIECE: usize = 65_536;

/// How many bytes of a body this way is to search at most before it is asked whether the answer is still wanted, unless a line is
/// longer. That takes a few milliseconds at most.
pub(crate) fn piece_for(way: &Way<'_>) -> usize {
    match way {
        Way::FromMatchToMatch(finder) => finder.longest().min(MAX_PIECE),
        Way::Matcher => MAX_LINE,
        Way::Simulation(_) => MAX_PIECE,
    }
}

/// Which way it is.
pub(crate) fn found_by(way: &Way<'_>) -> FoundBy
    ensures { result ≡ found_by way.now }
{
    match way {
        Way::FromMatchToMatch(_) => FoundBy::Engine,
        Way::Matcher => FoundBy::Matcher,
        Way::Simulation(_) => FoundBy::Simulation,
    }
}

/// The pattern for the lines of the tree, compiled. `None` means that its tables would be too large, that they would take long, or
/// that memory ran out.
pub fn compile_for_lines(alloc: Global, tree: &Ere) -> Option<Compiled>
    ensures { IfSome result (IsCompiledForLines (form tree.now)) }
{
    match Compiled::for_lines(alloc, tree) {
        Ok(compiled) => compiled,
        Err(_) => None,
    }
}

/// The pattern of the tree, compiled. `None` means that its tables would be too large, that they would take long, or that memory ran
/// out.
pub fn compile(alloc: Global, tree: &Ere) -> Option<Compiled>
    ensures { IfSome result (IsCompiledFrom (form tree.now)) }
{
    match Compiled::new(alloc, tree) {
        Ok(compiled) => compiled,
        Err(_) => None,
    }
}

/// The way for the tree: by the compiled pattern, if there is one and there is memory for it; or else by the matcher, if the
/// tree is quick; or else by the simulation. An `Err` means that there is no memory for the simulation either.
pub fn way_by<'p>(
    alloc: Global,
    tree: &Ere,
    compiled: &'p Option<Compiled>,
) -> Result<Way<'p>, AllocError>
    requires limits { IsWithinLimits (form tree.now) }
    requires compiled { IfSome compiled.now (IsCompiledForLines (form tree.now)) }
    ensures { IfOk result (Finds (form tree.now)) }
{
    if let Some(compiled) = compiled {
        if let Ok(finder) = Finder::new(alloc, compiled) {
            return Ok(Way::FromMatchToMatch(finder));
        }
    }
    if is_quick(tree) {
        return Ok(Way::Matcher);
    }
    let simulation = Simulation::new(alloc, tree)?;
    Ok(Way::Simulation(simulation))
}

/// Whether the line passes the test, by this way for its tree. The line has no line feed.
///
/// `watch` is asked each 32,768 bytes of a line that goes by a simulation: `CalledOff` means that it said that the answer is not
/// wanted. `OutOfMemory` means that there is no memory for a simulation, which a line that is too long for the way needs.
pub fn passes<W: Watch>(
    alloc: Global,
    test: &Test,
    way: &mut Way<'_>,
    line: &[u8],
    watch: &mut W,
) -> Result<bool, Unanswered>
    requires no_feed { (k : ℕ) → k < length line.now → slice_index line.now k ≢ 10 }
    requires way { Finds (form test.now.tree) way.old }
    ensures way { Finds (form test.now.tree) way.new }
    ensures passes { IfOk result (λ passed. IsTrue passed ↔ Passes (test_of test.now) line.now) }
    ensures called_off { IfErr result (IsCalledOffOnlyIf (W.has_said_no watch.new)) }
{
    let found = has_match(alloc, &test.tree, way, line, watch)?;
    if test.inverted {
        return Ok(!found);
    }
    Ok(found)
}

/// Whether the line contains a match of the tree, by this way. The line has no line feed.
fn has_match<W: Watch>(
    alloc: Global,
    tree: &Ere,
    way: &mut Way<'_>,
    line: &[u8],
    watch: &mut W,
) -> Result<bool, Unanswered>
    requires limits { IsWithinLimits (form tree.now) }
    requires no_feed { (k : ℕ) → k < length line.now → slice_index line.now k ≢ 10 }
    requires way { Finds (form tree.now) way.old }
    ensures way { Finds (form tree.now) way.new }
    ensures found { IfOk result (λ found. IsTrue found ↔ ContainsMatch (form tree.now) line.now) }
    ensures called_off { IfErr result (IsCalledOffOnlyIf (W.has_said_no watch.new)) }
{
    match way {
        Way::FromMatchToMatch(finder) => {
            if line.len() > finder.longest() {
                return has_match_in_long(alloc, tree, line, watch);
            }
            Ok(finder.matches(line))
        }
        Way::Matcher => matches_by_length(alloc, tree, line, watch),
        Way::Simulation(simulation) => Ok(simulation.matches(line, watch)?),
    }
}

/// Whether the line contains a match of the tree: by the matcher or, if the line is too long for it, by a simulation that
/// is made for this line.
fn matches_by_length<W: Watch>(
    alloc: Global,
    tree: &Ere,
    line: &[u8],
    watch: &mut W,
) -> Result<bool, Unanswered>
    requires { IsWithinLimits (form tree.now) }
    ensures found { IfOk result (λ found. IsTrue found ↔ ContainsMatch (form tree.now) line.now) }
    ensures called_off { IfErr result (IsCalledOffOnlyIf (W.has_said_no watch.new)) }
{
    if line.len() <= MAX_LINE {
        return Ok(matches(tree, line));
    }
    has_match_in_long(alloc, tree, line, watch)
}

/// Whether the line, which can have any length, contains a match of the tree, by a simulation that is made for it.
fn has_match_in_long<W: Watch>(
    alloc: Global,
    tree: &Ere,
    line: &[u8],
    watch: &mut W,
) -> Result<bool, Unanswered>
    requires { IsWithinLimits (form tree.now) }
    ensures found { IfOk result (λ found. IsTrue found ↔ ContainsMatch (form tree.now) line.now) }
    ensures called_off { IfErr result (IsCalledOffOnlyIf (W.has_said_no watch.new)) }
{
    let mut simulation = Simulation::new(alloc, tree)?;
    let found = simulation.matches(line, watch)?;
    Ok(found)
}
