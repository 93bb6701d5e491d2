//! Searches with options.

ghost use Rattle.std.specs.Prelude.{◌≡◌, ◌≢◌, ◌++◌, ◌∷◌, ◌==◌, [], ℕ, List, IfOk, IfErr, OnOk, length, map};
ghost use Rattle.ere.specs.Edges.{IsSizeFault};
ghost use Rattle.ere.specs.Limits.{IsWithinLimits};
ghost use Rattle.ere.specs.Literal.{IsPatternText, NamesTextFault};
ghost use Rattle.ere.specs.Tree.{Tree, form};
ghost use Rattle.prefixes.specs.Under.{is_under_one};
ghost use Rattle.request.specs.Shown.{shown_options, shown_test};
ghost use Rattle.prepare.specs.Pattern.{IsTreeFault, Test as TestValue};
ghost use Rattle.prepare.specs.Queries.{IsQueryOf};
ghost use Rattle.prepare.specs.Request.{AreTestsOf, asked_tree, asks_for_words, IsPatternFault, IsReadAs, IsRequestFault, IsTestOf, IsTreeFor};
ghost use Rattle.prepare.specs.Tests.{test_of};

use crate::asked::Test;
use crate::pattern::{Prepared, out_of_memory};
use ere::{Case, Ere, EreError, EreErrorKind, as_line, as_word, literal, one_tree, parse_with};
use prefixes::Prefixes;
use request::{Find, FindOptions, NameTest};
use std::alloc::Global;
use trigram::{Query, analyse};

/// Why a search with options is refused.
#[derive(Clone, Copy, Debug, PartialEq, Eq)]
pub struct FindError {
    /// Which of the patterns of names has the fault, counted from 1; 0 if it is the pattern itself.
    pub name: usize,
    /// What is wrong with that pattern, or that memory ran out while it was read.
    pub error: EreError,
}

impl Prepared {
    ghost use Rattle.std.specs.Prelude.{◌≢◌, IfOk, IfErr};
    ghost use Rattle.request.specs.Shown.{shown_options};
    ghost use Rattle.prepare.specs.Prepared.{request_of};
    ghost use Rattle.prepare.specs.Request.{IsRequestFault, IsRequestOf};

    /// Reads the patterns of a search with options: those of names, in their order, and then the pattern.
    ///
    /// An `Err` says which of them has the first fault that is met, and names it. A tree that is within the limits by
    /// itself can be too high or too large for a search of whole words or whole lines: that is `TooDeep` or `TooLarge`,
    /// at 0. `OutOfMemory` says nothing about the patterns.
    pub fn find(alloc: Global, find: &Find<'_>) -> Result<Prepared, FindError>
        ensures request { IfOk result (λ p. IsRequestOf (shown_options find.now.options) find.now.pattern.now (request_of p)) }
        ensures refused { IfErr result (λ e. e.error.kind ≢ EreErrorKind.OutOfMemory →
            IsRequestFault (shown_options find.now.options) find.now.pattern.now e.name e.error) }
    {
        let options = &find.options;
        let names = tests_of(alloc, options)?;
        let under = prefixes_of(alloc, options.under.as_slice())?;
        let not_under = prefixes_of(alloc, options.not_under.as_slice())?;
        match asked_of(alloc, options, find.pattern) {
            Ok((line, query)) => Ok(Prepared {
                line,
                names,
                under,
                not_under,
                query,
                words: asks_for_words(options),
                view: options.view,
                limit: options.limit,
                zero: options.zero,
            }),
            Err(error) => Err(FindError { name: 0, error }),
        }
    }
}

/// These prefixes. An `Err` is `OutOfMemory`.
fn prefixes_of(alloc: Global, texts: &[&[u8]]) -> Result<Prefixes, FindError>
    ensures names { IfOk result (λ prefixes. (name : List ℕ) → is_under_one prefixes name ≡ is_under_one (map (λ text. text.now) texts.now) name) }
    ensures none { IfOk result (λ prefixes. (length prefixes == 0) ≡ (length texts.now == 0)) }
    ensures err { IfErr result (λ e. e.error.kind ≡ EreErrorKind.OutOfMemory) }
{
    match Prefixes::of(alloc, texts) {
        Ok(prefixes) => Ok(prefixes),
        Err(_) => Err(FindError {
            name: 0,
            error: out_of_memory(),
        }),
    }
}

/// The tests of names. An `Err` says which of their patterns has the first fault.
fn tests_of(alloc: Global, options: &FindOptions<'_>) -> Result<Vec<Test>, FindError>
    ensures tests { IfOk result (λ tests. AreTestsOf options.now.name_case (shown_options options.now).names (map test_of tests.items)) }
    ensures refused { IfErr result (λ e. e.error.kind ≢ EreErrorKind.OutOfMemory →
        (text : List ℕ) → IsRequestFault (shown_options options.now) text e.name e.error) }
{
    let names = options.names.as_slice();
    let mut tests = Vec::new(alloc);
    for at in 0..names.len() {
        match add_test(alloc, options.name_case, &names[at], &mut tests) {
            Ok(()) => {}
            Err(error) => return Err(FindError {
                name: at + 1,
                error,
            }),
        }
    }
    Ok(tests)
}

/// Adds the test of one of the patterns of names.
fn add_test(
    alloc: Global,
    case: Case,
    name: &NameTest<'_>,
    tests: &mut Vec<Test>,
) -> Result<(), EreError>
    ensures test { OnOk result ((test : TestValue) × IsTestOf case (shown_test name.now) test
        × (map test_of tests.new.items ≡ map test_of tests.old.items ++ test ∷ [])) }
    ensures refused { IfErr result (λ e. e.kind ≢ EreErrorKind.OutOfMemory → IsTreeFault case name.now.pattern.now e) }
{
    let tree = parse_with(alloc, name.pattern, case)?;
    let inverted = !name.wanted;
    tests.push(Test { tree, inverted })?;
    Ok(())
}

/// The test of lines that the options ask for with the pattern of this text, and the query of its condition.
fn asked_of(
    alloc: Global,
    options: &FindOptions<'_>,
    text: &[u8],
) -> Result<(Test, Query), EreError>
    ensures asked { IfOk result (λ asked. (tree : Tree) × IsTreeFor (shown_options options.now) text.now tree
        × (test_of asked.0 ≡ record { tree = asked_tree (shown_options options.now) tree; inverted = options.now.invert })) }
    ensures query { IfOk result (λ asked. IsQueryOf (test_of asked.0) asked.1) }
    ensures refused { IfErr result (λ e. e.kind ≢ EreErrorKind.OutOfMemory → IsPatternFault (shown_options options.now) text.now e) }
{
    let tree = line_tree_of(alloc, options, text)?;
    let line = Test {
        tree,
        inverted: options.invert,
    };
    let query = query_of(alloc, &line)?;
    Ok((line, query))
}

/// The tree of the test of lines.
fn line_tree_of(alloc: Global, options: &FindOptions<'_>, text: &[u8]) -> Result<Ere, EreError>
    ensures tree { IfOk result (λ e. (tree : Tree) × IsTreeFor (shown_options options.now) text.now tree
        × (form e ≡ asked_tree (shown_options options.now) tree)) }
    ensures limits { IfOk result (λ e. IsWithinLimits (form e)) }
    ensures refused { IfErr result (λ e. e.kind ≢ EreErrorKind.OutOfMemory → IsPatternFault (shown_options options.now) text.now e) }
{
    let tree = read_tree(alloc, options, text)?;
    one_tree();
    edged(alloc, options, tree)
}

/// Whether only whole words count.
fn asks_for_words(options: &FindOptions<'_>) -> bool
    ensures { result ≡ asks_for_words (shown_options options.now) }
{
    options.whole_words && !options.whole_lines
}

/// The tree of the text, as a pattern or as a literal text.
fn read_tree(alloc: Global, options: &FindOptions<'_>, text: &[u8]) -> Result<Ere, EreError>
    ensures tree { IfOk result (λ e. IsReadAs options.now.literal options.now.case text.now (form e)) }
    ensures limits { IfOk result (λ e. IsWithinLimits (form e)) }
    ensures allowed { OnOk result (IsPatternText text.now) }
    ensures bytes { IfErr result (λ e. e.kind ≢ EreErrorKind.OutOfMemory → NamesTextFault text.now e) }
    ensures refused { IfErr result (λ e. e.kind ≢ EreErrorKind.OutOfMemory →
        (tree : Tree) → IsReadAs options.now.literal options.now.case text.now tree → ⊥) }
{
    if options.literal {
        return literal(alloc, text, options.case);
    }
    parse_with(alloc, text, options.case)
}

/// The tree with the edges of lines, or of words, that the options ask for.
fn edged(alloc: Global, options: &FindOptions<'_>, tree: Ere) -> Result<Ere, EreError>
    requires { IsWithinLimits (form tree) }
    ensures ok { IfOk result (λ e. (form e ≡ asked_tree (shown_options options.now) (form tree)) × IsWithinLimits (form e)) }
    ensures refused { IfErr result (λ e. e.kind ≢ EreErrorKind.OutOfMemory →
        IsSizeFault (asked_tree (shown_options options.now) (form tree)) e) }
{
    if options.whole_lines {
        return as_line(alloc, tree);
    }
    if options.whole_words {
        return as_word(alloc, tree);
    }
    Ok(tree)
}

/// The condition of a test of lines. Every document is a candidate for lines without a match.
fn query_of(alloc: Global, line: &Test) -> Result<Query, EreError>
    ensures ok { IfOk result (IsQueryOf (test_of line.now)) }
    ensures err { IfErr result (λ e. e.kind ≡ EreErrorKind.OutOfMemory) }
{
    if line.inverted {
        return Ok(Query::Any);
    }
    match analyse(alloc, &line.tree) {
        Ok(query) => Ok(query),
        Err(_) => Err(out_of_memory()),
    }
}
