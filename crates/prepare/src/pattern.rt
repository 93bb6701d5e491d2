//! What searches ask for, read once and used by many searches.

ghost use Rattle.std.specs.Prelude.{◌≡◌, ◌≢◌, ◌∷◌, [], map, IfOk, IfErr, MatchBool};
ghost use Rattle.ere.specs.Tree.{Tree};
ghost use Rattle.ere.specs.Limits.{IsTreeOf};
ghost use Rattle.query.specs.Query.{formula_of, is_met};
ghost use Rattle.trigram.proofs.Sameness.{same-prop};
ghost use Rattle.prepare.specs.Pattern.{IsTreeFault, with_match};
ghost use Rattle.prepare.specs.Queries.{IsQueryOf};
ghost use Rattle.prepare.specs.Queries.{can_have};
ghost use Rattle.prepare.specs.Tests.{test_of};

use crate::asked::Test;
use ere::{Case, Ere, EreError, EreErrorKind, parse, parse_with};
use prefixes::Prefixes;
use request::View;
use std::alloc::Global;
use trigram::{Query, analyse};

/// What a search asks for, read and ready to search: a test of lines, tests of names, and what is shown of the lines.
///
/// A search never changes it, so one value can serve many searches at a time.
#[derive(Debug, Drop)]
pub struct Prepared {
    /// The test of lines.
    pub line: Test,
    /// The tests of names. A name has to pass all of them.
    pub names: Vec<Test>,
    /// The prefixes with one of which a name has to begin, if there are any.
    pub under: Prefixes,
    /// The prefixes with none of which a name may begin.
    pub not_under: Prefixes,
    /// The condition of the test of lines: the trigrams of every document with a hit meet it.
    pub query: Query,
    /// Whether only whole words count. The tree of the test of lines then has the edges of words.
    pub words: bool,
    /// What is shown of the lines.
    pub view: View,
    /// The most lines, or names, that are shown.
    pub limit: Option<u32>,
    /// Whether a zero byte comes after each name.
    pub zero: bool,
    pub ghost filter: { IsQueryOf (test_of line) query } by { same-prop (is_met (formula_of query)) (can_have (test_of line)) },
}

/// Why a search with a name pattern is refused.
#[derive(Clone, Copy, Debug, PartialEq, Eq)]
pub struct WithinError {
    /// Whether the fault is in the name pattern, which is read first, and not in the pattern.
    pub in_name: bool,
    /// What is wrong with that pattern, or that memory ran out while it was read.
    pub error: EreError,
}

impl Prepared {
    ghost use Rattle.std.specs.Prelude.{◌≡◌, ◌≢◌, map, IfOk, IfErr, MatchBool};
    ghost use Rattle.prepare.specs.Pattern.{IsPatternOf, IsPatternWithin, IsTreeFault, HasTree, any_name};
    ghost use Rattle.prepare.specs.Prepared.{pattern_of, request_of};
    ghost use Rattle.prepare.specs.Queries.{IsQueryOf};
    ghost use Rattle.prepare.specs.Request.{all_lines_of};
    ghost use Rattle.prepare.specs.Tests.{test_of};

    /// Reads the pattern of a search, an extended regular expression (POSIX.1-2017 XBD 9.4; the limits are this
    /// program's) in which the case of letters counts. All lines are shown.
    ///
    /// An `Err` names the first fault of the pattern and its offset (`EreErrorKind`), or is `OutOfMemory`, which says
    /// nothing about the pattern.
    pub fn new(alloc: Global, pattern: &[u8]) -> Result<Prepared, EreError>
        ensures pattern { IfOk result (λ p. IsPatternOf Case.Exact pattern.now (pattern_of p)) }
        ensures request { IfOk result (λ p. request_of p ≡ all_lines_of (pattern_of p)) }
        ensures refused { IfErr result (λ e. e.kind ≢ EreErrorKind.OutOfMemory → IsTreeFault Case.Exact pattern.now e) }
    {
        Prepared::with_case(alloc, pattern, Case::Exact)
    }

    /// Reads the pattern of a search as `new` does, but `case` says whether the case of letters counts.
    ///
    /// An `Err` names the first fault of the pattern and its offset (`EreErrorKind`), or is `OutOfMemory`, which says
    /// nothing about the pattern.
    pub fn with_case(alloc: Global, pattern: &[u8], case: Case) -> Result<Prepared, EreError>
        ensures pattern { IfOk result (λ p. IsPatternOf case pattern.now (pattern_of p)) }
        ensures request { IfOk result (λ p. request_of p ≡ all_lines_of (pattern_of p)) }
        ensures refused { IfErr result (λ e. e.kind ≢ EreErrorKind.OutOfMemory → IsTreeFault case pattern.now e) }
    {
        let (line, query) = analysed(alloc, pattern, case)?;
        Ok(Prepared::all_lines(alloc, line, Vec::new(alloc), query))
    }

    /// Reads the patterns of a search in the documents whose names, each taken as a line, contain a match of the name
    /// pattern. Both are read as `new` reads one, the name pattern first.
    ///
    /// An `Err` says which of the two has the first fault that is met, and names it. If that is `OutOfMemory`, it says
    /// nothing about the patterns.
    pub fn within(
        alloc: Global,
        name_pattern: &[u8],
        pattern: &[u8],
    ) -> Result<Prepared, WithinError>
        ensures pattern { IfOk result (λ p. IsPatternWithin Case.Exact name_pattern.now pattern.now (pattern_of p)) }
        ensures request { IfOk result (λ p. request_of p ≡ all_lines_of (pattern_of p)) }
        ensures refused { IfErr result (λ e. e.error.kind ≢ EreErrorKind.OutOfMemory →
            MatchBool e.in_name (IsTreeFault Case.Exact name_pattern.now e.error) (HasTree Case.Exact name_pattern.now × IsTreeFault Case.Exact pattern.now e.error)) }
    {
        Prepared::within_with_case(alloc, name_pattern, pattern, Case::Exact)
    }

    /// Reads the patterns of a search as `within` does, but `case` says whether the case of letters counts in the
    /// pattern. In the name pattern it always counts.
    ///
    /// An `Err` says which of the two has the first fault that is met, and names it. If that is `OutOfMemory`, it says
    /// nothing about the patterns.
    pub fn within_with_case(
        alloc: Global,
        name_pattern: &[u8],
        pattern: &[u8],
        case: Case,
    ) -> Result<Prepared, WithinError>
        ensures pattern { IfOk result (λ p. IsPatternWithin case name_pattern.now pattern.now (pattern_of p)) }
        ensures request { IfOk result (λ p. request_of p ≡ all_lines_of (pattern_of p)) }
        ensures refused { IfErr result (λ e. e.error.kind ≢ EreErrorKind.OutOfMemory →
            MatchBool e.in_name (IsTreeFault Case.Exact name_pattern.now e.error) (HasTree Case.Exact name_pattern.now × IsTreeFault case pattern.now e.error)) }
    {
        let names = match name_tests(alloc, name_pattern) {
            Ok(names) => names,
            Err(error) => {
                return Err(WithinError {
                    in_name: true,
                    error,
                });
            }
        };
        match analysed(alloc, pattern, case) {
            Ok((line, query)) => Ok(Prepared::all_lines(alloc, line, names, query)),
            Err(error) => Err(WithinError {
                in_name: false,
                error,
            }),
        }
    }

    /// A search for the lines that pass the first test, in the documents whose names pass the others, which shows all lines.
    fn all_lines(alloc: Global, line: Test, names: Vec<Test>, query: Query) -> Prepared
        requires { IsQueryOf (test_of line) query }
        ensures line { test_of result.line ≡ test_of line }
        ensures names { map test_of result.names.items ≡ map test_of names.items }
        ensures within { (pattern_of result).within ≡ any_name }
        ensures request { request_of result ≡ all_lines_of (pattern_of result) }
    {
        Prepared {
            line,
            names,
            under: Prefixes::none(alloc),
            not_under: Prefixes::none(alloc),
            query,
            words: false,
            view: View::Lines,
            limit: None,
            zero: false,
        }
    }
}

/// The tests of names with a match of the pattern.
fn name_tests(alloc: Global, name_pattern: &[u8]) -> Result<Vec<Test>, EreError>
    ensures tests { IfOk result (λ tests. (tree : Tree) × IsTreeOf Case.Exact name_pattern.now tree × (map test_of tests.items ≡ with_match tree ∷ [])) }
    ensures refused { IfErr result (λ e. e.kind ≢ EreErrorKind.OutOfMemory → IsTreeFault Case.Exact name_pattern.now e) }
{
    let tree = parse(alloc, name_pattern)?;
    let mut names = Vec::new(alloc);
    match names.push(Test {
        tree,
        inverted: false,
    }) {
        Ok(()) => Ok(names),
        Err(_) => Err(out_of_memory()),
    }
}

/// The test of lines with a match of a pattern, and the query of its condition.
fn analysed(alloc: Global, pattern: &[u8], case: Case) -> Result<(Test, Query), EreError>
    ensures test { IfOk result (λ both. (tree : Tree) × IsTreeOf case pattern.now tree × (test_of both.0 ≡ with_match tree)) }
    ensures query { IfOk result (λ both. IsQueryOf (test_of both.0) both.1) }
    ensures refused { IfErr result (λ e. e.kind ≢ EreErrorKind.OutOfMemory → IsTreeFault case pattern.now e) }
{
    let tree = parse_with(alloc, pattern, case)?;
    match analyse(alloc, &tree) {
        Ok(query) => Ok((
            Test {
                tree,
                inverted: false,
            },
            query,
        )),
        Err(_) => Err(out_of_memory()),
    }
}

/// The error that says that memory ran out.
pub(crate) fn out_of_memory() -> EreError
    ensures { result.kind ≡ EreErrorKind.OutOfMemory }
{
    EreError {
        kind: EreErrorKind::OutOfMemory,
        at: 0,
    }
}
