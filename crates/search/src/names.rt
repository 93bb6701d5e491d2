//! The documents whose names a search asks for.

ghost use Rattle.std.specs.Prelude.{IfOk, IfErr, map, take};
ghost use Rattle.ere.specs.Tree.{form};
ghost use Rattle.ere.specs.Limits.{IsWithinLimits};
ghost use Rattle.watch.specs.CalledOff.{IsCalledOffOnlyIf};
ghost use Rattle.prepare.specs.Prepared.{pattern_of};
ghost use Rattle.prepare.specs.Tests.{test_of};
ghost use Rattle.search.specs.Selects.{Selects, IsAdmitted, IsNamed};
ghost use Rattle.search.specs.Private.Ways.{Finds, IsBegun};

use crate::way::{Way, compile_for_lines, passes, way_by};
use documents::SharedDocument;
use matcher::is_quick;
use prepare::{Prepared, Test};
use std::alloc::Global;
use watch::{Unanswered, Watch, ask};

/// Those of the documents whose names are asked for by what they begin with and, each taken as a line, pass the tests of
/// names, in the same order. Without prefixes and tests these are all documents. `watch` is asked whether the answer is wanted
/// before each name that is tested.
///
/// `CalledOff` is returned once `watch` says that the answer is not wanted, and `OutOfMemory` means that memory ran
/// out.
pub(crate) fn named<W: Watch>(
    alloc: Global,
    prepared: &Prepared,
    documents: Vec<SharedDocument>,
    watch: &mut W,
) -> Result<Vec<SharedDocument>, Unanswered>
    ensures kept { IfOk result (λ kept. Selects (IsAdmitted (pattern_of prepared.now)) documents.items kept.items) }
    ensures called_off { IfErr result (IsCalledOffOnlyIf (W.has_said_no watch.new)) }
{
    let begun = within(alloc, prepared, documents, watch)?;
    let mut kept = begun;
    for test in &prepared.names {
        kept = with_names(alloc, test, kept, watch)?;
    }
    Ok(kept)
}

/// Those of the documents whose names are asked for by what they begin with.
fn within<W: Watch>(
    alloc: Global,
    prepared: &Prepared,
    documents: Vec<SharedDocument>,
    watch: &mut W,
) -> Result<Vec<SharedDocument>, Unanswered>
    ensures kept { IfOk result (λ kept. Selects (IsBegun (pattern_of prepared.now)) documents.items kept.items) }
    ensures called_off { IfErr result (IsCalledOffOnlyIf (W.has_said_no watch.new)) }
{
    if !prepared.has_prefixes() {
        return Ok(documents);
    }
    let mut kept = Vec::new(alloc);
    for document in documents {
        ask(watch)?;
        if prepared.is_within(document.name.as_bytes()) {
            kept.push(document)?;
        }
    }
    Ok(kept)
}

/// Those of the documents whose names pass the test.
fn with_names<W: Watch>(
    alloc: Global,
    test: &Test,
    documents: Vec<SharedDocument>,
    watch: &mut W,
) -> Result<Vec<SharedDocument>, Unanswered>
    ensures kept { IfOk result (λ kept. Selects (IsNamed (test_of test.now)) documents.items kept.items) }
    ensures called_off { IfErr result (IsCalledOffOnlyIf (W.has_said_no watch.new)) }
{
    if documents.as_slice().is_empty() {
        return Ok(documents);
    }
    if is_quick(&test.tree) {
        // Names are short, so compiling the pattern does not pay.
        let mut way = Way::Matcher;
        return with_names_by(alloc, test, &mut way, documents, watch);
    }
    ask(watch)?;
    let compiled = compile_for_lines(alloc, &test.tree);
    ask(watch)?;
    let mut way = way_by(alloc, &test.tree, &compiled)?;
    with_names_by(alloc, test, &mut way, documents, watch)
}

/// The same by this way. A document whose name does not pass is dropped.
fn with_names_by<W: Watch>(
    alloc: Global,
    test: &Test,
    way: &mut Way<'_>,
    documents: Vec<SharedDocument>,
    watch: &mut W,
) -> Result<Vec<SharedDocument>, Unanswered>
    requires { Finds (form test.now.tree) way.old }
    ensures kept { IfOk result (λ kept. Selects (IsNamed (test_of test.now)) documents.items kept.items) }
    ensures called_off { IfErr result (IsCalledOffOnlyIf (W.has_said_no watch.new)) }
{
    let mut kept = Vec::new(alloc);
    for document in documents {
        ask(watch)?;
        let passed = passes(alloc, test, way, document.name.as_bytes(), watch)?;
        if passed {
            kept.push(document)?;
        }
    }
    Ok(kept)
}
