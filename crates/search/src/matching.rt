//! The lines of documents that pass a test.

ghost use Rattle.std.specs.Prelude.{◌≡◌, ◌≢◌, ◌<◌, ◌≤◌, ◌+◌, ℕ, List, [], ◌∷◌, length, slice_index, IfOk, IfErr, OnOk, All, MatchBool};
ghost use Rattle.ere.specs.Tree.{Tree, form};
ghost use Rattle.documents.specs.Text.{greatest_body};
ghost use Rattle.engine.specs.Patterns.{IsFinderOf, IsLineFinderOf};
ghost use Rattle.watch.specs.CalledOff.{IsCalledOffOnlyIf};
ghost use Rattle.prepare.specs.Pattern.{with_match};
ghost use Rattle.prepare.specs.Tests.{test_of};
ghost use Rattle.views.specs.Places.{hits_at, IsPlaced};
ghost use Rattle.search.specs.Selects.{IsAsked};
ghost use Rattle.views.specs.Found.{found, lines_of_document};
ghost use Rattle.search.specs.Private.Added.{HasTextAt, AddsPlaces, AddsPlacesUpTo, AddsLinesUpTo, AddsUpTo, IsReached};
ghost use Rattle.search.specs.Private.Documents.{lines_of_taken};
ghost use Rattle.search.specs.Private.Ways.{Finds, AreFew};

use crate::piece::piece_end;
use crate::way::{Way, passes, piece_for};
use documents::{Body, SharedDocument};
use engine::{Finder, lines_before};
use matcher::is_quick;
use memchr::memchr;
use prepare::Test;
use std::alloc::AllocError;
use views::{Place, Places};
use watch::{Unanswered, Watch, ask};

/// How many bytes of bodies are looked at line by line before a pattern is compiled. Compiling one takes about
/// as long as the matcher takes for this many bytes: it was measured to be 4 to 7 KB with a literal, 7 to 25 KB
/// with most other patterns, and between 20 and 50 KB with `[0-9]+`.
const FEW_BYTES: usize = 8192;

/// How many documents, from the first on, are so small together that their lines are looked at one by one: 0 if the
/// tree is not quick. No answer depends on it.
pub(crate) fn few_documents(test: &Test, documents: &[SharedDocument]) -> usize
    ensures { AreFew (form test.now.tree) documents.now result }
{
    if !is_quick(&test.tree) {
        return 0;
    }
    let mut left = FEW_BYTES;
    for at in 0..documents.len() {
        let size = body_size(&documents[at]);
        if size > left {
            return at;
        }
        left -= size;
    }
    documents.len()
}

/// The length of the document's body, in bytes.
pub(crate) fn body_size(document: &SharedDocument) -> usize
    ensures { result ≡ length document.now.held }
{
    document.held.body().as_bytes().len()
}

/// Whether there are as many hits as `most` asks for. Without a `most` there never are.
pub(crate) fn is_reached(most: Option<usize>, count: usize) -> bool
    ensures { MatchBool result (IsReached most count) (IsReached most count → ⊥) }
{
    match most {
        Some(most) => count >= most,
        None => false,
    }
}

/// Adds the lines that pass the test of one document, and stops as soon as there are `most` hits. `watch` is asked
/// whether the answer is wanted before each further piece of the document.
///
/// `CalledOff` is returned once `watch` says that the answer is not wanted. `OutOfMemory` means that memory ran out, or
/// that a name or a body has too many handles. After an `Err` there are no hits.
pub(crate) fn scan_document<W: Watch>(
    test: &Test,
    way: &mut Way<'_>,
    document: &SharedDocument,
    most: Option<usize>,
    hits: &mut Places,
    watch: &mut W,
) -> Result<(), Unanswered>
    requires way { Finds (form test.now.tree) way.old }
    ensures way { Finds (form test.now.tree) way.new }
    ensures hits { OnOk result (AddsUpTo most (IsAsked (test_of test.now)) (lines_of_taken document.now) hits.old hits.new) }
    ensures called_off { IfErr result (IsCalledOffOnlyIf (W.has_said_no watch.new)) }
{
    match add_document(
        test,
        way,
        document,
        most,
        &mut hits.documents,
        &mut hits.places,
        watch,
    ) {
        Ok(()) => Ok(()),
        Err(error) => {
            // Some places may be in no document that is there.
            hits.places.clear();
            Err(error)
        }
    }
}

/// Adds the places of the lines that pass the test of one document, until there are `most`, and a handle to the document if
/// any are added. An `Err` can leave places without their document.
fn add_document<W: Watch>(
    test: &Test,
    way: &mut Way<'_>,
    document: &SharedDocument,
    most: Option<usize>,
    documents: &mut Vec<SharedDocument>,
    places: &mut Vec<Place>,
    watch: &mut W,
) -> Result<(), Unanswered>
    requires way { Finds (form test.now.tree) way.old }
    requires placed { All (IsPlaced documents.old.items) places.old.items }
    ensures way { Finds (form test.now.tree) way.new }
    ensures placed { OnOk result (All (IsPlaced documents.new.items) places.new.items) }
    ensures hits { OnOk result (AddsUpTo most (IsAsked (test_of test.now)) (lines_of_taken document.now)
        (hits_at documents.old.items places.old.items) (hits_at documents.new.items places.new.items)) }
    ensures called_off { IfErr result (IsCalledOffOnlyIf (W.has_said_no watch.new)) }
{
    let Ok(number) = u32::try_from(documents.len()) else {
        return Err(Unanswered::OutOfMemory);
    };
    let before = places.len();
    scan_body(test, way, number, document.held.body(), most, places, watch)?;
    if places.len() != before {
        documents.push(document.share()?)?;
    }
    Ok(())
}

/// Adds the places of the lines that pass the test of one body, piece after piece, until there are `most`. `document` says which
/// of the documents with a hit it is.
pub(crate) fn scan_body<W: Watch>(
    test: &Test,
    way: &mut Way<'_>,
    document: u32,
    body: &Body,
    most: Option<usize>,
    places: &mut Vec<Place>,
    watch: &mut W,
) -> Result<(), Unanswered>
    requires way { Finds (form test.now.tree) way.old }
    ensures way { Finds (form test.now.tree) way.new }
    ensures places { OnOk result ((name : List ℕ) → AddsPlacesUpTo most (test_of test.now) document name body.now
        (lines_of_document name body.now) places.old.items places.new.items) }
    ensures called_off { IfErr result (IsCalledOffOnlyIf (W.has_said_no watch.new)) }
{
    let mut rest = body.as_bytes();
    let mut offset = 0;
    let mut line = 1;
    let most_bytes = piece_for(way);
    let mut end = piece_end(rest, most_bytes);
    while end < rest.len() {
        scan_piece(
            test,
            way,
            document,
            offset,
            line,
            &rest[..end],
            most,
            places,
            watch,
        )?;
        if is_reached(most, places.len()) {
            return Ok(());
        }
        ask(watch)?;
        line += lines_before(rest, end) as u32;
        offset += end as u32;
        rest = &rest[end..];
        end = piece_end(rest, most_bytes);
    }
    scan_piece(test, way, document, offset, line, rest, most, places, watch)?;
    Ok(())
}

/// Adds the places of the lines that pass the test of a text of whole lines, of which the first has the number `from`, until
/// there are `most`. The text is at this offset of its body.
fn scan_piece<W: Watch>(
    test: &Test,
    way: &mut Way<'_>,
    document: u32,
    offset: u32,
    from: u32,
    text: &[u8],
    most: Option<usize>,
    places: &mut Vec<Place>,
    watch: &mut W,
) -> Result<(), Unanswered>
    requires way { Finds (form test.now.tree) way.old }
    requires inside { offset + length text.now ≤ greatest_body }
    requires room { from + length text.now ≤ 1 + greatest_body }
    ensures way { Finds (form test.now.tree) way.new }
    ensures places { OnOk result ((body : List ℕ) → AddsLinesUpTo most (test_of test.now) document body offset from text.now
        places.old.items places.new.items) }
    ensures called_off { IfErr result (IsCalledOffOnlyIf (W.has_said_no watch.new)) }
{
    if !test.inverted {
        if let Way::FromMatchToMatch(finder) = way {
            // A longer text has a long line.
            if text.len() <= finder.longest() {
                sweep_lines(finder, document, offset, from, text, most, places)?;
                return Ok(());
            }
        }
    }
    scan_lines(test, way, document, offset, from, text, most, places, watch)
}

/// Adds the places of the lines that pass the test, until there are `most`, looking for each in what is left after the one
/// before.
fn sweep_lines(
    finder: &mut Finder<'_>,
    document: u32,
    offset: u32,
    from: u32,
    text: &[u8],
    most: Option<usize>,
    places: &mut Vec<Place>,
) -> Result<(), AllocError>
    requires inside { offset + length text.now ≤ greatest_body }
    requires room { from + length text.now ≤ 1 + greatest_body }
    ensures same { (tree : Tree) → IsFinderOf tree finder.old → IsFinderOf tree finder.new }
    ensures places { OnOk result ((tree : Tree) (body : List ℕ) → IsLineFinderOf tree finder.old
        → AddsLinesUpTo most (with_match tree) document body offset from text.now places.old.items places.new.items) }
{
    let mut rest = text;
    let mut at = offset;
    let mut line = from;
    while let Some(first) = finder.first_line(rest) {
        line += first.before as u32;
        places.push(Place {
            document,
            line,
            start: at + first.start as u32,
            end: at + first.end as u32,
        })?;
        if first.end == rest.len() {
            return Ok(());
        }
        at += first.end as u32 + 1;
        rest = &rest[first.end + 1..];
        line += 1;
        if is_reached(most, places.len()) {
            return Ok(());
        }
    }
    Ok(())
}

/// Adds the places of the lines that pass the test, until there are `most`, looking at each line by itself.
fn scan_lines<W: Watch>(
    test: &Test,
    way: &mut Way<'_>,
    document: u32,
    offset: u32,
    from: u32,
    text: &[u8],
    most: Option<usize>,
    places: &mut Vec<Place>,
    watch: &mut W,
) -> Result<(), Unanswered>
    requires way { Finds (form test.now.tree) way.old }
    requires inside { offset + length text.now ≤ greatest_body }
    requires room { from + length text.now ≤ 1 + greatest_body }
    ensures way { Finds (form test.now.tree) way.new }
    ensures places { OnOk result ((body : List ℕ) → AddsLinesUpTo most (test_of test.now) document body offset from text.now
        places.old.items places.new.items) }
    ensures called_off { IfErr result (IsCalledOffOnlyIf (W.has_said_no watch.new)) }
{
    let mut rest = text;
    let mut at = offset;
    let mut line = from;
    while let Some(end) = memchr(b'\n', rest) {
        scan_line(test, way, document, at, line, &rest[..end], places, watch)?;
        at += end as u32 + 1;
        rest = &rest[end + 1..];
        line += 1;
        if is_reached(most, places.len()) {
            return Ok(());
        }
    }
    if rest.is_empty() {
        return Ok(());
    }
    scan_line(test, way, document, at, line, rest, places, watch)
}

/// Adds the place of a line if it passes the test.
fn scan_line<W: Watch>(
    test: &Test,
    way: &mut Way<'_>,
    document: u32,
    offset: u32,
    line: u32,
    text: &[u8],
    places: &mut Vec<Place>,
    watch: &mut W,
) -> Result<(), Unanswered>
    requires way { Finds (form test.now.tree) way.old }
    requires no_feed { (k : ℕ) → k < length text.now → slice_index text.now k ≢ 10 }
    requires inside { offset + length text.now ≤ greatest_body }
    ensures way { Finds (form test.now.tree) way.new }
    ensures places { OnOk result ((name body : List ℕ) → HasTextAt body offset text.now
        → AddsPlaces (test_of test.now) document name body (found name line text.now ∷ []) places.old.items places.new.items) }
    ensures called_off { IfErr result (IsCalledOffOnlyIf (W.has_said_no watch.new)) }
{
    let alloc = *places.allocator();
    let passed = passes(alloc, test, way, text, watch)?;
    if !passed {
        return Ok(());
    }
    places.push(Place {
        document,
        line,
        start: offset,
        end: offset + text.len() as u32,
    })?;
    Ok(())
}
