//! Searches on one thread, and searches that leave the index before they match.

ghost use Rattle.std.specs.Prelude.{[], ◌∷◌, IfOk};
ghost use Rattle.documents.specs.declared.command.Command.TheVariants.{Put};
ghost use Rattle.documents.specs.State.{state_of};
ghost use Rattle.ere.specs.declared.case.Case.TheVariants.{Exact};
ghost use Rattle.prepare.specs.Pattern.{Pattern, IsPatternOf};
ghost use Rattle.prepare.specs.Request.{all_lines_of};
ghost use Rattle.views.specs.Scan.{IsAnswerOf};
ghost use Rattle.views.specs.ShownOf.{IsShownOf};

use crate::fixtures::{Always, document, is_text};
use documents::{Body, Command, Name};
use index::Index;
use prepare::Prepared;
use search::{find, take};
use std::alloc::{AllocError, Global};
use std::test::Fail;
use views::{Answer, Shown};

/// A search on one thread, from commands to the answer: two documents are put, and searched.
fn search_two(
    alloc: Global,
    first: (Name, Body),
    second: (Name, Body),
    pattern: &[u8],
) -> Result<Answer, Fail>
    // The answer is that of the pattern's tree and of the two commands.
    ensures { IfOk result (λ answer. (tree : Pattern) × IsPatternOf Exact pattern.now tree
        × IsAnswerOf (state_of (Put first.0 first.1 ∷ Put second.0 second.1 ∷ [])) tree answer) }
{
    let prepared = Prepared::new(alloc, pattern)?;
    let mut index = Index::new(alloc);
    index.apply(Command::Put(first.0, first.1))?;
    index.apply(Command::Put(second.0, second.1))?;
    Ok(find(alloc, &index, &prepared)?)
}

/// The answer of two documents.
fn answer_of_two(alloc: Global) -> Result<Answer, Fail> {
    let first = document(alloc, b"f", b"abc\ndef")?;
    let second = document(alloc, b"e", b"abd")?;
    search_two(alloc, first, second, b"ab")
}

#[test]
fn two_documents(rt: HostRuntime) -> Result<(), Fail> {
    let answer = answer_of_two(rt.alloc())?;
    assert_eq!(rt; answer.version(), 2);
    assert_eq!(rt; answer.documents(), 2);
    assert_eq!(rt; answer.candidates(), 2);
    assert_eq!(rt; answer.hit_count(), 2);
    Ok(())
}

/// A search that has left the index: two documents are put and a search of them is taken. Then one of the names is
/// removed and the index dropped, and only then are the lines matched.
fn search_left(
    alloc: Global,
    first: (Name, Body),
    second: (Name, Body),
    removed: &Name,
    pattern: &[u8],
) -> Result<Shown, Fail>
    // All lines of the pattern are shown, after the two commands before the removal.
    ensures { IfOk result (λ shown. (tree : Pattern) × IsPatternOf Exact pattern.now tree
        × IsShownOf (state_of (Put first.0 first.1 ∷ Put second.0 second.1 ∷ [])) (all_lines_of tree) shown) }
{
    let prepared = Prepared::new(alloc, pattern)?;
    let mut index = Index::new(alloc);
    index.apply(Command::Put(first.0, first.1))?;
    index.apply(Command::Put(second.0, second.1))?;
    let taken = take(alloc, &index, &prepared)?;
    index.remove(removed)?;
    drop(index);
    match taken.show(alloc, &mut Always) {
        Ok(shown) => Ok(shown),
        Err(_) => Err(Fail::from(AllocError)),
    }
}

/// What is shown for a search that has left the index.
fn shown_of_left(alloc: Global) -> Result<Shown, Fail> {
    let first = document(alloc, b"f", b"abc\ndef")?;
    let second = document(alloc, b"e", b"abd")?;
    let removed = Name::new(alloc, b"f")?;
    search_left(alloc, first, second, &removed, b"ab")
}

#[test]
fn a_search_that_has_left_the_index(rt: HostRuntime) -> Result<(), Fail> {
    let shown = shown_of_left(rt.alloc())?;
    let want = b"search 1 version 2 lines 2 candidates 2 of 2\ne:1:abd\nf:1:abc\n";
    assert!(rt; is_text(rt.alloc(), &shown, want)?);
    Ok(())
}
