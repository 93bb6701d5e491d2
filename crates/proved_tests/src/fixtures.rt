//! What several tests start from.

ghost use Rattle.std.specs.Prelude.{◌≡◌, IfSome};
ghost use mathlib.Core.List.{IsPrefix};
ghost use Rattle.documents.specs.State.{state_of};
ghost use Rattle.prepare.specs.Prepared.{pattern_of, request_of};
ghost use Rattle.views.specs.Scan.{IsAnswerOf};
ghost use Rattle.search.specs.Taken.{IsTakenOf};

use documents::{Body, Name};
use prepare::Prepared;
use published::Reading;
use search::{Taken, Watch};
use std::alloc::{AllocError, Global};
use std::test::Fail;
use views::{Answer, Shown, append_lines};

/// A document of this name and body.
pub(crate) fn document(alloc: Global, name: &[u8], body: &[u8]) -> Result<(Name, Body), Fail> {
    Ok((
        Name::new(alloc, name)?,
        Body::new(Vec::from_slice(alloc, body)?)?,
    ))
}

/// The name of these bytes.
pub(crate) fn name(alloc: Global, bytes: &[u8]) -> Option<Name> {
    Name::new(alloc, bytes).ok()
}

/// The body of these bytes.
pub(crate) fn body(alloc: Global, bytes: &[u8]) -> Option<Body> {
    Body::new(Vec::from_slice(alloc, bytes).ok()?).ok()
}

/// The pattern, prepared for searches.
pub(crate) fn prepared(alloc: Global, pattern: &[u8]) -> Option<Prepared> {
    Prepared::new(alloc, pattern).ok()
}

/// Takes what a search needs from what is published. `None` if there is no memory for it, or the desk was closed.
pub(crate) fn take<'p>(
    alloc: Global,
    reading: &mut Reading,
    prepared: &'p Prepared,
) -> Option<Taken<'p>>
    ensures opening { reading.new.opening ≡ reading.old.opening }
    ensures seen { IsPrefix reading.old.commands reading.new.commands }
    ensures taken { IfSome result (IsTakenOf (state_of reading.new.commands) (request_of prepared.now)) }
{
    match reading.look(|index| search::take(alloc, index, prepared)) {
        Some(Ok(taken)) => Some(taken),
        _ => None,
    }
}

/// Searches what is published. `None` if there is no memory for it, or the desk was closed.
pub(crate) fn search(alloc: Global, reading: &mut Reading, prepared: &Prepared) -> Option<Answer>
    ensures opening { reading.new.opening ≡ reading.old.opening }
    ensures seen { IsPrefix reading.old.commands reading.new.commands }
    ensures answer { IfSome result (IsAnswerOf (state_of reading.new.commands) (pattern_of prepared.now)) }
{
    let Some(taken) = take(alloc, reading, prepared) else {
        return None;
    };
    match taken.answer(alloc) {
        Ok(answer) => Some(answer),
        Err(_) => None,
    }
}

/// A watch to which each answer is wanted.
#[derive(Drop)]
pub(crate) struct Always;

impl Watch for Always {
    ghost has_said_no = { λ _. ⊥ };

    fn wants(&mut self) -> bool {
        true
    }
}

/// The text of what is shown for search 1, with its counts.
pub(crate) fn text_of_shown(alloc: Global, shown: &Shown) -> Result<Vec<u8>, AllocError> {
    let mut text = Vec::new(alloc);
    shown.append_head(1, true, &mut text)?;
    for part in shown.parts() {
        let part = part.text();
        text.extend_from_slice(part.formed)?;
        append_lines(&mut text, part.zero, part.lines)?;
    }
    Ok(text)
}

/// Whether the text of what is shown for search 1, with its counts, is this one.
pub(crate) fn is_text(alloc: Global, shown: &Shown, want: &[u8]) -> Result<bool, AllocError> {
    let text = text_of_shown(alloc, shown)?;
    Ok(text.as_slice() == want)
}
