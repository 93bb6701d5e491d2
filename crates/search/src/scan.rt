//! Searches of an index.

ghost use Rattle.std.specs.Prelude.{IfOk};
ghost use Rattle.views.specs.Scan.{IsAnswerOf};
ghost use Rattle.prepare.specs.Prepared.{pattern_of};

use crate::taken::take;
use documents::Corpus;
use prepare::Prepared;
use std::alloc::{AllocError, Global};
use views::Answer;

/// Finds the lines that contain a match of the pattern, in the index's documents whose names match the name pattern, if
/// there is one. It changes nothing, and matches only the lines of documents whose trigrams meet the condition of the
/// pattern.
///
/// An `Err` means that memory ran out, or that a name or a body has too many handles.
pub fn find<C: Corpus>(alloc: Global, corpus: &C, prepared: &Prepared) -> Result<Answer, AllocError>
    ensures { IfOk result (λ answer. IsAnswerOf (C.state corpus.now) (pattern_of prepared.now) answer) }
{
    take(alloc, corpus, prepared)?.answer(alloc)
}
