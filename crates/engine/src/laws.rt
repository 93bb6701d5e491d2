//! The law of the first line. The function does nothing: its clauses are the law.

ghost use Rattle.std.specs.Prelude.{◌≡◌, ℕ, List};
ghost use Rattle.ere.specs.Tree.{Tree};
ghost use Rattle.engine.specs.FirstLine.{HasNoMatch, IsFirstLine};
ghost use Rattle.engine.specs.declared.finding.FirstLine.{FirstLine as FirstLineValue};

/// A text has at most one first line with a match, and none if no line of it has a match.
pub fn first_line_is_one()
    ensures one { (tree : Tree) (text : List ℕ) (found found' : FirstLineValue) → IsFirstLine tree text found → IsFirstLine tree text found' → found ≡ found' }
    ensures none { (tree : Tree) (text : List ℕ) (found : FirstLineValue) → IsFirstLine tree text found → HasNoMatch tree text → ⊥ }
{}
