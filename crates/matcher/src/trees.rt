//! What a tree says at a glance.

ghost use Rattle.std.specs.Prelude.{◌≡◌, ℕ, IsTrue, List};
ghost use Rattle.ere.specs.Tree.{form};
ghost use Rattle.spans.specs.Spans.{Spans};
ghost use Rattle.matcher.specs.StarHeight.{is_set};

use ere::Ere;

/// Whether the tree is a single set.
pub fn is_set(tree: &Ere) -> bool
    ensures { result ≡ is_set (form tree.now) }
{
    match tree {
        Ere::Empty => false,
        Ere::Set(_) => true,
        Ere::Start => false,
        Ere::End => false,
        Ere::Cat(_) => false,
        Ere::Alt(_) => false,
        Ere::Repeat(_, _, _) => false,
    }
}

/// `true` only if the empty word is a word of the tree. `false` is allowed for such a tree too.
pub fn can_be_empty(tree: &Ere) -> bool
    ensures { IsTrue result → (line : List ℕ) (place : ℕ) → Spans line (form tree.now) place place }
{
    match tree {
        Ere::Empty => true,
        Ere::Repeat(_body, least, _greatest) => *least == 0,
        _ => false,
    }
}

/// `true` only if two words of the tree, one after the other, are always a word of it. It is `true` for a repeat
/// without a greatest count.
pub fn joins_words(tree: &Ere) -> bool
    ensures { IsTrue result → (line : List ℕ) (start middle end : ℕ) → Spans line (form tree.now) start middle
        → Spans line (form tree.now) middle end → Spans line (form tree.now) start end }
{
    match tree {
        Ere::Repeat(_body, _least, greatest) => greatest.is_none(),
        _ => false,
    }
}
