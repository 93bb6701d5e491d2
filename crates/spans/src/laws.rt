//! Laws of the definitions: each is the contract of a function that does nothing.

ghost use Rattle.std.specs.Prelude.{◌≡◌, ◌≤◌, ◌↔◌, ℕ, Bool, true, false, List, ◌++◌, length, Option, Some, MatchOption};
ghost use Rattle.ere.specs.Edges.{ContainsWholeWord};
ghost use Rattle.ere.specs.Language.{ContainsMatch, InLanguage};
ghost use Rattle.ere.specs.Tree.{Tree};
ghost use Rattle.spans.specs.FirstSpan.{AreSpans, IsWhole};
ghost use Rattle.spans.specs.FirstStart.{HasNoStart, IsFirstStart};
ghost use Rattle.spans.specs.Spans.{Spans};
ghost use Rattle.spans.specs.declared.span.Span.{Span};

/// A word of a tree leads from one position of a line to another exactly if what is between the two is a word of the
/// tree, between what is before it and what is after it.
pub fn spans_are_words()
    ensures { (tree : Tree) (line before word after : List ℕ) → line ≡ before ++ (word ++ after)
        → Spans line tree (length before) (length (before ++ word)) ↔ InLanguage tree before word after }
{}

/// A line contains a whole word of a tree exactly if a word of the tree leads from one of its positions to another
/// with no word byte right before it and right after it. The word can be empty.
pub fn whole_words_by_positions()
    ensures { (tree : Tree) (line : List ℕ) → ContainsWholeWord tree line
        ↔ ((start end : ℕ) × (start ≤ length line) × Spans line tree start end × IsWhole line start end) }
{}

/// A line has only one list of spans from an offset on.
pub fn one_list_of_spans()
    ensures { (line : List ℕ) (tree : Tree) (whole_words : Bool) (from : ℕ) (left right : List Span)
        → AreSpans line tree whole_words from left → AreSpans line tree whole_words from right → left ≡ right }
{}

/// A match begins nowhere in a line exactly if the line contains no match, and one that is a whole word begins nowhere
/// exactly if the line contains no whole word.
pub fn no_starts_without_matches()
    ensures matches { (tree : Tree) (line : List ℕ) → HasNoStart line tree false ↔ (ContainsMatch tree line → ⊥) }
    ensures whole_words { (tree : Tree) (line : List ℕ) → HasNoStart line tree true ↔ (ContainsWholeWord tree line → ⊥) }
{}

/// What tells the first start or that there is none gives an offset of each line that contains a match, and with whole
/// words of each line that contains a whole word.
pub fn matches_have_starts()
    ensures matches { (tree : Tree) (line : List ℕ) (found : Option ℕ) → MatchOption found (HasNoStart line tree false) (IsFirstStart line tree false)
        → ContainsMatch tree line → (start : ℕ) × (found ≡ Some start) × IsFirstStart line tree false start }
    ensures whole_words { (tree : Tree) (line : List ℕ) (found : Option ℕ) → MatchOption found (HasNoStart line tree true) (IsFirstStart line tree true)
        → ContainsWholeWord tree line → (start : ℕ) × (found ≡ Some start) × IsFirstStart line tree true start }
{}
