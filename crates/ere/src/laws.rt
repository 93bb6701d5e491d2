//! Laws of the definitions: each is the contract of a function that does nothing.

ghost use Rattle.std.specs.Prelude.{◌≡◌, ◌↔◌, ℕ, Bool, None, ◌⊎◌, IsTrue, List, [], ◌∷◌, ◌++◌};
ghost use Rattle.std.specs.List.{AllPass};
ghost use Rattle.ere.specs.Anchors.{ForgetsSurroundings};
ghost use Rattle.ere.specs.ByteSet.{has, is_line_byte};
ghost use Rattle.ere.specs.Edges.{line_tree, word_tree, ContainsWholeWord};
ghost use Rattle.ere.specs.Language.{ContainsMatch, InLanguage};
ghost use Rattle.ere.specs.Limits.{IsTreeOf, IsWithinLimits};
ghost use Rattle.ere.specs.Spelling.{Spells};
ghost use Rattle.ere.specs.Tree.{at_end, at_start, cat, empty, more, none, repeat, set, Tree};

use crate::case::Case;

/// With each `Case`, a text spells at most one tree, whatever the limit on open groups.
pub fn one_tree()
    ensures { (case : Case) (limit other : ℕ) (text : List ℕ) (left right : Tree) → Spells case limit text left → Spells case other text right → left ≡ right }
{}

/// The tree of a pattern is within the limits.
pub fn tree_within_limits()
    ensures { (case : Case) (pattern : List ℕ) (tree : Tree) → IsTreeOf case pattern tree → IsWithinLimits tree }
{}

/// The language of the empty tree is only the empty word, in any surroundings.
pub fn only_the_empty_word()
    ensures { (before word after : List ℕ) → InLanguage empty before word after ↔ (word ≡ []) }
{}

/// Any number of copies is either none, or any number and then one more.
pub fn star_unrolls()
    ensures { (body : Tree) (before word after : List ℕ) → InLanguage (repeat body 0 None) before word after
        ↔ ((word ≡ []) ⊎ ((front back : List ℕ) × (word ≡ front ++ back)
        × InLanguage (repeat body 0 None) before front (back ++ after) × InLanguage body (before ++ front) back after)) }
{}

/// `^`, a set and `$` match exactly the lines of one byte of the set (POSIX.1-2017 XBD 9.4.9).
pub fn anchored_set()
    ensures { (members : List Bool) (line : List ℕ) → ContainsMatch (cat (more at_start (more (set members) (more at_end none)))) line
        ↔ ((b : ℕ) × (line ≡ b ∷ []) × IsTrue (has members b)) }
{}

/// A line, which is made of line bytes, contains a match of `as_word`'s tree exactly if some part of it is a word of the
/// tree there with no word byte right before it or right after it.
pub fn whole_words()
    ensures { (tree : Tree) (line : List ℕ) → AllPass is_line_byte line → ContainsMatch (word_tree tree) line ↔ ContainsWholeWord tree line }
{}

/// A line contains a match of `as_line`'s tree exactly if all of it is a word of the tree, with nothing before it and
/// nothing after it.
pub fn whole_lines()
    ensures { (tree : Tree) (line : List ℕ) → ContainsMatch (line_tree tree) line ↔ InLanguage tree [] line [] }
{}

/// A word of a tree in its surroundings is, in any surroundings, a word of the tree with each anchor replaced
/// by the empty text.
pub fn surroundings_are_forgotten()
    ensures { ForgetsSurroundings }
{}
