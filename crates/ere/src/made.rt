//! Trees that are made of a text or of another tree.

ghost use Rattle.std.specs.Prelude.{◌≡◌, ◌≢◌, ℕ, ◌↔◌, IfErr, IfOk, List, OnOk, map};
ghost use Rattle.ere.specs.ByteSet.{complement, set_of};
ghost use Rattle.ere.specs.Classes.{is_word_byte};
ghost use Rattle.ere.specs.Edges.{between_words, line_tree, word_tree, IsSizeFault};
ghost use Rattle.ere.specs.Language.{InLanguage};
ghost use Rattle.ere.specs.Limits.{IsProper, IsWithinLimits};
ghost use Rattle.ere.specs.Literal.{literal_tree, sets_of, IsPatternText, IsSameText, IsTextFault};
ghost use Rattle.ere.specs.Tree.{alt, cat, form, more, none, trees_of};

use crate::byte_set::ByteSet;
use crate::case::Case;
use crate::classes::is_word_byte;
use crate::error::{EreError, EreErrorKind};
use crate::letters::single_in;
use crate::limits::{MAX_HEIGHT, MAX_LEAVES, capped_leaves, is_low};
use crate::reader::check_bytes;
use crate::tree::Ere;
use std::alloc::Global;

/// The tree whose words are the text itself or, if case is ignored, each text that is equal to it but for the case of
/// letters. The empty text has the tree `Empty`. The tree takes its memory from `alloc`.
///
/// An `Err` names the first fault that a pattern with these bytes has before it is read: `TooLong`, at 1024, if it
/// has over 1,024 bytes, and then `BadByte` at the first byte 0 or line feed. `OutOfMemory` says nothing about the
/// text. (POSIX.1-2017 XBD 9.4.1: an ordinary character matches itself. The limits are this program's choice.)
pub fn literal(alloc: Global, text: &[u8], case: Case) -> Result<Ere, EreError>
    ensures tree { IfOk result (λ e. form e ≡ literal_tree case text.now) }
    ensures language { IfOk result (λ e. (before word after : List ℕ) → InLanguage (form e) before word after ↔ IsSameText case text.now word) }
    ensures limits { IfOk result (λ e. IsWithinLimits (form e)) }
    ensures allowed { OnOk result (IsPatternText text.now) }
    ensures refused { IfErr result (λ e. e.kind ≢ EreErrorKind.OutOfMemory → IsTextFault text.now e) }
{
    check_bytes(text)?;
    spelled(alloc, case, text)
}

/// The tree of the text, whatever its bytes.
fn spelled(alloc: Global, case: Case, text: &[u8]) -> Result<Ere, EreError>
    ensures tree { IfOk result (λ e. form e ≡ literal_tree case text.now) }
    ensures err { IfErr result (λ e. e.kind ≡ EreErrorKind.OutOfMemory) }
{
    match text {
        [] => Ok(Ere::Empty),
        [byte] => Ok(Ere::Set(single_in(case, *byte))),
        _ => Ok(Ere::Cat(sets_of(alloc, case, text)?)),
    }
}

/// For each byte of a text the set that it is in a pattern.
fn sets_of(alloc: Global, case: Case, text: &[u8]) -> Result<Vec<Ere>, EreError>
    ensures ok { IfOk result (λ sets. trees_of (map form sets.items) ≡ sets_of case text.now) }
    ensures err { IfErr result (λ e. e.kind ≡ EreErrorKind.OutOfMemory) }
{
    let mut sets = Vec::new(alloc);
    for byte in text {
        sets.push(Ere::Set(single_in(case, *byte)))?;
    }
    Ok(sets)
}

/// The tree of `(^|[^_[:alnum:]])(TREE)($|[^_[:alnum:]])`. A line contains a match of it if some part of the line is
/// a word of the tree there, with no letter, digit or `_` right before it or right after it (`whole_words`).
///
/// An `Err` is `TooDeep` if the new tree is higher than the limit, and then `TooLarge` if it has too many leaves,
/// both at 0; or `OutOfMemory`.
pub fn as_word(alloc: Global, tree: Ere) -> Result<Ere, EreError>
    requires { IsWithinLimits (form tree) }
    ensures tree { IfOk result (λ e. form e ≡ word_tree (form tree)) }
    ensures limits { IfOk result (λ e. IsWithinLimits (form e)) }
    ensures refused { IfErr result (λ e. e.kind ≢ EreErrorKind.OutOfMemory → IsSizeFault (word_tree (form tree)) e) }
{
    let first = edge(alloc, Ere::Start)?;
    let last = edge(alloc, Ere::End)?;
    framed(alloc, first, tree, last)
}

/// The tree of `^(TREE)$`. A line contains a match of it if the whole line is a word of the tree, with nothing before
/// it and nothing after it (`whole_lines`).
///
/// An `Err` is `TooDeep` if the new tree is higher than the limit, and then `TooLarge` if it has too many leaves, both
/// at 0; or `OutOfMemory`.
pub fn as_line(alloc: Global, tree: Ere) -> Result<Ere, EreError>
    requires { IsWithinLimits (form tree) }
    ensures tree { IfOk result (λ e. form e ≡ line_tree (form tree)) }
    ensures limits { IfOk result (λ e. IsWithinLimits (form e)) }
    ensures refused { IfErr result (λ e. e.kind ≢ EreErrorKind.OutOfMemory → IsSizeFault (line_tree (form tree)) e) }
{
    framed(alloc, Ere::Start, tree, Ere::End)
}

/// The anchor, or a byte that is in no word.
fn edge(alloc: Global, anchor: Ere) -> Result<Ere, EreError>
    ensures ok { IfOk result (λ e. form e ≡ alt (more (form anchor) (more between_words none))) }
    ensures err { IfErr result (λ e. e.kind ≡ EreErrorKind.OutOfMemory) }
{
    let mut members = Vec::new(alloc);
    members.push(anchor)?;
    members.push(Ere::Set(ByteSet::of(is_word_byte).complement()))?;
    Ok(Ere::Alt(members))
}

/// The three trees, one after the other, if that is within the limits.
fn framed(alloc: Global, first: Ere, tree: Ere, last: Ere) -> Result<Ere, EreError>
    requires first { IsProper (form first) }
    requires tree { IsProper (form tree) }
    requires last { IsProper (form last) }
    ensures tree { IfOk result (λ e. form e ≡ cat (more (form first) (more (form tree) (more (form last) none)))) }
    ensures limits { IfOk result (λ e. IsWithinLimits (form e)) }
    ensures refused { IfErr result (λ e. e.kind ≢ EreErrorKind.OutOfMemory
        → IsSizeFault (cat (more (form first) (more (form tree) (more (form last) none)))) e) }
{
    let mut members = Vec::new(alloc);
    members.push(first)?;
    members.push(tree)?;
    members.push(last)?;
    let framed = Ere::Cat(members);
    if !is_low(&framed, MAX_HEIGHT) {
        return Err(EreError::new(EreErrorKind::TooDeep, 0));
    }
    if capped_leaves(&framed) > MAX_LEAVES {
        return Err(EreError::new(EreErrorKind::TooLarge, 0));
    }
    Ok(framed)
}
