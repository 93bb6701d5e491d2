//! Sets of texts: each text once, in the order of first appearance.

ghost use Rattle.std.specs.Prelude.{◌≡◌, ◌≤◌, ◌<◌, ◌++◌, IfOk, IfSome, IfNone, OnOk, IsTrue, length, map, flat_map};
ghost use Rattle.std.specs.Str.{bytes_eq};
ghost use Rattle.query.specs.Texts.{texts_of, has_all_of_one};
ghost use Rattle.query.specs.Query.{formula_of, IsPlainFor};
ghost use Rattle.trigram.specs.Texts.{has_text, with_text, with_texts, union, joins, kept_ends, cuts, shortest, has_shorter_end};
ghost use Rattle.trigram.specs.Private.Values.{cut_at};
ghost use Rattle.trigram.specs.Analysis.{just_empty};

use query::{Query, joined, query_of_joins};
use std::alloc::{AllocError, Global};

/// The greatest number of texts that are kept (this program's choice).
pub(crate) const MOST_TEXTS: usize = 16;

/// One end of a text.
#[derive(Clone, Copy)]
pub(crate) enum Side {
    /// Its front.
    Prefix,
    /// Its back.
    Suffix,
}

/// Whether the text is in the set.
pub(crate) fn has_text(texts: &[Vec<u8>], text: &[u8]) -> bool
    ensures { result ≡ has_text (texts_of texts.now) text.now }
{
    for other in texts {
        if is_same(other.as_slice(), text) {
            return true;
        }
    }
    false
}

/// Whether the texts are equal. Most texts that differ do so in their length or their last byte, so these are
/// compared first.
fn is_same(one: &[u8], other: &[u8]) -> bool
    ensures { result ≡ bytes_eq one.now other.now }
{
    let length = one.len();
    if length != other.len() {
        return false;
    }
    if length == 0 {
        return true;
    }
    one[length - 1] == other[length - 1] && one == other
}

/// Adds the text to the set.
fn add(texts: &mut Vec<Vec<u8>>, text: Vec<u8>) -> Result<(), AllocError>
    ensures { OnOk result (texts_of texts.new.items ≡ with_text (texts_of texts.old.items) text.items) }
{
    if has_text(texts.as_slice(), text.as_slice()) {
        return Ok(());
    }
    texts.push(text)?;
    Ok(())
}

/// Adds a copy of the text to the set.
fn add_copy(alloc: Global, texts: &mut Vec<Vec<u8>>, text: &[u8]) -> Result<(), AllocError>
    ensures { OnOk result (texts_of texts.new.items ≡ with_text (texts_of texts.old.items) text.now) }
{
    if has_text(texts.as_slice(), text) {
        return Ok(());
    }
    texts.push(Vec::from_slice(alloc, text)?)?;
    Ok(())
}

/// Adds the other texts to the set.
#[tactic(auto, unfolding(crate::specs::Texts::with_texts))]
fn add_all(texts: &mut Vec<Vec<u8>>, others: Vec<Vec<u8>>) -> Result<(), AllocError>
    ensures { OnOk result (texts_of texts.new.items ≡ with_texts (texts_of texts.old.items) (texts_of others.items)) }
{
    for text in others {
        add(texts, text)?;
    }
    Ok(())
}

/// The texts of either set: those of the left one first.
///
/// An `Err` means that memory ran out.
#[tactic(auto, unfolding(crate::specs::Texts::with_texts))]
pub(crate) fn union(
    alloc: Global,
    left: Vec<Vec<u8>>,
    right: Vec<Vec<u8>>,
) -> Result<Vec<Vec<u8>>, AllocError>
    ensures { IfOk result (λ whole. texts_of whole.items ≡ union (texts_of left.items) (texts_of right.items)) }
{
    let mut whole = Vec::new(alloc);
    add_all(&mut whole, left)?;
    add_all(&mut whole, right)?;
    Ok(whole)
}

/// A copy of the set.
///
/// An `Err` means that memory ran out.
pub(crate) fn copied_texts(alloc: Global, texts: &[Vec<u8>]) -> Result<Vec<Vec<u8>>, AllocError>
    ensures { IfOk result (λ copies. texts_of copies.items ≡ texts_of texts.now) }
{
    let mut copies = Vec::new(alloc);
    for text in texts {
        copies.push(Vec::from_slice(alloc, text.as_slice())?)?;
    }
    Ok(copies)
}

/// Every text of the first set, followed by every text of the second. `None` if these are more than 16 different texts.
///
/// An `Err` means that memory ran out.
#[tactic(auto, unfolding(crate::specs::Texts::with_texts))]
pub(crate) fn few_joins(
    alloc: Global,
    left: &[Vec<u8>],
    right: &[Vec<u8>],
) -> Result<Option<Vec<Vec<u8>>>, AllocError>
    ensures some { IfOk result (λ o. IfSome o (λ whole. texts_of whole.items ≡ joins (texts_of left.now) (texts_of right.now))) }
    ensures none { IfOk result (λ o. IfNone o (MOST_TEXTS < length (joins (texts_of left.now) (texts_of right.now)))) }
{
    let mut whole = Vec::new(alloc);
    for prefix in left {
        add_joins(alloc, &mut whole, prefix.as_slice(), right)?;
        if whole.len() > MOST_TEXTS {
            return Ok(None);
        }
    }
    Ok(Some(whole))
}

#[tactic(auto, unfolding(crate::specs::Texts::with_texts))]
fn add_joins(
    alloc: Global,
    whole: &mut Vec<Vec<u8>>,
    prefix: &[u8],
    suffixes: &[Vec<u8>],
) -> Result<(), AllocError>
    ensures { OnOk result (texts_of whole.new.items ≡ with_texts (texts_of whole.old.items) (map (λ suffix. prefix.now ++ suffix) (texts_of suffixes.now))) }
{
    for suffix in suffixes {
        add(whole, joined(alloc, prefix, suffix.as_slice())?)?;
    }
    Ok(())
}

/// The ends of the texts that are kept at one side. Each text is cut to 2, 1 or 0 bytes, the greatest of these that
/// leaves at most 16 different ends; a shorter text stays whole. An end that has a shorter one as its own end is left
/// out.
///
/// An `Err` means that memory ran out.
pub(crate) fn kept_ends(
    alloc: Global,
    side: Side,
    texts: &[Vec<u8>],
) -> Result<Vec<Vec<u8>>, AllocError>
    ensures { IfOk result (λ ends. texts_of ends.items ≡ kept_ends (cut_at side) (texts_of texts.now)) }
{
    if let Some(two) = few_cuts(alloc, side, 2, texts)? {
        return shortest(alloc, side, two.as_slice());
    }
    if let Some(one) = few_cuts(alloc, side, 1, texts)? {
        return shortest(alloc, side, one.as_slice());
    }
    let none = cuts(alloc, side, 0, texts)?;
    shortest(alloc, side, none.as_slice())
}

/// The ends of `count` bytes, if at most 16 of them are different.
#[tactic(auto, unfolding(crate::specs::Texts::with_texts))]
fn few_cuts(
    alloc: Global,
    side: Side,
    count: usize,
    texts: &[Vec<u8>],
) -> Result<Option<Vec<Vec<u8>>>, AllocError>
    ensures some { IfOk result (λ o. IfSome o (λ ends. texts_of ends.items ≡ cuts (cut_at side) count (texts_of texts.now))) }
    ensures few { IfOk result (λ o. IfSome o (λ ends. length ends.items ≤ MOST_TEXTS)) }
    ensures many { IfOk result (λ o. IfNone o (MOST_TEXTS < length (cuts (cut_at side) count (texts_of texts.now)))) }
{
    let mut ends = Vec::new(alloc);
    for text in texts {
        add_copy(alloc, &mut ends, cut(side, count, text.as_slice()))?;
        if ends.len() > MOST_TEXTS {
            return Ok(None);
        }
    }
    Ok(Some(ends))
}

#[tactic(auto, unfolding(crate::specs::Texts::with_texts))]
fn cuts(
    alloc: Global,
    side: Side,
    count: usize,
    texts: &[Vec<u8>],
) -> Result<Vec<Vec<u8>>, AllocError>
    ensures { IfOk result (λ ends. texts_of ends.items ≡ cuts (cut_at side) count (texts_of texts.now)) }
{
    let mut ends = Vec::new(alloc);
    for text in texts {
        add_copy(alloc, &mut ends, cut(side, count, text.as_slice()))?;
    }
    Ok(ends)
}

fn cut<'a>(side: Side, count: usize, text: &'a [u8]) -> &'a [u8]
    ensures { result.now ≡ cut_at side count text.now }
{
    let kept = count.min(text.len());
    let dropped = text.len() - kept;
    match side {
        Side::Prefix => &text[..kept],
        Side::Suffix => &text[dropped..],
    }
}

fn shortest(alloc: Global, side: Side, texts: &[Vec<u8>]) -> Result<Vec<Vec<u8>>, AllocError>
    ensures { IfOk result (λ ends. texts_of ends.items ≡ shortest (cut_at side) (texts_of texts.now)) }
{
    let mut ends = Vec::new(alloc);
    for text in texts {
        if !has_shorter_end(side, text.as_slice(), texts) {
            ends.push(Vec::from_slice(alloc, text.as_slice())?)?;
        }
    }
    Ok(ends)
}

fn has_shorter_end(side: Side, text: &[u8], texts: &[Vec<u8>]) -> bool
    ensures { result ≡ has_shorter_end (cut_at side) (texts_of texts.now) text.now }
{
    for part in texts {
        if part.len() < text.len() && cut(side, part.len(), text) == part.as_slice() {
            return true;
        }
    }
    false
}

/// A plain query that a set of trigrams meets exactly if it has all trigrams of at least one of the texts.
///
/// An `Err` means that memory ran out.
pub(crate) fn query_of_texts(alloc: Global, texts: &[Vec<u8>]) -> Result<Query, AllocError>
    ensures { IfOk result (λ query. IsPlainFor (has_all_of_one (texts_of texts.now)) (formula_of query)) }
{
    let nothing = just_empty(alloc)?;
    query_of_joins(alloc, texts, nothing.as_slice())
}

/// The set of the empty text alone.
///
/// An `Err` means that memory ran out.
pub(crate) fn just_empty(alloc: Global) -> Result<Vec<Vec<u8>>, AllocError>
    ensures { IfOk result (λ texts. texts_of texts.items ≡ just_empty) }
{
    let mut texts = Vec::new(alloc);
    texts.push(Vec::new(alloc))?;
    Ok(texts)
}
