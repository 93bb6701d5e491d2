//! Texts, and the queries that ask for their trigrams.

ghost use Rattle.std.specs.Prelude.{◌≡◌, ℕ, ◌++◌, ◌<◌, IfOk, OnOk, IsTrue, true, [], ◌∷◌, length, map};
ghost use Rattle.std.specs.List.{list_all};
ghost use Rattle.query.specs.Trigrams.{TrigramSet, has_all_trigrams};
ghost use Rattle.query.specs.Texts.{texts_of, joined_texts, has_all_of_one};
ghost use Rattle.query.specs.Query.{formula_of, IsPlainFor};

use crate::body::trigram_at;
use crate::number::Trigram;
use crate::pairs::Pairs;
use crate::query::{Connective, Query, join};
use std::alloc::{AllocError, Global};

/// A shorter text has no trigram.
const SHORTEST: usize = 3;

/// A plain query (see `simplify`) that a set of trigrams meets exactly if it has all trigrams of one of these texts:
/// a text of `left`, followed by a text of `right`. It takes memory for the texts of both, but not for each join.
///
/// An `Err` means that memory ran out.
pub fn query_of_joins(
    alloc: Global,
    left: &[Vec<u8>],
    right: &[Vec<u8>],
) -> Result<Query, AllocError>
    ensures { IfOk result (λ query. IsPlainFor (has_all_of_one (joined_texts (texts_of left.now) (texts_of right.now))) (formula_of query)) }
{
    if left.is_empty() || right.is_empty() {
        return Ok(Query::None);
    }
    if has_short_join(left, right) {
        return Ok(Query::Any);
    }
    if left.len() == 1 && right.len() == 1 {
        let text = joined(alloc, left[0].as_slice(), right[0].as_slice())?;
        return query_of_text(alloc, text.as_slice());
    }
    let pairs = Pairs::of(alloc, left, right)?;
    Ok(Query::Pairs(Box::new(alloc, pairs)?))
}

/// Whether a text of the first list followed by one of the second has no trigram.
fn has_short_join(left: &[Vec<u8>], right: &[Vec<u8>]) -> bool
    ensures { IsTrue result → (set : TrigramSet) → has_all_of_one (joined_texts (texts_of left.now) (texts_of right.now)) set ≡ true }
{
    for prefix in left {
        if is_short_before_one(prefix.as_slice(), right) {
            return true;
        }
    }
    false
}

/// Whether the text followed by one of these has no trigram.
fn is_short_before_one(prefix: &[u8], right: &[Vec<u8>]) -> bool
    ensures { IsTrue result → (set : TrigramSet) → has_all_of_one (map (λ suffix. prefix.now ++ suffix) (texts_of right.now)) set ≡ true }
{
    for suffix in right {
        if prefix.len() + suffix.len() < SHORTEST {
            return true;
        }
    }
    false
}

/// A plain query that a set meets exactly if it has all trigrams of the text.
fn query_of_text(alloc: Global, text: &[u8]) -> Result<Query, AllocError>
    ensures { IfOk result (λ query. IsPlainFor (has_all_trigrams text.now) (formula_of query)) }
{
    let mut query = Query::Any;
    for i in 0..text.len().saturating_sub(2) {
        query = join(
            alloc,
            Connective::And,
            query,
            Query::Has(trigram_at(text, i)),
        )?;
    }
    Ok(query)
}

/// The trigrams of the text, one for each three bytes in a row, from the first on. A text of fewer than three bytes has
/// none.
///
/// An `Err` means that memory ran out.
pub fn trigrams_in_turn(alloc: Global, text: &[u8]) -> Result<Vec<Trigram>, AllocError>
    ensures { IfOk result (λ trigrams. (set : TrigramSet) → list_all set trigrams.items ≡ has_all_trigrams text.now set) }
{
    let mut trigrams = Vec::new(alloc);
    for i in 0..text.len().saturating_sub(2) {
        trigrams.push(trigram_at(text, i))?;
    }
    Ok(trigrams)
}

/// Every text of the first list, followed by every text of the second, in this order.
///
/// An `Err` means that memory ran out.
pub fn joined_texts(
    alloc: Global,
    left: &[Vec<u8>],
    right: &[Vec<u8>],
) -> Result<Vec<Vec<u8>>, AllocError>
    ensures { IfOk result (λ whole. texts_of whole.items ≡ joined_texts (texts_of left.now) (texts_of right.now)) }
{
    let mut whole = Vec::new(alloc);
    for prefix in left {
        push_joins(alloc, &mut whole, prefix.as_slice(), right)?;
    }
    Ok(whole)
}

fn push_joins(
    alloc: Global,
    whole: &mut Vec<Vec<u8>>,
    prefix: &[u8],
    suffixes: &[Vec<u8>],
) -> Result<(), AllocError>
    ensures { OnOk result (texts_of whole.new.items ≡ texts_of whole.old.items ++ map (λ suffix. prefix.now ++ suffix) (texts_of suffixes.now)) }
{
    for suffix in suffixes {
        whole.push(joined(alloc, prefix, suffix.as_slice())?)?;
    }
    Ok(())
}

/// One text, followed by another.
///
/// An `Err` means that memory ran out.
pub fn joined(alloc: Global, prefix: &[u8], suffix: &[u8]) -> Result<Vec<u8>, AllocError>
    ensures { IfOk result (λ text. text.items ≡ prefix.now ++ suffix.now) }
{
    let mut text = Vec::with_capacity(alloc, prefix.len().saturating_add(suffix.len()))?;
    text.extend_from_slice(prefix)?;
    text.extend_from_slice(suffix)?;
    Ok(text)
}

/// Whether the lists have equal texts in the same order.
#[cycle(are_same_texts)]
pub fn are_same_texts(texts: &[Vec<u8>], others: &[Vec<u8>]) -> bool
    ensures { IsTrue result → texts_of texts.now ≡ texts_of others.now }
{
    match (texts.split_first(), others.split_first()) {
        (None, None) => true,
        (Some((text, rest)), Some((other, rest_of_others))) => {
            text == other && are_same_texts(rest, rest_of_others)
        }
        _ => false,
    }
}
