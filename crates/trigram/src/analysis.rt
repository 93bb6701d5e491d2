//! The analysis of a pattern into the condition that every document with a matching line meets.

ghost use Rattle.std.specs.Prelude.{◌≡◌, IfOk, IfSome, IfNone, IsTrue, true, false, map, ◌∷◌, [], None, Some, if◌then◌else◌};
ghost use Rattle.ere.specs.Limits.{IsWithinLimits};
ghost use Rattle.ere.specs.Tree.{form, trees_of};
ghost use Rattle.ere.specs.Tree as tree;
ghost use Rattle.query.specs.Query.{formula_of, is_met, IsPlain, IsPlainFor};
ghost use Rattle.trigram.specs.Texts.{union, joins, has_all_of_one};
ghost use Rattle.trigram.specs.Private.Values.{texts_of, shown_analysis, ends_analysis, without_condition, ArePlain, StandFor, EndsStandFor};
ghost use Rattle.trigram.specs.Analysis.{just_empty, anything, settle_loose, settle_known, are_kept, loosen, either, both};
ghost use Rattle.trigram.specs.Analysis.{copies_of, optional, repeated, bytes_in, one_byte, analysis_of, condition, known};

use crate::texts::{
    MOST_TEXTS, Side, copied_texts, few_joins, has_text, just_empty, kept_ends, query_of_texts,
    union,
};
use ere::{ByteSet, Ere};
use query::{Connective, Query, are_same_texts, join, joined_texts, query_of_joins};
use std::alloc::{AllocError, Global};

/// The length of the longest text that is kept whole, in bytes.
const LONGEST_TEXT: usize = 64;

/// What is known about the words of a pattern: the texts that it matches if each anchor counts as the empty text.
#[derive(Drop)]
pub(crate) enum Analysis {
    /// They are exactly these texts.
    Known(Vec<Vec<u8>>),
    /// Only their ends and a condition are known.
    Loose(Ends),
}

/// The ends of words.
#[derive(Drop)]
pub(crate) struct Ends {
    /// Whether a word can be empty.
    nullable: bool,
    /// Texts. Each word begins with one of them.
    prefixes: Vec<Vec<u8>>,
    /// Texts. Each word ends with one of them.
    suffixes: Vec<Vec<u8>>,
    /// A condition that every set with all trigrams of a word meets.
    condition: Query,
}

/// The condition of a pattern, as a plain query (see `simplify`). If a line of a document contains a match, the
/// trigrams of the document meet the query. (Russ Cox, "Regular Expression Matching with a Trigram Index", 2012,
/// "Indexed Regular Expression Search"; `specs/Analysis.antt` has the rules.)
///
/// The tree is within the limits of `ere`, as every tree that its reader returns is.
///
/// An `Err` means that memory ran out.
pub fn analyse(alloc: Global, tree: &Ere) -> Result<Query, AllocError>
    requires { IsWithinLimits (form tree.now) }
    ensures { IfOk result (λ query. IsPlainFor (condition (form tree.now)) (formula_of query)) }
{
    match analysis_of(alloc, tree)? {
        Analysis::Known(texts) => query_of_texts(alloc, texts.as_slice()),
        Analysis::Loose(ends) => Ok(condition_of(ends)),
    }
}

fn condition_of(ends: Ends) -> Query
    ensures { formula_of result ≡ formula_of ends.condition }
{
    let Ends {
        nullable: _,
        prefixes: _,
        suffixes: _,
        condition,
    } = ends;
    condition
}

/// Settles loose ends, with queries for the trigrams of their prefixes and of their suffixes.
fn settled(
    alloc: Global,
    ends: Ends,
    at_prefix: Query,
    at_suffix: Query,
) -> Result<Ends, AllocError>
    requires plain { IsPlain (formula_of ends.condition) }
    requires prefix { IsPlainFor (has_all_of_one (texts_of ends.prefixes.items)) (formula_of at_prefix) }
    requires suffix { IsPlainFor (has_all_of_one (texts_of ends.suffixes.items)) (formula_of at_suffix) }
    ensures { IfOk result (EndsStandFor
        (settle_loose ends.nullable (texts_of ends.prefixes.items) (texts_of ends.suffixes.items) (is_met (formula_of ends.condition)))) }
{
    let Ends {
        nullable,
        prefixes,
        suffixes,
        condition,
    } = ends;
    let at_ends = join(alloc, Connective::And, at_prefix, at_suffix)?;
    let condition = join(alloc, Connective::And, condition, at_ends)?;
    let prefixes = kept_ends(alloc, Side::Prefix, prefixes.as_slice())?;
    let suffixes = kept_ends(alloc, Side::Suffix, suffixes.as_slice())?;
    Ok(Ends {
        nullable,
        prefixes,
        suffixes,
        condition,
    })
}

fn settle_loose(alloc: Global, ends: Ends) -> Result<Ends, AllocError>
    requires { IsPlain (formula_of ends.condition) }
    ensures { IfOk result (EndsStandFor
        (settle_loose ends.nullable (texts_of ends.prefixes.items) (texts_of ends.suffixes.items) (is_met (formula_of ends.condition)))) }
{
    let at_prefix = query_of_texts(alloc, ends.prefixes.as_slice())?;
    let at_suffix = query_of_texts(alloc, ends.suffixes.as_slice())?;
    settled(alloc, ends, at_prefix, at_suffix)
}

fn loosen_known(alloc: Global, texts: Vec<Vec<u8>>) -> Result<Ends, AllocError>
    ensures { IfOk result (EndsStandFor (loosen (known (texts_of texts.items)))) }
{
    let condition = query_of_texts(alloc, texts.as_slice())?;
    loosened(alloc, texts, condition)
}

/// Loosens known texts, with a query for their trigrams.
fn loosened(alloc: Global, texts: Vec<Vec<u8>>, condition: Query) -> Result<Ends, AllocError>
    requires { IsPlainFor (has_all_of_one (texts_of texts.items)) (formula_of condition) }
    ensures { IfOk result (EndsStandFor (loosen (known (texts_of texts.items)))) }
{
    Ok(Ends {
        nullable: has_text(texts.as_slice(), &[]),
        prefixes: kept_ends(alloc, Side::Prefix, texts.as_slice())?,
        suffixes: kept_ends(alloc, Side::Suffix, texts.as_slice())?,
        condition,
    })
}

fn loosen(alloc: Global, analysis: Analysis) -> Result<Ends, AllocError>
    requires { ArePlain analysis }
    ensures { IfOk result (EndsStandFor (loosen (shown_analysis analysis))) }
{
    match analysis {
        Analysis::Known(texts) => loosen_known(alloc, texts),
        Analysis::Loose(ends) => Ok(ends),
    }
}

fn settle_known(alloc: Global, texts: Vec<Vec<u8>>) -> Result<Analysis, AllocError>
    ensures { IfOk result (StandFor (settle_known (texts_of texts.items))) }
{
    if are_kept(texts.as_slice()) {
        return Ok(Analysis::Known(texts));
    }
    Ok(Analysis::Loose(loosen_known(alloc, texts)?))
}

fn are_kept(texts: &[Vec<u8>]) -> bool
    ensures { result ≡ are_kept (texts_of texts.now) }
{
    if texts.len() > MOST_TEXTS {
        return false;
    }
    for text in texts {
        if text.len() > LONGEST_TEXT {
            return false;
        }
    }
    true
}

/// Two alternatives.
fn either(alloc: Global, left: Analysis, right: Analysis) -> Result<Analysis, AllocError>
    requires left { ArePlain left }
    requires right { ArePlain right }
    ensures { IfOk result (StandFor (either (shown_analysis left) (shown_analysis right))) }
{
    match left {
        Analysis::Known(texts) => match right {
            Analysis::Known(others) => settle_known(alloc, union(alloc, texts, others)?),
            Analysis::Loose(ends) => {
                let prefix = loosen_known(alloc, texts)?;
                Ok(Analysis::Loose(either_loose(alloc, prefix, ends)?))
            }
        },
        Analysis::Loose(ends) => {
            let other = loosen(alloc, right)?;
            Ok(Analysis::Loose(either_loose(alloc, ends, other)?))
        }
    }
}

fn either_loose(alloc: Global, left: Ends, right: Ends) -> Result<Ends, AllocError>
    requires left { IsPlain (formula_of left.condition) }
    requires right { IsPlain (formula_of right.condition) }
    ensures { IfOk result (EndsStandFor (either (ends_analysis left) (ends_analysis right))) }
{
    settle_loose(
        alloc,
        Ends {
            nullable: left.nullable || right.nullable,
            prefixes: union(alloc, left.prefixes, right.prefixes)?,
            suffixes: union(alloc, left.suffixes, right.suffixes)?,
            condition: join(alloc, Connective::Or, left.condition, right.condition)?,
        },
    )
}

/// Two neighbours, one after the other.
fn both(alloc: Global, left: Analysis, right: Analysis) -> Result<Analysis, AllocError>
    requires left { ArePlain left }
    requires right { ArePlain right }
    ensures { IfOk result (StandFor (both (shown_analysis left) (shown_analysis right))) }
{
    match left {
        Analysis::Known(prefixes) => match right {
            Analysis::Known(suffixes) => both_known(alloc, prefixes, suffixes),
            Analysis::Loose(ends) => Ok(Analysis::Loose(known_before(alloc, prefixes, ends)?)),
        },
        Analysis::Loose(ends) => match right {
            Analysis::Known(suffixes) => Ok(Analysis::Loose(known_after(alloc, ends, suffixes)?)),
            Analysis::Loose(others) => Ok(Analysis::Loose(both_loose(alloc, ends, others)?)),
        },
    }
}

fn both_known(
    alloc: Global,
    left: Vec<Vec<u8>>,
    right: Vec<Vec<u8>>,
) -> Result<Analysis, AllocError>
    ensures { IfOk result (StandFor (both (known (texts_of left.items)) (known (texts_of right.items)))) }
{
    if let Some(texts) = kept_joins(alloc, left.as_slice(), right.as_slice())? {
        return Ok(Analysis::Known(texts));
    }
    let condition = query_of_joins(alloc, left.as_slice(), right.as_slice())?;
    let texts = joined_texts(alloc, left.as_slice(), right.as_slice())?;
    Ok(Analysis::Loose(loosened(alloc, texts, condition)?))
}

/// The joins of known texts, if they are kept whole.
fn kept_joins(
    alloc: Global,
    left: &[Vec<u8>],
    right: &[Vec<u8>],
) -> Result<Option<Vec<Vec<u8>>>, AllocError>
    ensures some { IfOk result (λ o. IfSome o (λ texts. texts_of texts.items ≡ joins (texts_of left.now) (texts_of right.now))) }
    ensures kept { IfOk result (λ o. IfSome o (λ texts. are_kept (joins (texts_of left.now) (texts_of right.now)) ≡ true)) }
    ensures none { IfOk result (λ o. IfNone o (are_kept (joins (texts_of left.now) (texts_of right.now)) ≡ false)) }
{
    match few_joins(alloc, left, right)? {
        None => Ok(None),
        Some(texts) => {
            if are_kept(texts.as_slice()) {
                Ok(Some(texts))
            } else {
                Ok(None)
            }
        }
    }
}

fn known_before(alloc: Global, texts: Vec<Vec<u8>>, ends: Ends) -> Result<Ends, AllocError>
    requires { IsPlain (formula_of ends.condition) }
    ensures { IfOk result (EndsStandFor (both (known (texts_of texts.items)) (ends_analysis ends))) }
{
    let Ends {
        nullable,
        prefixes,
        suffixes,
        condition,
    } = ends;
    let all_nullable = has_text(texts.as_slice(), &[]) & nullable;
    let at_prefix = query_of_joins(alloc, texts.as_slice(), prefixes.as_slice())?;
    let prefixes = joined_texts(alloc, texts.as_slice(), prefixes.as_slice())?;
    let suffixes = widened(alloc, nullable, suffixes, texts)?;
    let at_suffix = query_of_texts(alloc, suffixes.as_slice())?;
    let whole = Ends {
        nullable: all_nullable,
        prefixes,
        suffixes,
        condition,
    };
    settled(alloc, whole, at_prefix, at_suffix)
}

fn known_after(alloc: Global, ends: Ends, texts: Vec<Vec<u8>>) -> Result<Ends, AllocError>
    requires { IsPlain (formula_of ends.condition) }
    ensures { IfOk result (EndsStandFor (both (ends_analysis ends) (known (texts_of texts.items)))) }
{
    let Ends {
        nullable,
        prefixes,
        suffixes,
        condition,
    } = ends;
    let all_nullable = nullable & has_text(texts.as_slice(), &[]);
    let at_suffix = query_of_joins(alloc, suffixes.as_slice(), texts.as_slice())?;
    let suffixes = joined_texts(alloc, suffixes.as_slice(), texts.as_slice())?;
    let prefixes = widened(alloc, nullable, prefixes, texts)?;
    let at_prefix = query_of_texts(alloc, prefixes.as_slice())?;
    let whole = Ends {
        nullable: all_nullable,
        prefixes,
        suffixes,
        condition,
    };
    settled(alloc, whole, at_prefix, at_suffix)
}

fn both_loose(alloc: Global, left: Ends, right: Ends) -> Result<Ends, AllocError>
    requires left { IsPlain (formula_of left.condition) }
    requires right { IsPlain (formula_of right.condition) }
    ensures { IfOk result (EndsStandFor (both (ends_analysis left) (ends_analysis right))) }
{
    let Ends {
        nullable: left_nullable,
        prefixes: left_prefixes,
        suffixes: left_suffixes,
        condition: left_condition,
    } = left;
    let Ends {
        nullable: right_nullable,
        prefixes: right_prefixes,
        suffixes: right_suffixes,
        condition: right_condition,
    } = right;
    let across = query_of_joins(alloc, left_suffixes.as_slice(), right_prefixes.as_slice())?;
    let after = join(alloc, Connective::And, right_condition, across)?;
    let condition = join(alloc, Connective::And, left_condition, after)?;
    let prefixes = widened(alloc, left_nullable, left_prefixes, right_prefixes)?;
    let suffixes = widened(alloc, right_nullable, right_suffixes, left_suffixes)?;
    settle_loose(
        alloc,
        Ends {
            nullable: left_nullable & right_nullable,
            prefixes,
            suffixes,
            condition,
        },
    )
}

/// The ends of one neighbour, and those of the other too if the first can be empty.
fn widened(
    alloc: Global,
    nullable: bool,
    own: Vec<Vec<u8>>,
    other: Vec<Vec<u8>>,
) -> Result<Vec<Vec<u8>>, AllocError>
    ensures { IfOk result (λ ends. texts_of ends.items ≡ (if nullable then union (texts_of own.items) (texts_of other.items) else texts_of own.items)) }
{
    if nullable {
        return union(alloc, own, other);
    }
    Ok(own)
}

/// A copy, without the condition of loose ends.
fn without_condition(alloc: Global, analysis: &Analysis) -> Result<Analysis, AllocError>
    ensures { IfOk result (StandFor (without_condition (shown_analysis analysis.now))) }
{
    match analysis {
        Analysis::Known(texts) => Ok(Analysis::Known(copied_texts(alloc, texts)?)),
        Analysis::Loose(ends) => Ok(Analysis::Loose(Ends {
            nullable: ends.nullable,
            prefixes: copied_texts(alloc, &ends.prefixes)?,
            suffixes: copied_texts(alloc, &ends.suffixes)?,
            condition: Query::Any,
        })),
    }
}

/// Whether the same is known, apart from the conditions.
fn is_alike(one: &Analysis, other: &Analysis) -> bool
    ensures { IsTrue result → without_condition (shown_analysis one.now) ≡ without_condition (shown_analysis other.now) }
{
    match (one, other) {
        (Analysis::Known(texts), Analysis::Known(others)) => are_same_texts(texts, others),
        (Analysis::Loose(ends), Analysis::Loose(others)) => {
            ends.nullable == others.nullable
                && are_same_texts(&ends.prefixes, &others.prefixes)
                && are_same_texts(&ends.suffixes, &others.suffixes)
        }
        _ => false,
    }
}

/// One copy, and `others` more, one after the other. The condition of the first holds for the whole, so the others
/// come without it. If a copy leaves the ends as they are, those after it change nothing and are not made.
fn copies_of(alloc: Global, one: Analysis, others: u8) -> Result<Analysis, AllocError>
    requires { ArePlain one }
    ensures { IfOk result (StandFor (copies_of (shown_analysis one) others)) }
{
    let copy = without_condition(alloc, &one)?;
    let mut whole = one;
    for _made in 0..others {
        let before = without_condition(alloc, &whole)?;
        let next = without_condition(alloc, &copy)?;
        whole = both(alloc, whole, next)?;
        if is_alike(&whole, &before) {
            return Ok(whole);
        }
    }
    Ok(whole)
}

fn anything(alloc: Global) -> Result<Analysis, AllocError>
    ensures { IfOk result (StandFor anything) }
{
    Ok(Analysis::Loose(Ends {
        nullable: true,
        prefixes: just_empty(alloc)?,
        suffixes: just_empty(alloc)?,
        condition: Query::Any,
    }))
}

/// Between none and `most` copies.
fn optional(alloc: Global, one: Analysis, most: u8) -> Result<Analysis, AllocError>
    requires { ArePlain one }
    ensures { IfOk result (StandFor (optional (shown_analysis one) most)) }
{
    if most == 0 {
        return Ok(Analysis::Known(just_empty(alloc)?));
    }
    if most > 1 {
        return anything(alloc);
    }
    match one {
        Analysis::Known(texts) => settle_known(alloc, union(alloc, texts, just_empty(alloc)?)?),
        Analysis::Loose(_) => anything(alloc),
    }
}

fn repeated(
    alloc: Global,
    one: Analysis,
    least: u8,
    greatest: Option<u8>,
) -> Result<Analysis, AllocError>
    requires { ArePlain one }
    ensures { IfOk result (StandFor (repeated (shown_analysis one) least greatest)) }
{
    match greatest {
        None => at_least(alloc, one, least),
        Some(most) => between(alloc, one, least, most),
    }
}

fn at_least(alloc: Global, one: Analysis, least: u8) -> Result<Analysis, AllocError>
    requires { ArePlain one }
    ensures { IfOk result (StandFor (repeated (shown_analysis one) least None)) }
{
    if least == 0 {
        return anything(alloc);
    }
    if least == 1 {
        return Ok(Analysis::Loose(loosen(alloc, one)?));
    }
    match one {
        Analysis::Loose(ends) => copies_of(alloc, Analysis::Loose(ends), least - 1),
        Analysis::Known(texts) => {
            let first = Analysis::Known(copied_texts(alloc, texts.as_slice())?);
            let prefix = copies_of(alloc, first, least - 2)?;
            both(alloc, prefix, Analysis::Loose(loosen_known(alloc, texts)?))
        }
    }
}

fn between(alloc: Global, one: Analysis, least: u8, most: u8) -> Result<Analysis, AllocError>
    requires { ArePlain one }
    ensures { IfOk result (StandFor (repeated (shown_analysis one) least (Some most))) }
{
    if least == 0 {
        return optional(alloc, one, most);
    }
    let copy = without_condition(alloc, &one)?;
    let prefix = copies_of(alloc, one, least - 1)?;
    if least == most {
        return Ok(prefix);
    }
    let suffix = optional(alloc, copy, most.saturating_sub(least))?;
    both(alloc, prefix, suffix)
}

fn one_byte(alloc: Global, set: &ByteSet) -> Result<Analysis, AllocError>
    ensures { IfOk result (StandFor (one_byte set.now)) }
{
    let bytes = bytes_in(alloc, set)?;
    if bytes.len() <= MOST_TEXTS {
        return Ok(Analysis::Known(texts_of_bytes(alloc, bytes.as_slice())?));
    }
    Ok(Analysis::Loose(Ends {
        nullable: false,
        prefixes: just_empty(alloc)?,
        suffixes: just_empty(alloc)?,
        condition: Query::Any,
    }))
}

fn bytes_in(alloc: Global, set: &ByteSet) -> Result<Vec<u8>, AllocError>
    ensures { IfOk result (λ bytes. bytes.items ≡ bytes_in set.now) }
{
    let mut bytes = Vec::new(alloc);
    for i in 0..256usize {
        let byte = i as u8;
        if set.has(byte) {
            bytes.push(byte)?;
        }
    }
    Ok(bytes)
}

fn texts_of_bytes(alloc: Global, bytes: &[u8]) -> Result<Vec<Vec<u8>>, AllocError>
    ensures { IfOk result (λ texts. texts_of texts.items ≡ map (λ b. b ∷ []) bytes.now) }
{
    let mut texts = Vec::new(alloc);
    for byte in bytes {
        let mut text = Vec::new(alloc);
        text.push(*byte)?;
        texts.push(text)?;
    }
    Ok(texts)
}

#[cycle(analysis)]
fn analysis_of(alloc: Global, tree: &Ere) -> Result<Analysis, AllocError>
    ensures { IfOk result (StandFor (analysis_of (form tree.now))) }
{
    match tree {
        Ere::Empty => Ok(Analysis::Known(just_empty(alloc)?)),
        Ere::Start => Ok(Analysis::Known(just_empty(alloc)?)),
        Ere::End => Ok(Analysis::Known(just_empty(alloc)?)),
        Ere::Set(set) => one_byte(alloc, set),
        Ere::Cat(members) => analysis_of_neighbours(alloc, members.as_slice()),
        Ere::Alt(members) => analysis_of_alternatives(alloc, members.as_slice()),
        Ere::Repeat(body, least, greatest) => {
            let one = analysis_of(alloc, body)?;
            repeated(alloc, one, *least, *greatest)
        }
    }
}

#[cycle(analysis)]
fn analysis_of_neighbours(alloc: Global, members: &[Ere]) -> Result<Analysis, AllocError>
    ensures { IfOk result (StandFor (analysis_of (tree.cat (trees_of (map form members.now))))) }
{
    if members.is_empty() {
        return Ok(Analysis::Known(just_empty(alloc)?));
    }
    let mut whole = analysis_of(alloc, &members[0])?;
    for i in 1..members.len() {
        let next = analysis_of(alloc, &members[i])?;
        whole = both(alloc, whole, next)?;
    }
    Ok(whole)
}

#[cycle(analysis)]
fn analysis_of_alternatives(alloc: Global, members: &[Ere]) -> Result<Analysis, AllocError>
    ensures { IfOk result (StandFor (analysis_of (tree.alt (trees_of (map form members.now))))) }
{
    if members.is_empty() {
        return Ok(Analysis::Known(Vec::new(alloc)));
    }
    let mut whole = analysis_of(alloc, &members[0])?;
    for i in 1..members.len() {
        let next = analysis_of(alloc, &members[i])?;
        whole = either(alloc, whole, next)?;
    }
    Ok(whole)
}
