//! Queries over sets of trigrams.

ghost use Rattle.std.specs.Prelude.{◌≡◌, ◌<◌, IfOk, OnOk, IsTrue, length, map, Some, [], ◌∷◌};
ghost use Rattle.query.specs.Query.{formula_of, formulas_of, IsPlain, IsReduced, AreReducedParts, IsJoin, IsSimplification};
ghost use Rattle.query.specs.Private.Joining.{is_of, idle, constant_of, AreMembersOf, HasTakenIn, IsCompound, AddsNothing};

use crate::number::Trigram;
use crate::pairs::Pairs;
use std::alloc::{AllocError, Global};

/// A condition on a set of trigrams (Russ Cox, "Regular Expression Matching with a Trigram Index", 2012).
///
/// A query can be of any height. To drop it, to clone it and to compare it, calls nest as deep as it is high. By
/// measurement (`bench/levels.py`) each level takes 80 bytes of stack to drop or compare, and 320 to clone. `simplify`
/// takes 560, so 2 MiB of stack bear 3,700 levels that are simplified.
#[derive(Clone, Debug, PartialEq, Eq, Drop)]
pub enum Query {
    /// Every set meets it.
    Any,
    /// No set meets it.
    None,
    /// The set has this trigram.
    Has(Trigram),
    /// The set has all trigrams of one of these texts.
    Pairs(Box<Pairs>),
    /// The set meets each of these; with no members it is met by every set.
    And(Vec<Query>),
    /// The set meets at least one of these; with no members it is met by no set.
    Or(Vec<Query>),
}

/// How queries are joined.
#[derive(Clone, Copy)]
pub enum Connective {
    /// A set meets all of them.
    And,
    /// A set meets at least one of them.
    Or,
}

/// Fewer new conjuncts than these are compared with all old ones; more are looked up by their marks.
const FEW: usize = 8;

/// Whether two queries are built alike.
#[cycle(same)]
fn is_same(left: &Query, right: &Query) -> bool
    ensures { IsTrue result → formula_of left.now ≡ formula_of right.now }
{
    match (left, right) {
        (Query::Any, Query::Any) => true,
        (Query::None, Query::None) => true,
        (Query::Has(one), Query::Has(other)) => one.number() == other.number(),
        (Query::Pairs(one), Query::Pairs(other)) => one.is_same(other),
        (Query::And(ones), Query::And(others)) => are_same(ones.as_slice(), others.as_slice()),
        (Query::Or(ones), Query::Or(others)) => are_same(ones.as_slice(), others.as_slice()),
        _ => false,
    }
}

/// Whether the queries are built alike, each like the one in its place.
#[cycle(same)]
fn are_same(ones: &[Query], others: &[Query]) -> bool
    ensures { IsTrue result → map formula_of ones.now ≡ map formula_of others.now }
{
    if ones.len() != others.len() {
        return false;
    }
    for i in 0..ones.len() {
        if !is_same(&ones[i], &others[i]) {
            return false;
        }
    }
    true
}

/// A plain query that exactly the same sets of trigrams meet. A query is plain if it is `Any` or `None`, or if it
/// contains neither, each `And` and `Or` in it has at least two members, no `And` is directly in an `And`, and no
/// `Or` is directly in an `Or`.
///
/// Calls nest as deep as the query is high (see `Query` for how much stack that takes).
///
/// An `Err` means that memory ran out. The query that was passed in is dropped in either case.
pub fn simplify(alloc: Global, query: Query) -> Result<Query, AllocError>
    ensures { IfOk result (λ plain. IsSimplification (formula_of query) (formula_of plain)) }
{
    simplified(alloc, &query)
}

/// Does what `simplify` does, to a query that stays.
#[cycle(simplified)]
fn simplified(alloc: Global, query: &Query) -> Result<Query, AllocError>
    ensures { IfOk result (λ plain. IsSimplification (formula_of query.now) (formula_of plain)) }
{
    match query {
        Query::Any => Ok(Query::Any),
        Query::None => Ok(Query::None),
        Query::Has(trigram) => Ok(Query::Has(*trigram)),
        Query::Pairs(pairs) => Ok(Query::Pairs(Box::new(alloc, pairs.copy(alloc)?)?)),
        Query::And(members) => all_simplified(alloc, Connective::And, members.as_slice()),
        Query::Or(members) => all_simplified(alloc, Connective::Or, members.as_slice()),
    }
}

/// The simplified members, joined.
#[cycle(simplified)]
fn all_simplified(
    alloc: Global,
    connective: Connective,
    members: &[Query],
) -> Result<Query, AllocError>
    ensures { IfOk result (λ whole. IsCompound connective (map formula_of members.now) (formula_of whole)) }
{
    let mut whole = constant(idle(connective));
    for member in members {
        whole = join(alloc, connective, whole, simplified(alloc, member)?)?;
    }
    Ok(whole)
}

/// Joins two plain queries (see `simplify`) into a plain one. A set of trigrams meets the result exactly if it meets
/// both of them (`And`), or at least one of them (`Or`). With `And`, a member that comes from `right` is left out if
/// `left` has an equal one.
///
/// An `Err` means that memory ran out; both queries are then dropped.
pub fn join(
    alloc: Global,
    connective: Connective,
    left: Query,
    right: Query,
) -> Result<Query, AllocError>
    requires left { IsPlain (formula_of left) }
    requires right { IsPlain (formula_of right) }
    ensures { IfOk result (λ whole. IsJoin connective (formula_of left) (formula_of right) (formula_of whole)) }
{
    if let Some(met) = constant_of(&left) {
        if met == idle(connective) {
            return Ok(right);
        }
        return Ok(left);
    }
    if let Some(met) = constant_of(&right) {
        if met == idle(connective) {
            return Ok(left);
        }
        return Ok(right);
    }
    let mut members = members_of(alloc, connective, left)?;
    let further = members_of(alloc, connective, right)?;
    take_in(alloc, connective, &mut members, further)?;
    Ok(compound(connective, members))
}

/// The constant that adds nothing when it is joined.
fn idle(connective: Connective) -> bool
    ensures { result ≡ idle connective }
{
    match connective {
        Connective::And => true,
        Connective::Or => false,
    }
}

/// The constant of this truth.
fn constant(met: bool) -> Query
    ensures { constant_of (formula_of result) ≡ Some met }
{
    if met { Query::Any } else { Query::None }
}

/// The truth of a constant.
fn constant_of(query: &Query) -> Option<bool>
    ensures { result ≡ constant_of (formula_of query.now) }
{
    match query {
        Query::Any => Some(true),
        Query::None => Some(false),
        Query::Has(_) => None,
        Query::Pairs(_) => None,
        Query::And(_) => None,
        Query::Or(_) => None,
    }
}

/// Whether the query is an `And` or an `Or`, as the connective says.
fn is_of(connective: Connective, query: &Query) -> bool
    ensures { result ≡ is_of connective (formula_of query.now) }
{
    match query {
        Query::Any => false,
        Query::None => false,
        Query::Has(_) => false,
        Query::Pairs(_) => false,
        Query::And(_) => idle(connective),
        Query::Or(_) => !idle(connective),
    }
}

/// The members of a query of this connective; any other query is the only member.
fn members_of(alloc: Global, connective: Connective, query: Query) -> Result<Vec<Query>, AllocError>
    requires { IsReduced (formula_of query) }
    ensures { IfOk result (λ members. AreMembersOf connective (formula_of query) (map formula_of members.items)) }
{
    if !is_of(connective, &query) {
        return only(alloc, query);
    }
    match query {
        Query::And(members) => Ok(members),
        Query::Or(members) => Ok(members),
        Query::Any => Ok(Vec::new(alloc)),
        Query::None => Ok(Vec::new(alloc)),
        Query::Has(_) => Ok(Vec::new(alloc)),
        Query::Pairs(pairs) => only(alloc, Query::Pairs(pairs)),
    }
}

/// One query alone.
fn only(alloc: Global, query: Query) -> Result<Vec<Query>, AllocError>
    ensures { IfOk result (λ members. members.items ≡ query ∷ []) }
{
    let mut members = Vec::new(alloc);
    members.push(query)?;
    Ok(members)
}

/// Adds further members.
fn take_in(
    alloc: Global,
    connective: Connective,
    members: &mut Vec<Query>,
    further: Vec<Query>,
) -> Result<(), AllocError>
    requires old { AreReducedParts (is_of connective) (formulas_of (map formula_of members.old.items)) }
    requires further { AreReducedParts (is_of connective) (formulas_of (map formula_of further.items)) }
    ensures { OnOk result (HasTakenIn connective (map formula_of members.old.items) (map formula_of further.items) (map formula_of members.new.items)) }
{
    let marks = marks_for(alloc, connective, members.as_slice(), further.len())?;
    for member in further {
        add(connective, marks.as_slice(), members, member)?;
    }
    Ok(())
}

/// Adds one member, unless it is repeated.
fn add(
    connective: Connective,
    marks: &[(u64, usize)],
    members: &mut Vec<Query>,
    member: Query,
) -> Result<(), AllocError>
    requires old { AreReducedParts (is_of connective) (formulas_of (map formula_of members.old.items)) }
    requires further { AreReducedParts (is_of connective) (formulas_of (formula_of member ∷ [])) }
    ensures { OnOk result (HasTakenIn connective (map formula_of members.old.items) (formula_of member ∷ []) (map formula_of members.new.items)) }
{
    if is_repeated(connective, marks, members.as_slice(), &member) {
        return Ok(());
    }
    members.push(member)?;
    Ok(())
}

/// Whether the member is left out of a conjunction, as it equals one of the members. With no marks it is compared
/// with all of them.
fn is_repeated(
    connective: Connective,
    marks: &[(u64, usize)],
    members: &[Query],
    member: &Query,
) -> bool
    ensures { IsTrue result → AddsNothing connective (map formula_of members.now) (formula_of member.now) }
{
    match connective {
        Connective::Or => false,
        Connective::And => {
            if marks.is_empty() {
                has_same(members, member)
            } else {
                has_marked(marks, members, member)
            }
        }
    }
}

fn has_same(members: &[Query], member: &Query) -> bool
    ensures { IsTrue result → AddsNothing Connective.And (map formula_of members.now) (formula_of member.now) }
{
    for place in 0..members.len() {
        if stands_at(members, place, member) {
            return true;
        }
    }
    false
}

/// Whether there is such a place, and the query there equals this one.
fn stands_at(members: &[Query], place: usize, query: &Query) -> bool
    ensures { IsTrue result → AddsNothing Connective.And (map formula_of members.now) (formula_of query.now) }
{
    place < members.len() && is_same(&members[place], query)
}

/// Whether the member equals one that stands in the place of an equal mark.
fn has_marked(marks: &[(u64, usize)], members: &[Query], member: &Query) -> bool
    ensures { IsTrue result → AddsNothing Connective.And (map formula_of members.now) (formula_of member.now) }
{
    let wanted = mark_of(member);
    let first = match marks.binary_search(&(wanted, 0)) {
        Ok(place) => place,
        Err(place) => place,
    };
    for (mark, place) in &marks[first..] {
        if *mark != wanted {
            return false;
        }
        if stands_at(members, *place, member) {
            return true;
        }
    }
    false
}

/// The marks of the members of a conjunction with their places, sorted, if that saves time: if there are few further
/// members, or it is a disjunction, there are no marks.
fn marks_for(
    alloc: Global,
    connective: Connective,
    members: &[Query],
    further: usize,
) -> Result<Vec<(u64, usize)>, AllocError> {
    let mut marks = Vec::new(alloc);
    if further < FEW || !idle(connective) {
        return Ok(marks);
    }
    for (place, member) in members.iter().enumerate() {
        marks.push((mark_of(member), place))?;
    }
    marks.sort_unstable();
    Ok(marks)
}

/// A number that is the same for queries that are built alike, and mostly differs for others.
#[cycle(mark)]
fn mark_of(query: &Query) -> u64 {
    match query {
        Query::Any => 1,
        Query::None => 2,
        Query::Has(trigram) => mixed(3, trigram.number() as u64),
        Query::Pairs(pairs) => mark_of_bytes(6, pairs.bytes()),
        Query::And(members) => mark_of_all(4, members.as_slice()),
        Query::Or(members) => mark_of_all(5, members.as_slice()),
    }
}

#[cycle(mark)]
fn mark_of_all(start: u64, members: &[Query]) -> u64 {
    let mut mark = start;
    for member in members {
        mark = mixed(mark, mark_of(member));
    }
    mark
}

/// Some of the bytes are enough: the marks of other queries with the same ones may be the same.
fn mark_of_bytes(start: u64, bytes: &[u8]) -> u64 {
    let mut mark = mixed(start, bytes.len() as u64);
    for byte in bytes.iter().step_by(7) {
        mark = mixed(mark, *byte as u64);
    }
    mark
}

/// A number that depends on all bits of both.
fn mixed(mark: u64, next: u64) -> u64 {
    let both = (mark.rotate_left(23) ^ next).wrapping_mul(0x9E37_79B9_7F4A_7C15);
    both ^ (both >> 29)
}

/// The query of these members; a single one is the query itself.
fn compound(connective: Connective, mut members: Vec<Query>) -> Query
    requires parts { AreReducedParts (is_of connective) (formulas_of (map formula_of members.items)) }
    requires some { 0 < length members.items }
    ensures { IsCompound connective (map formula_of members.items) (formula_of result) }
{
    if members.len() == 1 {
        return members.remove(0);
    }
    match connective {
        Connective::And => Query::And(members),
        Connective::Or => Query::Or(members),
    }
}
