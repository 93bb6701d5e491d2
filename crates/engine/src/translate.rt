//! The engine's pattern for a tree.

ghost use Rattle.std.specs.Prelude.{◌≡◌, ◌≤◌, ℕ, IfOk, IfSome, IsTrue, None, Some, map};
ghost use Rattle.regex_class.specs.Ranges.{in_ranges};
ghost use Rattle.regex_hir.specs.Meaning.{meaning};
ghost use Rattle.ere.specs.ByteSet.{has};
ghost use Rattle.ere.specs.Tree.{Tree, form, trees_of, cat, repeat};
ghost use Rattle.engine.specs.Translation.{StandsFor, StandForEach};
ghost use Rattle.engine.specs.SameLines.{CanBeEmpty, HaveSameLines};

use ere::{ByteSet, Ere};
use regex_class::Class;
use regex_hir::{Hir, Look};
use std::alloc::{AllocError, Global};

/// The engine's pattern for a tree that has the same lines: `d` for that of `((a*|b)*|c)*d`. What a tree begins with, and can be
/// empty, is left out, since a line with a match of the rest has one of the tree, and the other way round. An `Err` means that
/// memory ran out.
pub fn line_pattern_for(alloc: Global, tree: &Ere) -> Result<Hir, AllocError>
    ensures { IfOk result (λ hir. (other : Tree) × HaveSameLines (form tree.now) other × StandsFor other (meaning hir)) }
{
    match tree {
        Ere::Cat(members) => {
            let patterns = patterns_for(alloc, after_empty(members.as_slice()))?;
            Ok(Hir::Concat(patterns))
        }
        _ => pattern_for(alloc, tree),
    }
}

/// The members from the first one on that is not known to have an empty match everywhere.
fn after_empty(members: &[Ere]) -> &[Ere]
    ensures { HaveSameLines (cat (trees_of (map form members.now))) (cat (trees_of (map form result.now))) }
{
    let mut rest = members;
    while let [first, others @ ..] = rest {
        if !can_be_empty(first) {
            return rest;
        }
        rest = others;
    }
    rest
}

/// Whether the tree is one of no copies or more.
fn can_be_empty(tree: &Ere) -> bool
    ensures { IsTrue result → CanBeEmpty (form tree.now) }
{
    match tree {
        Ere::Repeat(_, least, _) => *least == 0,
        _ => false,
    }
}

/// The engine's pattern for a tree. An `Err` means that memory ran out.
#[cycle(translate)]
pub fn pattern_for(alloc: Global, tree: &Ere) -> Result<Hir, AllocError>
    ensures { IfOk result (λ hir. StandsFor (form tree.now) (meaning hir)) }
{
    match tree {
        Ere::Empty => Ok(Hir::Empty),
        Ere::Set(set) => Ok(Hir::Bytes(class_of(alloc, set)?)),
        Ere::Start => Ok(Hir::Look(Look::StartLf)),
        Ere::End => Ok(Hir::Look(Look::EndLf)),
        Ere::Cat(members) => Ok(Hir::Concat(patterns_for(alloc, members.as_slice())?)),
        Ere::Alt(members) => Ok(Hir::Alternation(patterns_for(alloc, members.as_slice())?)),
        Ere::Repeat(body, least, greatest) => match greatest {
            None => starred(alloc, body, *least),
            Some(most) => bounded(alloc, body, *least, *most),
        },
    }
}

/// The patterns for the members, in their order.
#[cycle(translate)]
fn patterns_for(alloc: Global, members: &[Ere]) -> Result<Vec<Hir>, AllocError>
    ensures { IfOk result (λ hirs. StandForEach (trees_of (map form members.now)) (map meaning hirs.items)) }
{
    let mut hirs = Vec::new(alloc);
    for member in members {
        hirs.push(pattern_for(alloc, member)?)?;
    }
    Ok(hirs)
}

/// The pattern for `least` copies of the body or more. A star of a star becomes one star, since each further star
/// would make the pattern larger and its searches slower.
#[cycle(translate)]
fn starred(alloc: Global, body: &Ere, least: u8) -> Result<Hir, AllocError>
    ensures { IfOk result (λ hir. StandsFor (repeat (form body.now) least None) (meaning hir)) }
{
    if let Ere::Repeat(inner, inner_least, inner_greatest) = body {
        if let None = inner_greatest {
            if least <= 1 && *inner_least <= 1 {
                return starred(alloc, inner, least * *inner_least);
            }
        }
    }
    copies(alloc, body, least, None)
}

/// The pattern for `least` to `most` copies of the body.
#[cycle(translate)]
fn bounded(alloc: Global, body: &Ere, least: u8, most: u8) -> Result<Hir, AllocError>
    ensures { IfOk result (λ hir. StandsFor (repeat (form body.now) least (Some most)) (meaning hir)) }
{
    if most < least {
        // No number of copies is in this range, so there are no words. No pattern has such a tree.
        return Ok(Hir::Alternation(Vec::new(alloc)));
    }
    copies(alloc, body, least, Some(most as u32))
}

/// The engine's repetition of the body's pattern.
#[cycle(translate)]
fn copies(alloc: Global, body: &Ere, least: u8, most: Option<u32>) -> Result<Hir, AllocError>
    requires { IfSome most (λ greatest. least ≤ greatest) }
    ensures { IfOk result (λ hir. StandsFor (repeat (form body.now) least most) (meaning hir)) }
{
    let sub = pattern_for(alloc, body)?;
    Ok(Hir::Repetition {
        min: least as u32,
        max: most,
        greedy: true,
        sub: Box::new(alloc, sub)?,
    })
}

/// The engine's class for the bytes of a set.
fn class_of(alloc: Global, set: &ByteSet) -> Result<Class, AllocError>
    ensures { IfOk result (λ class. (b : ℕ) → in_ranges class.ranges.items b ≡ has set.now b) }
{
    let mut ranges = Vec::new(alloc);
    for i in 0..256u32 {
        if set.has(i as u8) {
            ranges.push((i, i))?;
        }
    }
    Class::new(ranges)
}
