//! The parts that the reader of patterns builds.

ghost use Rattle.std.specs.Prelude.{◌≡◌, ◌+◌, Some, IfErr, IfOk};
ghost use Rattle.ere.specs.Limits.{height};
ghost use Rattle.ere.specs.Private.Reading.{join, AreBuilt, IsBuilt};
ghost use Rattle.ere.specs.Spelling.{alternatives_of, branch_of};
ghost use Rattle.ere.specs.Tree.{form, more, none, repeat, Tree, Trees};

use crate::error::{EreError, EreErrorKind};
use crate::limits::MAX_HEIGHT;
use crate::tree::Ere;
use std::alloc::Global;

/// A tree and its height.
#[derive(Debug, Drop)]
pub struct Part {
    /// The tree.
    pub tree: Ere,
    /// Its height: 1 for a leaf, and at most `MAX_HEIGHT`.
    pub height: u8,
}

/// Trees and the height of the highest.
#[derive(Debug, Drop)]
pub struct Members {
    /// The trees.
    pub trees: Vec<Ere>,
    /// The greatest of their heights; 0 if there are none.
    pub highest: u8,
}

/// No members.
pub fn no_members(alloc: Global) -> Option<Members>
    ensures { AreBuilt result none }
{
    Some(Members {
        trees: Vec::new(alloc),
        highest: 0,
    })
}

/// The members, with one more at the end. `None` if one of them is higher than the limit: then `members` or `part` is
/// `None` too.
///
/// An `Err` is `OutOfMemory`, at 0. The members and the part are then dropped.
pub fn with_member(
    members: Option<Members>,
    part: Option<Part>,
) -> Result<Option<Members>, EreError>
    ensures ok { IfOk result (λ all. (trees : Trees) (tree : Tree) → AreBuilt members trees → IsBuilt part tree → AreBuilt all (join trees (more tree none))) }
    ensures err { IfErr result (λ e. e.kind ≡ EreErrorKind.OutOfMemory) }
{
    let Some(mut members) = members else {
        return Ok(None);
    };
    let Some(part) = part else {
        return Ok(None);
    };
    members.trees.push(part.tree)?;
    members.highest = members.highest.max(part.height);
    Ok(Some(members))
}

/// The tree of a branch of these pieces: the empty text for no piece, for one that piece, and for more a `Cat`. `None`
/// if it is higher than the limit.
pub fn branch_of(pieces: Option<Members>) -> Option<Part>
    ensures { (trees : Trees) → AreBuilt pieces trees → IsBuilt result (branch_of trees) }
{
    let Some(pieces) = pieces else {
        return None;
    };
    match pieces.trees.len() {
        0 => Some(leaf(Ere::Empty)),
        1 => only(pieces),
        _ => higher(Ere::Cat(pieces.trees), pieces.highest),
    }
}

/// The tree of alternatives of these branches, of which there is at least one: for one that branch, and for more an
/// `Alt`. `None` if it is higher than the limit.
pub fn alternatives_of(branches: Option<Members>) -> Option<Part>
    ensures { (trees : Trees) → AreBuilt branches trees → IsBuilt result (alternatives_of trees) }
{
    let Some(branches) = branches else {
        return None;
    };
    match branches.trees.len() {
        1 => only(branches),
        _ => higher(Ere::Alt(branches.trees), branches.highest),
    }
}

/// The tree of a duplication of a part, with its least count, and its greatest if it has one. `None` if it is higher
/// than the limit.
///
/// An `Err` is `OutOfMemory`, at 0. The part is then dropped.
pub fn repeat_of(
    alloc: Global,
    part: Option<Part>,
    least: u8,
    greatest: Option<u8>,
) -> Result<Option<Part>, EreError>
    ensures ok { IfOk result (λ r. (tree : Tree) → IsBuilt part tree → IsBuilt r (repeat tree least greatest)) }
    ensures err { IfErr result (λ e. e.kind ≡ EreErrorKind.OutOfMemory) }
{
    let Some(part) = part else {
        return Ok(None);
    };
    if part.height >= MAX_HEIGHT {
        return Ok(None);
    }
    let body = Box::new(alloc, part.tree)?;
    Ok(Some(Part {
        tree: Ere::Repeat(body, least, greatest),
        height: part.height + 1,
    }))
}

/// A leaf, which has height 1.
pub fn leaf(tree: Ere) -> Part
    ensures { (plain : Tree) → form tree ≡ plain → height plain ≡ 1 → IsBuilt (Some result) plain }
{
    Part { tree, height: 1 }
}

/// The only one of the members.
fn only(members: Members) -> Option<Part>
    ensures { (tree : Tree) → AreBuilt (Some members) (more tree none) → IsBuilt result tree }
{
    let mut trees = members.trees;
    match trees.pop() {
        Some(tree) => Some(Part {
            tree,
            height: members.highest,
        }),
        None => None,
    }
}

/// A tree that is one higher than its highest member, or `None` if it is higher than the limit.
fn higher(tree: Ere, highest: u8) -> Option<Part>
    ensures { (plain : Tree) → form tree ≡ plain → height plain ≡ highest + 1 → IsBuilt result plain }
{
    if highest < MAX_HEIGHT {
        Some(Part {
            tree,
            height: highest + 1,
        })
    } else {
        None
    }
}
