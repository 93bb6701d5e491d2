//! The sizes of trees, and their limits.

ghost use Rattle.std.specs.Prelude.{◌≡◌, ◌+◌, ◌*◌, ◌≤◌, ◌↔◌, IfSome, IsTrue, map, min, nat_le};
ghost use Rattle.ere.specs.Limits.{height, highest, leaves, leaves_in, copies_counted, AreProper, HasTwo, IsProper, IsWithinLimits};
ghost use Rattle.ere.specs.Tree.{form, trees_of};

use crate::tree::Ere;

/// The greatest height of a pattern's tree (this program's choice). A leaf has height 1.
pub const MAX_HEIGHT: u8 = 64;

/// The greatest number of leaves of a pattern's tree, counted as in `Ere::within_limits` (this program's choice).
pub const MAX_LEAVES: u32 = 4096;

impl Ere {
    /// Whether the tree is within the limits, as the tree of every pattern is: each `Cat` and `Alt` has at least two
    /// members, no `Repeat` has a least count above its greatest, the height is at most 64, and there are at most
    /// 4,096 leaves. A `Repeat` counts each leaf of its body as often as its greatest count, or its least if it has no
    /// greatest, but at least once. (The limits are this program's choice.)
    ///
    /// It looks no deeper into a tree than the greatest height, so it takes little stack whatever the height.
    pub fn within_limits(&self) -> bool
        ensures { IsTrue result ↔ IsWithinLimits (form self.now) }
    {
        // The height comes first, so no call goes deeper into a tree of any height than the limit.
        is_low(self, MAX_HEIGHT) && is_proper(self) && capped_leaves(self) <= MAX_LEAVES
    }
}

/// Whether the tree is proper: each `Cat` and `Alt` has at least two members, and no `Repeat` has a least count above
/// its greatest.
#[cycle(proper)]
fn is_proper(tree: &Ere) -> bool
    ensures { IsTrue result ↔ IsProper (form tree.now) }
{
    match tree {
        Ere::Empty => true,
        Ere::Set(_) => true,
        Ere::Start => true,
        Ere::End => true,
        Ere::Cat(members) => members.len() >= 2 && are_proper(members),
        Ere::Alt(members) => members.len() >= 2 && are_proper(members),
        Ere::Repeat(body, least, greatest) => is_ordered(*least, *greatest) && is_proper(body),
    }
}

/// Whether all members are proper.
#[cycle(proper)]
fn are_proper(members: &[Ere]) -> bool
    ensures { IsTrue result ↔ AreProper (trees_of (map form members.now)) }
{
    let mut proper = true;
    for i in (0..members.len()).rev() {
        proper = is_proper(&members[i]) && proper;
    }
    proper
}

/// Whether the least count is not above the greatest.
fn is_ordered(least: u8, greatest: Option<u8>) -> bool
    ensures { IsTrue result ↔ IfSome greatest (λ most. least ≤ most) }
{
    match greatest {
        Some(most) => least <= most,
        None => true,
    }
}

/// Whether the tree's height is at most `most`. The calls nest no deeper than that.
#[cycle(height)]
pub fn is_low(tree: &Ere, most: u8) -> bool
    ensures { result ≡ nat_le (height (form tree.now)) most }
{
    if most == 0 {
        return false;
    }
    match tree {
        Ere::Empty => true,
        Ere::Set(_) => true,
        Ere::Start => true,
        Ere::End => true,
        Ere::Cat(members) => are_low(members, most - 1),
        Ere::Alt(members) => are_low(members, most - 1),
        Ere::Repeat(body, _, _) => is_low(body, most - 1),
    }
}

/// Whether the height of each member is at most `most`.
#[cycle(height)]
fn are_low(members: &[Ere], most: u8) -> bool
    ensures { result ≡ nat_le (highest (trees_of (map form members.now))) most }
{
    let mut low = true;
    for i in (0..members.len()).rev() {
        low = is_low(&members[i], most) && low;
    }
    low
}

/// The number of the tree's leaves (as in `Ere::within_limits`), or 4,097 if there are more.
#[cycle(leaves)]
pub fn capped_leaves(tree: &Ere) -> u32
    ensures { result ≡ min (leaves (form tree.now)) 4097 }
{
    match tree {
        Ere::Empty => 1,
        Ere::Set(_) => 1,
        Ere::Start => 1,
        Ere::End => 1,
        Ere::Cat(members) => capped_leaves_in(members),
        Ere::Alt(members) => capped_leaves_in(members),
        Ere::Repeat(body, least, greatest) => {
            (counted(*least, *greatest) * capped_leaves(body)).min(4097)
        }
    }
}

/// The number of all members' leaves, or 4,097 if there are more.
#[cycle(leaves)]
fn capped_leaves_in(members: &[Ere]) -> u32
    ensures { result ≡ min (leaves_in (trees_of (map form members.now))) 4097 }
{
    let mut sum: u32 = 0;
    for i in (0..members.len()).rev() {
        sum = (sum + capped_leaves(&members[i])).min(4097);
    }
    sum
}

/// How many times a repeat counts the leaves of its body.
fn counted(least: u8, greatest: Option<u8>) -> u32
    ensures counted { result ≡ copies_counted least greatest }
    ensures within { result ≤ 255 }
{
    match greatest {
        Some(most) => u32::from(most.max(1)),
        None => u32::from(least.max(1)),
    }
}
