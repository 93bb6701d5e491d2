//! The node that stands for a tree.

ghost use Rattle.std.specs.Prelude.{◌≡◌, ℕ, ◌+◌, ◌-◌, ◌*◌, ◌≤◌, ◌<◌, IfOk, IfSome, IsTrue, None, Some, map, if◌then◌else◌};
ghost use Rattle.ere.specs.Tree.{form, trees_of, repeat, Tree, Trees, more};
ghost use Rattle.spans.specs.Spans.{Spans, SpansEach};
ghost use Rattle.simulation.specs.Packing.{gaps_of_either, gaps_of_times, nowhere, IsSomeNode, IsTreeNode, IsTurns};
ghost use Rattle.simulation.specs.Pending.{IsStride};
ghost use Rattle.simulation.specs.Private.Sequences.{GoesOn, IsSequence};

use crate::cells::{BITS, words_for};
use crate::gaps::{either_gaps, everywhere, nowhere, only_at, times_gaps};
use crate::node::{Gaps, Node, RepeatCounts, Sizes};
use crate::run::set_of;
use crate::sequence::{Packed, Sequence, is_nothing, no_bytes, no_sequence, settled, then};
use ere::Ere;
use std::alloc::{AllocError, Global};

/// The node for some copies of a tree.
///
/// An `Err` means that memory ran out, or that its cells would take more words than can be counted.
#[cycle(pack)]
pub(crate) fn pack(alloc: Global, tree: &Ere, copies: usize) -> Result<Packed, AllocError>
    requires { 0 < copies }
    ensures { IfOk result (λ packed. IsTreeNode (form tree.now) packed copies) }
{
    match tree {
        Ere::Empty => Ok(no_bytes(copies, everywhere())),
        Ere::Set(members) => Ok(Packed {
            node: Node::Set(*members),
            size: words_for(copies),
            gaps: nowhere(),
        }),
        Ere::Start => Ok(no_bytes(copies, only_at(true, false))),
        Ere::End => Ok(no_bytes(copies, only_at(false, true))),
        Ere::Cat(members) => {
            let all = then_each(alloc, no_sequence(alloc, copies), members, copies)?;
            settled(alloc, all, copies)
        }
        Ere::Alt(members) => pack_some(alloc, members, copies),
        Ere::Repeat(body, least, greatest) => {
            let all = then_repeat(
                alloc,
                no_sequence(alloc, copies),
                body,
                *least,
                *greatest,
                copies,
            )?;
            settled(alloc, all, copies)
        }
    }
}

/// The sequence, and then a word of a tree.
#[cycle(pack)]
fn then_tree(
    alloc: Global,
    sequence: Sequence,
    tree: &Ere,
    copies: usize,
) -> Result<Sequence, AllocError>
    requires some { 0 < copies }
    requires valid { IsSequence sequence copies }
    ensures { IfOk result (λ longer. GoesOn (λ line. Spans line (form tree.now)) sequence longer copies) }
{
    match tree {
        Ere::Cat(members) => then_each(alloc, sequence, members, copies),
        Ere::Repeat(body, least, greatest) => {
            then_repeat(alloc, sequence, body, *least, *greatest, copies)
        }
        _ => {
            let one = pack(alloc, tree, copies)?;
            then(alloc, sequence, one, copies)
        }
    }
}

/// The sequence, and then a word of each member.
#[cycle(pack)]
fn then_each(
    alloc: Global,
    sequence: Sequence,
    members: &[Ere],
    copies: usize,
) -> Result<Sequence, AllocError>
    requires some { 0 < copies }
    requires valid { IsSequence sequence copies }
    ensures { IfOk result (λ longer. GoesOn (λ line. SpansEach line (trees_of (map form members.now))) sequence longer copies) }
{
    let mut longer = sequence;
    for i in 0..members.len() {
        longer = then_tree(alloc, longer, &members[i], copies)?;
    }
    Ok(longer)
}

/// The sequence, and then at least `least` words of the body and at most `greatest`.
#[cycle(pack)]
fn then_repeat(
    alloc: Global,
    sequence: Sequence,
    body: &Ere,
    least: u8,
    greatest: Option<u8>,
    copies: usize,
) -> Result<Sequence, AllocError>
    requires some { 0 < copies }
    requires valid { IsSequence sequence copies }
    ensures { IfOk result (λ longer. GoesOn (λ line. Spans line (repeat (form body.now) least greatest)) sequence longer copies) }
{
    match turns_in_row(body, least, greatest, copies) {
        Some(most) => then_turns(alloc, sequence, body, least, most, copies),
        None => {
            let one = pack_repeat(alloc, body, least, greatest, copies)?;
            then(alloc, sequence, one, copies)
        }
    }
}

/// The sequence, and then the body `most` times, of which those beyond the least number can be left out.
#[cycle(pack)]
fn then_turns(
    alloc: Global,
    sequence: Sequence,
    body: &Ere,
    least: u8,
    most: u8,
    copies: usize,
) -> Result<Sequence, AllocError>
    requires some { 0 < copies }
    requires ordered { least ≤ most }
    requires valid { IsSequence sequence copies }
    ensures { IfOk result (λ longer. GoesOn (λ line. Spans line (repeat (form body.now) least (Some most))) sequence longer copies) }
{
    let mut longer = sequence;
    for turn in 0..most {
        longer = then_turn(alloc, longer, body, turn < least, copies)?;
    }
    Ok(longer)
}

/// The sequence, and then a word of the body, which can be left out unless it is needed.
#[cycle(pack)]
fn then_turn(
    alloc: Global,
    sequence: Sequence,
    body: &Ere,
    needed: bool,
    copies: usize,
) -> Result<Sequence, AllocError>
    requires some { 0 < copies }
    requires valid { IsSequence sequence copies }
    ensures { IfOk result (λ longer. GoesOn (λ line. Spans line (repeat (form body.now) (if needed then 1 else 0) (Some 1))) sequence longer copies) }
{
    if needed {
        return then_tree(alloc, sequence, body, copies);
    }
    let one = pack(alloc, body, copies)?;
    then(alloc, sequence, once(one, 0), copies)
}

/// The node for a word of one of the members.
#[cycle(pack)]
fn pack_some(alloc: Global, members: &[Ere], copies: usize) -> Result<Packed, AllocError>
    requires { 0 < copies }
    ensures { IfOk result (λ packed. IsSomeNode (trees_of (map form members.now)) packed copies) }
{
    let mut rest = no_bytes(copies, nowhere());
    for i in (0..members.len()).rev() {
        let member = pack(alloc, &members[i], copies)?;
        rest = either(alloc, member, rest, copies)?;
    }
    Ok(rest)
}

/// The node for at least `least` words of the body and at most `greatest`.
#[cycle(pack)]
fn pack_repeat(
    alloc: Global,
    body: &Ere,
    least: u8,
    greatest: Option<u8>,
    copies: usize,
) -> Result<Packed, AllocError>
    requires { 0 < copies }
    ensures { IfOk result (λ packed. IsTreeNode (repeat (form body.now) least greatest) packed copies) }
{
    match greatest {
        Some(most) => {
            if most < least {
                return Ok(no_bytes(copies, nowhere()));
            }
            if most == 0 {
                return Ok(no_bytes(copies, everywhere()));
            }
            if most == 1 {
                let one = pack(alloc, body, copies)?;
                return Ok(once(one, least));
            }
            pack_times(alloc, body, least, Some(most), most, copies)
        }
        None => {
            if least > 1 {
                return pack_times(alloc, body, least, greatest, least, copies);
            }
            let one = pack(alloc, body, copies)?;
            looped(alloc, one, least, copies)
        }
    }
}

/// The node for a number of words that takes more than one turn.
#[cycle(pack)]
fn pack_times(
    alloc: Global,
    body: &Ere,
    least: u8,
    greatest: Option<u8>,
    turns: u8,
    copies: usize,
) -> Result<Packed, AllocError>
    requires copies { 0 < copies }
    requires some { 1 < turns }
    requires counted { IsTurns least greatest turns }
    ensures { IfOk result (λ packed. IsTreeNode (repeat (form body.now) least greatest) packed copies) }
{
    let Some(stride) = stride_for(copies) else {
        return Err(AllocError);
    };
    let Some(all) = stride.checked_mul(turns as usize) else {
        return Err(AllocError);
    };
    let one = pack(alloc, body, all)?;
    times(alloc, one, least, greatest, turns, copies, stride, all)
}

/// The greatest number of words, if that many words of the body are a row of places for which one word of cells has room.
fn turns_in_row(body: &Ere, least: u8, greatest: Option<u8>, copies: usize) -> Option<u8>
    requires { 0 < copies }
    ensures { IfSome result (λ most. (greatest ≡ Some most) × (least ≤ most)) }
{
    let most = greatest?;
    if most < least {
        return None;
    }
    let places = places_in(body);
    if places > 1 && least < most || places.saturating_mul(most as usize) >= BITS / copies {
        return None;
    }
    Some(most)
}

/// How many places the tree is, or at least as many as a word has bits if it is no row of places.
#[cycle(places_in)]
fn places_in(tree: &Ere) -> usize {
    if is_set(tree) {
        return 1;
    }
    match tree {
        Ere::Cat(members) => {
            let mut places = 0usize;
            for i in 0..members.len() {
                places = places.saturating_add(places_in(&members[i]));
            }
            places
        }
        Ere::Repeat(body, least, None) if *least <= 1 && is_set(body) => 1,
        Ere::Repeat(body, least, Some(most)) => {
            let places = places_in(body);
            if places == 1 || least == most {
                places.saturating_mul(*most as usize)
            } else {
                BITS
            }
        }
        _ => BITS,
    }
}

/// Whether the tree is packed as one set.
#[cycle(is_set)]
fn is_set(tree: &Ere) -> bool {
    match tree {
        Ere::Set(_) => true,
        Ere::Alt(members) => {
            for i in 0..members.len() {
                if !is_set(&members[i]) {
                    return false;
                }
            }
            true
        }
        _ => false,
    }
}

/// A number of words of a body that was packed for all copies.
fn times(
    alloc: Global,
    body: Packed,
    least: u8,
    greatest: Option<u8>,
    turns: u8,
    copies: usize,
    stride: usize,
    all: usize,
) -> Result<Packed, AllocError>
    requires stride { IsStride copies stride }
    requires all { all ≡ turns * stride }
    requires some { 1 < turns }
    requires counted { IsTurns least greatest turns }
    ensures { IfOk result (λ packed. (tree : Tree) → IsTreeNode tree body all → IsTreeNode (repeat tree least greatest) packed copies) }
{
    let own = words_for(copies);
    let Some(size) = own.checked_add(body.size) else {
        return Err(AllocError);
    };
    let counts = RepeatCounts {
        least: counted_least(least, body.gaps),
        copies: turns as usize,
        unbounded: greatest.is_none(),
        gaps: counted_gaps(body.gaps),
        own,
        stride,
        all,
    };
    let gaps = times_gaps(least, body.gaps);
    let node = Node::Times(Box::new(alloc, body.node)?, counts);
    Ok(Packed { node, size, gaps })
}

/// The least number of words that are not empty: none if others can be empty anywhere.
fn counted_least(least: u8, gaps: Gaps) -> usize
    ensures { result ≡ (if gaps.inside then 0 else least) }
{
    if gaps.inside { 0 } else { least as usize }
}

/// Where the empty words of a body are counted: nowhere if they are anywhere.
fn counted_gaps(gaps: Gaps) -> Gaps
    ensures { result ≡ (if gaps.inside then nowhere else gaps) }
{
    if gaps.inside { nowhere() } else { gaps }
}

/// At most one word.
fn once(one: Packed, least: u8) -> Packed
    requires { least ≤ 1 }
    ensures { (tree : Tree) (copies : ℕ) → IsTreeNode tree one copies → IsTreeNode (repeat tree least (Some 1)) result copies }
{
    Packed {
        node: one.node,
        size: one.size,
        gaps: times_gaps(least, one.gaps),
    }
}

/// Any number of words, or one or more.
fn looped(alloc: Global, one: Packed, least: u8, copies: usize) -> Result<Packed, AllocError>
    requires { least ≤ 1 }
    ensures { IfOk result (λ packed. (tree : Tree) → IsTreeNode tree one copies → IsTreeNode (repeat tree least None) packed copies) }
{
    let node = Node::Loop(Box::new(alloc, one.node)?, words_for(copies));
    Ok(Packed {
        node,
        size: one.size,
        gaps: times_gaps(least, one.gaps),
    })
}

/// A word of either node. Two sets become one.
fn either(alloc: Global, first: Packed, second: Packed, copies: usize) -> Result<Packed, AllocError>
    ensures { IfOk result (λ packed. (tree : Tree) (trees : Trees) → IsTreeNode tree first copies → IsSomeNode trees second copies → IsSomeNode (more tree trees) packed copies) }
{
    let gaps = either_gaps(first.gaps, second.gaps);
    if is_nothing(&second.node) {
        return Ok(Packed {
            node: first.node,
            size: first.size,
            gaps,
        });
    }
    if let Some(one) = set_of(&first.node) {
        if let Some(two) = set_of(&second.node) {
            return Ok(Packed {
                node: Node::Set(one.union(&two)),
                size: first.size,
                gaps,
            });
        }
    }
    let own = words_for(copies);
    let Some(members) = first.size.checked_add(second.size) else {
        return Err(AllocError);
    };
    let Some(size) = own.checked_add(members) else {
        return Err(AllocError);
    };
    let sizes = Sizes {
        own,
        first: first.size,
    };
    let left = Box::new(alloc, first.node)?;
    let right = Box::new(alloc, second.node)?;
    Ok(Packed {
        node: Node::Either(left, right, sizes),
        size,
        gaps,
    })
}

/// The stride of some copies, or nothing if it is greater than any number.
fn stride_for(copies: usize) -> Option<usize>
    requires { 0 < copies }
    ensures { IfSome result (IsStride copies) }
{
    match copies {
        1 => Some(1),
        2 => Some(2),
        3..=4 => Some(4),
        5..=8 => Some(8),
        9..=16 => Some(16),
        17..=32 => Some(32),
        _ => words_for(copies).checked_mul(BITS),
    }
}
