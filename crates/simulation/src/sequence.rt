//! Nodes one after the other.

ghost use Rattle.std.specs.Prelude.{◌≡◌, ◌+◌, ◌*◌, ◌<◌, ◌≤◌, ◌∷◌, [], length, IfOk, IsTrue};
ghost use Rattle.simulation.specs.Nodes.{nothing, shape};
ghost use Rattle.simulation.specs.Pending.{words_for};
ghost use Rattle.simulation.specs.Private.Rows.{OfRow};
ghost use Rattle.simulation.specs.Private.Sequences.{AreSame, GoesOn, Holds, IsFor, IsSequence, Then, WordsOf, WordsOfSequence};

use crate::cells::{BITS, words_for};
use crate::gaps::{both_gaps, everywhere, is_everywhere};
use crate::node::{Gaps, Node, Sizes};
use crate::run::{RowSet, gaps_of_row, place_of, run_of};
use std::alloc::{AllocError, Global};

/// A node, how many words its cells take, and where its tree has the empty word.
#[derive(Drop)]
pub(crate) struct Packed {
    /// The node.
    pub(crate) node: Node,
    /// How many words of 64 bits its cells take, with those of its members.
    pub(crate) size: usize,
    /// Where its tree has the empty word.
    pub(crate) gaps: Gaps,
}

/// What has been packed of a sequence: a node, and the places of a run after it, whose masks are still to be made.
#[derive(Drop)]
pub(crate) struct Sequence {
    /// The node.
    pub(crate) before: Packed,
    /// The places.
    pub(crate) row: Vec<RowSet>,
}

/// A sequence of nothing yet.
pub(crate) fn no_sequence(alloc: Global, copies: usize) -> Sequence
    ensures same { AreSame (WordsOfSequence result) (λ line from to. from ≡ to) }
    ensures valid { IsSequence result copies }
{
    after(alloc, no_bytes(copies, everywhere()))
}

/// A sequence of one node.
fn after(alloc: Global, before: Packed) -> Sequence
    ensures before { result.before ≡ before }
    ensures row { result.row.items ≡ [] }
{
    Sequence {
        before,
        row: Vec::new(alloc),
    }
}

/// The sequence, and then a node. Sets in a row become one node, also if they can be left out or repeated.
///
/// An `Err` means that memory ran out, or that its cells would take more words than can be counted.
pub(crate) fn then(
    alloc: Global,
    sequence: Sequence,
    one: Packed,
    copies: usize,
) -> Result<Sequence, AllocError>
    requires some { 0 < copies }
    requires valid { IsSequence sequence copies }
    requires one { IsFor one copies }
    ensures { IfOk result (λ longer. GoesOn (WordsOf one) sequence longer copies) }
{
    if copies <= BITS / 2 {
        if let Some(place) = place_of(&one.node, one.gaps) {
            return then_place(alloc, sequence, place, copies);
        }
    }
    let before = settled(alloc, sequence, copies)?;
    Ok(after(alloc, pair(alloc, before, one, copies)?))
}

/// The sequence, and then a place.
fn then_place(
    alloc: Global,
    sequence: Sequence,
    place: RowSet,
    copies: usize,
) -> Result<Sequence, AllocError>
    requires some { (0 < copies) × (copies ≤ 32) }
    requires valid { IsSequence sequence copies }
    ensures { IfOk result (λ longer. GoesOn (OfRow (place ∷ [])) sequence longer copies) }
{
    let mut longer = with_room(alloc, sequence, copies)?;
    longer.row.push(place)?;
    Ok(longer)
}

/// The sequence, with room for one more place.
fn with_room(alloc: Global, sequence: Sequence, copies: usize) -> Result<Sequence, AllocError>
    requires some { (0 < copies) × (copies ≤ 32) }
    requires valid { IsSequence sequence copies }
    ensures same { IfOk result (λ roomy. AreSame (WordsOfSequence roomy) (WordsOfSequence sequence)) }
    ensures before { IfOk result (λ roomy. IsFor roomy.before copies) }
    ensures room { IfOk result (λ roomy. length roomy.row.items * copies + 2 * copies ≤ 64) }
{
    if sequence.row.len() * copies + 2 * copies <= BITS {
        return Ok(sequence);
    }
    Ok(after(alloc, settled(alloc, sequence, copies)?))
}

/// The whole sequence as one node.
///
/// An `Err` means that memory ran out, or that its cells would take more words than can be counted.
pub(crate) fn settled(
    alloc: Global,
    sequence: Sequence,
    copies: usize,
) -> Result<Packed, AllocError>
    requires some { 0 < copies }
    requires valid { IsSequence sequence copies }
    ensures { IfOk result (λ packed. Holds (WordsOfSequence sequence) packed copies) }
{
    if sequence.row.is_empty() {
        return Ok(sequence.before);
    }
    let rest = Packed {
        node: run_of(alloc, &sequence.row, copies)?,
        size: words_for(copies),
        gaps: gaps_of_row(&sequence.row),
    };
    pair(alloc, sequence.before, rest, copies)
}

/// A word of one node and then a word of another.
fn pair(alloc: Global, first: Packed, second: Packed, copies: usize) -> Result<Packed, AllocError>
    requires first { IsFor first copies }
    requires second { IsFor second copies }
    ensures { IfOk result (λ packed. Holds (Then (WordsOf first) (WordsOf second)) packed copies) }
{
    if is_nothing(&first.node) && is_everywhere(first.gaps) {
        return Ok(second);
    }
    let own = words_for(copies);
    let Some(members) = first.size.checked_add(second.size) else {
        return Err(AllocError);
    };
    let Some(size) = own.checked_add(members) else {
        return Err(AllocError);
    };
    let gaps = both_gaps(first.gaps, second.gaps);
    let sizes = Sizes {
        own,
        first: first.size,
    };
    let left = Box::new(alloc, first.node)?;
    let right = Box::new(alloc, second.node)?;
    Ok(Packed {
        node: Node::Both(left, right, sizes, first.gaps, second.gaps),
        size,
        gaps,
    })
}

/// A node without words, and where the empty word is.
pub(crate) fn no_bytes(copies: usize, gaps: Gaps) -> Packed
    ensures node { shape result.node ≡ nothing }
    ensures size { result.size ≡ words_for copies }
    ensures gaps { result.gaps ≡ gaps }
{
    Packed {
        node: Node::Nothing,
        size: words_for(copies),
        gaps,
    }
}

/// Whether the node has no words.
pub(crate) fn is_nothing(node: &Node) -> bool
    ensures { IsTrue result → shape node.now ≡ nothing }
{
    match node {
        Node::Nothing => true,
        _ => false,
    }
}
