//! The nodes that the simulation steps through.

ghost use Rattle.std.specs.Prelude.{◌≡◌, ◌<◌, length};
ghost use Rattle.simulation.specs.Nodes.{begins_at_start, is_gap, shape};

use ere::ByteSet;

/// Where a tree has the empty word.
#[derive(Clone, Copy, Debug, PartialEq, Eq)]
pub struct Gaps {
    /// In an empty line.
    pub alone: bool,
    /// At the start of a line that is not empty.
    pub start: bool,
    /// Between two bytes of a line.
    pub inside: bool,
    /// At the end of a line that is not empty.
    pub end: bool,
}

/// Where the cells of two members lie, after those of the node itself.
#[derive(Clone, Copy, Debug, PartialEq, Eq)]
pub struct Sizes {
    /// How many words of 64 bits the node's own cells take.
    pub own: usize,
    /// How many words the cells of the first member take.
    pub first: usize,
}

/// Where the sets of a run lie in a word of cells. The last set has the lowest bits.
#[derive(Clone, Copy, Debug, PartialEq, Eq)]
pub struct RunLayout {
    /// How far apart two sets are, which is the number of copies.
    pub stride: usize,
    /// How many sets come after the first.
    pub after: usize,
    /// The cells of the sets that can be left out.
    pub optional: u64,
    /// The cells of the sets of which there can be more bytes than one.
    pub repeated: u64,
}

/// How often the body of `Node::Times` is read.
#[derive(Clone, Copy, Debug, PartialEq, Eq)]
pub struct RepeatCounts {
    /// The least number of words.
    pub least: usize,
    /// The copies of the body: the greatest number of words, or the least if there is no greatest.
    pub copies: usize,
    /// Whether there is no greatest number.
    pub unbounded: bool,
    /// Where the body has the empty word, so that fewer words than the least are enough.
    pub gaps: Gaps,
    /// How many words of 64 bits the node's own cells take.
    pub own: usize,
    /// How far apart two copies of the body are that stand for one copy of the node.
    pub stride: usize,
    /// The copies of the body, with all that the stride leaves unused.
    pub all: usize,
}

/// A node of the tree, made ready for the simulation. It has words that are not empty only.
#[derive(Drop)]
pub enum Node {
    /// No word.
    Nothing,
    /// One byte of the set.
    Set(ByteSet),
    /// One byte of each of some sets, one after the other, or none or more of those that say so. For each byte there is a
    /// mask: which of the sets have it, with the same bit for each copy.
    Run(Vec<u64>, RunLayout),
    /// A word of one node and then a word of another. Either can be left out where it has the empty word.
    Both(Box<Node>, Box<Node>, Sizes, Gaps, Gaps),
    /// A word of either node.
    Either(Box<Node>, Box<Node>, Sizes),
    /// One word or more, one after the other. The number says how many words of 64 bits the node's own cells take.
    Loop(Box<Node>, usize),
    /// A number of words, one after the other.
    Times(Box<Node>, RepeatCounts),
}

/// Whether the empty word is there at a position of the line.
pub(crate) fn is_gap(gaps: Gaps, line: &[u8], at: usize) -> bool
    ensures { result ≡ is_gap gaps line.now at }
{
    if at == 0 {
        if line.is_empty() {
            gaps.alone
        } else {
            gaps.start
        }
    } else if at == line.len() {
        gaps.end
    } else {
        gaps.inside
    }
}

/// Whether each word of the node begins at the line's start. `false` also for some nodes of which that is so.
#[cycle(anchors)]
pub(crate) fn begins_at_start(node: &Node) -> bool
    ensures { result ≡ begins_at_start (shape node.now) }
{
    match node {
        Node::Nothing => true,
        Node::Set(_) => false,
        Node::Run(_, _) => false,
        Node::Both(left, right, _, before, _) => {
            begins_at_start(left) && (!before.inside || begins_at_start(right))
        }
        Node::Either(left, right, _) => begins_at_start(left) && begins_at_start(right),
        Node::Loop(body, _) => begins_at_start(body),
        Node::Times(body, _) => begins_at_start(body),
    }
}

/// How many nodes there are, without those that join two.
#[cycle(count)]
pub(crate) fn count(node: &Node) -> usize {
    match node {
        Node::Nothing => 1,
        Node::Set(_) => 1,
        Node::Run(_, _) => 1,
        Node::Both(left, right, _, _, _) => count(left).saturating_add(count(right)),
        Node::Either(left, right, _) => count(left).saturating_add(count(right)),
        Node::Loop(body, _) => count(body).saturating_add(1),
        Node::Times(body, _) => count(body).saturating_add(1),
    }
}
