//! Sets in a row: one word of cells, with some bits for each set.

ghost use Rattle.std.specs.Prelude.{◌≡◌, ℕ, ◌+◌, ◌*◌, ◌<◌, ◌≤◌, ◌↔◌, ◌⊎◌, ◌∷◌, [], false, if◌then◌else◌, IsTrue, length, slice_index, IfOk, IfSome};
ghost use Rattle.ere.specs.Bits.{has_bit};
ghost use Rattle.simulation.specs.Nodes.{set, shape};
ghost use Rattle.simulation.specs.Packing.{everywhere, nowhere};
ghost use Rattle.simulation.specs.Private.Rows.{gaps_of_row, is_marked, AreMasks, IsMarked, IsRowSet, IsRunOf, Passes};

use crate::cells::{BITS, both, either, word_if, words_for};
use crate::gaps::{everywhere, is_everywhere, is_nowhere, nowhere};
use crate::node::{Gaps, Node, RunLayout};
use crate::turns::{lowest_bits, moved_down, moved_in};
use ere::ByteSet;
use std::alloc::{AllocError, Global};

/// How many bytes there are, each with a mask of its own.
const BYTES: usize = 256;

/// A set that can be in a run.
#[derive(Clone, Copy)]
pub(crate) struct RowSet {
    /// The set.
    pub(crate) members: ByteSet,
    /// Whether it can be left out.
    pub(crate) optional: bool,
    /// Whether there can be more bytes of it than one.
    pub(crate) repeated: bool,
}

/// What is asked of a place.
#[derive(Clone, Copy)]
pub(crate) enum Mark {
    /// Whether its set has a byte.
    Has(u8),
    /// Whether it can be left out.
    Optional,
    /// Whether there can be more bytes of it than one.
    Repeated,
}

/// The word, with each bit also moved down by strides as long as `passed` has the bits that it comes to.
#[inline(always)]
pub(crate) fn passed_on(word: u64, passed: u64, stride: usize) -> u64
    requires { 0 < stride }
    ensures { (b : ℕ) → IsTrue (has_bit result b) ↔ Passes word passed stride b }
{
    let mut found = word;
    let mut on = passed;
    let mut distance = stride;
    while is_on(on, distance) {
        let next = either(found, both(moved_down(found, distance), on));
        if next == found {
            return found;
        }
        found = next;
        on = both(on, moved_down(on, distance));
        distance = distance * 2;
    }
    found
}

/// Whether some bit of a word can still come from so far above.
#[inline(always)]
fn is_on(on: u64, distance: usize) -> bool
    ensures on { IsTrue result → distance < 64 }
    ensures off { result ≡ false → (64 ≤ distance) ⊎ (on ≡ 0) }
{
    on != 0 && distance < BITS
}

/// The place that a node is, or `None` if it is none.
pub(crate) fn place_of(node: &Node, gaps: Gaps) -> Option<RowSet>
    ensures { IfSome result (λ place. IsRowSet place (shape node.now) gaps) }
{
    let optional = is_everywhere(gaps);
    if !is_gap_of(optional, gaps) {
        return None;
    }
    match node {
        Node::Set(members) => Some(RowSet {
            members: *members,
            optional,
            repeated: false,
        }),
        Node::Loop(body, _) => {
            let members = set_of(body)?;
            Some(RowSet {
                members,
                optional,
                repeated: true,
            })
        }
        _ => None,
    }
}

/// The set that the node is, or `None` if it is none.
pub(crate) fn set_of(node: &Node) -> Option<ByteSet>
    ensures { IfSome result (λ members. shape node.now ≡ set members) }
{
    match node {
        Node::Set(members) => Some(*members),
        _ => None,
    }
}

/// Whether the empty word is everywhere or nowhere, as `empty` says.
fn is_gap_of(empty: bool, gaps: Gaps) -> bool
    ensures { IsTrue result → gaps ≡ (if empty then everywhere else nowhere) }
{
    if empty {
        is_everywhere(gaps)
    } else {
        is_nowhere(gaps)
    }
}

/// Where all places of a row can be left out: everywhere or nowhere.
pub(crate) fn gaps_of_row(row: &[RowSet]) -> Gaps
    ensures { result ≡ gaps_of_row row.now }
{
    for i in 0..row.len() {
        if !row[i].optional {
            return nowhere();
        }
    }
    everywhere()
}

/// The places as one node. An `Err` means that memory ran out.
pub(crate) fn run_of(alloc: Global, row: &[RowSet], copies: usize) -> Result<Node, AllocError>
    requires some { (0 < length row.now) × (0 < copies) }
    requires fits { length row.now * copies + copies ≤ 64 }
    ensures { IfOk result (λ node. IsRunOf row.now (shape node) copies) }
{
    if row.len() == 1 {
        return one_place(alloc, &row[0], copies);
    }
    let masks = masks_of(alloc, row, copies)?;
    let places = RunLayout {
        stride: copies,
        after: row.len() - 1,
        optional: marks(row, Mark::Optional, copies),
        repeated: marks(row, Mark::Repeated, copies),
    };
    Ok(Node::Run(masks, places))
}

/// One place as a node, which takes less time than a run. An `Err` means that memory ran out.
fn one_place(alloc: Global, place: &RowSet, copies: usize) -> Result<Node, AllocError>
    ensures { IfOk result (λ node. IsRunOf (place.now ∷ []) (shape node) copies) }
{
    let set = Node::Set(place.members);
    if !place.repeated {
        return Ok(set);
    }
    Ok(Node::Loop(Box::new(alloc, set)?, words_for(copies)))
}

/// For each byte, which of the places have it.
fn masks_of(alloc: Global, row: &[RowSet], copies: usize) -> Result<Vec<u64>, AllocError>
    requires some { 0 < copies }
    requires fits { length row.now * copies + copies ≤ 64 }
    ensures { IfOk result (λ masks. AreMasks masks.items copies row.now) }
{
    let mut masks = vec![in alloc; 0; BYTES]?;
    for byte in 0..BYTES {
        masks[byte] = marks(row, Mark::Has(byte as u8), copies);
    }
    Ok(masks)
}

/// A bit for each copy of the places that have the mark.
fn marks(row: &[RowSet], mark: Mark, copies: usize) -> u64
    requires some { 0 < copies }
    requires fits { length row.now * copies + copies ≤ 64 }
    ensures { IsMarked result copies (is_marked mark) row.now }
{
    let mut found = 0;
    for i in 0..row.len() {
        found = moved_in(found, marks_of(&row[i], mark, copies), copies);
    }
    found
}

/// A bit for each copy of one place, if it has the mark.
fn marks_of(place: &RowSet, mark: Mark, copies: usize) -> u64
    requires { (0 < copies) × (copies < 64) }
    ensures low { (b : ℕ) → b < copies → has_bit result b ≡ is_marked mark place.now }
    ensures high { (b : ℕ) → copies ≤ b → has_bit result b ≡ false }
{
    word_if(has_mark(place, mark), lowest_bits(!0, copies))
}

/// Whether the place has the mark.
fn has_mark(place: &RowSet, mark: Mark) -> bool
    ensures { result ≡ is_marked mark place.now }
{
    match mark {
        Mark::Has(byte) => place.members.has(byte),
        Mark::Optional => place.optional,
        Mark::Repeated => place.repeated,
    }
}
