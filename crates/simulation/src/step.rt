//! One byte of the line.

ghost use Rattle.std.specs.Prelude.{◌≡◌, ℕ, suc, ◌+◌, ◌*◌, ◌<◌, ◌≤◌, length};
ghost use Rattle.simulation.specs.Nodes.{shape, set, run, both, either, loop, times};
ghost use Rattle.simulation.specs.Pending.{Advances, IsReady, IsRun, words_for};

use crate::cells::{add, both as and, copy, either as or, either_if, keep_if};
use crate::node::{Gaps, Node, RepeatCounts, RunLayout, Sizes, is_gap};
use crate::run::passed_on;
use crate::turns::{any_turn, begin_turns, lowest_bits, lowest_turn, moved_down, moved_in};
use ere::ByteSet;

/// Reads the byte after a position of the line.
#[cycle(step)]
pub(crate) fn step(
    node: &Node,
    copies: usize,
    line: &[u8],
    here: usize,
    entered: &mut [u64],
    cells: &mut [u64],
)
    requires { IsReady line.now here (shape node.now) copies entered.old cells.old }
    ensures { Advances line.now here (shape node.now) copies entered.old cells.old cells.new }
{
    match node {
        Node::Nothing => {}
        Node::Set(members) => step_set(members, copies, line, here, entered, cells),
        Node::Run(masks, places) => step_run(masks, *places, copies, line, here, entered, cells),
        Node::Both(left, right, sizes, before, after) => {
            step_both(
                left, right, *sizes, *before, *after, copies, line, here, entered, cells,
            )
        }
        Node::Either(left, right, sizes) => step_either(
            left, right, *sizes, copies, line, here, entered, cells,
        ),
        Node::Loop(body, own) => step_loop(body, *own, copies, line, here, entered, cells),
        Node::Times(body, counts) => step_times(body, *counts, copies, line, here, entered, cells),
    }
}

#[inline(always)]
fn step_set(
    members: &ByteSet,
    copies: usize,
    line: &[u8],
    here: usize,
    entered: &[u64],
    cells: &mut [u64],
)
    requires inside { here < length line.now }
    requires entered { length entered.now ≡ words_for copies }
    requires cells { length cells.old ≡ words_for copies }
    ensures { Advances line.now here (set members.now) copies entered.now cells.old cells.new }
{
    let words = cells.len();
    keep_if(members.has(line[here]), entered, cells, words);
}

#[inline(always)]
fn step_run(
    masks: &[u64],
    places: RunLayout,
    copies: usize,
    line: &[u8],
    here: usize,
    entered: &[u64],
    cells: &mut [u64],
)
    requires inside { here < length line.now }
    requires run { IsRun masks.now places copies }
    requires entered { length entered.now ≡ words_for copies }
    requires cells { length cells.old ≡ words_for copies }
    ensures { Advances line.now here (run masks.now places) copies entered.now cells.old cells.new }
{
    let first = places.after * places.stride + places.stride;
    let begun = lowest_bits(entered[0], places.stride);
    let waiting = moved_in(begun, lowest_bits(cells[0], first), first);
    let ready = passed_on(waiting, places.optional, places.stride);
    let again = and(ready, places.repeated);
    let moved = or(moved_down(ready, places.stride), again);
    let read = and(moved, masks[line[here] as usize]);
    cells[0] = passed_on(read, places.optional, places.stride);
}

#[cycle(step)]
fn step_both(
    left: &Node,
    right: &Node,
    sizes: Sizes,
    before: Gaps,
    after: Gaps,
    copies: usize,
    line: &[u8],
    here: usize,
    entered: &mut [u64],
    cells: &mut [u64],
)
    requires { IsReady line.now here (both (shape left.now) (shape right.now) sizes before after) copies entered.old cells.old }
    ensures { Advances line.now here (both (shape left.now) (shape right.now) sizes before after) copies entered.old cells.old cells.new }
{
    let (own, rest) = cells.split_at_mut(sizes.own);
    let (first, second) = rest.split_at_mut(sizes.first);
    let (entered_own, entered_rest) = entered.split_at_mut(sizes.own);
    let (entered_first, entered_second) = entered_rest.split_at_mut(sizes.first);
    copy(entered_own, entered_first);
    either_if(
        first,
        is_gap(before, line, here),
        entered_own,
        entered_second,
        sizes.own,
    );
    step(left, copies, line, here, entered_first, first);
    step(right, copies, line, here, entered_second, second);
    either_if(second, is_gap(after, line, here + 1), first, own, sizes.own);
}

#[cycle(step)]
fn step_either(
    left: &Node,
    right: &Node,
    sizes: Sizes,
    copies: usize,
    line: &[u8],
    here: usize,
    entered: &mut [u64],
    cells: &mut [u64],
)
    requires { IsReady line.now here (either (shape left.now) (shape right.now) sizes) copies entered.old cells.old }
    ensures { Advances line.now here (either (shape left.now) (shape right.now) sizes) copies entered.old cells.old cells.new }
{
    let (own, rest) = cells.split_at_mut(sizes.own);
    let (first, second) = rest.split_at_mut(sizes.first);
    let (entered_own, entered_rest) = entered.split_at_mut(sizes.own);
    let (entered_first, entered_second) = entered_rest.split_at_mut(sizes.first);
    copy(entered_own, entered_first);
    copy(entered_own, entered_second);
    step(left, copies, line, here, entered_first, first);
    step(right, copies, line, here, entered_second, second);
    either_if(first, true, second, own, sizes.own);
}

#[cycle(step)]
fn step_loop(
    body: &Node,
    own: usize,
    copies: usize,
    line: &[u8],
    here: usize,
    entered: &mut [u64],
    cells: &mut [u64],
)
    requires { IsReady line.now here (loop (shape body.now) own) copies entered.old cells.old }
    ensures { Advances line.now here (loop (shape body.now) own) copies entered.old cells.old cells.new }
{
    add(cells, entered, own);
    step(body, copies, line, here, entered, cells);
}

#[cycle(step)]
fn step_times(
    body: &Node,
    counts: RepeatCounts,
    copies: usize,
    line: &[u8],
    here: usize,
    entered: &mut [u64],
    cells: &mut [u64],
)
    requires { IsReady line.now here (times (shape body.now) counts) copies entered.old cells.old }
    ensures { Advances line.now here (times (shape body.now) counts) copies entered.old cells.old cells.new }
{
    let (own, read) = cells.split_at_mut(counts.own);
    let (entered_own, entered_body) = entered.split_at_mut(counts.own);
    begin_turns(
        counts,
        is_gap(counts.gaps, line, here),
        entered_own,
        read,
        entered_body,
    );
    step(body, counts.all, line, here, entered_body, read);
    any_turn(counts, lowest_turn(counts, line, here + 1), read, own);
}
