//! Pending operations, analysed side by side and carried out.

ghost use Rattle.std.specs.Prelude.{◌≡◌, ◌≤◌, length, fold, take};
ghost use denote.Param.Send.{IsSync};
ghost use Rattle.published.specs.Private.Shelf.{operated};

use crate::shelf::{Operation, Shelf, Way};
use index::Index;
use std::thread::{Threads, join_mut};

/// A part that is analysed in a thread of its own has at least so many bytes of bodies. To start a thread and to wait for it takes as
/// long as to analyse some hundredth of that.
const PART: usize = 131_072;

/// If so many bytes of bodies are to be analysed, new documents wait to be put into the sets of their trigrams together.
const MANY: usize = 1_048_576;

/// Carries out these operations on the copy, from the first one on, after their bodies are analysed in up to `threads` threads.
/// Where these are many bytes, new documents wait for `Shelf::fill`. Returns how many operations were carried out, which is all of
/// them unless memory runs out.
pub(crate) fn carry_out_all<R: Threads + Sync>(
    rt: &R,
    threads: usize,
    copy: &mut Shelf,
    operations: &mut [Operation],
) -> usize
    ensures same { operations.new ≡ operations.old }
    ensures within { result ≤ length operations.old }
    ensures done { copy.new ≡ fold operated copy.old (take result operations.old) }
{
    let way = if bytes_of(operations) >= MANY {
        Way::Together
    } else {
        Way::AtOnce
    };
    analyse(rt, threads, &copy.index, operations);
    carry_out(copy, operations, way)
}

/// Carries out these operations, one after the other. Returns how many were carried out: all of them, or those before the first one
/// that was refused.
fn carry_out(copy: &mut Shelf, operations: &[Operation], way: Way) -> usize
    ensures within { result ≤ length operations.now }
    ensures done { copy.new ≡ fold operated copy.old (take result operations.now) }
{
    for at in 0..operations.len() {
        if copy.carry_out(&operations[at], way).is_err() {
            return at;
        }
    }
    operations.len()
}

/// Analyses the bodies of these operations in up to `threads` parts of about equal bytes, each in a thread of its own where one can
/// be started. Those that documents of the index have are taken from there. With few bytes no thread is started. A body for which memory runs out stays as it is.
fn analyse<R: Threads + Sync>(rt: &R, threads: usize, index: &Index, operations: &mut [Operation])
    ensures { operations.new ≡ operations.old }
{
    let parts = (bytes_of(operations) / PART).min(threads);
    analyse_parts(rt, parts.min(bodies_in(operations)), index, operations)
}

/// How many bodies are not analysed.
fn bodies_in(operations: &[Operation]) -> usize {
    let mut bodies: usize = 0;
    for operation in operations {
        if operation.bytes_to_analyse() > 0 {
            bodies = bodies.saturating_add(1);
        }
    }
    bodies
}

/// Analyses the bodies of these operations in so many parts. They are halved by their bytes at each step, and the front half
/// goes to a new thread.
#[cycle(analyse_parts)]
fn analyse_parts<R: Threads + Sync>(
    rt: &R,
    parts: usize,
    index: &Index,
    operations: &mut [Operation],
)
    ensures { operations.new ≡ operations.old }
{
    if parts < 2 {
        return analyse_in_turn(index, operations);
    }
    let low = parts / 2;
    let high = parts - low;
    let at = operations_with(operations, bytes_of(operations) / parts * low);
    let (first, others) = operations.split_at_mut(at);
    let mut front = ||
        requires { IsSync R.row }
        ensures { first.exit.now ≡ first.entry.now }
    { analyse_parts(rt, low, index, first) };
    let mut back = ||
        requires { IsSync R.row }
        ensures { others.exit.now ≡ others.entry.now }
    { analyse_parts(rt, high, index, others) };
    join_mut(rt, &mut front, &mut back);
}

/// Analyses the bodies of these operations, one after the other.
fn analyse_in_turn(index: &Index, operations: &mut [Operation])
    ensures { operations.new ≡ operations.old }
{
    for at in 0..operations.len() {
        let operation = &mut operations[at];
        operation.analyse(index);
    }
}

/// The bytes of the bodies that are not analysed, together.
fn bytes_of(operations: &[Operation]) -> usize {
    let mut bytes: usize = 0;
    for operation in operations {
        bytes = bytes.saturating_add(operation.bytes_to_analyse());
    }
    bytes
}

/// How many operations, from the first on, have so many bytes to analyse together. No contract depends on it.
fn operations_with(operations: &[Operation], bytes: usize) -> usize
    ensures { result ≤ length operations.now }
{
    let mut left = bytes;
    for at in 0..operations.len() {
        let size = operations[at].bytes_to_analyse();
        if size >= left {
            return at + 1;
        }
        left -= size;
    }
    operations.len()
}
