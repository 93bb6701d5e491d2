//! The walk of a set of positions through a tree.

ghost use Rattle.std.specs.Prelude.{ℕ, suc, Some, ◌≤◌, ◌<◌, IsTrue, List, length, map};
ghost use Rattle.ere.specs.Tree.{form, repeat, trees_of};
ghost use Rattle.spans.specs.Spans.{Spans, SpansEach, SpansSome, Steps};
ghost use Rattle.matcher.specs.Private.Moves.{Moves, MovesIf, MovesPast};
ghost use Rattle.matcher.specs.Private.Longer.{HoldsInLonger};
ghost use Rattle.matcher.specs.Private.Rounds.{EndsRounds, GoesOn, IsWidened, KeepsRounds};

use crate::plain::is_plain;
use crate::position_set::PositionSet;
use crate::trees::{can_be_empty, joins_words};
use crate::words::BITS;
use ere::Ere;

/// Moves each position to all positions to which a word of the tree leads from it.
#[cycle(walk)]
pub fn advance<S: PositionSet>(tree: &Ere, line: &[u8], at: &mut S)
    requires { length line.now < S.room }
    ensures { Moves (Spans line.now (form tree.now)) (S.words at.old) (S.words at.new) }
{
    match tree {
        Ere::Empty => {}
        Ere::Set(members) => at.step(members, line),
        Ere::Start => at.keep(0),
        Ere::End => at.keep(line.len()),
        Ere::Cat(members) => advance_each(members, line, at),
        Ere::Alt(members) => advance_some(members, line, at),
        Ere::Repeat(body, least, greatest) => advance_counted(body, *least, *greatest, line, at),
    }
}

/// Does what `advance` does, but without a call for a set, which most members are.
#[cycle(walk)]
#[inline(always)]
fn advance_over<S: PositionSet>(tree: &Ere, line: &[u8], at: &mut S)
    requires { length line.now < S.room }
    ensures { Moves (Spans line.now (form tree.now)) (S.words at.old) (S.words at.new) }
{
    match tree {
        Ere::Set(members) => at.step(members, line),
        _ => advance(tree, line, at),
    }
}

/// Moves each position by a word of each member, one after the other.
#[cycle(walk)]
fn advance_each<S: PositionSet>(members: &[Ere], line: &[u8], at: &mut S)
    requires { length line.now < S.room }
    ensures { Moves (SpansEach line.now (trees_of (map form members.now))) (S.words at.old) (S.words at.new) }
{
    for member in members {
        advance_over(member, line, at);
        if at.is_empty() {
            return;
        }
    }
}

/// Moves each position by a word of any one member.
#[cycle(walk)]
fn advance_some<S: PositionSet>(members: &[Ere], line: &[u8], at: &mut S)
    requires { length line.now < S.room }
    ensures { Moves (SpansSome line.now (trees_of (map form members.now))) (S.words at.old) (S.words at.new) }
{
    let mut found = S::none();
    let mut one = S::none();
    for i in (0..members.len()).rev() {
        one.copy(at);
        advance_over(&members[i], line, &mut one);
        found.add(&mut one);
    }
    at.copy(&found);
}

/// Moves each position by at least `least` words of the body and at most `greatest`, one after the other.
#[cycle(walk)]
fn advance_counted<S: PositionSet>(
    body: &Ere,
    least: u8,
    greatest: Option<u8>,
    line: &[u8],
    at: &mut S,
)
    requires { length line.now < S.room }
    ensures { Moves (Spans line.now (repeat (form body.now) least greatest)) (S.words at.old) (S.words at.new) }
{
    match greatest {
        Some(most) => {
            if most < least {
                at.clear();
                return;
            }
            advance_exactly(body, least, line, at);
            advance_at_most(body, most - least, line, at);
        }
        None => {
            // If any two words of the body together are one word of it, so are any number of them. Then no count above
            // `least`, or above 1 if `least` is 0, finds more.
            if joins_words(body) {
                advance_exactly(body, least, line, at);
                if least == 0 {
                    advance_at_most(body, 1, line, at);
                }
            } else if least == 0 {
                advance_any(body, line, at);
            } else {
                advance_exactly(body, least - 1, line, at);
                advance_more(body, line, at);
            }
        }
    }
}

/// Moves each position by exactly `count` words of the body, one after the other.
#[cycle(walk)]
fn advance_exactly<S: PositionSet>(body: &Ere, count: u8, line: &[u8], at: &mut S)
    requires { length line.now < S.room }
    ensures { Moves (Steps (Spans line.now (form body.now)) count) (S.words at.old) (S.words at.new) }
{
    // If a word can be empty, at most `count` words lead to the same positions as exactly `count`.
    if can_be_empty(body) {
        advance_at_most(body, count, line, at);
        return;
    }
    if line.len() < BITS {
        advance_while_new(body, count, line, at);
        return;
    }
    for _word in 0..count {
        if at.is_empty() {
            return;
        }
        advance(body, line, at);
    }
}

/// Does what `advance_exactly` does, for a short line: once a word changes nothing, later ones change nothing either.
#[cycle(walk)]
fn advance_while_new<S: PositionSet>(body: &Ere, count: u8, line: &[u8], at: &mut S)
    requires { length line.now < S.room }
    ensures { Moves (Steps (Spans line.now (form body.now)) count) (S.words at.old) (S.words at.new) }
{
    let mut before = S::none();
    for _word in 0..count {
        if at.is_empty() {
            return;
        }
        before.copy(at);
        advance(body, line, at);
        if at.is_same(&before) {
            return;
        }
    }
}

/// Moves each position by at most `count` words of the body, one after the other.
#[cycle(walk)]
fn advance_at_most<S: PositionSet>(body: &Ere, count: u8, line: &[u8], at: &mut S)
    requires { length line.now < S.room }
    ensures { Moves (λ from to. (words : ℕ) × (words ≤ count) × Steps (Spans line.now (form body.now)) words from to) (S.words at.old) (S.words at.new) }
{
    let mut found = S::none();
    found.copy(at);
    for _round in 0..count {
        advance(body, line, at);
        if !found.add(at) {
            at.copy(&found);
            return;
        }
    }
    at.copy(&found);
}

/// Moves each position by any number of words of the body, one after the other.
#[cycle(walk)]
fn advance_any<S: PositionSet>(body: &Ere, line: &[u8], at: &mut S)
    requires { length line.now < S.room }
    ensures { Moves (λ from to. (words : ℕ) × Steps (Spans line.now (form body.now)) words from to) (S.words at.old) (S.words at.new) }
{
    if let Ere::Set(members) = body {
        at.sweep(members, line);
        return;
    }
    let done = S::none();
    any_past(body, line, at, &done);
}

/// Moves each position by one word of the body or more, one after the other.
#[cycle(walk)]
fn advance_more<S: PositionSet>(body: &Ere, line: &[u8], at: &mut S)
    requires { length line.now < S.room }
    ensures { Moves (λ from to. (more : ℕ) × Steps (Spans line.now (form body.now)) (suc more) from to) (S.words at.old) (S.words at.new) }
{
    let done = S::none();
    more_past(body, line, at, &done);
}

/// Moves each position by a word of the tree. Positions that a word of it reaches from a position of `done` can be
/// missing, since the caller has them already.
///
/// For a repeat, `done` has the positions at which its earlier rounds began: a repeat at the front of its body need
/// not go on from these.
#[cycle(walk)]
fn advance_past<S: PositionSet>(tree: &Ere, line: &[u8], at: &mut S, done: &S)
    requires { length line.now < S.room }
    ensures { MovesPast (Spans line.now (form tree.now)) (S.words done.now) (S.words at.old) (S.words at.new) }
{
    match tree {
        Ere::Cat(members) => each_past(members, line, at, done),
        Ere::Alt(members) => some_past(members, line, at, done),
        Ere::Repeat(body, least, greatest) => {
            repeat_past(body, *least, *greatest, line, at, done)
        }
        _ => advance(tree, line, at),
    }
}

/// Moves each position by a word of each member, one after the other, as `advance_past` does. A member is at the
/// front only if all before it can be empty.
#[cycle(walk)]
fn each_past<S: PositionSet>(members: &[Ere], line: &[u8], at: &mut S, done: &S)
    requires { length line.now < S.room }
    ensures { MovesPast (SpansEach line.now (trees_of (map form members.now))) (S.words done.now) (S.words at.old) (S.words at.new) }
{
    let mut leads = true;
    for member in members {
        leads = member_past(member, leads, line, at, done);
        if at.is_empty() {
            return;
        }
    }
}

/// Moves each position by a word of a member, which is at the front if `leads`. Returns whether the next member
/// is at the front too.
#[cycle(walk)]
#[inline(always)]
fn member_past<S: PositionSet>(member: &Ere, leads: bool, line: &[u8], at: &mut S, done: &S) -> bool
    requires { length line.now < S.room }
    ensures moved { MovesIf leads (Spans line.now (form member.now)) (S.words done.now) (S.words at.old) (S.words at.new) }
    ensures next { IsTrue result → IsTrue leads × ((place : ℕ) → Spans line.now (form member.now) place place) }
{
    if let Ere::Set(members) = member {
        at.step(members, line);
        return false;
    }
    if leads {
        advance_past(member, line, at, done);
        can_be_empty(member)
    } else {
        advance(member, line, at);
        false
    }
}

/// Moves each position by a word of any one member, as `advance_past` does.
#[cycle(walk)]
fn some_past<S: PositionSet>(members: &[Ere], line: &[u8], at: &mut S, done: &S)
    requires { length line.now < S.room }
    ensures { MovesPast (SpansSome line.now (trees_of (map form members.now))) (S.words done.now) (S.words at.old) (S.words at.new) }
{
    let mut found = S::none();
    let mut one = S::none();
    for place in (0..members.len()).rev() {
        one.copy(at);
        advance_past(&members[place], line, &mut one, done);
        found.add(&mut one);
    }
    at.copy(&found);
}

/// Moves each position by at least `least` words of the body and at most `greatest`, as `advance_past` does.
#[cycle(walk)]
fn repeat_past<S: PositionSet>(
    body: &Ere,
    least: u8,
    greatest: Option<u8>,
    line: &[u8],
    at: &mut S,
    done: &S,
)
    requires { length line.now < S.room }
    ensures { MovesPast (Spans line.now (repeat (form body.now) least greatest)) (S.words done.now) (S.words at.old) (S.words at.new) }
{
    match greatest {
        Some(most) => {
            if least == 0 && most == 1 {
                optional_past(body, line, at, done);
            } else {
                advance_counted(body, least, greatest, line, at);
            }
        }
        None => {
            if least == 0 {
                any_past(body, line, at, done);
            } else if least == 1 {
                more_past(body, line, at, done);
            } else {
                advance_counted(body, least, greatest, line, at);
            }
        }
    }
}

/// Moves each position by one word of the body or none, as `advance_past` does.
#[cycle(walk)]
fn optional_past<S: PositionSet>(body: &Ere, line: &[u8], at: &mut S, done: &S)
    requires { length line.now < S.room }
    ensures { MovesPast (Spans line.now (repeat (form body.now) 0 (Some 1))) (S.words done.now) (S.words at.old) (S.words at.new) }
{
    let mut start = S::none();
    start.copy(at);
    advance_past(body, line, at, done);
    at.add(&mut start);
}

/// Moves each position by any number of words of the body, as `advance_past` does.
#[cycle(walk)]
fn any_past<S: PositionSet>(body: &Ere, line: &[u8], at: &mut S, done: &S)
    requires { length line.now < S.room }
    ensures { MovesPast (λ from to. (words : ℕ) × Steps (Spans line.now (form body.now)) words from to) (S.words done.now) (S.words at.old) (S.words at.new) }
{
    let mut start = S::none();
    start.copy(at);
    more_past(body, line, at, done);
    at.add(&mut start);
}

/// Moves each position by one word of the body or more, as `advance_past` does.
#[cycle(walk)]
fn more_past<S: PositionSet>(body: &Ere, line: &[u8], at: &mut S, done: &S)
    requires { length line.now < S.room }
    ensures { MovesPast (λ from to. (more : ℕ)
        × Steps (Spans line.now (form body.now)) (suc more) from to) (S.words done.now) (S.words at.old) (S.words at.new) }
{
    if let Ere::Set(members) = body {
        at.step(members, line);
        at.sweep(members, line);
        return;
    }
    let mut found = S::none();
    let mut known = S::none();
    known.copy(done);
    known.add(at);
    begin_plain(body, line, at, &mut found, &mut known);
    rounds_past(body, line, at, done, &mut found, &mut known);
    at.copy(&found);
}

/// Adds to `found` the positions to which one word of the body or more lead from `at`, round by round.
#[cycle(walk)]
#[inline(never)]
fn rounds_past<S: PositionSet>(
    body: &Ere,
    line: &[u8],
    at: &mut S,
    done: &S,
    found: &mut S,
    known: &mut S,
)
    requires { length line.now < S.room }
    ensures { EndsRounds (Spans line.now (form body.now)) (S.words done.now) (S.words found.old) (S.words known.old) (S.words at.old) (S.words found.new) }
{
    if at.is_empty() {
        return;
    }
    // What a word reaches from `over` is found, or need not be. The same holds for a position of `known` that is
    // not in `at`.
    let mut over = S::none();
    over.copy(done);
    loop {
        advance_past(body, line, at, &over);
        over.copy(known);
        found.add(at);
        let grown = known.add(at);
        if !grown {
            break;
        }
    }
}

/// Goes on from `at` if the body is plain and the line is long. Mostly nothing is left in `at` then.
///
/// A body is not plain if it has a star inside that is not of a single set: that star would go through all windows of
/// the line for each window of this one.
#[cycle(walk)]
fn begin_plain<S: PositionSet>(body: &Ere, line: &[u8], at: &mut S, found: &mut S, known: &mut S)
    requires { length line.now < S.room }
    ensures { KeepsRounds (Spans line.now (form body.now)) (S.words found.old) (S.words known.old)
        (S.words at.old) (S.words found.new) (S.words known.new) (S.words at.new) }
{
    if line.len() < BITS {
        return;
    }
    if !is_plain(body) {
        return;
    }
    go_on(body, line, at, found, known);
    window_by_window(body, line, at, found, known);
}

/// Adds the positions to which a word of the body leads from `at`. Leaves in `at` only those that are new.
#[cycle(walk)]
fn go_on<S: PositionSet>(body: &Ere, line: &[u8], at: &mut S, found: &mut S, known: &mut S)
    requires { length line.now < S.room }
    ensures { GoesOn (Spans line.now (form body.now)) (S.words at.old) (S.words found.old) (S.words known.old)
        (S.words at.new) (S.words found.new) (S.words known.new) }
{
    advance(body, line, at);
    found.add(at);
    known.add(at);
}

/// Goes on from `at`, one window after the other. No word goes backwards, so mostly nothing is left in the end.
#[cycle(walk)]
#[inline(never)]
fn window_by_window<S: PositionSet>(
    body: &Ere,
    line: &[u8],
    at: &mut S,
    found: &mut S,
    known: &mut S,
)
    requires longer { HoldsInLonger (form body.now) }
    requires room { length line.now < S.room }
    ensures { KeepsRounds (Spans line.now (form body.now)) (S.words found.old) (S.words known.old)
        (S.words at.old) (S.words found.new) (S.words known.new) (S.words at.new) }
{
    for _window in 0..=line.len() / BITS {
        if at.is_empty() {
            return;
        }
        over_window(body, line, at, found, known);
    }
}

/// Goes on from the first window of `at`: within the window as often as there is anything new, and then once
/// over the whole line.
#[cycle(walk)]
fn over_window<S: PositionSet>(body: &Ere, line: &[u8], at: &mut S, found: &mut S, known: &mut S)
    requires longer { HoldsInLonger (form body.now) }
    requires room { length line.now < S.room }
    ensures { KeepsRounds (Spans line.now (form body.now)) (S.words found.old) (S.words known.old)
        (S.words at.old) (S.words found.new) (S.words known.new) (S.words at.new) }
{
    let mut here = S::none();
    let last = at.take_window(&mut here);
    // Nothing goes past the end of `window`, so each round looks at one word.
    let window = &line[..last.min(line.len())];
    widen(body, window, &mut here, known);
    go_on(body, line, &mut here, found, known);
    at.add(&mut here);
}

/// Adds the positions to which words of the body lead from `here`, until none of them is new.
#[cycle(walk)]
#[inline(never)]
fn widen<S: PositionSet>(body: &Ere, line: &[u8], here: &mut S, known: &mut S)
    requires { length line.now < S.room }
    ensures { IsWidened (Spans line.now (form body.now)) (S.words here.old) (S.words known.old) (S.words here.new) (S.words known.new) }
{
    let mut next = S::none();
    next.copy(here);
    for _round in 0..BITS {
        advance(body, line, &mut next);
        let has_new = known.add(&mut next);
        here.add(&mut next);
        if !has_new {
            return;
        }
    }
}
