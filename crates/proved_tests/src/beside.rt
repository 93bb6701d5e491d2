//! A small service: one thread writes, two others search.

ghost use Rattle.std.specs.Prelude.{◌≡◌, List, [], ◌∷◌, ◌++◌, IfSome};
ghost use mathlib.Core.List.{IsPrefix};
ghost use Rattle.documents.specs.declared.command.Command.{Command as CommandValue};
ghost use Rattle.documents.specs.declared.command.Command.TheVariants.{Put};
ghost use Rattle.documents.specs.State.{state_of};
ghost use Rattle.prepare.specs.Prepared.{pattern_of};
ghost use Rattle.views.specs.Scan.{IsAnswerOf};
ghost use Rattle.published.specs.History.{known};

use crate::fixtures::{body, name, prepared, search};
use documents::{Body, Name};
use prepare::Prepared;
use published::{Desk, Reading, Told, open};
use std::alloc::Global;
use std::sync::Wait;
use std::thread::{Threads, join};
use views::Answer;

/// Two threads search while a third puts a document and publishes it. Then both learn of that and search again.
fn search_beside_a_put<R: Threads + Wait + Sync>(
    rt: &R,
    alloc: Global,
    desk: &mut Desk,
    readings: (Reading, Reading),
    document: (Name, Body),
    pattern: &Prepared,
) -> Option<(Answer, Answer)>
    requires one { readings.0.opening ≡ desk.old.opening }
    requires two { readings.1.opening ≡ desk.old.opening }
    // Each answer is that of commands that begin with all that were accepted before, followed by the put.
    ensures first { IfSome result (λ answers. (commands : List CommandValue)
        × IsPrefix (desk.old.accepted ++ Put document.0 document.1 ∷ []) commands
        × IsAnswerOf (state_of commands) (pattern_of pattern.now) answers.0) }
    ensures second { IfSome result (λ answers. (commands : List CommandValue)
        × IsPrefix (desk.old.accepted ++ Put document.0 document.1 ∷ []) commands
        × IsAnswerOf (state_of commands) (pattern_of pattern.now) answers.1) }
{
    let (one, two) = readings;
    let ((one, two), told) = join(
        rt,
        || join(
            rt,
            || searched(alloc, one, pattern),
            || searched(alloc, two, pattern),
        ),
        || publish(rt, desk, document),
    );
    let told = told?;
    let first = search_after(alloc, one, &told, pattern)?;
    let second = search_after(alloc, two, &told, pattern)?;
    Some((first, second))
}

/// Puts and publishes.
fn publish<R: Threads + Wait + Sync>(
    rt: &R,
    desk: &mut Desk,
    document: (Name, Body),
) -> Option<Told>
    ensures { IfSome result (λ told. told ≡ known desk.old.opening (desk.old.accepted ++ Put document.0 document.1 ∷ [])) }
{
    desk.put(document.0, document.1).ok()?;
    desk.publish(rt).ok()
}

/// Searches, and drops the answer.
fn searched(alloc: Global, mut reading: Reading, pattern: &Prepared) -> Reading
    ensures { result.opening ≡ reading.opening }
{
    let _answer = search(alloc, &mut reading, pattern);
    reading
}

/// Searches the documents of the publish that `told` reports, or of a newer one.
fn search_after(
    alloc: Global,
    mut reading: Reading,
    told: &Told,
    pattern: &Prepared,
) -> Option<Answer>
    requires { told.now.opening ≡ reading.opening }
    ensures { IfSome result (λ answer. (commands : List CommandValue)
        × IsPrefix told.now.commands commands
        × IsAnswerOf (state_of commands) (pattern_of pattern.now) answer) }
{
    reading.learn(told);
    search(alloc, &mut reading, pattern)
}

#[test]
fn a_put_beside_two_searches(rt: HostRuntime) {
    let alloc = rt.alloc();
    let pattern = prepared(alloc, b"ab*c").expect(&rt, "a pattern");
    let name = name(alloc, b"f").expect(&rt, "a name");
    let body = body(alloc, b"abc\nac\nb\n").expect(&rt, "a body");
    let (mut desk, mut readings) = match open(&rt, alloc, 1, 2) {
        Ok(opened) => opened,
        Err(_) => panic!(rt; "nothing opened"),
    };
    let answers = match (readings.pop(), readings.pop()) {
        (Some(one), Some(two)) => {
            search_beside_a_put(&rt, alloc, &mut desk, (one, two), (name, body), &pattern)
        }
        _ => panic!(rt; "no readings"),
    };
    desk.close(&rt);
    let (one, two) = answers.expect(&rt, "both search");
    assert!(rt; one.version() == 1);
    assert!(rt; one.hit_count() == 2);
    assert!(rt; two.version() == 1);
    assert!(rt; two.hit_count() == 2);
}
