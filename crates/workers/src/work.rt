//! Searches that threads answer in turn.

ghost use Rattle.std.specs.Prelude.{◌≡◌};

use crate::answering::answer_by;
use crate::gate::Gate;
use crate::has_reader::HasReader;
use crate::mailbox::Mailbox;
use crate::queue::{Assignment, Queue, Released};
use crate::turn::{Turn, TurnReader, YieldingWatch, Yields};
use service::{Done, Look, Naming, Request, Wish};
use std::alloc::Global;
use std::sync::{Arc, Wait};
use std::thread::Threads;
use std::time::Clock;

impl<J: Naming + Send + Sync, T: Send + Drop> Queue<J, T> {
    /// Answers a search in the thread of this mailbox, as `answer` does. Where others wait, it works for some 10
    /// milliseconds at a time, or one where nobody has begun one of them, up to its next look whether it is wanted, and then waits
    /// behind them; while its candidates are taken it does not wait, since it keeps the version that it reads. What it has at its end is
    /// to be given back, once its answer was sent.
    pub fn answer<R: Wait + Clock + Threads + Sync, G: Gate>(
        &self,
        rt: &R,
        alloc: Global,
        mailbox: &Arc<Mailbox<J, T>, Global>,
        assignment: Assignment<J>,
        ahead: usize,
        gate: &G,
    ) -> (Released<J>, Done<J>)
        ensures { result.1 ≡ assignment.task }
    {
        let Assignment { reader, task, lane } = assignment;
        let (number, request, wish, parts) = task.into_parts();
        let turn = Turn::new(rt, mailbox, number, lane, reader);
        let mut holder = TurnReader {
            rt,
            turn: &turn,
            wish: &wish,
        };
        let done = answer_at(
            rt,
            alloc,
            self,
            &turn,
            &mut holder,
            number,
            request,
            &wish,
            parts,
            ahead,
            gate,
        );
        let (released, begun) = turn.end();
        // Otherwise a note of what the reader takes next could come before this answer.
        if let Some(begun) = begun {
            self.note(rt, begun);
        }
        (released, done)
    }
}

/// Answers the search of this number in its turn, for what has its reader.
fn answer_at<
    'a,
    J: Naming,
    S: Sync,
    Q: Yields<S> + Sync,
    H: HasReader<J>,
    R: Wait + Clock + Threads + Sync,
    G: Gate,
>(
    rt: &'a R,
    alloc: Global,
    queue: &'a Q,
    turn: &'a S,
    holder: &mut H,
    number: u32,
    request: Request,
    wish: &'a Wish,
    parts: usize,
    ahead: usize,
    gate: &G,
) -> Done<J>
    ensures { result ≡ number }
{
    let watch = YieldingWatch {
        look: Look { rt, wish },
        turn,
        queue,
    };
    answer_by(
        rt, alloc, holder, number, request, wish, parts, ahead, gate, watch,
    )
}
