//! What searches take their documents with.

ghost use Rattle.std.specs.Prelude.{◌≡◌, IfOk};
ghost use Rattle.documents.specs.State.{State, state_of};
ghost use Rattle.prepare.specs.Prepared.{request_of};
ghost use Rattle.prepare.specs.Request.{Request as RequestValue};
ghost use Rattle.views.specs.ShownOf.{IsShownOf};
ghost use Rattle.search.specs.Taken.{IsFirstOf, IsTakenOf};

use crate::searching::{take, take_first};
use prepare::Prepared;
use published::Told;
use search::{First, Taken};
use service::{Found, Naming, Reader};
use std::alloc::Global;
use std::marker::PhantomData;
use views::Shown;
use watch::{Unanswered, Watch};

/// What was searched: the reader that took the documents, from 1, and the commands that it had seen then.
#[derive(Drop)]
pub(crate) struct Seen<J: Naming> {
    pub(crate) reader: u32,
    pub(crate) told: Told,
    pub(crate) of: PhantomData<J>,
    pub(crate) ghost opening: { told.opening ≡ J.book },
}

impl<J: Naming> Seen<J> {
    /// The answer that was found there.
    pub(crate) fn found(self, answer: Shown) -> Found<J>
        ensures seen { result.seen ≡ self.told }
        ensures answer { result.answer ≡ answer }
    {
        Found {
            reader: self.reader,
            seen: self.told,
            answer,
            of: PhantomData,
        }
    }
}

/// Has a reader, with which a search takes its documents.
pub(crate) trait HasReader<J: Naming> {
    /// Takes the first candidates of a search. `watch` must not look at the turn of the search: what takes them may be locked.
    fn take_first<'p, W: Watch + Copy>(
        &mut self,
        alloc: Global,
        prepared: &'p Prepared,
        most: usize,
        watch: W,
    ) -> Result<(First<'p>, Seen<J>), Unanswered>
        ensures { IfOk result (λ taken. IsFirstOf (state_of taken.1.told.commands) (request_of prepared.now) taken.0) };

    /// Takes the candidates of a search, with such a `watch` too.
    fn take<'p, W: Watch + Copy>(
        &mut self,
        alloc: Global,
        prepared: &'p Prepared,
        watch: W,
    ) -> Result<(Taken<'p>, Seen<J>), Unanswered>
        ensures { IfOk result (λ taken. IsTakenOf (state_of taken.1.told.commands) (request_of prepared.now) taken.0) };

    /// The answer with its times, if they are shown.
    fn timed(&self, answer: Shown) -> Shown
        ensures { (state : State) (request : RequestValue) → IsShownOf state request answer → IsShownOf state request result };
}

impl<J: Naming> HasReader<J> for Reader<J> {
    fn take_first<'p, W: Watch + Copy>(
        &mut self,
        alloc: Global,
        prepared: &'p Prepared,
        most: usize,
        watch: W,
    ) -> Result<(First<'p>, Seen<J>), Unanswered> {
        let first = take_first(alloc, &mut self.reading, prepared, most, watch)?;
        Ok((first, seen_by(self)))
    }

    fn take<'p, W: Watch + Copy>(
        &mut self,
        alloc: Global,
        prepared: &'p Prepared,
        watch: W,
    ) -> Result<(Taken<'p>, Seen<J>), Unanswered> {
        let taken = take(alloc, &mut self.reading, prepared, watch)?;
        Ok((taken, seen_by(self)))
    }

    fn timed(&self, answer: Shown) -> Shown {
        answer
    }
}

/// What a reader has seen.
fn seen_by<J: Naming>(reader: &Reader<J>) -> Seen<J>
    ensures { result.told ≡ reader.now.reading }
{
    Seen {
        reader: reader.number,
        told: reader.reading.told(),
        of: PhantomData,
    }
}
