//! Answers on their way to the service.

ghost use Rattle.std.specs.Prelude.{◌≡◌};

use crate::naming::Naming;
use crate::question::Question;
use crate::tasks::Request;
use crate::wish::Wish;
use published::Told;
use std::marker::{Model, PhantomData};
use views::Shown;
use watch::Unanswered;

/// What a reader found for a search. It carries the evidence that the answer is right: the texts of the search, and the
/// commands that were searched. Contracts see it as the number of the search.
#[derive(Drop)]
pub struct Done<J: Naming> {
    /// The number of the search, from 1.
    pub(crate) number: u32,
    /// The texts of the search.
    pub(crate) question: Question,
    /// `None` if memory ran out for the answer, if the search was given up, or if the service was closed.
    pub(crate) found: Option<Found<J>>,
    /// Whether it was given up since its time was over.
    pub(crate) is_late: bool,
}

/// An answer, and what was searched.
#[derive(Drop)]
pub struct Found<J: Naming> {
    /// The number of the reader that took the documents, from 1.
    pub reader: u32,
    /// The commands that it had seen then.
    pub seen: Told,
    pub answer: Shown,
    pub of: PhantomData<J>,
    pub ghost opening: { seen.opening ≡ J.book },
}

impl<J: Naming> Model for Done<J> {
    ghost use Rattle.std.specs.Prelude.{ℕ, IfSome};
    ghost use Rattle.service.specs.Service.{IsFound};

    ghost Value = { ℕ };

    ghost view = { λ d. d.number };

    ghost invariant = { λ d. IfSome d.found (λ f. IsFound d.question f.seen.commands f.answer) };
}

impl<J: Naming> Done<J> {
    ghost use Rattle.std.specs.Prelude.{◌≡◌, IfOk};
    ghost use Rattle.documents.specs.State.{state_of};
    ghost use Rattle.prepare.specs.Prepared.{request_of};
    ghost use Rattle.views.specs.ShownOf.{IsShownOf};

    /// What a reader found for the search of this number, which asks for this, or why it found nothing. The wish is that of the
    /// search.
    pub fn new(
        number: u32,
        request: Request,
        wish: &Wish,
        found: Result<Found<J>, Unanswered>,
    ) -> Done<J>
        requires { IfOk found (λ found. IsShownOf (state_of found.seen.commands) (request_of request.prepared) found.answer) }
        ensures { result ≡ number }
    {
        let is_late = is_given_up(&found) && !wish.is_called_off();
        let Request {
            question,
            prepared: _,
        } = request;
        Done {
            number,
            question,
            found: found.ok(),
            is_late,
        }
    }
}

/// Whether the search was given up.
fn is_given_up<J: Naming>(found: &Result<Found<J>, Unanswered>) -> bool {
    match found {
        Err(Unanswered::CalledOff) => true,
        _ => false,
    }
}
