//! Searches that are not wanted any more.

ghost use Rattle.documents.specs.State.{State};
ghost use Rattle.prepare.specs.Request.{Request as RequestValue};
ghost use Rattle.views.specs.ShownOf.{IsShownOf};

use std::alloc::{AllocError, Global};
use std::sync::Arc;
use std::sync::atomic::{AtomicBool, Ordering};
use std::time::{Clock, Duration, Instant};
use views::{Shown, Times, times_show_nothing};
use watch::Watch;

/// Whether a search is still wanted: it was not called off, and its time is not over.
#[derive(Drop)]
pub struct Wish {
    called_off: Arc<AtomicBool, Global>,
    /// When its time is over. `None` means that it has no limit of time.
    until: Option<Instant>,
    /// When it was asked. `None` means that its times are not shown.
    asked: Option<Instant>,
}

impl Wish {
    /// The wish for a search that is asked now, has so many milliseconds, and shows its times if `times`. Where the clock cannot be
    /// read, it has no limit of time, and shows none. An `Err` means that memory ran out.
    pub(crate) fn new<R: Clock>(
        rt: &R,
        alloc: Global,
        search_ms: Option<u32>,
        times: bool,
    ) -> Result<Wish, AllocError> {
        let asked = if times { Instant::now(rt).ok() } else { None };
        Ok(Wish {
            called_off: Arc::new(alloc, AtomicBool::new(false))?,
            until: end_of(rt, search_ms),
            asked,
        })
    }

    /// The same wish for another thread. An `Err` means that it has too many handles.
    pub(crate) fn again(&self) -> Result<Wish, AllocError> {
        Ok(Wish {
            called_off: Arc::try_clone(&self.called_off)?,
            until: self.until,
            asked: self.asked,
        })
    }

    /// The answer with its times, if they are shown: so long was worked for it.
    pub fn timed<R: Clock>(&self, rt: &R, worked: Duration, answer: Shown) -> Shown
        ensures { (state : State) (request : RequestValue) → IsShownOf state request answer → IsShownOf state request result }
    {
        times_show_nothing();
        match self.times(rt, worked) {
            Some(times) => answer.with_times(times),
            None => answer,
        }
    }

    /// How long the search has waited until now, apart from what was worked for it, and how long that was. `None` means that its
    /// times are not shown, or that the clock cannot be read.
    fn times<R: Clock>(&self, rt: &R, worked: Duration) -> Option<Times> {
        let open = self.asked?.elapsed(rt).ok()?;
        Some(Times {
            waited: micros(open.saturating_sub(worked)),
            worked: micros(worked),
        })
    }

    /// Calls the search off, in every thread.
    pub(crate) fn call_off(&self) {
        self.called_off.store(true, Ordering::SeqCst);
    }

    /// Whether the search was called off.
    pub(crate) fn is_called_off(&self) -> bool {
        self.called_off.load(Ordering::SeqCst)
    }

    /// Whether the search is not wanted any more.
    fn is_over<R: Clock>(&self, rt: &R) -> bool {
        self.is_called_off() || self.is_late(rt)
    }

    /// Whether its time is over. Where the clock cannot be read, it is not.
    fn is_late<R: Clock>(&self, rt: &R) -> bool {
        let Some(until) = self.until else {
            return false;
        };
        match Instant::now(rt) {
            Ok(now) => now >= until,
            Err(_) => false,
        }
    }
}

/// So many microseconds, as far as there is room.
fn micros(time: Duration) -> u64 {
    u64::try_from(time.as_micros()).unwrap_or(u64::MAX)
}

/// When so many milliseconds from now are over. `None` if there is no such limit, or the clock cannot be read.
fn end_of<R: Clock>(rt: &R, search_ms: Option<u32>) -> Option<Instant> {
    let time = Duration::from_millis(u64::from(search_ms?));
    Instant::now(rt).ok()?.checked_add(time)
}

/// What a thread that searches looks at: whether its search is still wanted.
pub struct Look<'a, R> {
    pub rt: &'a R,
    pub wish: &'a Wish,
}

impl<'a, R> Clone for Look<'a, R> {
    fn clone(&self) -> Result<Look<'a, R>, AllocError> {
        Ok(*self)
    }
}

impl<'a, R> Copy for Look<'a, R> {}

impl<R: Clock> Watch for Look<'_, R> {
    // Other threads call the wish off, and time passes: what it said is in no value that a contract can name.
    ghost has_said_no = { λ _. Unit {0} };

    fn wants(&mut self) -> bool {
        !self.wish.is_over(self.rt)
    }
}
