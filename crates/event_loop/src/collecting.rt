//! The sink of a run: the entries are collected, in the order of the items.

use crate::error::LiveError;
use crate::sink::{News, Sink};
use service::Collected;
use std::alloc::Global;
use std::thread::Threads;
use std::time::Duration;
use transcript::{Entry, SearchReason};

// An open search has the refusal for memory in its place, until its entry is filled in, which takes no memory.
impl Sink<()> for Collected {
    ghost use Rattle.std.specs.Prelude.{◌≡◌, refl};
    ghost use Rattle.event_loop.specs.Collects.{Collects};

    ghost does = { λ old _ news new _. Collects old news new };

    ghost fails = { λ _ _ _ _ _. Unit {0} };

    ghost begun = { λ _ old _ new _. new ≡ old };

    fn note<R: Threads + Sync>(
        &mut self,
        _rt: &R,
        _alloc: Global,
        news: News,
        _out: &mut (),
    ) -> Result<(), LiveError> {
        let pushed = match news {
            News::Entry(entry) => self.push(entry),
            News::Open(search) => self.push(Entry::SearchRefused {
                search,
                reason: SearchReason::OutOfMemory,
            }),
            News::Answer(entry) => {
                self.fill(entry);
                return Ok(());
            }
        };
        match pushed {
            Ok(()) => Ok(()),
            Err(_) => Err(LiveError::OutOfMemory),
        }
    }

    fn patience(&self, _ahead: usize) -> Option<Duration> {
        None
    }

    fn begin(&mut self, ahead: usize, _out: &mut ()) -> Result<usize, LiveError> {
        Ok(ahead)
    }

    fn finish<R: Threads + Sync>(
        &mut self,
        _rt: &R,
        _alloc: Global,
        _ahead: usize,
        entry: Entry,
        _out: &mut (),
    ) -> Result<(), LiveError> {
        self.fill(entry);
        Ok(())
    }

    ghost at_first = { λ _ _. refl };

    ghost awaits = { λ _ _ _ _ _ _ _ _. tt };
}
