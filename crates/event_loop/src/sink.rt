//! Where entries go.

ghost use denote.Param.Send.{IsSync};
ghost use Rattle.std.specs.Prelude.{◌≡◌, ◌≤◌, IfOk, OnOk, OnErr};
ghost use Rattle.steps.specs.StepRows.{searches_in};
ghost use Rattle.transcript.specs.declared.entry.Entry.{Entry as EntryValue};

use crate::error::LiveError;
use std::alloc::Global;
use std::thread::Threads;
use std::time::Duration;
use transcript::Entry;

/// What became of an item or of an open search.
#[derive(Drop)]
pub enum News {
    /// The next item has this entry.
    Entry(Entry),
    /// The next item is the search with this number, which is open.
    Open(u32),
    /// An open search has got this entry.
    Answer(Entry),
}

/// What takes the entries of a run or a session. An output O may belong to it.
pub trait Sink<O> {
    ghost use Rattle.std.specs.Prelude.{◌≡◌, ℕ};
    ghost use Rattle.steps.specs.StepRows.{searches_in};
    ghost use Rattle.transcript.specs.declared.entry.Entry.{Entry};
    ghost use Rattle.event_loop.specs.declared.sink.News.{News};
    ghost use Rattle.event_loop.specs.declared.sink.News.TheVariants.{Answer};

    /// It has taken the news.
    ghost does: { Self → O → News → Self → O → Type 0 };

    /// It has taken the news in part, or not at all.
    ghost fails: { Self → O → News → Self → O → Type 0 };

    /// It has taken nothing since, but so many bytes that the entry of any search begins with are out.
    ghost begun: { ℕ → Self → O → Self → O → Type 0 };

    /// Takes the news. An `Err` says why that failed.
    fn note<R: Threads + Sync>(
        &mut self,
        rt: &R,
        alloc: Global,
        news: News,
        out: &mut O,
    ) -> Result<(), LiveError>
        requires sync { IsSync R.row }
        ensures ok { OnOk result (does self.old out.old news self.new out.new) }
        ensures err { OnErr result (fails self.old out.old news self.new out.new) };

    /// How long to wait for the entry of a search, of which so many bytes are out, before one more is written. `None` means
    /// that no more is.
    fn patience(&self, ahead: usize) -> Option<Duration>;

    /// Writes one more byte that the entry of any search begins with, where so many are out, at most 7. Returns how many are out
    /// then, at most 7. An `Err` says why that failed.
    fn begin(&mut self, ahead: usize, out: &mut O) -> Result<usize, LiveError>
        requires { ahead ≤ 7 }
        ensures few { IfOk result (λ more. more ≤ 7) }
        ensures ok { IfOk result (λ more. (first : Self) (start : O) → begun ahead first start self.old out.old
            → begun more first start self.new out.new) }
        ensures err { OnErr result ((first : Self) (start : O) (entry : EntryValue) → searches_in entry ≡ 1
            → begun ahead first start self.old out.old → fails first start (News.Answer entry) self.new out.new) };

    /// Takes the entry of an open search, of which so many bytes are out, at most 7. An `Err` says why that failed.
    fn finish<R: Threads + Sync>(
        &mut self,
        rt: &R,
        alloc: Global,
        ahead: usize,
        entry: Entry,
        out: &mut O,
    ) -> Result<(), LiveError>
        requires sync { IsSync R.row }
        requires few { ahead ≤ 7 }
        requires search { searches_in entry ≡ 1 }
        ensures ok { OnOk result ((first : Self) (start : O) → begun ahead first start self.old out.old
            → does first start (News.Answer entry) self.new out.new) }
        ensures err { OnErr result ((first : Self) (start : O) → begun ahead first start self.old out.old
            → fails first start (News.Answer entry) self.new out.new) };

    /// At first nothing is out.
    ghost at_first: { (sink : Self) (out : O) → begun 0 sink out sink out };

    /// What is out is a part of the entry of any search.
    ghost awaits: { (ahead : ℕ) (first : Self) (start : O) (sink : Self) (out : O) (entry : Entry) → searches_in entry ≡ 1
        → begun ahead first start sink out → fails first start (Answer entry) sink out };
}
