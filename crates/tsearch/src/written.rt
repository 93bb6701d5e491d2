//! The sink of a session: each entry is written at once.

ghost use Rattle.std.specs.Prelude.{◌≡◌, ◌≤◌, [], OnOk, OnErr, length, drop};
ghost use Rattle.std.specs.Io.KnownBytes.{Appends};
ghost use Rattle.transcript.specs.Heads.{head_of_entry};
ghost use Rattle.transcript.specs.Transcript.{text_of_entry};
ghost use Rattle.transcript.specs.Written.{AppendsFront};
ghost use Rattle.tsearch.specs.Private.Sinks.{marks_of, marks_with};

use crate::marks::Marks;
use crate::write::{write_last, write_now};
use event_loop::{LiveError, News, Sink};
use std::alloc::Global;
use std::io::Write;
use std::thread::Threads;
use std::time::Duration;
use transcript::Entry;

/// What the entries that were written say of the status, and a buffer for the text of an entry.
#[derive(Drop)]
pub(crate) struct Written {
    /// Whether each answer also shows its number of candidates and of documents.
    pub(crate) stats: bool,
    /// What they say of the status.
    pub(crate) marks: Marks,
    /// In how many threads the text of a large answer may be formed, with the one that writes it.
    threads: usize,
    text: Vec<u8>,
}

impl Written {
    /// Nothing is written yet.
    pub(crate) fn new(alloc: Global, stats: bool, threads: usize) -> Written
        ensures marks { result.marks ≡ marks_of [] }
        ensures stats { result.stats ≡ stats }
    {
        Written {
            stats,
            marks: Marks {
                refused: false,
                hit: false,
            },
            threads,
            text: Vec::new(alloc),
        }
    }

    /// Notes an entry and writes its text, but for its first `ahead` bytes, which are out already.
    ///
    /// An `Err` is `CannotWrite` if the output failed or took no byte, `OutputClosed` if nobody reads it any more, or
    /// `OutOfMemory` if there is no memory for the text. A beginning of what was to be written is then written.
    fn show<R: Threads + Sync, O: Write>(
        &mut self,
        rt: &R,
        alloc: Global,
        ahead: usize,
        entry: &Entry,
        out: &mut O,
    ) -> Result<(), LiveError>
        requires { ahead ≤ length (head_of_entry self.old.stats entry.now) }
        ensures marks { (self.new.marks ≡ marks_with self.old.marks entry.now) × (self.new.stats ≡ self.old.stats) }
        ensures ok { OnOk result (Appends (O.contents out.old) (O.contents out.new) (drop ahead (text_of_entry self.old.stats entry.now))) }
        ensures err { OnErr result (AppendsFront (O.contents out.old) (O.contents out.new) (drop ahead (text_of_entry self.old.stats entry.now))) }
    {
        self.marks = self.marks.with(entry);
        write_now(
            rt,
            alloc,
            self.threads,
            ahead,
            entry,
            self.stats,
            &mut self.text,
            out,
        )
    }
}

impl<O: Write> Sink<O> for Written {
    ghost use Rattle.std.specs.Prelude.{refl};
    ghost use Rattle.tsearch.specs.Private.Sinks.{Writes, WritesFront, IsAhead};
    ghost use Rattle.tsearch.specs.Private.Ahead.{none_ahead, awaits};

    ghost does = { λ old out news new out'. Writes old.stats old.marks (O.contents out) news new.stats new.marks (O.contents out') };

    ghost fails = { λ old out news _ out'. WritesFront old.stats (O.contents out) news (O.contents out') };

    ghost begun = { λ ahead old out new out'. IsAhead ahead old.stats old.marks (O.contents out) new.stats new.marks (O.contents out') };

    fn note<R: Threads + Sync>(
        &mut self,
        rt: &R,
        alloc: Global,
        news: News,
        out: &mut O,
    ) -> Result<(), LiveError> {
        match news {
            News::Entry(entry) => self.show(rt, alloc, 0, &entry, out),
            News::Open(_) => Ok(()),
            News::Answer(entry) => self.show(rt, alloc, 0, &entry, out),
        }
    }

    fn patience(&self, ahead: usize) -> Option<Duration> {
        match ahead {
            0 => Some(Duration::from_millis(50)),
            1 => Some(Duration::from_secs(1)),
            2 => Some(Duration::from_secs(2)),
            3 => Some(Duration::from_secs(4)),
            4 => Some(Duration::from_secs(8)),
            5 => Some(Duration::from_secs(16)),
            6 => Some(Duration::from_secs(32)),
            _ => None,
        }
    }

    fn begin(&mut self, ahead: usize, out: &mut O) -> Result<usize, LiveError> {
        let beginning = b"search ".as_slice();
        if ahead >= beginning.len() {
            return Ok(ahead);
        }
        let more = ahead + 1;
        write_last(&beginning[ahead..more], out)?;
        Ok(more)
    }

    fn finish<R: Threads + Sync>(
        &mut self,
        rt: &R,
        alloc: Global,
        ahead: usize,
        entry: Entry,
        out: &mut O,
    ) -> Result<(), LiveError> {
        self.show(rt, alloc, ahead, &entry, out)
    }

    ghost at_first = { λ sink out. (refl, refl, none_ahead (O.contents out)) };

    ghost awaits = { λ ahead first start sink out entry own is. awaits ahead first.stats (O.contents start) (O.contents out) entry own is.2 };
}
