//! What a client gets of an answer.

ghost use Rattle.std.specs.Prelude.{◌≡◌, codes, if◌then◌else◌, []};
ghost use Rattle.views.specs.Shown.{text_of_way};
ghost use Rattle.views.specs.View.{shows_names};

use crate::parts::Passage;
use crate::text::append_all;
use itoa::Buffer;
use request::View;
use std::alloc::AllocError;
use std::marker::Model;

/// By which way the lines of a search were found.
#[derive(Clone, Copy, Debug, PartialEq, Eq)]
pub enum FoundBy {
    /// By a compiled pattern.
    Engine,
    /// By the matcher alone, or no line was looked at.
    Matcher,
    /// By a simulation.
    Simulation,
}

/// How long a search took, in microseconds.
#[derive(Clone, Copy, Debug, PartialEq, Eq)]
pub struct Times {
    /// How long it was open and nobody worked for it.
    pub waited: u64,
    /// How long it was worked for.
    pub worked: u64,
}

/// What a request shows of an answer. Where lines alone are shown, it keeps the names and bodies of their documents, and shares
/// them with the index: they stay in memory until it is dropped.
///
/// Contracts see it as its counts and its text.
#[derive(Debug, Drop)]
pub struct Shown {
    /// In a box, since a run keeps an entry for each item, and all entries have the size of those with answers.
    pub contents: Box<ShownContents>,
}

/// What it has.
#[derive(Debug, Drop)]
pub struct ShownContents {
    /// What is shown of lines.
    pub view: View,
    /// The version that was searched.
    pub version: u32,
    /// How many lines are shown, or names.
    pub count: usize,
    /// Whether there are more of them.
    pub more: bool,
    /// How many lines of text there are.
    pub rows: usize,
    /// Their text.
    pub parts: Vec<Passage>,
    /// The number of documents that the index had.
    pub documents: u32,
    /// The number of candidates among them.
    pub candidates: u32,
    /// By which way the lines were found.
    pub found_by: FoundBy,
    /// How long the search took, if that is shown.
    pub times: Option<Times>,
}

impl Model for Shown {
    ghost use Rattle.views.specs.Shown.{Shown as ShownValue};

    ghost Value = { ShownValue };

    ghost use Rattle.views.specs.Parts.{shown_of};

    ghost view = { λ s. shown_of s.contents.value };
}

impl Shown {
    ghost use Rattle.std.specs.Prelude.{◌≡◌, ◌++◌, OnOk, OnErr};
    ghost use Rattle.views.specs.Parts.{text_of_parts};
    ghost use Rattle.views.specs.Shown.{text_of_head, text_of_rows_count, text_of_stats, text_of_times, timed};
    ghost use Rattle.views.specs.Text.{Begins};
    ghost use Rattle.views.specs.View.{shows_names};

    /// The version that was searched: the number of commands that were applied to the index.
    pub fn version(&self) -> u32
        ensures { result ≡ self.now.version }
    {
        self.contents.version
    }

    /// How many lines are shown, or names if names are shown.
    pub fn count(&self) -> usize
        ensures { result ≡ self.now.count }
    {
        self.contents.count
    }

    /// Whether there are more lines, or names, than are shown.
    pub fn has_more(&self) -> bool
        ensures { result ≡ self.now.more }
    {
        self.contents.more
    }

    /// How many lines of text there are.
    pub fn rows(&self) -> usize
        ensures { result ≡ self.now.rows }
    {
        self.contents.rows
    }

    /// The number of documents that the index had.
    pub fn documents(&self) -> u32
        ensures { result ≡ self.now.documents }
    {
        self.contents.documents
    }

    /// The number of candidates: the documents whose trigrams meet the condition of the pattern (Russ Cox, "Regular
    /// Expression Matching with a Trigram Index", 2012), or all if lines without a match are asked for. Patterns of names
    /// have no effect on it.
    pub fn candidates(&self) -> u32
        ensures { result ≡ self.now.candidates }
    {
        self.contents.candidates
    }

    /// By which way the lines were found.
    pub fn found_by(&self) -> FoundBy
        ensures { result ≡ self.now.found_by }
    {
        self.contents.found_by
    }

    /// How long the search took, if that is shown.
    pub fn times(&self) -> Option<Times>
        ensures { result ≡ self.now.times }
    {
        self.contents.times
    }

    /// The same, with its times.
    pub fn with_times(self, times: Times) -> Shown
        ensures { result ≡ timed times self }
    {
        let mut shown = self;
        shown.contents.times = Some(times);
        shown
    }

    /// What is shown of lines.
    fn view(&self) -> View
        ensures { result ≡ self.now.view }
    {
        self.contents.view
    }

    /// The text of the rows, part after part.
    pub fn parts(&self) -> &[Passage]
        ensures { text_of_parts result.now ≡ self.now.text }
    {
        self.contents.parts.as_slice()
    }

    /// Appends the line of the search, `search K version V lines L`, where K is `search`: with `names` in place of
    /// `lines` if names are shown, with ` and more` if not all are shown, with ` rows R` if lines around them are
    /// shown, with ` candidates C of D` if `stats`, and, if it has times, with ` waited W worked U by WAY` at its end. What
    /// follows it is the text of `parts`.
    ///
    /// An `Err` means that memory ran out; it can leave a beginning of the line in `out`.
    pub fn append_head(&self, search: u32, stats: bool, out: &mut Vec<u8>) -> Result<(), AllocError>
        ensures ok { OnOk result (out.new.items ≡ out.old.items ++ text_of_head search stats self.now) }
        ensures err { OnErr result (Begins out.old.items out.new.items) }
    {
        let mut number = Buffer::new();
        let mut version = Buffer::new();
        let mut count = Buffer::new();
        append_all(
            out,
            &[
                b"search ".as_slice(),
                number.format(search).as_bytes(),
                b" version ".as_slice(),
                version.format(self.version()).as_bytes(),
                what_is_counted(self.view()),
                count.format(self.count()).as_bytes(),
                and_more(self.has_more()),
            ],
        )?;
        self.append_rows(out)?;
        if stats {
            self.append_stats(out)?;
        }
        self.append_times(out)?;
        append_all(out, &[b"\n".as_slice()])
    }

    /// Appends the number of rows, if lines around hits are shown.
    fn append_rows(&self, out: &mut Vec<u8>) -> Result<(), AllocError>
        ensures ok { OnOk result (out.new.items ≡ out.old.items ++ text_of_rows_count self.now.view self.now.rows) }
        ensures err { OnErr result (out.new.items ≡ out.old.items) }
    {
        let mut rows = Buffer::new();
        match self.view() {
            View::Context(_) => append_all(
                out,
                &[b" rows ".as_slice(), rows.format(self.rows()).as_bytes()],
            ),
            _ => Ok(()),
        }
    }

    /// Appends the counts of documents.
    fn append_stats(&self, out: &mut Vec<u8>) -> Result<(), AllocError>
        ensures ok { OnOk result (out.new.items ≡ out.old.items ++ text_of_stats self.now) }
        ensures err { OnErr result (out.new.items ≡ out.old.items) }
    {
        let mut candidates = Buffer::new();
        let mut documents = Buffer::new();
        append_all(
            out,
            &[
                b" candidates ".as_slice(),
                candidates.format(self.candidates()).as_bytes(),
                b" of ".as_slice(),
                documents.format(self.documents()).as_bytes(),
            ],
        )
    }

    /// Appends the times and the way, if it has times.
    fn append_times(&self, out: &mut Vec<u8>) -> Result<(), AllocError>
        ensures ok { OnOk result (out.new.items ≡ out.old.items ++ text_of_times self.now.found_by self.now.times) }
        ensures err { OnErr result (out.new.items ≡ out.old.items) }
    {
        let Some(times) = self.times() else {
            return Ok(());
        };
        let mut waited = Buffer::new();
        let mut worked = Buffer::new();
        append_all(
            out,
            &[
                b" waited ".as_slice(),
                waited.format(times.waited).as_bytes(),
                b" worked ".as_slice(),
                worked.format(times.worked).as_bytes(),
                b" by ".as_slice(),
                way_text(self.found_by()),
            ],
        )
    }
}

/// The word for a way.
fn way_text(found_by: FoundBy) -> &'static [u8]
    ensures { result.now ≡ text_of_way found_by }
{
    match found_by {
        FoundBy::Engine => b"engine",
        FoundBy::Matcher => b"matcher",
        FoundBy::Simulation => b"simulation",
    }
}

/// What the line of a search says if not all is shown.
fn and_more(more: bool) -> &'static [u8]
    ensures { result.now ≡ if more then codes " and more" else [] }
{
    if more { b" and more" } else { b"" }
}

/// What the line of a search counts.
fn what_is_counted(view: View) -> &'static [u8]
    ensures { result.now ≡ if shows_names view then codes " names " else codes " lines " }
{
    match view {
        View::Names => b" names ",
        View::Counts => b" names ",
        _ => b" lines ",
    }
}
