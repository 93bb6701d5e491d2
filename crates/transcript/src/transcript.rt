//! Transcripts and their statuses.

ghost use Rattle.std.specs.Prelude.{◌≡◌};
ghost use Rattle.std.specs.List.{list_any};
ghost use Rattle.transcript.specs.Transcript.{status_of, is_refusal, has_hit};

use crate::entry::{Entry, has_hit, is_refusal};

/// The entries of a run.
#[derive(Debug, Drop)]
pub struct Transcript {
    /// In the order of the script, one for each item. A `sync` has none, and neither has a `cancel` of a search that was asked.
    pub entries: Vec<Entry>,
}

/// The status of a run: 2 if anything was refused, a line or a search, otherwise 0 if some search has a hit,
/// and otherwise 1. These are grep's statuses (POSIX.1-2017, XCU, grep, EXIT STATUS).
pub fn status(transcript: &Transcript) -> u8
    ensures { result ≡ status_of transcript.now.entries.items }
{
    if any_refused(&transcript.entries) {
        2
    } else if any_hit(&transcript.entries) {
        0
    } else {
        1
    }
}

fn any_refused(entries: &[Entry]) -> bool
    ensures { result ≡ list_any is_refusal entries.now }
{
    entries.iter().any(|entry| is_refusal(entry))
}

fn any_hit(entries: &[Entry]) -> bool
    ensures { result ≡ list_any has_hit entries.now }
{
    entries.iter().any(|entry| has_hit(entry))
}
