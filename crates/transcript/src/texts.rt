//! The texts of entries.

ghost use Rattle.std.specs.Prelude.{◌≡◌, ◌++◌, OnOk, OnErr, codes, decimal};
ghost use Rattle.ere.specs.Faults.{reason_of};
ghost use Rattle.views.specs.Text.{line_end};
ghost use Rattle.transcript.specs.Reasons.{text_of_name_error, text_of_body_error, text_of_reason};
ghost use Rattle.transcript.specs.Heads.{head_of_entry};
ghost use Rattle.transcript.specs.Transcript.{line_refusal, search_refusal, status_line};

use crate::entry::{Entry, Reason, SearchReason};
use documents::{BodyErrorKind, NameError};
use ere::EreError;
use itoa::Buffer;
use std::alloc::AllocError;
use views::append_all;

fn name_text(error: NameError) -> &'static str
    ensures { result.now ≡ text_of_name_error error }
{
    match error {
        NameError::Empty => "name empty",
        NameError::TooLong => "name too long",
        NameError::BadByte => "bad byte in name",
        NameError::OutOfMemory => "out of memory",
    }
}

fn body_text(kind: BodyErrorKind) -> &'static str
    ensures { result.now ≡ text_of_body_error kind }
{
    match kind {
        BodyErrorKind::TooLong => "body too long",
        BodyErrorKind::NotText => "byte 0 in body",
        BodyErrorKind::LineTooLong => "line too long",
    }
}

fn reason_text(reason: Reason) -> &'static str
    ensures { result.now ≡ text_of_reason reason }
{
    match reason {
        Reason::BadLine => "bad line",
        Reason::BadPut => "bad put",
        Reason::Truncated => "truncated",
        Reason::BodyNotClosed => "body not closed",
        Reason::Name(error) => name_text(error),
        Reason::Body(kind) => body_text(kind),
        Reason::CannotLoad => "cannot load",
        Reason::NoSuchFile => "no such file",
        Reason::NoSuchSearch => "no such search",
        Reason::Full => "full",
        Reason::OutOfMemory => "out of memory",
    }
}

/// An `Err` leaves `out` as it was.
fn append_line_refusal(out: &mut Vec<u8>, line: u32, reason: Reason) -> Result<(), AllocError>
    ensures ok { OnOk result (out.new.items ≡ out.old.items ++ line_refusal line reason) }
    ensures err { OnErr result (out.new.items ≡ out.old.items) }
{
    let mut number = Buffer::new();
    append_all(
        out,
        &[
            b"line ".as_slice(),
            number.format(line).as_bytes(),
            b" refused: ".as_slice(),
            reason_text(reason).as_bytes(),
            b"\n".as_slice(),
        ],
    )
}

/// Appends the refusal of a search whose pattern has a fault, with `which` before the fault. An `Err` leaves `out` as it
/// was.
fn append_fault(
    out: &mut Vec<u8>,
    search: u32,
    which: &'static [u8],
    error: EreError,
) -> Result<(), AllocError>
    ensures ok { OnOk result (out.new.items ≡ out.old.items ++ codes "search " ++ decimal search ++ codes " refused: "
        ++ which.now ++ reason_of error.kind ++ codes " at " ++ decimal error.at ++ line_end) }
    ensures err { OnErr result (out.new.items ≡ out.old.items) }
{
    let mut number = Buffer::new();
    let mut at = Buffer::new();
    append_all(
        out,
        &[
            b"search ".as_slice(),
            number.format(search).as_bytes(),
            b" refused: ".as_slice(),
            which,
            error.kind.reason().as_bytes(),
            b" at ".as_slice(),
            at.format(error.at).as_bytes(),
            b"\n".as_slice(),
        ],
    )
}

/// Appends the refusal of a search of which one of several patterns of names has a fault. An `Err` leaves `out` as it was.
fn append_fault_at(
    out: &mut Vec<u8>,
    search: u32,
    name: usize,
    error: EreError,
) -> Result<(), AllocError>
    ensures ok { OnOk result (out.new.items ≡ out.old.items ++ search_refusal search (SearchReason.NamePatternAt name error)) }
    ensures err { OnErr result (out.new.items ≡ out.old.items) }
{
    let mut number = Buffer::new();
    let mut which = Buffer::new();
    let mut at = Buffer::new();
    append_all(
        out,
        &[
            b"search ".as_slice(),
            number.format(search).as_bytes(),
            b" refused: ".as_slice(),
            b"name pattern ".as_slice(),
            which.format(name).as_bytes(),
            b": ".as_slice(),
            error.kind.reason().as_bytes(),
            b" at ".as_slice(),
            at.format(error.at).as_bytes(),
            b"\n".as_slice(),
        ],
    )
}

/// Appends the refusal of a search with this reason. An `Err` leaves `out` as it was.
fn append_fixed_refusal(out: &mut Vec<u8>, search: u32, reason: &[u8]) -> Result<(), AllocError>
    ensures ok { OnOk result (out.new.items ≡ out.old.items ++ codes "search " ++ decimal search ++ codes " refused: "
        ++ reason.now ++ line_end) }
    ensures err { OnErr result (out.new.items ≡ out.old.items) }
{
    let mut number = Buffer::new();
    append_all(
        out,
        &[
            b"search ".as_slice(),
            number.format(search).as_bytes(),
            b" refused: ".as_slice(),
            reason,
            b"\n".as_slice(),
        ],
    )
}

/// An `Err` leaves `out` as it was.
fn append_search_refusal(
    out: &mut Vec<u8>,
    search: u32,
    reason: &SearchReason,
) -> Result<(), AllocError>
    ensures ok { OnOk result (out.new.items ≡ out.old.items ++ search_refusal search reason.now) }
    ensures err { OnErr result (out.new.items ≡ out.old.items) }
{
    match reason {
        SearchReason::Pattern(error) => append_fault(out, search, b"", *error),
        SearchReason::NamePattern(error) => append_fault(out, search, b"name pattern: ", *error),
        SearchReason::NamePatternAt(at, error) => append_fault_at(out, search, *at, *error),
        SearchReason::Options(words) => append_fixed_refusal(out, search, words),
        SearchReason::Cancelled => append_fixed_refusal(out, search, b"cancelled"),
        SearchReason::TooSlow => append_fixed_refusal(out, search, b"too slow"),
        SearchReason::OutOfMemory => append_fixed_refusal(out, search, b"out of memory"),
    }
}

/// What a run or a session is like, as `Entry::Status` shows it.
#[derive(Clone, Copy, Debug)]
struct Shown {
    line: u32,
    version: u32,
    documents: u32,
    bytes: u64,
    accepted: u32,
    most: u32,
    open_searches: u32,
}

/// An `Err` leaves `out` as it was.
fn append_status(out: &mut Vec<u8>, shown: Shown) -> Result<(), AllocError>
    ensures ok { OnOk result (out.new.items ≡ out.old.items
        ++ status_line shown.line shown.version shown.documents shown.bytes shown.accepted shown.most shown.open_searches) }
    ensures err { OnErr result (out.new.items ≡ out.old.items) }
{
    let mut line = Buffer::new();
    let mut version = Buffer::new();
    let mut documents = Buffer::new();
    let mut bytes = Buffer::new();
    let mut accepted = Buffer::new();
    let mut most = Buffer::new();
    let mut open_searches = Buffer::new();
    append_all(
        out,
        &[
            b"line ".as_slice(),
            line.format(shown.line).as_bytes(),
            b" status version ".as_slice(),
            version.format(shown.version).as_bytes(),
            b" documents ".as_slice(),
            documents.format(shown.documents).as_bytes(),
            b" bytes ".as_slice(),
            bytes.format(shown.bytes).as_bytes(),
            b" accepted ".as_slice(),
            accepted.format(shown.accepted).as_bytes(),
            b" of ".as_slice(),
            most.format(shown.most).as_bytes(),
            b" open ".as_slice(),
            open_searches.format(shown.open_searches).as_bytes(),
            b"\n".as_slice(),
        ],
    )
}

/// Appends the text of an entry, for an answer only that of its first line. With `stats` that also shows its number of
/// candidates and of documents. An `Err` means that memory ran out; it can leave a beginning of the text in `out`.
pub fn append_head(entry: &Entry, stats: bool, out: &mut Vec<u8>) -> Result<(), AllocError>
    ensures { OnOk result (out.new.items ≡ out.old.items ++ head_of_entry stats entry.now) }
{
    match entry {
        Entry::Accepted { .. } => Ok(()),
        Entry::Published { .. } => Ok(()),
        Entry::Refused { line, reason } => append_line_refusal(out, *line, *reason),
        Entry::SearchRefused { search, reason } => append_search_refusal(out, *search, reason),
        Entry::Found { search, answer, .. } => answer.append_head(*search, stats, out),
        Entry::Status {
            line,
            version,
            documents,
            bytes,
            accepted,
            most,
            open,
        } => append_status(
            out,
            Shown {
                line: *line,
                version: *version,
                documents: *documents,
                bytes: *bytes,
                accepted: *accepted,
                most: *most,
                open_searches: *open,
            },
        ),
    }
}
