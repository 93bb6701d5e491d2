//! The rows of one document.

ghost use Rattle.std.specs.Prelude.{◌≡◌, ◌<◌, ◌≤◌, ◌+◌, ◌++◌, ◌∷◌, Bool, List, filter, length, map, nat_le, is_some, IfOk, IfErr, OnOk};
ghost use Rattle.std.specs.List.{All};
ghost use Rattle.std.specs.List.Sorted.{IsStrictlyIncreasing};
ghost use Rattle.lines.specs.Lines.{lines_of};
ghost use Rattle.spans.specs.FirstSpan.{AreSpans};
ghost use Rattle.spans.specs.declared.span.Span.{Span};
ghost use Rattle.watch.specs.CalledOff.{IsCalledOffOnlyIf};
ghost use Rattle.views.specs.Hits.{hit_of};
ghost use Rattle.prepare.specs.Prepared.{request_of};
ghost use Rattle.views.specs.Text.{text_of_place, text_of_row, text_of_rows, text_of_span, text_of_spans};
ghost use Rattle.views.specs.View.{Row, hit, at_column, near, name, count, stretches};
ghost use Rattle.views.specs.Rows.{IsColumnRow, IsSpansRow, RowsOf, shown_tree};
ghost use Rattle.search.specs.Private.Gathered.{formed_of};
ghost use Rattle.search.specs.Private.Rows.{AreRowsOf, IsMatchRow};
ghost use Rattle.search.specs.Private.Seekers.{CanShow, IsOneLine, Seeks};

use crate::ahead::LOOK;
use crate::gathered::Wanted;
use crate::seeker::Seeker;
use documents::SharedDocument;
use prepare::Prepared;
use request::View;
use std::alloc::AllocError;
use views::{
    Hit, Lines, append_all, append_at_column, append_count, append_hit, append_name, append_place,
    append_span, append_stretches,
};
use watch::{Pace, Unanswered, Watch};

/// Appends the rows of one document, of which these hits are shown, but where lines alone are shown, whose text is formed later;
/// returns how many rows they are. `seeker` finds the matches within lines, if these are shown. `watch` is asked whether the answer
/// is wanted before each pass over a line, and at each 64 KiB of lines that are passed for what is near hits.
///
/// `CalledOff` is returned once `watch` says that the answer is not wanted, and `OutOfMemory` means that memory ran
/// out. After an `Err`, `out` has any bytes.
pub(crate) fn append_rows<W: Watch>(
    out: &mut Vec<u8>,
    wanted: &Wanted<'_>,
    document: &SharedDocument,
    hits: &Lines<'_>,
    seeker: &mut Option<Seeker<'_>>,
    watch: &mut W,
) -> Result<usize, Unanswered>
    requires rising { IsStrictlyIncreasing (map (λ h. h.line) hits.now) }
    requires lines { All (λ h. IsOneLine h.text) hits.now }
    requires seeker { CanShow wanted.now seeker.old }
    ensures seeker { CanShow wanted.now seeker.new }
    ensures rows { IfOk result (λ n. (rows : List Row)
        × AreRowsOf (request_of wanted.now.prepared.now) wanted.now.view document.now.name document.now.held hits.now rows
        × (n ≡ length rows) × (out.new.items ≡ out.old.items ++ text_of_rows wanted.now.prepared.now.zero (formed_of wanted.now.view rows))) }
    ensures called_off { IfErr result (IsCalledOffOnlyIf (W.has_said_no watch.new)) }
{
    let prepared = wanted.prepared;
    match wanted.view {
        View::Lines => Ok(hits.len()),
        View::Context(most) => append_stretches(out, prepared.zero, most, document, hits, watch),
        View::Column => match seeker {
            Some(seeker) => append_matched(out, prepared, false, hits, seeker, watch),
            // There is one.
            None => Ok(0),
        },
        View::Spans => match seeker {
            Some(seeker) => append_matched(out, prepared, true, hits, seeker, watch),
            // There is one.
            None => Ok(0),
        },
        View::Names => Ok(append_name(out, prepared.zero, document)?),
        View::Counts => Ok(append_count(out, prepared.zero, document, hits.len())?),
        View::Header => Ok(0),
    }
}

// ---- matches within lines

/// Appends each hit with the spans of its matches if `spans`, and otherwise with the column of the first one. Beside what `append_rows`
/// says, `watch` is asked at each 64 KiB that are appended, since an empty match at a line's start is known without a pass.
fn append_matched<W: Watch>(
    out: &mut Vec<u8>,
    prepared: &Prepared,
    spans: bool,
    hits: &Lines<'_>,
    seeker: &mut Seeker<'_>,
    watch: &mut W,
) -> Result<usize, Unanswered>
    requires lines { All (λ h. IsOneLine h.text) hits.now }
    requires seeks { Seeks (shown_tree (request_of prepared.now)) seeker.old }
    ensures seeks { Seeks (shown_tree (request_of prepared.now)) seeker.new }
    ensures rows { IfOk result (λ n. (rows : List Row) × RowsOf (IsMatchRow spans (request_of prepared.now)) hits.now rows
        × (n ≡ length rows) × (out.new.items ≡ out.old.items ++ text_of_rows prepared.now.zero rows)) }
    ensures called_off { IfErr result (IsCalledOffOnlyIf (W.has_said_no watch.new)) }
{
    let mut pace = Pace::each(LOOK);
    for found in hits.again() {
        pace.look_after(found.size(), watch)?;
        append_match(out, prepared, spans, seeker, &found, watch)?;
    }
    Ok(hits.len())
}

/// Appends a hit with the spans of its matches if `spans`, and otherwise with the column of the first one.
fn append_match<W: Watch>(
    out: &mut Vec<u8>,
    prepared: &Prepared,
    spans: bool,
    seeker: &mut Seeker<'_>,
    found: &Hit<'_>,
    watch: &mut W,
) -> Result<(), Unanswered>
    requires one_line { IsOneLine found.now.text.now }
    requires seeks { Seeks (shown_tree (request_of prepared.now)) seeker.old }
    ensures seeks { Seeks (shown_tree (request_of prepared.now)) seeker.new }
    ensures row { OnOk result ((row : Row) × IsMatchRow spans (request_of prepared.now) (hit_of found.now) row
        × (out.new.items ≡ out.old.items ++ text_of_row prepared.now.zero row)) }
    ensures called_off { IfErr result (IsCalledOffOnlyIf (W.has_said_no watch.new)) }
{
    if spans {
        append_with_spans(out, prepared, seeker, found, watch)
    } else {
        append_column(out, prepared, seeker, found, watch)
    }
}

/// Appends a hit with the column of its first match, if it has one.
fn append_column<W: Watch>(
    out: &mut Vec<u8>,
    prepared: &Prepared,
    seeker: &mut Seeker<'_>,
    found: &Hit<'_>,
    watch: &mut W,
) -> Result<(), Unanswered>
    requires one_line { IsOneLine found.now.text.now }
    requires seeks { Seeks (shown_tree (request_of prepared.now)) seeker.old }
    ensures seeks { Seeks (shown_tree (request_of prepared.now)) seeker.new }
    ensures row { OnOk result ((row : Row) × IsColumnRow (request_of prepared.now) (hit_of found.now) row
        × (out.new.items ≡ out.old.items ++ text_of_row prepared.now.zero row)) }
    ensures called_off { IfErr result (IsCalledOffOnlyIf (W.has_said_no watch.new)) }
{
    match seeker.first_start(found.text, prepared.words, watch)? {
        Some(start) => Ok(append_at_column(out, prepared.zero, start + 1, found)?),
        None => Ok(append_hit(out, prepared.zero, found)?),
    }
}

/// Appends a hit with the spans of its matches.
fn append_with_spans<W: Watch>(
    out: &mut Vec<u8>,
    prepared: &Prepared,
    seeker: &mut Seeker<'_>,
    found: &Hit<'_>,
    watch: &mut W,
) -> Result<(), Unanswered>
    requires one_line { IsOneLine found.now.text.now }
    requires seeks { Seeks (shown_tree (request_of prepared.now)) seeker.old }
    ensures seeks { Seeks (shown_tree (request_of prepared.now)) seeker.new }
    ensures row { OnOk result ((row : Row) × IsSpansRow (request_of prepared.now) (hit_of found.now) row
        × (out.new.items ≡ out.old.items ++ text_of_row prepared.now.zero row)) }
    ensures called_off { IfErr result (IsCalledOffOnlyIf (W.has_said_no watch.new)) }
{
    append_place(out, prepared.zero, b':', found)?;
    append_spans(out, prepared, seeker, found.text, watch)?;
    append_all(out, &[b":".as_slice(), found.text, b"\n".as_slice()])?;
    Ok(())
}

/// Appends the spans of a line, with commas between them.
fn append_spans<W: Watch>(
    out: &mut Vec<u8>,
    prepared: &Prepared,
    seeker: &mut Seeker<'_>,
    line: &[u8],
    watch: &mut W,
) -> Result<(), Unanswered>
    requires one_line { IsOneLine line.now }
    requires seeks { Seeks (shown_tree (request_of prepared.now)) seeker.old }
    ensures seeks { Seeks (shown_tree (request_of prepared.now)) seeker.new }
    ensures spans { OnOk result ((spans : List Span)
        × AreSpans line.now (shown_tree (request_of prepared.now)) (is_some (request_of prepared.now).word) 0 spans
        × (out.new.items ≡ out.old.items ++ text_of_spans spans)) }
    ensures called_off { IfErr result (IsCalledOffOnlyIf (W.has_said_no watch.new)) }
{
    let whole_words = prepared.words;
    let mut from = 0;
    let mut before = b"".as_slice();
    loop {
        let Some(span) = seeker.first_span(line, from, whole_words, watch)? else {
            return Ok(());
        };
        append_span(out, before, span)?;
        from = span.end;
        before = b",".as_slice();
    }
}
