//! The text of rows.

ghost use Rattle.std.specs.Prelude.{◌≡◌, ◌<◌, ◌++◌, IfOk, OnOk};
ghost use Rattle.views.specs.Hits.{hit_of};
ghost use Rattle.views.specs.Text.{text_of_place, text_of_row, text_of_span};
ghost use Rattle.views.specs.View.{at_column, near, name, count};

use crate::places::Hit;
use crate::text::{after_name, append_all};
use documents::SharedDocument;
use itoa::Buffer;
use spans::Span;
use std::alloc::AllocError;

/// Appends the line of a line near a hit.
#[tactic(auto, unfolding(crate::specs::Text::text_of_row))]
pub(crate) fn append_near(out: &mut Vec<u8>, zero: bool, line: &Hit<'_>) -> Result<(), AllocError>
    ensures { OnOk result (out.new.items ≡ out.old.items ++ text_of_row zero (near (hit_of line.now))) }
{
    append_place(out, zero, b'-', line)?;
    append_all(out, &[line.text, b"\n".as_slice()])
}

/// Appends a name, the number of a line, and after each of them this byte or, after the name, a zero byte in its place.
pub fn append_place(
    out: &mut Vec<u8>,
    zero: bool,
    after: u8,
    line: &Hit<'_>,
) -> Result<(), AllocError>
    ensures { OnOk result (out.new.items ≡ out.old.items ++ text_of_place zero after (hit_of line.now)) }
{
    let mut number = Buffer::new();
    append_all(
        out,
        &[
            line.name.as_bytes(),
            [after_name(zero, after)].as_slice(),
            number.format(line.line).as_bytes(),
            [after].as_slice(),
        ],
    )
}

/// Appends a hit with this column.
#[tactic(auto, unfolding(crate::specs::Text::text_of_row))]
pub fn append_at_column(
    out: &mut Vec<u8>,
    zero: bool,
    column: usize,
    found: &Hit<'_>,
) -> Result<(), AllocError>
    ensures { OnOk result (out.new.items ≡ out.old.items ++ text_of_row zero (at_column column (hit_of found.now))) }
{
    append_place(out, zero, b':', found)?;
    let mut number = Buffer::new();
    append_all(
        out,
        &[
            number.format(column).as_bytes(),
            b":".as_slice(),
            found.text,
            b"\n".as_slice(),
        ],
    )
}

/// Appends these bytes, and the columns of a span's first and last byte.
pub fn append_span(out: &mut Vec<u8>, before: &[u8], span: Span) -> Result<(), AllocError>
    requires { span.start < span.end }
    ensures { OnOk result (out.new.items ≡ out.old.items ++ before.now ++ text_of_span span) }
{
    let mut start = Buffer::new();
    let mut end = Buffer::new();
    append_all(
        out,
        &[
            before,
            start.format(span.start + 1).as_bytes(),
            b"-".as_slice(),
            end.format(span.end).as_bytes(),
        ],
    )
}

/// Appends the name of the document.
#[tactic(auto, unfolding(crate::specs::Text::text_of_row))]
pub fn append_name(
    out: &mut Vec<u8>,
    zero: bool,
    document: &SharedDocument,
) -> Result<usize, AllocError>
    ensures { IfOk result (λ n. (n ≡ 1) × (out.new.items ≡ out.old.items ++ text_of_row zero (name document.now.name))) }
{
    if zero {
        append_all(out, &[document.name.as_bytes(), b"\0\n".as_slice()])?;
        return Ok(1);
    }
    append_all(out, &[document.name.as_bytes(), b"\n".as_slice()])?;
    Ok(1)
}

/// Appends the name of the document, and this number.
#[tactic(auto, unfolding(crate::specs::Text::text_of_row))]
pub fn append_count(
    out: &mut Vec<u8>,
    zero: bool,
    document: &SharedDocument,
    number: usize,
) -> Result<usize, AllocError>
    ensures { IfOk result (λ n. (n ≡ 1) × (out.new.items ≡ out.old.items ++ text_of_row zero (count document.now.name number))) }
{
    let mut digits = Buffer::new();
    append_all(
        out,
        &[
            document.name.as_bytes(),
            [after_name(zero, b':')].as_slice(),
            digits.format(number).as_bytes(),
            b"\n".as_slice(),
        ],
    )?;
    Ok(1)
}
