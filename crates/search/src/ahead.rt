//! The text of an answer that is formed ahead.

ghost use Rattle.std.specs.Prelude.{◌≡◌, ◌≤◌, ◌++◌, length, take, IfOk, IfErr};
ghost use Rattle.watch.specs.CalledOff.{IsCalledOffOnlyIf};
ghost use Rattle.views.specs.Hits.{hit_of};
ghost use Rattle.views.specs.Text.{text_of_hits};

use views::{Lines, append_hit};
use watch::{Unanswered, Watch, ask};

/// So many bytes of text are formed between two looks whether the answer is still wanted.
pub(crate) const LOOK: usize = 65_536;

/// Appends the text of the first of these lines, until `out` has `most` bytes; returns how many lines these are. `watch` is
/// asked whether the answer is wanted before each `LOOK` bytes.
///
/// `CalledOff` is returned once `watch` says that the answer is not wanted, and `OutOfMemory` means that memory ran
/// out.
pub(crate) fn append_first<W: Watch>(
    out: &mut Vec<u8>,
    zero: bool,
    lines: Lines<'_>,
    most: usize,
    watch: &mut W,
) -> Result<usize, Unanswered>
    ensures within { IfOk result (λ formed. formed ≤ length lines.entry) }
    ensures text { IfOk result (λ formed. out.new.items ≡ out.old.items ++ text_of_hits zero (take formed lines.entry)) }
    ensures called_off { IfErr result (IsCalledOffOnlyIf (W.has_said_no watch.new)) }
{
    let mut look = 0;
    for at in 0..lines.len() {
        if out.len() >= most {
            return Ok(at);
        }
        if out.len() >= look {
            ask(watch)?;
            look = out.len().saturating_add(LOOK);
        }
        let Some(hit) = lines.get(at) else {
            return Ok(at);
        };
        append_hit(out, zero, &hit)?;
    }
    Ok(lines.len())
}
