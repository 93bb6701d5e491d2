//! Documents of names that were found.

ghost use Rattle.std.specs.Prelude.{◌≡◌, IfOk, IfErr};
ghost use Rattle.watch.specs.CalledOff.{IsCalledOffOnlyIf};
ghost use Rattle.names.specs.Contents.{entry_of, entries_of};
ghost use Rattle.versions.specs.Private.Gathered.{shared_entry, shared_entries};

use documents::{MAX_NAME, Name, SharedDocument};
use names::Named;
use std::alloc::{AllocError, Global};
use watch::{Pace, Unanswered, Watch};

/// The watch is asked each time so many documents were made.
const PACE: usize = 1_024;

/// The documents of these names, in their order. An `Err` means that memory ran out, that a body has too many handles, or that `watch`
/// called it off.
pub(crate) fn gather<W: Watch>(
    alloc: Global,
    named: &[Named<'_>],
    watch: &mut W,
) -> Result<Vec<SharedDocument>, Unanswered>
    ensures found { IfOk result (λ documents. shared_entries documents.items ≡ entries_of named.now) }
    ensures called_off { IfErr result (IsCalledOffOnlyIf (W.has_said_no watch.new)) }
{
    let mut pace = Pace::each(PACE);
    let mut documents = Vec::with_capacity(alloc, named.len())?;
    let mut text = Vec::new(alloc);
    for one in named {
        pace.look(watch)?;
        documents.push(document_of(alloc, &mut text, one)?)?;
    }
    Ok(documents)
}

/// The document of a name. The text is room for the name.
fn document_of(
    alloc: Global,
    text: &mut Vec<u8>,
    named: &Named<'_>,
) -> Result<SharedDocument, AllocError>
    ensures { IfOk result (λ document. shared_entry document ≡ entry_of named.now) }
{
    text.clear();
    text.extend_from_slice(named.beginning)?;
    text.extend_from_slice(named.rest)?;
    let Ok(name) = Name::within(alloc, text.as_slice(), MAX_NAME) else {
        return Err(AllocError);
    };
    Ok(SharedDocument {
        number: named.content.number,
        name,
        held: named.content.held.share()?,
    })
}
