//! The items of a script, carried out.

ghost use Rattle.std.specs.Prelude.{◌≡◌, ℕ, ◌+◌, ◌<◌, ◌^◌, ◌≤◌, List, [], ◌∷◌, length, IfOk, IfErr};
ghost use Rattle.documents.specs.declared.command.Command.TheVariants.{Put as put_command, Remove as remove_command, RemoveUnder as remove_under_command, CopyUnder as copy_under_command};
ghost use Rattle.documents.specs.Documents.{is_taken, has_under};
ghost use Rattle.documents.specs.State.{State, state_of};
ghost use Rattle.documents.specs.Text.{most_bytes};
ghost use Rattle.documents.specs.declared.error.BodyErrorKind.TheVariants.{TooLong as body_too_long};
ghost use Rattle.input.specs.Owned.{ShowsOwned};
ghost use Rattle.script.specs.Items.{Item, numbered};
ghost use Rattle.transcript.specs.declared.entry.Entry.TheVariants.{Refused as refused_entry};
ghost use Rattle.published.specs.Desk.{DeskState, IsPutFault};
ghost use Rattle.published.specs.History.{known};
ghost use Rattle.steps.specs.LegalRows.{IsPut, IsNamed, IsRemove, IsCopy};
ghost use Rattle.service.specs.Private.Entries.{reason_of_name, reason_of_remove, reason_of_copy, entry_of, published_entry_of, desk_after, HasBodyOrNoMemory, IsRemoveOrNoMemory, IsCopyOrNoMemory, IsLoaded};
ghost use Rattle.service.specs.Private.Items.{IsCarriedOut};

use crate::question::{Question, Texts};
use crate::source::{Fault, Source};
use documents::{Body, BodyErrorKind, Lengths, Name, NameError};
use input::{OwnedItem, ReadItem};
use published::{CopyError, Desk, PutErrorKind, RemoveError, Told};
use std::alloc::Global;
use std::sync::Wait;
use std::thread::Threads;
use transcript::{Entry, Reason};

/// Why a line with this name is refused: the name is invalid, or memory ran out.
fn reason_of_name(error: NameError) -> Reason
    ensures { result ≡ reason_of_name error }
{
    match error {
        NameError::OutOfMemory => Reason::OutOfMemory,
        error => Reason::Name(error),
    }
}

fn put_body(desk: &mut Desk, lengths: Lengths, name: Name, bytes: Vec<u8>) -> Result<u32, Reason>
    ensures entry { (line : ℕ) → HasBodyOrNoMemory lengths desk.old.limit (state_of desk.old.accepted) bytes.items line
        (entry_of line result) }
    ensures desk { desk.new ≡ desk_after result (put_command name bytes.items ∷ []) desk.old }
{
    let body = match Body::within(bytes, lengths) {
        Ok(body) => body,
        Err(error) => return Err(Reason::Body(error.kind)),
    };
    match desk.put(name, body) {
        Ok(commands) => Ok(commands),
        Err(refused) => match refused.kind {
            PutErrorKind::Full => Err(Reason::Full),
            PutErrorKind::OutOfMemory => Err(Reason::OutOfMemory),
        },
    }
}

/// Puts a body, which is not copied. Returns the number of accepted commands, with this one.
///
/// An `Err` is the first cause: the fault of the name, the fault of the body, or `Full`; or `OutOfMemory`. Nothing is
/// accepted then.
fn put(
    alloc: Global,
    desk: &mut Desk,
    lengths: Lengths,
    name: &[u8],
    body: Vec<u8>,
) -> Result<u32, Reason>
    ensures entry { (line : ℕ) → IsPut lengths desk.old.limit (state_of desk.old.accepted) name.now body.items line (entry_of line result) }
    ensures desk { desk.new ≡ desk_after result (put_command name.now body.items ∷ []) desk.old }
{
    match Name::within(alloc, name, lengths.name) {
        Ok(name) => put_body(desk, lengths, name, body),
        Err(error) => Err(reason_of_name(error)),
    }
}

/// Why a put of so many bytes, which were not kept, is refused: for its name, if that is not valid, and otherwise for its
/// body, if that is too long, or else for lack of memory.
fn reason_of_skipped_put(alloc: Global, lengths: Lengths, name: &[u8], size: usize) -> Reason
    ensures { (most : ℕ) (state : State) (body : List ℕ) (line : ℕ)
        → length body ≡ size → IsPut lengths most state name.now body line (Entry.Refused line result) }
{
    match Name::within(alloc, name, lengths.name) {
        Ok(_) => reason_of_skipped_body(lengths, size),
        Err(error) => reason_of_name(error),
    }
}

/// Why a body of so many bytes, which were not kept, is refused.
fn reason_of_skipped_body(lengths: Lengths, size: usize) -> Reason
    ensures long { most_bytes lengths < size → result ≡ Reason.Body body_too_long }
    ensures lost { size ≤ most_bytes lengths → result ≡ Reason.OutOfMemory }
{
    if size > lengths.most_bytes() {
        return Reason::Body(BodyErrorKind::TooLong);
    }
    Reason::OutOfMemory
}

/// Loads a body and puts it. The source is asked for the body once, unless the line is refused at its name.
/// `CannotLoad` means that the source failed.
fn load<S: Source>(
    alloc: Global,
    desk: &mut Desk,
    lengths: Lengths,
    source: &mut S,
    name: &[u8],
    path: &[u8],
) -> Result<u32, Reason>
    ensures counted { S.failed source.old ≤ S.failed source.new }
    ensures entry { IsLoaded (S.holds source.old) lengths desk.old (S.failed source.old) name.now path.now result desk.new (S.failed source.new) }
    ensures same { (path body : List ℕ) → (S.holds source.new path body → S.holds source.old path body)
        × (S.holds source.old path body → S.holds source.new path body) }
{
    let name = match Name::within(alloc, name, lengths.name) {
        Ok(name) => name,
        Err(error) => return Err(reason_of_name(error)),
    };
    match source.read(alloc, path) {
        Ok(bytes) => put_body(desk, lengths, name, bytes),
        Err(Fault::Failed) => Err(Reason::CannotLoad),
        Err(Fault::OutOfMemory) => Err(Reason::OutOfMemory),
    }
}

/// Why a remove is refused.
fn reason_of_remove(error: RemoveError) -> Reason
    ensures { result ≡ reason_of_remove error }
{
    match error {
        RemoveError::NoSuchFile => Reason::NoSuchFile,
        RemoveError::Full => Reason::Full,
        RemoveError::OutOfMemory => Reason::OutOfMemory,
    }
}

/// Removes the document of this name, of at most `longest` bytes.
fn remove(alloc: Global, desk: &mut Desk, longest: usize, name: &[u8]) -> Result<u32, Reason>
    ensures entry { (line : ℕ) → IsNamed longest name.now line (entry_of line result)
        (IsRemove desk.old.limit (state_of desk.old.accepted) (is_taken name.now (state_of desk.old.accepted).documents) line (entry_of line result)) }
    ensures desk { desk.new ≡ desk_after result (remove_command name.now ∷ []) desk.old }
{
    match Name::within(alloc, name, longest) {
        Ok(name) => remove_named(desk, &name),
        Err(error) => Err(reason_of_name(error)),
    }
}

/// Removes the document of this name.
fn remove_named(desk: &mut Desk, name: &Name) -> Result<u32, Reason>
    ensures entry { (line : ℕ) → IsRemoveOrNoMemory desk.old.limit (state_of desk.old.accepted) (is_taken name.now (state_of desk.old.accepted).documents) line
        (entry_of line result) }
    ensures desk { desk.new ≡ desk_after result (remove_command name.now ∷ []) desk.old }
{
    match desk.remove(name) {
        Ok(commands) => Ok(commands),
        Err(error) => Err(reason_of_remove(error)),
    }
}

/// Removes each document whose name begins with this prefix, which must be a name of at most `longest` bytes itself.
fn remove_under(
    alloc: Global,
    desk: &mut Desk,
    longest: usize,
    prefix: &[u8],
) -> Result<u32, Reason>
    ensures entry { (line : ℕ) → IsNamed longest prefix.now line (entry_of line result)
        (IsRemove desk.old.limit (state_of desk.old.accepted) (has_under prefix.now (state_of desk.old.accepted).documents) line (entry_of line result)) }
    ensures desk { desk.new ≡ desk_after result (remove_under_command prefix.now ∷ []) desk.old }
{
    match Name::within(alloc, prefix, longest) {
        Ok(prefix) => remove_under_name(desk, &prefix),
        Err(error) => Err(reason_of_name(error)),
    }
}

/// Removes each document whose name begins with this prefix.
fn remove_under_name(desk: &mut Desk, prefix: &Name) -> Result<u32, Reason>
    ensures entry { (line : ℕ) → IsRemoveOrNoMemory desk.old.limit (state_of desk.old.accepted) (has_under prefix.now (state_of desk.old.accepted).documents) line
        (entry_of line result) }
    ensures desk { desk.new ≡ desk_after result (remove_under_command prefix.now ∷ []) desk.old }
{
    match desk.remove_under(prefix) {
        Ok(commands) => Ok(commands),
        Err(error) => Err(reason_of_remove(error)),
    }
}

/// Why a copy is refused.
fn reason_of_copy(error: CopyError) -> Reason
    ensures { result ≡ reason_of_copy error }
{
    match error {
        CopyError::NoSuchFile => Reason::NoSuchFile,
        CopyError::TooLong => Reason::Name(NameError::TooLong),
        CopyError::Full => Reason::Full,
        CopyError::OutOfMemory => Reason::OutOfMemory,
    }
}

/// Puts each document whose name begins with `from` under the name with `to` in its place. Both must be names of at most `longest` bytes,
/// and so must all that come of it.
fn copy_under(
    alloc: Global,
    desk: &mut Desk,
    longest: usize,
    from: &[u8],
    to: &[u8],
) -> Result<u32, Reason>
    ensures entry { (line : ℕ) → IsNamed longest from.now line (entry_of line result)
        (IsNamed longest to.now line (entry_of line result) (IsCopy longest desk.old.limit (state_of desk.old.accepted) from.now to.now line (entry_of line result))) }
    ensures desk { desk.new ≡ desk_after result (copy_under_command from.now to.now ∷ []) desk.old }
{
    let from = match Name::within(alloc, from, longest) {
        Ok(from) => from,
        Err(error) => return Err(reason_of_name(error)),
    };
    match Name::within(alloc, to, longest) {
        Ok(to) => copy_under_name(desk, longest, &from, &to),
        Err(error) => Err(reason_of_name(error)),
    }
}

/// Puts each document whose name begins with `from` under the name with `to` in its place.
fn copy_under_name(desk: &mut Desk, longest: usize, from: &Name, to: &Name) -> Result<u32, Reason>
    ensures entry { (line : ℕ) → IsCopyOrNoMemory longest desk.old.limit (state_of desk.old.accepted) from.now to.now line (entry_of line result) }
    ensures desk { desk.new ≡ desk_after result (copy_under_command from.now to.now ∷ []) desk.old }
{
    match desk.copy_under(from, to, longest) {
        Ok(commands) => Ok(commands),
        Err(error) => Err(reason_of_copy(error)),
    }
}

/// The entry of a command.
fn entry_of(line: u32, done: Result<u32, Reason>) -> Entry
    ensures { result ≡ entry_of line done }
{
    match done {
        Ok(commands) => Entry::Accepted { line, commands },
        Err(reason) => Entry::Refused { line, reason },
    }
}

/// Publishes all accepted commands, and keeps what the publish hands out in `told`. Returns the version.
fn publish<R: Threads + Wait + Sync>(
    rt: &R,
    desk: &mut Desk,
    told: &mut Told,
) -> Result<u32, Reason>
    ensures ok { IfOk result (λ version. (version ≡ length desk.old.accepted) × (told.new ≡ known desk.old.opening desk.old.accepted)
        × (desk.new.published ≡ desk.old.accepted)) }
    ensures err { IfErr result (λ reason. (reason ≡ Reason.OutOfMemory) × (told.new ≡ told.old) × (desk.new.published ≡ desk.old.published)) }
    ensures accepted { desk.new.accepted ≡ desk.old.accepted }
    ensures opening { (desk.new.opening ≡ desk.old.opening) × (desk.new.limit ≡ desk.old.limit) }
{
    match desk.publish(rt) {
        Ok(published) => {
            let version = published.version();
            *told = published;
            Ok(version)
        }
        Err(_) => Err(Reason::OutOfMemory),
    }
}

fn publish_entry(line: u32, done: Result<u32, Reason>) -> Entry
    ensures { result ≡ published_entry_of line done }
{
    match done {
        Ok(version) => Entry::Published { line, version },
        Err(reason) => Entry::Refused { line, reason },
    }
}

/// What became of an item.
#[derive(Drop)]
pub enum Outcome {
    /// It was carried out, or refused.
    Entry(Entry),
    /// It is a search, which a reading is to answer.
    Search(Question),
    /// It is a sync: the searches before it are to be answered before anything after it is carried out.
    Sync,
    /// It is a cancel of the search with this number.
    Cancel(u32),
    /// It asks for the status.
    Status,
}

/// Carries out an item at the desk, with names, bodies and lines of these lengths, and keeps what a publish hands out in
/// `told`. Searches, syncs, cancels and statuses are
/// left to the caller.
pub fn carry_out<R: Threads + Wait + Sync, S: Source>(
    rt: &R,
    alloc: Global,
    desk: &mut Desk,
    lengths: Lengths,
    told: &mut Told,
    source: &mut S,
    read: ReadItem,
) -> Outcome
    ensures done { (shown : Item) → ShowsOwned read.item shown → IsCarriedOut (S.holds source.old) lengths desk.old told.old (S.failed source.old)
        (numbered read.line shown) result desk.new told.new (S.failed source.new) }
    ensures same { (path body : List ℕ) → (S.holds source.new path body → S.holds source.old path body)
        × (S.holds source.old path body → S.holds source.new path body) }
    ensures counted { S.failed source.old ≤ S.failed source.new }
{
    let ReadItem { line, item } = read;
    match item {
        OwnedItem::Put { name, body } => {
            Outcome::Entry(entry_of(line, put(alloc, desk, lengths, &name, body)))
        }
        OwnedItem::SkippedPut { name, size } => {
            let reason = reason_of_skipped_put(alloc, lengths, &name, size);
            Outcome::Entry(entry_of(line, Err(reason)))
        }
        OwnedItem::Load { name, path } => {
            Outcome::Entry(entry_of(line, load(alloc, desk, lengths, source, &name, &path)))
        }
        OwnedItem::Remove { name } => {
            Outcome::Entry(entry_of(line, remove(alloc, desk, lengths.name, &name)))
        }
        OwnedItem::RemoveUnder { prefix } => Outcome::Entry(entry_of(
            line,
            remove_under(alloc, desk, lengths.name, &prefix),
        )),
        OwnedItem::CopyUnder { from, to } => Outcome::Entry(entry_of(
            line,
            copy_under(alloc, desk, lengths.name, &from, &to),
        )),
        OwnedItem::Publish => Outcome::Entry(publish_entry(line, publish(rt, desk, told))),
        OwnedItem::Search { case, pattern } => {
            Outcome::Search(Question::new(Texts::Search { case, pattern }))
        }
        OwnedItem::SearchIn {
            case,
            name_pattern,
            pattern,
        } => Outcome::Search(Question::new(Texts::SearchIn {
            case,
            name_pattern,
            pattern,
        })),
        OwnedItem::Find { request } => {
            Outcome::Search(Question::new(Texts::Find { words: request }))
        }
        OwnedItem::Sync => Outcome::Sync,
        OwnedItem::Cancel { search } => Outcome::Cancel(search),
        OwnedItem::Status => Outcome::Status,
        OwnedItem::BadLine => refused(line, Reason::BadLine),
        OwnedItem::BadPut => refused(line, Reason::BadPut),
        OwnedItem::Truncated => refused(line, Reason::Truncated),
        OwnedItem::BodyNotClosed => refused(line, Reason::BodyNotClosed),
    }
}

/// A line that is refused.
fn refused(line: u32, reason: Reason) -> Outcome
    ensures { result ≡ Outcome.Entry (refused_entry line reason) }
{
    Outcome::Entry(Entry::Refused { line, reason })
}
