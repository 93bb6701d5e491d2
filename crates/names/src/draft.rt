//! Entries that are to become a chunk.

ghost use Rattle.std.specs.Prelude.{◌≡◌, ◌<◌, ◌≤◌, ◌+◌, [], ◌∷◌, ◌++◌, map, length, take, drop, IfOk, OnOk};
ghost use Rattle.names.specs.Private.Entries.{begun_within, entries_bytes, with_prefix};

use crate::chunk::Chunk;
use crate::content::Content;
use crate::texts::Texts;
use std::alloc::{AllocError, Global};
use std::marker::Model;

/// Entries that are to become a chunk: names, as a text with which all begin and what comes behind it in each, and contents.
///
/// Contracts see the list of them.
#[derive(Drop)]
pub(crate) struct Draft {
    pub(crate) stem: Vec<u8>,
    pub(crate) rests: Texts,
    pub(crate) contents: Vec<Content>,
    // the total length of the bodies
    pub(crate) bytes: u64,
}

impl Model for Draft {
    ghost use Rattle.std.specs.Prelude.{List, ℕ};
    ghost use Rattle.names.specs.declared.content.Content.{Content};
    ghost use Rattle.names.specs.Private.Entries.{Entry, pairs, with_prefix, AreEntries};

    ghost Value = { List Entry };

    ghost view = { λ d. pairs (with_prefix d.stem.items d.rests) d.contents.items };

    ghost invariant = { λ d. AreEntries (with_prefix d.stem.items d.rests) d.contents.items d.bytes };
}

impl Draft {
    /// No entries.
    pub(crate) fn new(alloc: Global) -> Draft
        ensures { result ≡ [] }
    {
        Draft {
            stem: Vec::new(alloc),
            rests: Texts::new(alloc),
            contents: Vec::new(alloc),
            bytes: 0,
        }
    }

    /// How many entries there are.
    pub(crate) fn len(&self) -> usize
        ensures { result ≡ length self.now }
    {
        self.contents.len()
    }

    /// The entries with one more behind them, whose name is given in three parts. An `Err` means that memory ran out.
    pub(crate) fn with(
        self,
        first: &[u8],
        second: &[u8],
        third: &[u8],
        content: Content,
    ) -> Result<Draft, AllocError>
        ensures { IfOk result (λ draft. draft ≡ self ++ (first.now ++ (second.now ++ third.now), content) ∷ []) }
    {
        let Draft {
            stem,
            rests,
            mut contents,
            bytes,
        } = self;
        let (stem, rests) = with_name(stem, rests, first, second, third)?;
        let Some(bytes) = bytes.checked_add(content.length() as u64) else {
            return Err(AllocError);
        };
        contents.push(content)?;
        Ok(Draft {
            stem,
            rests,
            contents,
            bytes,
        })
    }

    /// The entries with those of a chunk from one place on and before another one behind them. An `Err` means that memory ran out,
    /// or that a body has too many handles.
    fn with_run(self, chunk: &Chunk, from: usize, to: usize) -> Result<Draft, AllocError>
        requires order { from ≤ to }
        requires inside { to ≤ length chunk.now }
        ensures { IfOk result (λ draft. draft ≡ self ++ drop from (take to chunk.now)) }
    {
        let Draft {
            stem,
            rests,
            mut contents,
            bytes,
        } = self;
        let (prefix, suffixes) = chunk.parts();
        let (stem, rests) = with_names(stem, rests, prefix, suffixes, from, to)?;
        let bytes = share_run(chunk, from, to, &mut contents, bytes)?;
        Ok(Draft {
            stem,
            rests,
            contents,
            bytes,
        })
    }

    /// The entries with those of a chunk from one place on and before another one behind them, whose names have this text in
    /// place of so many first bytes. An `Err` means that memory ran out, or that a body has too many handles.
    pub(crate) fn with_part(
        self,
        chunk: &Chunk,
        from: usize,
        to: usize,
        count: usize,
        beginning: &[u8],
    ) -> Result<Draft, AllocError>
        requires order { from ≤ to }
        requires inside { to ≤ length chunk.now }
        ensures { IfOk result (λ draft. draft ≡ self ++ begun_within from to count beginning.now chunk.now) }
    {
        if count == 0 && beginning.is_empty() {
            return self.with_run(chunk, from, to);
        }
        let mut draft = self;
        for at in from..to {
            let (prefix, suffix) = chunk.name(at);
            let rest = count.saturating_sub(prefix.len());
            let prefix = &prefix[count.min(prefix.len())..];
            let suffix = &suffix[rest.min(suffix.len())..];
            draft = draft.with(beginning, prefix, suffix, chunk.content(at).share()?)?;
        }
        Ok(draft)
    }
}

/// The names that begin with the stem and go on with the rests, in full. An `Err` means that memory ran out.
fn in_full(alloc: Global, stem: &[u8], rests: &Texts) -> Result<Texts, AllocError>
    ensures { IfOk result (λ names. names ≡ with_prefix stem.now rests.now) }
{
    Texts::new(alloc).with_begun(stem, rests, 0, rests.len())
}

/// These names with one more behind them, which is given in three parts. An `Err` means that memory ran out.
fn with_name(
    stem: Vec<u8>,
    rests: Texts,
    first: &[u8],
    second: &[u8],
    third: &[u8],
) -> Result<(Vec<u8>, Texts), AllocError>
    ensures { IfOk result (λ names. with_prefix names.0.items names.1
        ≡ with_prefix stem.items rests ++ (first.now ++ (second.now ++ third.now)) ∷ []) }
{
    if first.starts_with(stem.as_slice()) {
        let rests = rests.with(&first[stem.len()..], second, third)?;
        return Ok((stem, rests));
    }
    let alloc = *stem.allocator();
    let names = in_full(alloc, stem.as_slice(), &rests)?;
    Ok((Vec::new(alloc), names.with(first, second, third)?))
}

/// These names with others behind them: those from one place on and before another one that begin with a prefix and go on with these
/// suffixes. An `Err` means that memory ran out.
fn with_names(
    stem: Vec<u8>,
    rests: Texts,
    prefix: &[u8],
    suffixes: &Texts,
    from: usize,
    to: usize,
) -> Result<(Vec<u8>, Texts), AllocError>
    requires order { from ≤ to }
    requires inside { to ≤ length suffixes.now }
    ensures { IfOk result (λ names. with_prefix names.0.items names.1
        ≡ with_prefix stem.items rests ++ with_prefix prefix.now (drop from (take to suffixes.now))) }
{
    let alloc = *stem.allocator();
    if rests.len() == 0 {
        let stem = Vec::from_slice(alloc, prefix)?;
        return Ok((stem, rests.with_run(suffixes, from, to)?));
    }
    if stem.as_slice() == prefix {
        return Ok((stem, rests.with_run(suffixes, from, to)?));
    }
    let names = in_full(alloc, stem.as_slice(), &rests)?;
    Ok((
        Vec::new(alloc),
        names.with_begun(prefix, suffixes, from, to)?,
    ))
}

/// Adds the contents of a chunk from one place on and before another one, and returns the total length of the bodies then. An `Err`
/// means that memory ran out, or that a body has too many handles.
fn share_run(
    chunk: &Chunk,
    from: usize,
    to: usize,
    contents: &mut Vec<Content>,
    bytes: u64,
) -> Result<u64, AllocError>
    requires order { from ≤ to }
    requires inside { to ≤ length chunk.now }
    ensures contents { OnOk result (contents.new.items ≡ contents.old.items ++ map (λ e. e.1) (drop from (take to chunk.now))) }
    ensures bytes { IfOk result (λ total. total ≡ bytes + entries_bytes (drop from (take to chunk.now))) }
{
    contents.reserve(to - from)?;
    let mut total = bytes;
    for at in from..to {
        let content = chunk.content(at).share()?;
        let Some(more) = total.checked_add(content.length() as u64) else {
            return Err(AllocError);
        };
        total = more;
        contents.push(content)?;
    }
    Ok(total)
}
