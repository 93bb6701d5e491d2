//! A version that is being made, chunk by chunk.

ghost use Rattle.std.specs.Prelude.{◌≡◌, ◌<◌, ◌≤◌, [], ◌∷◌, ◌++◌, List, true, length, map, filter, IfOk, IfSome, OnOk};
ghost use Rattle.std.specs.Ordering.{nat_cmp};
ghost use Rattle.std.specs.Cmp.Lexicographic.{slice_cmp};
ghost use Rattle.std.specs.FinMap.{is_sorted};
ghost use Rattle.names.specs.Contents.{entry_put};
ghost use Rattle.names.specs.Private.Entries.{Entry, begun, begun_within, joined, laid_over, passes, lies_behind, Falls, OpensAt};

use crate::chunk::Chunk;
use crate::content::Content;
use crate::draft::Draft;
use crate::edge::Edge;
use crate::puts::Put;
use crate::rest::Rest;
use std::alloc::{AllocError, Global};
use std::marker::Model;
use std::mem::replace;

/// How many names a chunk has at most.
pub(crate) const MOST: usize = 128;

/// Neighbours with at most so many names together become one.
const FEW: usize = 63;

/// A version that is being made.
///
/// Contracts see the list of the entries that it has so far.
#[derive(Drop)]
pub(crate) struct Builder {
    chunks: Vec<Chunk>,
    /// What comes behind the chunks, and is to become a chunk.
    draft: Draft,
}

impl Model for Builder {
    ghost use Rattle.std.specs.Prelude.{List, ◌++◌};
    ghost use Rattle.names.specs.Private.Entries.{Entry, joined};

    ghost Value = { List Entry };

    ghost view = { λ b. joined b.chunks.items ++ b.draft };
}

impl Builder {
    /// No entries.
    pub(crate) fn new(alloc: Global) -> Builder
        ensures { result ≡ [] }
    {
        Builder {
            chunks: Vec::new(alloc),
            draft: Draft::new(alloc),
        }
    }

    /// The chunks of the entries. An `Err` means that memory ran out, or that a body has too many handles.
    pub(crate) fn closed(self) -> Result<Vec<Chunk>, AllocError>
        ensures { IfOk result (λ chunks. joined chunks.items ≡ self) }
    {
        let Builder {
            mut chunks,
            mut draft,
        } = self;
        close(&mut chunks, &mut draft)?;
        Ok(chunks)
    }

    /// Adds the entries of a chunk.
    pub(crate) fn add(&mut self, chunk: Chunk) -> Result<(), AllocError>
        ensures { OnOk result (self.new ≡ self.old ++ chunk) }
    {
        close(&mut self.chunks, &mut self.draft)?;
        push(&mut self.chunks, chunk, FEW)
    }

    /// Adds one entry.
    pub(crate) fn add_entry(&mut self, name: &[u8], content: Content) -> Result<(), AllocError>
        ensures { OnOk result (self.new ≡ self.old ++ (name.now, content) ∷ []) }
    {
        self.make_room(1)?;
        let alloc = *self.chunks.allocator();
        let draft = replace(&mut self.draft, Draft::new(alloc));
        let draft = draft.with(name, &[], &[], content)?;
        self.draft = draft;
        Ok(())
    }

    /// Adds the entries of a chunk from one place on and before another one, with this text in place of so many first bytes of
    /// their names. A whole chunk is shared if it can be.
    pub(crate) fn add_part(
        &mut self,
        chunk: &Chunk,
        from: usize,
        to: usize,
        count: usize,
        beginning: &[u8],
    ) -> Result<(), AllocError>
        requires order { from ≤ to }
        requires inside { to ≤ length chunk.now }
        ensures { OnOk result (self.new ≡ self.old ++ begun_within from to count beginning.now chunk.now) }
    {
        if from == to {
            return Ok(());
        }
        if from == 0 && to == chunk.len() {
            if let Some(whole) = whole(self.allocator(), chunk, count, beginning)? {
                return self.add(whole);
            }
        }
        self.append(chunk, from, to, count, beginning)
    }

    /// The same, without sharing.
    fn append(
        &mut self,
        chunk: &Chunk,
        from: usize,
        to: usize,
        count: usize,
        beginning: &[u8],
    ) -> Result<(), AllocError>
        requires order { from ≤ to }
        requires inside { to ≤ length chunk.now }
        ensures { OnOk result (self.new ≡ self.old ++ begun_within from to count beginning.now chunk.now) }
    {
        self.make_room(to - from)?;
        let alloc = *self.chunks.allocator();
        let draft = replace(&mut self.draft, Draft::new(alloc));
        let draft = draft.with_part(chunk, from, to, count, beginning)?;
        self.draft = draft;
        Ok(())
    }

    /// Where its memory comes from.
    fn allocator(&self) -> Global {
        *self.chunks.allocator()
    }

    /// Makes the draft a chunk if it would have too many names with so many more.
    fn make_room(&mut self, more: usize) -> Result<(), AllocError>
        ensures { OnOk result (self.new ≡ self.old) }
    {
        if self.draft.len().saturating_add(more) <= MOST {
            return Ok(());
        }
        close(&mut self.chunks, &mut self.draft)?;
        Ok(())
    }

    /// Takes memory for so many more chunks.
    fn reserve(&mut self, more: usize) -> Result<(), AllocError>
        ensures { OnOk result (self.new ≡ self.old) }
    {
        self.chunks.reserve(more)
    }

    /// Adds the entries of these chunks that lie before the edge at a text.
    pub(crate) fn add_before(
        &mut self,
        chunks: &[Chunk],
        edge: Edge,
        text: &[u8],
    ) -> Result<(), AllocError>
        requires { Falls (passes edge text.now) (joined chunks.now) }
        ensures { OnOk result (self.new ≡ self.old ++ filter (passes edge text.now) (joined chunks.now)) }
    {
        let open = open_at(chunks, edge, text);
        self.reserve(chunks.len().saturating_add(2))?;
        self.add_all(&chunks[..open])?;
        if open == chunks.len() {
            return Ok(());
        }
        let chunk = &chunks[open];
        self.add_part(chunk, 0, chunk.place(edge, text), 0, &[])
    }

    /// Adds the entries of these chunks that lie behind the edge at a text.
    pub(crate) fn add_behind(
        &mut self,
        chunks: &[Chunk],
        edge: Edge,
        text: &[u8],
    ) -> Result<(), AllocError>
        requires { Falls (passes edge text.now) (joined chunks.now) }
        ensures { OnOk result (self.new ≡ self.old ++ filter (lies_behind edge text.now) (joined chunks.now)) }
    {
        let open = open_at(chunks, edge, text);
        if open == chunks.len() {
            return Ok(());
        }
        let chunk = &chunks[open];
        self.add_part(chunk, chunk.place(edge, text), chunk.len(), 0, &[])?;
        self.add_all(&chunks[open + 1..])
    }

    /// Adds those of what is left that lie before the edge at a text, with another text in place of so many first bytes of their
    /// names, and returns what is left then.
    pub(crate) fn add_until<'a>(
        &mut self,
        rest: Rest<'a>,
        edge: Edge,
        text: &[u8],
        count: usize,
        beginning: &[u8],
    ) -> Result<Rest<'a>, AllocError>
        ensures added { OnOk result (self.new ≡ self.old ++ map (begun count beginning.now) (filter (passes edge text.now) rest.entry)) }
        ensures left { IfOk result (λ left. left ≡ filter (lies_behind edge text.now) rest.entry) }
    {
        let Rest {
            chunks,
            mut chunk,
            mut at,
        } = rest;
        while chunk < chunks.len() {
            let here = &chunks[chunk];
            let to = here.place_or_end(edge, text).max(at);
            self.add_part(here, at, to, count, beginning)?;
            if to < here.len() {
                return Ok(Rest {
                    chunks,
                    chunk,
                    at: to,
                });
            }
            chunk += 1;
            at = 0;
        }
        Ok(Rest { chunks, chunk, at })
    }

    /// Adds what is left.
    pub(crate) fn add_rest(&mut self, rest: Rest) -> Result<(), AllocError>
        ensures { OnOk result (self.new ≡ self.old ++ rest.entry) }
    {
        let Rest { chunks, chunk, at } = rest;
        if chunk >= chunks.len() {
            return Ok(());
        }
        let here = &chunks[chunk];
        self.add_part(here, at, here.len(), 0, &[])?;
        self.add_all(&chunks[chunk + 1..])
    }

    /// Adds the entries of a chunk and, in their places, those of what is left that lie before its last name, without those that
    /// have the name of one of its entries. Returns what is left then.
    pub(crate) fn add_over<'a>(
        &mut self,
        chunk: &Chunk,
        rest: Rest<'a>,
    ) -> Result<Rest<'a>, AllocError>
        requires { is_sorted (slice_cmp nat_cmp) chunk.now ≡ true }
        ensures { IfOk result (λ left. (later : List Entry) → self.new ++ laid_over later left ≡ self.old ++ laid_over (chunk.now ++ later) rest.entry) }
    {
        let alloc = self.allocator();
        let mut rest = rest;
        let mut at = 0;
        while at < chunk.len() {
            let name = chunk.text(alloc, at)?;
            rest = self.add_until(rest, Edge::Before, &name, 0, &[])?;
            rest = rest.without(&name);
            let to = rest.run(alloc, chunk, at)?;
            self.add_part(chunk, at, to, 0, &[])?;
            at = to;
        }
        Ok(rest)
    }

    /// Adds those of what is left that lie before a put's name, and then its entry. Returns what is left then, without the entry that
    /// had the name.
    pub(crate) fn add_put<'a>(
        &mut self,
        rest: Rest<'a>,
        put: &Put<'_>,
    ) -> Result<Rest<'a>, AllocError>
        ensures { IfOk result (λ left. (later : List Entry) → self.new ++ laid_over later left ≡ self.old ++ laid_over (entry_put put.now ∷ later) rest.entry) }
    {
        let rest = self.add_until(rest, Edge::Before, put.name, 0, &[])?;
        let rest = rest.without(put.name);
        self.add_entry(put.name, put.content()?)?;
        Ok(rest)
    }

    /// Adds the entries of these chunks.
    pub(crate) fn add_all(&mut self, chunks: &[Chunk]) -> Result<(), AllocError>
        ensures { OnOk result (self.new ≡ self.old ++ joined chunks.now) }
    {
        if chunks.is_empty() {
            return Ok(());
        }
        close(&mut self.chunks, &mut self.draft)?;
        push_all(&mut self.chunks, chunks)
    }
}

/// The entries of one chunk and then those of another one.
fn both(alloc: Global, one: &Chunk, other: &Chunk) -> Result<Chunk, AllocError>
    ensures { IfOk result (λ chunk. chunk ≡ one.now ++ other.now) }
{
    let draft = Draft::new(alloc).with_part(one, 0, one.len(), 0, &[])?;
    let draft = draft.with_part(other, 0, other.len(), 0, &[])?;
    Chunk::of(alloc, draft)
}

/// Adds the entries of a chunk to these chunks. It becomes one with the last of them if they have at most so many names together.
fn push(chunks: &mut Vec<Chunk>, chunk: Chunk, most: usize) -> Result<(), AllocError>
    ensures { OnOk result (joined chunks.new.items ≡ joined chunks.old.items ++ chunk) }
{
    if !has_room(chunks.as_slice(), chunk.len(), most) {
        chunks.push(chunk)?;
        return Ok(());
    }
    let alloc = *chunks.allocator();
    let Some(last) = chunks.pop() else {
        chunks.push(chunk)?;
        return Ok(());
    };
    chunks.push(both(alloc, &last, &chunk)?)?;
    Ok(())
}

/// Whether the last of these chunks has at most `most` names together with so many more.
fn has_room(chunks: &[Chunk], more: usize, most: usize) -> bool {
    match chunks.last() {
        Some(last) => last.len().saturating_add(more) <= most,
        None => false,
    }
}

/// Adds the entries of more chunks to these chunks. Only the first one is looked at whether it becomes one with the last of them:
/// neighbours of a version have more names than that together.
fn push_all(chunks: &mut Vec<Chunk>, more: &[Chunk]) -> Result<(), AllocError>
    requires { 0 < length more.now }
    ensures { OnOk result (joined chunks.new.items ≡ joined chunks.old.items ++ joined more.now) }
{
    push(chunks, more[0].share()?, FEW)?;
    let rest = &more[1..];
    chunks.reserve(rest.len())?;
    for chunk in rest {
        let own = chunk.share()?;
        chunks.push(own)?;
    }
    Ok(())
}

/// Adds what is drafted to these chunks, so that nothing is drafted any more.
fn close(chunks: &mut Vec<Chunk>, draft: &mut Draft) -> Result<(), AllocError>
    ensures closed { OnOk result (joined chunks.new.items ≡ joined chunks.old.items ++ draft.old) }
    ensures none { OnOk result (draft.new ≡ []) }
{
    if draft.len() == 0 {
        return Ok(());
    }
    let alloc = *chunks.allocator();
    let drafted = replace(draft, Draft::new(alloc));
    push(chunks, Chunk::of(alloc, drafted)?, MOST)
}

/// All entries of a chunk, with this text in place of so many first bytes of their names, if they can share what the chunk has.
fn whole(
    alloc: Global,
    chunk: &Chunk,
    count: usize,
    beginning: &[u8],
) -> Result<Option<Chunk>, AllocError>
    ensures { IfOk result (λ found. IfSome found (λ whole. whole ≡ map (begun count beginning.now) chunk.now)) }
{
    if count == 0 && beginning.is_empty() {
        return Ok(Some(chunk.share()?));
    }
    chunk.begun(alloc, count, beginning)
}

/// Which of these chunks is the first one whose last name does not lie before the edge at a text.
pub(crate) fn open_at(chunks: &[Chunk], edge: Edge, text: &[u8]) -> usize
    requires { Falls (passes edge text.now) (joined chunks.now) }
    ensures { OpensAt (passes edge text.now) chunks.now result }
{
    let mut low = 0;
    let mut high = chunks.len();
    while low < high {
        let middle = low + (high - low) / 2;
        if chunks[middle].last_is_before(edge, text) {
            low = middle + 1;
        } else {
            high = middle;
        }
    }
    low
}

/// The entries of one list of chunks over those of another one: at a name that both have, that of the first one.
pub(crate) fn over(alloc: Global, chunks: &[Chunk], others: &[Chunk]) -> Result<Builder, AllocError>
    requires rise { is_sorted (slice_cmp nat_cmp) (joined chunks.now) ≡ true }
    requires others_rise { is_sorted (slice_cmp nat_cmp) (joined others.now) ≡ true }
    ensures { IfOk result (λ made. made ≡ laid_over (joined chunks.now) (joined others.now)) }
{
    let mut made = Builder::new(alloc);
    let mut rest = Rest::from_chunk(others, 0);
    for chunk in chunks {
        rest = made.add_over(chunk, rest)?;
    }
    made.add_rest(rest)?;
    Ok(made)
}
