//! A map from names to contents.

ghost use Rattle.std.specs.Prelude.{◌≡◌, ◌++◌, true, not, length, map, option_map, IfOk, IfErr};
ghost use Rattle.std.specs.FinMap.{empty, entries, find, get, insert, remove, retain_keys, keys, len, from_entries, from_sorted, is_sorted};
ghost use Rattle.std.specs.List.{list_any};
ghost use Rattle.std.specs.Ordering.{nat_cmp};
ghost use Rattle.std.specs.Cmp.Lexicographic.{slice_cmp};
ghost use Rattle.prefixes.specs.Under.{begins_with};
ghost use Rattle.std.specs.List.Sorted.{IsStrictlyIncreasing};
ghost use Rattle.watch.specs.CalledOff.{IsCalledOffOnlyIf};
ghost use Rattle.names.specs.Contents.{body_bytes, chosen, contents_of, copies, entries_of, first_under, has_long_copy, since, with_all};
ghost use Rattle.names.specs.Private.Entries.{joined};

use crate::builder::{Builder, open_at, over};
use crate::chosen::Chosen;
use crate::chunk::Chunk;
use crate::content::{Content, Named};
use crate::edge::Edge;
use crate::puts::{Put, in_order};
use crate::rest::Rest;
use crate::under::Under;
use prefixes::Prefixes;
use std::alloc::{AllocError, Global};
use std::marker::Model;
use watch::{Pace, Unanswered, Watch};

/// The watch is asked each time so many names were looked at.
const PACE: usize = 1_024;

/// As how many names that are looked at a chunk counts that is passed by.
const PASSED: usize = 16;

/// A map from names to contents. It never changes: what would change it makes another one, which shares all chunks in which both
/// are the same.
///
/// Contracts see it as a finite map.
#[derive(Drop)]
pub struct Names {
    chunks: Vec<Chunk>,
    /// How many names there are.
    count: usize,
    /// The total length of the bodies.
    bytes: u64,
}

impl Model for Names {
    ghost use Rattle.std.specs.FinMap.{from_sorted};
    ghost use Rattle.names.specs.Contents.{Contents, contents_code};
    ghost use Rattle.names.specs.Private.Entries.{joined, IsVersion};

    ghost Value = { Contents };

    ghost coded = { contents_code };

    ghost view = { λ n. from_sorted (joined n.chunks.items) };

    ghost invariant = { λ n. IsVersion n.chunks.items n.count n.bytes };
}

impl Names {
    /// No names. This takes no memory.
    pub fn new(alloc: Global) -> Names
        ensures { result ≡ empty }
    {
        Names {
            chunks: Vec::new(alloc),
            count: 0,
            bytes: 0,
        }
    }

    /// Another handle to the same map. An `Err` means that memory ran out, or that a chunk has too many handles.
    pub fn share(&self) -> Result<Names, AllocError>
        ensures { IfOk result (λ names. names ≡ self.now) }
    {
        let mut made = Builder::new(*self.chunks.allocator());
        made.add_all(&self.chunks)?;
        finished(made)
    }

    /// How many names there are.
    pub fn len(&self) -> usize
        ensures { result ≡ len self.now }
    {
        self.count
    }

    /// The total length of the bodies of all names, in bytes.
    pub fn bytes(&self) -> u64
        ensures { result ≡ body_bytes self.now }
    {
        self.bytes
    }

    /// The content of a name, if it has one.
    pub fn get(&self, name: &[u8]) -> Option<&Content>
        ensures { option_map (λ content. content.now) result ≡ get self.now name.now }
    {
        found(&self.chunks, name)
    }

    /// Whether some name begins with a prefix.
    pub fn has_under(&self, prefix: &[u8]) -> bool
        ensures { result ≡ list_any (begins_with prefix.now) (keys self.now) }
    {
        is_under(&self.chunks, prefix)
    }

    /// Whether a copy's name would have more than `most` bytes: some name that begins with `from`, with `to` in its place. Only these
    /// names are looked at. This takes no memory.
    pub fn has_long_copy(&self, from: &[u8], to: &[u8], most: usize) -> bool
        ensures { result ≡ has_long_copy most from.now to.now self.now }
    {
        Rest::behind(&self.chunks, Edge::Before, from).has_long_copy(from, to, most)
    }

    /// All names with their contents, in order. An `Err` means that memory ran out.
    pub fn entries(&self) -> Result<Vec<Named<'_>>, AllocError>
        ensures { IfOk result (λ found. entries_of found.items ≡ entries self.now) }
    {
        let mut found = Vec::with_capacity(*self.chunks.allocator(), self.count)?;
        for chunk in &self.chunks {
            chunk.push_entries(&mut found)?;
        }
        Ok(found)
    }

    /// The contents whose numbers are at least this, in the order of their names. Chunks of names with lower numbers are passed by. An
    /// `Err` means that memory ran out.
    pub fn since(&self, number: u32) -> Result<Vec<&Content>, AllocError>
        ensures { IfOk result (λ found. contents_of found.items ≡ since number self.now) }
    {
        let mut found = Vec::new(*self.chunks.allocator());
        for chunk in &self.chunks {
            chunk.push_since(number, &mut found)?;
        }
        Ok(found)
    }

    /// How many names have contents with one of these numbers, which rise, and the first of those that begin with one of the
    /// prefixes: all, or `most` of them, in order. Chunks of names with other numbers are passed by. An `Err` means that memory ran
    /// out, or that `watch` called it off: it is asked at each 1,024 names that are looked at, or each 64 chunks that are passed by.
    pub fn chosen<W: Watch>(
        &self,
        alloc: Global,
        numbers: &[u32],
        prefixes: &Prefixes,
        most: usize,
        watch: &mut W,
    ) -> Result<Chosen<'_>, Unanswered>
        requires { IsStrictlyIncreasing numbers.now }
        ensures count { IfOk result (λ found. found.count ≡ length (chosen numbers.now self.now)) }
        ensures named { IfOk result (λ found. entries_of found.named.items ≡ first_under most prefixes.now (chosen numbers.now self.now)) }
        ensures called_off { IfErr result (IsCalledOffOnlyIf (W.has_said_no watch.new)) }
    {
        let mut pace = Pace::each(PACE);
        let mut under = Under::new(alloc, prefixes);
        let mut found = Chosen::none(alloc);
        for chunk in &self.chunks {
            let near = chunk.near(numbers);
            let steps = if near.is_empty() { PASSED } else { chunk.len() };
            pace.look_after(steps, watch)?;
            chunk.choose(near, most, &mut under, &mut found)?;
        }
        Ok(found)
    }

    /// The map with this content under a name, in place of the one that it had. An `Err` means that memory ran out, or that a
    /// chunk or a body has too many handles.
    pub fn put(&self, name: &[u8], content: Content) -> Result<Names, AllocError>
        ensures { IfOk result (λ names. names ≡ insert self.now name.now content) }
    {
        let mut made = Builder::new(*self.chunks.allocator());
        made.add_before(&self.chunks, Edge::Before, name)?;
        made.add_entry(name, content)?;
        made.add_behind(&self.chunks, Edge::After, name)?;
        finished(made)
    }

    /// The map with each of these contents under its name, one put after the other: a later one of a name takes the place of an earlier
    /// one. An `Err` is as that of `put`.
    pub fn with_all(&self, puts: &[Put<'_>]) -> Result<Names, AllocError>
        ensures { IfOk result (λ names. names ≡ with_all puts.now self.now) }
    {
        let alloc = *self.chunks.allocator();
        let sorted = in_order(alloc, puts)?;
        let mut made = Builder::new(alloc);
        let mut rest = Rest::from_chunk(&self.chunks, 0);
        for put in &sorted {
            rest = made.add_put(rest, put)?;
        }
        made.add_rest(rest)?;
        finished(made)
    }

    /// The map without a name. An `Err` is as that of `put`.
    pub fn remove(&self, name: &[u8]) -> Result<Names, AllocError>
        ensures { IfOk result (λ names. names ≡ remove self.now name.now) }
    {
        let mut made = Builder::new(*self.chunks.allocator());
        made.add_before(&self.chunks, Edge::Before, name)?;
        made.add_behind(&self.chunks, Edge::After, name)?;
        finished(made)
    }

    /// The map without the names that begin with a prefix. An `Err` is as that of `put`.
    pub fn remove_under(&self, prefix: &[u8]) -> Result<Names, AllocError>
        ensures { IfOk result (λ names. names ≡ retain_keys self.now (λ name. not (begins_with prefix.now name))) }
    {
        let mut made = Builder::new(*self.chunks.allocator());
        made.add_before(&self.chunks, Edge::Before, prefix)?;
        made.add_behind(&self.chunks, Edge::AfterUnder, prefix)?;
        finished(made)
    }

    /// The map in which each name that begins with one text has its content also under the name with another text in its place.
    /// A name that is there already gets the copy's content. An `Err` is as that of `put`.
    pub fn copy_under(&self, from: &[u8], to: &[u8]) -> Result<Names, AllocError>
        ensures { IfOk result (λ names. names ≡ from_entries (copies from.now to.now self.now ++ entries self.now)) }
    {
        let alloc = *self.chunks.allocator();
        let mut copies = Builder::new(alloc);
        let rest = Rest::behind(&self.chunks, Edge::Before, from);
        copies.add_until(rest, Edge::AfterUnder, from, from.len(), to)?;
        finished(over(alloc, &copies.closed()?, &self.chunks)?)
    }
}

/// The content of a name in these chunks, if it has one.
fn found<'a>(chunks: &'a [Chunk], name: &[u8]) -> Option<&'a Content>
    requires { is_sorted (slice_cmp nat_cmp) (joined chunks.now) ≡ true }
    ensures { option_map (λ content. content.now) result ≡ find (slice_cmp nat_cmp) name.now (joined chunks.now) }
{
    let open = open_at(chunks, Edge::Before, name);
    if open == chunks.len() {
        return None;
    }
    let chunk = &chunks[open];
    let at = chunk.place(Edge::Before, name);
    if !chunk.compare(at, name).is_eq() {
        return None;
    }
    Some(chunk.content(at))
}

/// Whether some name in these chunks begins with a prefix.
fn is_under(chunks: &[Chunk], prefix: &[u8]) -> bool
    requires { is_sorted (slice_cmp nat_cmp) (joined chunks.now) ≡ true }
    ensures { result ≡ list_any (begins_with prefix.now) (map (λ e. e.0) (joined chunks.now)) }
{
    let open = open_at(chunks, Edge::Before, prefix);
    if open == chunks.len() {
        return false;
    }
    let chunk = &chunks[open];
    let at = chunk.place(Edge::Before, prefix);
    chunk.begins(at, prefix)
}

/// The map of the entries that were added.
fn finished(made: Builder) -> Result<Names, AllocError>
    requires { is_sorted (slice_cmp nat_cmp) made ≡ true }
    ensures { IfOk result (λ names. names ≡ from_sorted made) }
{
    let chunks = made.closed()?;
    let mut count: usize = 0;
    let mut bytes: u64 = 0;
    for chunk in &chunks {
        let Some(more) = count.checked_add(chunk.len()) else {
            return Err(AllocError);
        };
        count = more;
        let Some(more) = bytes.checked_add(chunk.bytes()) else {
            return Err(AllocError);
        };
        bytes = more;
    }
    Ok(Names {
        chunks,
        count,
        bytes,
    })
}
