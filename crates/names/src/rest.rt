//! What is left of some chunks.

ghost use Rattle.std.specs.Prelude.{◌≡◌, ◌<◌, [], true, length, drop, filter, IfOk, IfNone, IfSome};
ghost use Rattle.std.specs.Ordering.{nat_cmp};
ghost use Rattle.std.specs.Cmp.Lexicographic.{slice_cmp};
ghost use Rattle.std.specs.FinMap.{is_sorted};
ghost use Rattle.std.specs.List.{list_any};
ghost use Rattle.names.specs.Contents.{is_long_copy};
ghost use Rattle.names.specs.declared.edge.Edge.TheVariants.{Before, After, AfterUnder};
ghost use Rattle.names.specs.Private.Entries.{joined, passes, lies_behind, NonePass, HasFirst, IsRun};

use crate::builder::open_at;
use crate::chunk::Chunk;
use crate::edge::Edge;
use std::alloc::{AllocError, Global};
use std::marker::Model;

/// The entries of chunks from a place on. The names of the chunks rise.
///
/// Contracts see the list of them.
#[derive(Drop)]
pub(crate) struct Rest<'a> {
    pub(crate) chunks: &'a [Chunk],
    /// Which chunk the first entry is in.
    pub(crate) chunk: usize,
    /// Which of that chunk's entries is the first one.
    pub(crate) at: usize,
}

impl<'a> Model for Rest<'a> {
    ghost use Rattle.std.specs.Prelude.{List, ℕ};
    ghost use Rattle.names.specs.Private.Entries.{Entry, rest_of, IsRest};

    ghost Value = { List Entry };

    ghost view = { λ r. rest_of r.chunks.now r.chunk r.at };

    ghost invariant = { λ r. IsRest r.chunks.now r.chunk r.at };
}

impl<'a> Rest<'a> {
    /// The entries from a chunk on.
    pub(crate) fn from_chunk(chunks: &'a [Chunk], chunk: usize) -> Rest<'a>
        requires { is_sorted (slice_cmp nat_cmp) (joined chunks.now) ≡ true }
        ensures { result ≡ joined (drop chunk chunks.entry.now) }
    {
        if chunk >= chunks.len() {
            return Rest {
                chunks,
                chunk,
                at: 0,
            };
        }
        let at = chunks[chunk].first();
        Rest { chunks, chunk, at }
    }

    /// The entries behind the edge at a text.
    pub(crate) fn behind(chunks: &'a [Chunk], edge: Edge, text: &[u8]) -> Rest<'a>
        requires { is_sorted (slice_cmp nat_cmp) (joined chunks.now) ≡ true }
        ensures { result ≡ filter (lies_behind edge text.now) (joined chunks.entry.now) }
    {
        let chunk = open_at(chunks, edge, text);
        if chunk == chunks.len() {
            return Rest {
                chunks,
                chunk,
                at: 0,
            };
        }
        let at = chunks[chunk].place(edge, text);
        Rest { chunks, chunk, at }
    }

    /// The entries without the first one, if it has this name.
    pub(crate) fn without(self, name: &[u8]) -> Rest<'a>
        requires { NonePass (passes Before name.now) self }
        ensures { result ≡ filter (lies_behind After name.now) self.entry }
    {
        let Rest { chunks, chunk, at } = self;
        if chunk >= chunks.len() {
            return Rest { chunks, chunk, at };
        }
        let here = &chunks[chunk];
        if !here.compare(at, name).is_eq() {
            return Rest { chunks, chunk, at };
        }
        let end = here.len();
        let next = at + 1;
        if next < end {
            return Rest {
                chunks,
                chunk,
                at: next,
            };
        }
        Rest::from_chunk(chunks, chunk + 1)
    }

    /// The name of the first entry, if there is one. An `Err` means that memory ran out.
    pub(crate) fn first_name(&self, alloc: Global) -> Result<Option<Vec<u8>>, AllocError>
        ensures none { IfOk result (λ found. IfNone found (self.now ≡ [])) }
        ensures some { IfOk result (λ found. IfSome found (λ name. HasFirst name.items self.now)) }
    {
        if self.chunk >= self.chunks.len() {
            return Ok(None);
        }
        Ok(Some(self.chunks[self.chunk].text(alloc, self.at)?))
    }

    /// How far the entries of a chunk go on from one on before the first name that is left. An `Err` means that memory ran out.
    pub(crate) fn run(&self, alloc: Global, chunk: &Chunk, at: usize) -> Result<usize, AllocError>
        requires rise { is_sorted (slice_cmp nat_cmp) chunk.now ≡ true }
        requires inside { at < length chunk.now }
        ensures { IfOk result (IsRun chunk.now self.now at) }
    {
        let end = chunk.len();
        match self.first_name(alloc)? {
            None => Ok(end),
            Some(name) => Ok(chunk.place(Edge::Before, &name).max(at + 1)),
        }
    }

    /// Whether some name that is left and begins with `from` has more than `most` bytes with `to` in its place. No name that is left
    /// is below `from`.
    pub(crate) fn has_long_copy(self, from: &[u8], to: &[u8], most: usize) -> bool
        ensures { result ≡ list_any (λ e. is_long_copy most from.now to.now e.0) (filter (passes AfterUnder from.now) self.entry) }
    {
        let Rest {
            chunks,
            mut chunk,
            mut at,
        } = self;
        while chunk < chunks.len() {
            let here = &chunks[chunk];
            let end = here.place_or_end(Edge::AfterUnder, from).max(at);
            if here.has_long_copy(at, end, from, to, most) {
                return true;
            }
            if end < here.len() {
                return false;
            }
            chunk += 1;
            at = 0;
        }
        false
    }
}
