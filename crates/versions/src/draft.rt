//! An index to which commands are applied, before its bodies are analysed.

ghost use Rattle.std.specs.Prelude.{◌≡◌, ◌+◌, ◌<◌, ◌^◌, [], IfOk, length, option_map, true};
ghost use Rattle.std.specs.FinMap.{get, len};
ghost use Rattle.documents.specs.declared.command.Command.TheVariants.{Remove as remove_command, RemoveUnder as remove_under_command, CopyUnder as copy_under_command};
ghost use Rattle.documents.specs.Documents.{has_under, has_long_copy, is_taken};
ghost use Rattle.documents.specs.State.{state, state_of, applied};
ghost use Rattle.versions.specs.Updates.{after, commands_of};
ghost use Rattle.versions.specs.Private.Version.{bodies_of, IsVersion};

use crate::bodies::body_under;
use crate::fresh::fresh_sets;
use crate::growing::Growing;
use crate::index::Index;
use crate::sets::Sets;
use crate::update::{Like, Update};
use documents::{Held, MAX_NAME, Name};
use names::Names;
use std::alloc::{AllocError, Global};
use std::marker::Model;
use std::thread::Threads;

/// The documents that commands leave. It never changes: a command makes another one, which shares with it what is the same.
///
/// It can't be searched, since some bodies' trigrams may not be known yet: `whole` makes an index that can be.
///
/// Contracts see it as its state: how many commands were applied, and the body under each name.
#[derive(Drop)]
pub struct Draft {
    pub(crate) version: u32,
    /// The contents with lower numbers are in the segments.
    pub(crate) analysed: u32,
    pub(crate) names: Names,
    pub(crate) sets: Sets,
}

impl Model for Draft {
    ghost use Rattle.documents.specs.State.{State, state, state_code};
    ghost use Rattle.versions.specs.Private.Version.{bodies_of, IsDraft};

    ghost Value = { State };

    ghost coded = { state_code };

    ghost view = { λ d. state d.version (bodies_of d.names) };

    ghost invariant = { λ d. IsDraft d.version d.analysed d.names d.sets };
}

impl Draft {
    /// No commands. It takes no memory.
    pub fn new(alloc: Global) -> Draft
        ensures { result ≡ state_of [] }
    {
        Draft::of(0, 0, Names::new(alloc), Sets::new(alloc))
    }

    /// How many commands were applied.
    pub fn version(&self) -> u32
        ensures { result ≡ self.now.version }
    {
        self.version
    }

    /// Whether the name of some document begins with a text.
    pub fn has_under(&self, text: &Name) -> bool
        ensures { result ≡ has_under text.now self.now.documents }
    {
        self.names.has_under(text.as_bytes())
    }

    /// Whether a document has this name.
    pub fn has(&self, name: &Name) -> bool
        ensures { result ≡ is_taken name.now self.now.documents }
    {
        body_under(&self.names, name).is_some()
    }

    /// The body of the document with this name, if there is one.
    pub fn held(&self, name: &Name) -> Option<&Held>
        ensures { option_map (λ held. held.now) result ≡ get self.now.documents name.now }
    {
        match self.names.get(name.as_bytes()) {
            Some(content) => Some(&content.held),
            None => None,
        }
    }

    /// Whether a hint leads to a content: the name has the one with this number, or the put of the name comes later.
    pub fn leads(&self, like: &Like) -> bool
        ensures { result ≡ true → like.now.version < self.now.version → is_taken like.now.name self.now.documents ≡ true }
    {
        if like.version >= self.version {
            return true;
        }
        match self.names.get(like.name.as_bytes()) {
            Some(content) => content.number == like.number,
            None => false,
        }
    }

    /// Whether the copy of some document whose name begins with `from`, under the name with `to` in its place, would have a name of more
    /// than `most` bytes.
    pub fn has_long_copy(&self, from: &Name, to: &Name, most: usize) -> bool
        ensures { result ≡ has_long_copy most from.now to.now self.now.documents }
    {
        self.names
            .has_long_copy(from.as_bytes(), to.as_bytes(), most)
    }

    /// The same documents again. An `Err` means that memory ran out, or that something has too many handles.
    pub fn share(&self) -> Result<Draft, AllocError>
        ensures { IfOk result (λ draft. draft ≡ self.now) }
    {
        Ok(Draft::of(
            self.version,
            self.analysed,
            self.names.share()?,
            self.sets.share()?,
        ))
    }

    /// The documents after these commands, one after the other. At most 4,294,967,295 (2^32 - 1) commands can be applied. An `Err` means
    /// that memory ran out, that something has too many handles, that there would be more than 4,294,967,295 documents, or that a copy
    /// would have a name of more than `MAX_NAME` bytes.
    pub fn after(&self, updates: &[Update]) -> Result<Draft, AllocError>
        requires { self.now.version + length updates.now < 2 ^ 32 }
        ensures { IfOk result (λ next. next ≡ after (commands_of updates.now) self.now) }
    {
        let alloc = self.sets.allocator();
        let mut next = Growing::of(alloc, self.share()?);
        for update in updates {
            next = next.with(alloc, update)?;
        }
        next.settled()
    }

    /// The documents after the `Remove` of this name.
    pub(crate) fn remove(&self, name: &Name) -> Result<Draft, AllocError>
        requires { self.now.version + 1 < 2 ^ 32 }
        ensures { IfOk result (λ next. next ≡ applied (remove_command name.now) self.now) }
    {
        let names = self.names.remove(name.as_bytes())?;
        next(self.version + 1, self.analysed, names, &self.sets)
    }

    /// The documents after the `RemoveUnder` of this prefix.
    pub(crate) fn remove_under(&self, prefix: &Name) -> Result<Draft, AllocError>
        requires { self.now.version + 1 < 2 ^ 32 }
        ensures { IfOk result (λ next. next ≡ applied (remove_under_command prefix.now) self.now) }
    {
        let names = self.names.remove_under(prefix.as_bytes())?;
        next(self.version + 1, self.analysed, names, &self.sets)
    }

    /// The documents after the `CopyUnder` of these texts.
    pub(crate) fn copy_under(&self, from: &Name, to: &Name) -> Result<Draft, AllocError>
        requires { self.now.version + 1 < 2 ^ 32 }
        ensures { IfOk result (λ next. next ≡ applied (copy_under_command from.now to.now) self.now) }
    {
        let (old, new) = (from.as_bytes(), to.as_bytes());
        if self.names.has_long_copy(old, new, MAX_NAME) {
            return Err(AllocError);
        }
        let names = self.names.copy_under(old, new)?;
        next(self.version + 1, self.analysed, names, &self.sets)
    }

    /// The same documents as an index that can be searched: the bodies that are in no segment yet are analysed, in up to `threads`
    /// threads, and become segments, which the draft keeps. An `Err` means that memory ran out, or that something has too many handles.
    pub fn whole<R: Threads + Sync>(&mut self, rt: &R, threads: usize) -> Result<Index, AllocError>
        ensures same { self.new ≡ self.old }
        ensures ok { IfOk result (λ index. index ≡ self.old) }
    {
        let index = self.analysed_anew(rt, threads)?;
        *self = index.draft()?;
        Ok(index)
    }

    /// The same documents as an index, with a segment of the bodies that are in no segment yet.
    fn analysed_anew<R: Threads + Sync>(&self, rt: &R, threads: usize) -> Result<Index, AllocError>
        ensures { IfOk result (λ index. index ≡ self.now) }
    {
        let alloc = self.sets.allocator();
        let contents = self.names.since(self.analysed)?;
        let count = (self.version - self.analysed) as usize;
        let fresh = fresh_sets(rt, alloc, threads, &contents, self.analysed as usize, count)?;
        let sets = self.sets.share()?.joined(fresh)?.settled(&self.names);
        Ok(Index::of(self.version, self.names.share()?, sets))
    }

    /// The draft of a version, in which all contents before `analysed` are in the segments.
    pub(crate) fn of(version: u32, analysed: u32, names: Names, sets: Sets) -> Draft
        requires whole { IsVersion version analysed names sets }
        requires few { len names < 2 ^ 32 }
        ensures { result ≡ state version (bodies_of names) }
    {
        Draft {
            version,
            analysed,
            names,
            sets,
        }
    }
}

/// What commands leave: these names, and the same segments.
pub(crate) fn next(
    version: u32,
    analysed: u32,
    names: Names,
    sets: &Sets,
) -> Result<Draft, AllocError>
    requires whole { IsVersion version analysed names sets.now }
    ensures { IfOk result (λ next. next ≡ state version (bodies_of names)) }
{
    if names.len() >= 4_294_967_296 {
        return Err(AllocError);
    }
    Ok(Draft::of(version, analysed, names, sets.share()?))
}
