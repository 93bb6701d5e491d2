//! The index: the documents that commands leave.

ghost use Rattle.std.specs.Prelude.{◌≡◌, ◌+◌, ◌^◌, ◌<◌, [], OnOk, OnErr, IfErr, IfOk, IfSome, IsOk, IsTrue, IsFalse, false, option_map};
ghost use Rattle.documents.specs.declared.command.Command.TheVariants.{Put as put_command, Remove as remove_command, RemoveUnder as remove_under_command, CopyUnder as copy_under_command};
ghost use Rattle.watch.specs.CalledOff.{IsCalledOffOnlyIf};
ghost use Rattle.query.specs.Query.{formula_of};
ghost use Rattle.documents.specs.Documents.{has_under};
ghost use Rattle.std.specs.FinMap.{get, len};
ghost use Rattle.documents.specs.State.{applied, state_of, body_bytes, IsState};
ghost use Rattle.index.specs.Pieces.{IsTakenUnder};
ghost use Rattle.documents.specs.Shared.{AreCandidates};

use crate::analysed::Analysed;
use crate::catalog::Catalog;
use crate::error::ApplyError;
use documents::{Body, Candidates, Command, Corpus, Held, Name};
use prefixes::Prefixes;
use query::Query;
use std::alloc::{AllocError, Global};
use std::marker::Model;
use std::thread::Threads;
use watch::{Unanswered, Watch};

/// The documents that commands leave.
///
/// Contracts see an index as its state: how many commands were applied, and the body under each name.
#[derive(Drop)]
pub struct Index {
    catalog: Catalog,
}

impl Model for Index {
    ghost use Rattle.documents.specs.State.{State, state_code};
    ghost use Rattle.index.specs.Private.Plain.{plain_state};

    ghost Value = { State };

    ghost coded = { state_code };

    ghost view = { λ i. plain_state i.catalog };
}

impl Index {
    /// The index with no commands. It takes no memory.
    pub fn new(alloc: Global) -> Index
        ensures { result ≡ state_of [] }
    {
        Index {
            catalog: Catalog::new(alloc),
        }
    }

    /// Applies a command. At most 4,294,967,295 (2^32 - 1) commands can be applied to an index. An `Err` means that
    /// memory ran out, that a name has too many handles, or what it means for `copy_under`; it hands the command back, and the index is
    /// as it was. The
    /// index keeps a copy of the body of a `Put`; `apply_put` shares one instead.
    pub fn apply(&mut self, command: Command) -> Result<(), ApplyError>
        requires { self.old.version + 1 < 2 ^ 32 }
        ensures ok { OnOk result (self.new ≡ applied command self.old) }
        ensures err { OnErr result (self.new ≡ self.old) }
        ensures returned { IfErr result (λ e. e.command ≡ command) }
    {
        match command {
            Command::Put(name, body) => match self.put(&name, &body) {
                Ok(()) => Ok(()),
                Err(error) => Err(ApplyError {
                    command: Command::Put(name, body),
                    error,
                }),
            },
            Command::Remove(name) => match self.remove(&name) {
                Ok(()) => Ok(()),
                Err(error) => Err(ApplyError {
                    command: Command::Remove(name),
                    error,
                }),
            },
            Command::RemoveUnder(prefix) => match self.remove_under(&prefix) {
                Ok(()) => Ok(()),
                Err(error) => Err(ApplyError {
                    command: Command::RemoveUnder(prefix),
                    error,
                }),
            },
            Command::CopyUnder(from, to) => match self.copy_under(&from, &to) {
                Ok(()) => Ok(()),
                Err(error) => Err(ApplyError {
                    command: Command::CopyUnder(from, to),
                    error,
                }),
            },
        }
    }

    /// Applies the `Put` of this name and of a copy of this body, so that the body can be handed back after an `Err`.
    fn put(&mut self, name: &Name, body: &Body) -> Result<(), AllocError>
        requires { self.old.version + 1 < 2 ^ 32 }
        ensures ok { OnOk result (self.new ≡ applied (put_command name.now body.now) self.old) }
        ensures err { OnErr result (self.new ≡ self.old) }
    {
        let Ok(held) = Held::new(body.copy()?) else {
            return Err(AllocError);
        };
        match self.analysed(held) {
            Ok(analysed) => self.apply_put(name, &analysed),
            Err(_) => Err(AllocError),
        }
    }

    /// Applies the `Put` of this name and body, which the index then shares with the caller. The limit on commands is
    /// that of `apply`. A document that waits with all its trigrams goes on to wait. An `Err` means that memory ran out, or that the
    /// name or the body has too many handles; the index is then as it was.
    pub fn apply_put(&mut self, name: &Name, held: &Analysed) -> Result<(), AllocError>
        requires { self.old.version + 1 < 2 ^ 32 }
        ensures ok { OnOk result (self.new ≡ applied (put_command name.now held.now) self.old) }
        ensures err { OnErr result (self.new ≡ self.old) }
    {
        self.catalog.apply_put(name, held)
    }

    /// As `apply_put`, but a new document waits to be put into the sets of its trigrams, until `fill` puts all that wait there
    /// together, or `fill_some` one after the other. Until then, between two pieces too, `candidates` answers with an `Err`.
    pub fn put_later(&mut self, name: &Name, held: &Analysed) -> Result<(), AllocError>
        requires { self.old.version + 1 < 2 ^ 32 }
        ensures ok { OnOk result (self.new ≡ applied (put_command name.now held.now) self.old) }
        ensures err { OnErr result (self.new ≡ self.old) }
    {
        self.catalog.put_later(name, held)
    }

    /// As `apply_put`, but if nothing waits yet and many sets have to change, the document waits, until `fill_some` or `fill` has
    /// changed them: a new one, or one whose body is replaced. If all documents from a number on wait, a new one waits with them.
    pub fn put_in_pieces(&mut self, name: &Name, held: &Analysed) -> Result<(), AllocError>
        requires { self.old.version + 1 < 2 ^ 32 }
        ensures ok { OnOk result (self.new ≡ applied (put_command name.now held.now) self.old) }
        ensures err { OnErr result (self.new ≡ self.old) }
    {
        self.catalog.put_in_pieces(name, held)
    }

    /// Says whether `fill` or `fill_some` follows. If so, removes and replacements may empty the sets of the trigrams and have all
    /// documents wait, where it takes about as long to put them there anew as to take out what goes. `fill` ends that.
    pub fn expect_fill(&mut self, expected: bool)
        ensures { self.new ≡ self.old }
    {
        self.catalog.expect_fill(expected)
    }

    /// Puts the documents that wait into the sets of their trigrams, in up to `threads` threads, each with a range of the
    /// trigrams, and takes one that waits to be taken out of some out of these. The index has the same documents in either case. An
    /// `Err` means that memory ran out; some may then still wait.
    pub fn fill<R: Threads + Sync>(&mut self, rt: &R, threads: usize) -> Result<(), AllocError>
        ensures { self.new ≡ self.old }
    {
        self.catalog.fill(rt, threads)
    }

    /// Goes on with what waits, in pieces: with a document that waits alone (`fill_one`), or with all documents from a number on, which
    /// are put into the sets of their trigrams one after the other, each whole. Returns how much of `most` is left; if that is not 0,
    /// `is_filling` is `false`. The index has the same documents in either case. An `Err` means that memory ran out; it then still
    /// waits.
    pub fn fill_some(&mut self, most: usize) -> Result<usize, AllocError>
        ensures { self.new ≡ self.old }
    {
        self.catalog.fill_some(most)
    }

    /// Goes on with the document that waits alone, if one does, so that a large one is put in, replaced or taken out in pieces.
    /// `most` bounds the work: a set that changes counts 8, and more where the number has many others on both sides, and a trigram
    /// that the body before has too, whose set stays, 1. Returns how much of `most` is left; if that is not 0, it waits no more. The
    /// index has the same documents in either case. An `Err` means that memory ran out; it then still waits.
    pub fn fill_one(&mut self, most: usize) -> Result<usize, AllocError>
        ensures { self.new ≡ self.old }
    {
        self.catalog.fill_one(most)
    }

    /// Whether documents wait to be put into the sets of their trigrams or taken out of them, which `fill_some` and `fill` go on
    /// with. While any do, `candidates` answers with an `Err`.
    pub fn is_filling(&self) -> bool {
        self.catalog.is_filling()
    }

    /// Applies the `Remove` of this name. The limit on commands is that of `apply`. It takes no memory, and never
    /// returns an `Err`, although its type is that of `apply_put`.
    pub fn remove(&mut self, name: &Name) -> Result<(), AllocError>
        requires { self.old.version + 1 < 2 ^ 32 }
        ensures ok { OnOk result (self.new ≡ applied (remove_command name.now) self.old) }
        ensures err { OnErr result (self.new ≡ self.old) }
        ensures done { IsOk result }
    {
        self.catalog.remove(name, false)
    }

    /// As `remove`, but if nothing waits yet and the document has many trigrams, its number waits to be taken out of their sets, until
    /// `fill_some` or `fill` has done that.
    pub fn remove_in_pieces(&mut self, name: &Name) -> Result<(), AllocError>
        requires { self.old.version + 1 < 2 ^ 32 }
        ensures ok { OnOk result (self.new ≡ applied (remove_command name.now) self.old) }
        ensures err { OnErr result (self.new ≡ self.old) }
        ensures done { IsOk result }
    {
        self.catalog.remove(name, true)
    }

    /// Applies the `RemoveUnder` of this prefix, in time for the trigrams of the documents that go, each times the documents in its set
    /// up to the nearer end. The first or the last name goes next, whichever document is nearer to an end of the sets. The limit on
    /// commands is that of `apply`. It needs no memory, and never returns an `Err`, although its type is that of `apply_put`.
    pub fn remove_under(&mut self, prefix: &Name) -> Result<(), AllocError>
        requires { self.old.version + 1 < 2 ^ 32 }
        ensures ok { OnOk result (self.new ≡ applied (remove_under_command prefix.now) self.old) }
        ensures err { OnErr result (self.new ≡ self.old) }
        ensures done { IsOk result }
    {
        self.catalog.remove_under(prefix)
    }

    /// Applies the `CopyUnder` of these names. A copy has the same body, which is not held once more, and waits for no sets: only a
    /// document that goes because a copy takes its place is taken out of some. It takes time and memory for the names that begin with
    /// `from`. The limit on commands is that of `apply`.
    ///
    /// An `Err` means that memory ran out, that a name has too many handles, that a copy would have a name of more than 4,096 bytes,
    /// or that there would be more than 4,294,967,295 (2^32 - 1) documents. The index is then as it was.
    pub fn copy_under(&mut self, from: &Name, to: &Name) -> Result<(), AllocError>
        requires { self.old.version + 1 < 2 ^ 32 }
        ensures ok { OnOk result (self.new ≡ applied (copy_under_command from.now to.now) self.old) }
        ensures err { OnErr result (self.new ≡ self.old) }
    {
        self.catalog.copy_under(from, to, false)
    }

    /// Takes out a document whose name begins with the prefix, and returns whether there is one. It is no command: the version
    /// stays. So the `RemoveUnder` of a prefix can be carried out in pieces: after some documents were taken out, it leaves what it
    /// would have left before. If nothing waits yet and the document has many trigrams, its number waits to be taken out of their
    /// sets, until `fill_some` or `fill` has done that. This needs no memory.
    pub fn take_one_under(&mut self, prefix: &Name) -> bool
        ensures taken { IsTrue result → IsTakenUnder prefix.now self.old self.new }
        ensures same { applied (remove_under_command prefix.now) self.new ≡ applied (remove_under_command prefix.now) self.old }
        ensures none { IsFalse result → (self.new ≡ self.old) × (has_under prefix.now self.old.documents ≡ false) }
    {
        // its contract says that no two documents have the same name
        let _ = self.catalog.version();
        let taken = self.catalog.take_one_under(prefix, true);
        let _ = self.catalog.version();
        taken
    }

    /// Copies some hundreds of the documents that the `CopyUnder` of these texts would copy, if no name can begin with both, and returns
    /// whether it is to be called again. It is no command: the version stays. So a `CopyUnder` can be carried out in pieces: after some
    /// documents were copied, it leaves what it would have left before. `false` does not say that all are copied: memory can have run
    /// out, too.
    pub fn copy_some_under(&mut self, from: &Name, to: &Name) -> bool
        ensures same { applied (copy_under_command from.now to.now) self.new ≡ applied (copy_under_command from.now to.now) self.old }
        ensures none { IsFalse result → self.new ≡ self.old }
    {
        self.catalog.copy_some_under(from, to)
    }

    /// The total length of the documents' bodies, in bytes. A body that several documents have counts for each of them, though the
    /// index holds it once. It holds no other bodies, but for one that documents had while it waits to be taken out of the sets of its
    /// trigrams (`is_filling`).
    pub fn held_bytes(&self) -> u64
        ensures { result ≡ body_bytes self.now.documents }
    {
        let _ = self.catalog.version();
        self.catalog.held_bytes()
    }

    /// The body of the document with this name, if there is one.
    pub fn body(&self, name: &Name) -> Option<&Body>
        ensures { option_map (λ body. body.now) result ≡ get self.now.documents name.now }
    {
        self.catalog.body(name)
    }

    /// The body with its trigrams: those that a document with the same body has, if one is found by its hash, and otherwise they are
    /// found anew. An `Err` means that memory ran out, and hands the handle back.
    pub fn analysed(&self, held: Held) -> Result<Analysed, Held>
        ensures analysed { IfOk result (λ analysed. analysed ≡ held) }
        ensures returned { IfErr result (λ returned. returned ≡ held) }
    {
        match self.held_like(held.body()) {
            Some(analysed) => Ok(analysed),
            None => Analysed::new(self.catalog.allocator(), held),
        }
    }

    /// Another handle to the body of a document that is the same as this one, so that its trigrams need not be found again. `None` does
    /// not say that no document has it: one is found by a hash, and it can have too many handles.
    pub fn held_like(&self, body: &Body) -> Option<Analysed>
        ensures { IfSome result (λ held. held ≡ body.now) }
    {
        self.catalog.held_like(body)
    }
}

impl Corpus for Index {
    ghost state = { λ s. s };

    fn version(&self) -> u32 {
        self.catalog.version()
    }

    fn documents(&self) -> u32 {
        // its contract says that no two documents have the same name
        let _ = self.catalog.version();
        self.catalog.documents()
    }

    /// The cost of finding the documents depends mainly on how many names begin with the prefixes and are gone through until `most`
    /// are found or, if few documents meet the query, on their number; each prefix is looked for once or twice. Documents that wait
    /// (`is_filling`), between two pieces or since memory ran out when they were to be put into their sets, cannot be selected yet.
    fn candidates<W: Watch>(
        &self,
        alloc: Global,
        query: &Query,
        prefixes: &Prefixes,
        most: usize,
        watch: &mut W,
    ) -> Result<Candidates, Unanswered> {
        let _ = self.catalog.version();
        let _ = self.catalog.documents();
        let (chosen, count) = self.catalog.candidates(alloc, query, watch)?;
        let documents = self
            .catalog
            .chosen_documents_under(alloc, &chosen, count as usize, prefixes, most, watch)?;
        Ok(Candidates { count, documents })
    }
}
