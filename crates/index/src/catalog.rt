//! The documents of an index, found by name, by number and by trigrams. A body that several documents have is kept once.

ghost use Rattle.std.specs.Prelude.{◌≡◌, ℕ, List, ◌+◌, ◌^◌, ◌<◌, ◌≤◌, [], ◌∷◌, ◌++◌, map, length, sum, OnOk};
ghost use Rattle.std.specs.Prelude.{false, OnErr, IfOk, IfErr, IfSome, IfNone, IsOk, IsTrue, IsFalse, true, option_map, filter, bytes_eq, if◌then◌else◌, Some, None};
ghost use Rattle.std.specs.Ordering.{nat_cmp};
ghost use Rattle.std.specs.Cmp.Lexicographic.{slice_cmp};
ghost use Rattle.std.specs.BTreeMap.{IsUnchanged, IsOrdered, btree_map_len, get};
ghost use Rattle.std.specs.BTreeSet.{contains};
ghost use Rattle.std.specs.List.Sorted.{IsStrictlyIncreasing};
ghost use Rattle.documents.specs.declared.command.Command.TheVariants.{Put as put_command, Remove as remove_command, RemoveUnder as remove_under_command, CopyUnder as copy_under_command};
ghost use Rattle.watch.specs.CalledOff.{IsCalledOffOnlyIf};
ghost use Rattle.query.specs.Query.{formula_of};
ghost use Rattle.query.specs.Trigrams.{ListsTrigrams};
ghost use Rattle.documents.specs.Text.{IsName};
ghost use Rattle.prefixes.specs.Under.{begins_with};
ghost use Rattle.documents.specs.State.{applied, body_bytes};
ghost use Rattle.index.specs.Pieces.{IsTakenUnder};
ghost use Rattle.index.specs.Private.Numbered.{document, document_at, number_of, has_under, is_chosen, is_picked, is_under_any, AreFirstInNameOrder};
ghost use Rattle.index.specs.Private.Numbered.{state, body_bytes as content_bytes, IsState, documents_shared};
ghost use Rattle.index.specs.Private.Contents.{body_at, has_name, is_number, with_name, names_count, AreGroupsOf, HasNames, IsLeft, IsAlone, IsOwn, AreChosen};
ghost use Rattle.std.specs.FinMap.{get as body_under, insert, remove};
ghost use Rattle.index.specs.Private.Plain.{plain_documents, plain_state};
ghost use Rattle.index.specs.Private.Chosen.{document_named, document_numbered, documents_numbered, IsFirstUnder};
ghost use Rattle.index.specs.Private.Slots.{documents_in, RiseTo};
ghost use Rattle.index.specs.Private.Store.{stored, IsStore, HasPlaceFor};

use crate::analysed::{Analysed, hash_of};
use crate::by_name::sort_by_name;
use crate::copying::{
    Leaves, Part, are_apart, copies_under, enter_all, leave_all, restore_all, some_copies,
};
use crate::groups::{join, part, take_back};
use crate::moving::moves_between;
use crate::sets::FEW_BYTES;
use crate::slots::{Occupant, Slot, occupant_at, occupant_near};
use crate::store::Store;
use documents::{Body, MAX_NAME, Name, NameError, SharedDocument};
use posting::{Lookup, Trigrams};
use prefixes::Prefixes;
use query::Query;
use std::alloc::{AllocError, Global};
use std::cmp::Ordering;
use std::collections::{BTreeMap, BTreeSet};
use std::marker::Model;
use std::ops::Bound;
use std::thread::Threads;
use watch::{Pace, Unanswered, Watch, ask};

/// If fewer documents are to be found than those in question divided by this, they are sorted by name. If they are more, all documents
/// in question are gone through in the order of their names.
const FEW: usize = 8;

/// The same where only the first documents of the list are asked for, since going through the names ends at the last of them.
const FEW_FOR_FIRST: usize = 64;

/// So many names go over at most from one content to another one with the same body.
const FEW_NAMES: usize = 64;

/// How many names are passed at once to see where those end that begin with a prefix.
const STRIDE: usize = 64;

/// How many documents are handed out, or names passed, between two looks at whether the answer is wanted.
const DOCUMENTS: usize = 1024;

/// The documents that commands leave. A body that several of them have is kept once, as a content, which has a number: the place,
/// among all commands and counted from 1, of a `Put` of that body. Contracts see how many commands were applied, and the documents,
/// rising by their names, each with the number of its content.
#[derive(Drop)]
pub(crate) struct Catalog {
    // the number of commands
    version: u32,
    /// The number of each document's content, by the document's name.
    numbers: BTreeMap<Name, u32>,
    /// The names of each content that several documents have, or had, by its number. Other contents have the one name that the
    /// store keeps with them.
    groups: BTreeMap<u32, BTreeSet<Name>>,
    /// The contents.
    store: Store,
    /// The total length of the bodies of all documents, in bytes.
    held_bytes: u64,
    /// By the hash of its body, the number of a content that perhaps has it. No contract depends on it.
    hints: BTreeMap<u64, u32>,
    /// From which name on those are that a copy has still to go through, if it is carried out in parts. No contract depends on it.
    copied: Option<Name>,
}

impl Model for Catalog {
    ghost use Rattle.index.specs.Private.Numbered.{State, state};
    ghost use Rattle.index.specs.Private.Contents.{named};
    ghost use Rattle.index.specs.Private.Store.{stored, IsIndex};

    ghost Value = { State };

    ghost view = { λ i. state i.version (named i.numbers (stored i.store)) };

    ghost invariant = { λ i. IsIndex i.version i.numbers i.groups i.store i.held_bytes };
}

impl Catalog {
    /// The catalog of no documents. It takes no memory.
    pub(crate) fn new(alloc: Global) -> Catalog
        ensures { result ≡ state 0 [] }
    {
        Catalog {
            version: 0,
            numbers: BTreeMap::new(alloc),
            groups: BTreeMap::new(alloc),
            store: Store::new(alloc),
            held_bytes: 0,
            hints: BTreeMap::new(alloc),
            copied: None,
        }
    }

    /// As `Index::apply_put`.
    pub(crate) fn apply_put(&mut self, name: &Name, held: &Analysed) -> Result<(), AllocError>
        requires { self.old.version + 1 < 2 ^ 32 }
        ensures ok { OnOk result (plain_state self.new ≡ applied (put_command name.now held.now) (plain_state self.old)) }
        ensures err { OnErr result (self.new ≡ self.old) }
    {
        let old = self.number(name);
        let is_put = self.put_known(name, old, held, false)?;
        if is_put {
            return Ok(());
        }
        self.put_body(name, old, held, false)
    }

    /// As `Index::put_later`.
    pub(crate) fn put_later(&mut self, name: &Name, held: &Analysed) -> Result<(), AllocError>
        requires { self.old.version + 1 < 2 ^ 32 }
        ensures ok { OnOk result (plain_state self.new ≡ applied (put_command name.now held.now) (plain_state self.old)) }
        ensures err { OnErr result (self.new ≡ self.old) }
    {
        let old = self.number(name);
        let is_put = self.put_known(name, old, held, false)?;
        if is_put {
            return Ok(());
        }
        self.put_body(name, old, held, true)
    }

    /// As `Index::put_in_pieces`.
    pub(crate) fn put_in_pieces(&mut self, name: &Name, held: &Analysed) -> Result<(), AllocError>
        requires { self.old.version + 1 < 2 ^ 32 }
        ensures ok { OnOk result (plain_state self.new ≡ applied (put_command name.now held.now) (plain_state self.old)) }
        ensures err { OnErr result (self.new ≡ self.old) }
    {
        self.start_over_if_too_much();
        let old = self.number(name);
        let is_put = self.put_known(name, old, held, true)?;
        if is_put {
            return Ok(());
        }
        self.put_body_in_pieces(name, old, held)
    }

    /// As `put_body`, but if many sets have to change, the content waits.
    fn put_body_in_pieces(
        &mut self,
        name: &Name,
        old: Option<u32>,
        held: &Analysed,
    ) -> Result<(), AllocError>
        requires few { self.old.version + 1 < 2 ^ 32 }
        requires old { old ≡ number_of name.now self.old.documents }
        ensures ok { OnOk result (plain_state self.new ≡ applied (put_command name.now held.now) (plain_state self.old)) }
        ensures err { OnErr result (self.new ≡ self.old) }
    {
        if self.store.sets.has_waiting(u32::MAX) {
            return self.put_body(name, old, held, true);
        }
        if !self.store.is_idle() {
            return self.put_body(name, old, held, false);
        }
        match self.own(name, old) {
            Some(number) if self.store.changes_much(number, held.trigrams())? => {
                self.replace(number, name, held, true)
            }
            Some(number) => self.replace(number, name, held, false),
            None => self.put_new(name, old, held, held.trigrams().size() > FEW_BYTES),
        }
    }

    /// Applies the `Put` of a body, which is kept anew even if a content has it already, where `old` is the number under the name. A new
    /// content waits if `later` is asked for.
    fn put_body(
        &mut self,
        name: &Name,
        old: Option<u32>,
        held: &Analysed,
        later: bool,
    ) -> Result<(), AllocError>
        requires few { self.old.version + 1 < 2 ^ 32 }
        requires old { old ≡ number_of name.now self.old.documents }
        ensures ok { OnOk result (plain_state self.new ≡ applied (put_command name.now held.now) (plain_state self.old)) }
        ensures err { OnErr result (self.new ≡ self.old) }
    {
        match self.own(name, old) {
            Some(number) => self.replace(number, name, held, false),
            None => self.put_new(name, old, held, later),
        }
    }

    /// As `put_copy`, but if the name has a content of its own that is to keep its number, that one gets the body, and the names of the
    /// other one.
    fn put_known(
        &mut self,
        name: &Name,
        old: Option<u32>,
        held: &Analysed,
        later: bool,
    ) -> Result<bool, AllocError>
        requires few { self.old.version + 1 < 2 ^ 32 }
        requires old { old ≡ number_of name.now self.old.documents }
        ensures put { IfOk result (λ is_put. is_put ≡ true → plain_state self.new ≡ applied (put_command name.now held.now) (plain_state self.old)) }
        ensures none { IfOk result (λ is_put. is_put ≡ false → self.new ≡ self.old) }
        ensures err { OnErr result (self.new ≡ self.old) }
    {
        if let Some((own, like)) = self.own_beside(name, old, held) {
            self.replace(own, name, held, false)?;
            self.move_names(like, own);
            return Ok(true);
        }
        self.put_copy(name, old, held, later)
    }

    /// Applies the `Put` of a body that a content is known to have, under one more name, and returns whether there is one. If the
    /// content with the number `old`, which the name has, goes and that is much work, its number waits, with `later`.
    fn put_copy(
        &mut self,
        name: &Name,
        old: Option<u32>,
        held: &Analysed,
        later: bool,
    ) -> Result<bool, AllocError>
        requires few { self.old.version + 1 < 2 ^ 32 }
        requires old { old ≡ number_of name.now self.old.documents }
        ensures put { IfOk result (λ is_put. is_put ≡ true → plain_state self.new ≡ applied (put_command name.now held.now) (plain_state self.old)) }
        ensures none { IfOk result (λ is_put. is_put ≡ false → self.new ≡ self.old) }
        ensures err { OnErr result (self.new ≡ self.old) }
    {
        let Some(number) = content_with(&self.hints, &self.store.slots, held) else {
            return Ok(false);
        };
        if is_number(old, number) {
            self.version += 1;
            return Ok(true);
        }
        if !has_room(&self.numbers, 1) {
            return Err(AllocError);
        }
        let held_bytes = self.bytes_with(name, old, held);
        enter_copy(
            &mut self.numbers,
            &mut self.groups,
            &self.store,
            name,
            number,
        )?;
        leave(
            &mut self.groups,
            &mut self.hints,
            &mut self.store,
            old,
            name,
            later,
        );
        self.held_bytes = held_bytes;
        self.version += 1;
        Ok(true)
    }

    /// Replaces the body of the content with this number, of which this is the only name. The content then waits if `in_pieces` is
    /// asked for and nothing waits yet.
    fn replace(
        &mut self,
        number: u32,
        name: &Name,
        held: &Analysed,
        in_pieces: bool,
    ) -> Result<(), AllocError>
        requires few { self.old.version + 1 < 2 ^ 32 }
        requires own { IsOwn name.now number self.old.documents }
        ensures ok { OnOk result (plain_state self.new ≡ applied (put_command name.now held.now) (plain_state self.old)) }
        ensures err { OnErr result (self.new ≡ self.old) }
    {
        let held_bytes = self.bytes_with(name, Some(number), held);
        let held = held.share()?;
        let _trigrams = held.trigrams();
        let (old, new) = (self.hash_at(number), held.hash());
        self.store.replace_body(number, held, in_pieces)?;
        self.held_bytes = held_bytes;
        self.version += 1;
        change_hint(&mut self.hints, number, old, new);
        Ok(())
    }

    /// The content that has this name only, where `old` is the number under it, and another one that has this body, if the first one is
    /// to keep its number: where the other one waits, and the first one does not, to change its sets takes less time than to take it out
    /// of all of them; and a small one that is older stays among those that came with it. The other one has at most `FEW_NAMES` names.
    fn own_beside(&self, name: &Name, old: Option<u32>, held: &Analysed) -> Option<(u32, u32)>
        requires { old ≡ number_of name.now self.now.documents }
        ensures { IfSome result (λ found. IsOwn name.now found.0 self.now.documents) }
    {
        let own = self.own(name, old)?;
        let like = content_with(&self.hints, &self.store.slots, held)?;
        let sets = &self.store.sets;
        let is_quick = sets.has_waiting(like) && !sets.has_waiting(own);
        let is_small = own < like && held.trigrams().size() <= FEW_BYTES;
        if !is_quick && !is_small {
            return None;
        }
        if like == own || names_of(&self.groups, like) > FEW_NAMES {
            return None;
        }
        Some((own, like))
    }

    /// Has the names of one content go over to another one that has the same body, until memory runs out. The first one goes with its
    /// last name.
    fn move_names(&mut self, from: u32, to: u32)
        ensures { plain_state self.new ≡ plain_state self.old }
    {
        let alloc = *self.store.slots.allocator();
        let (numbers, groups) = (&mut self.numbers, &mut self.groups);
        let Some(moves) = moves_between(alloc, numbers, groups, &self.store.slots, from, to) else {
            return;
        };
        if !has_room(numbers, moves.len()) {
            return;
        }
        let (count, _) = enter_all(numbers, groups, &self.store, &moves, self.held_bytes);
        let done = &moves[..count];
        let (hints, store) = (&mut self.hints, &mut self.store);
        leave_all(groups, hints, store, done, Leaves::Old, false);
    }

    /// Has all contents wait for `fill`, if it has taken as long to change the sets as to fill them.
    fn start_over_if_too_much(&mut self)
        ensures { self.new ≡ self.old }
    {
        self.store.start_over_if_too_much();
    }

    /// Puts in a new content for the name, which has the number `old`. It waits if `later` is asked for.
    fn put_new(
        &mut self,
        name: &Name,
        old: Option<u32>,
        held: &Analysed,
        later: bool,
    ) -> Result<(), AllocError>
        requires few { self.old.version + 1 < 2 ^ 32 }
        requires old { old ≡ number_of name.now self.old.documents }
        ensures ok { OnOk result (plain_state self.new ≡ applied (put_command name.now held.now) (plain_state self.old)) }
        ensures err { OnErr result (self.new ≡ self.old) }
    {
        if !has_room(&self.numbers, 1) {
            return Err(AllocError);
        }
        let held_bytes = self.bytes_with(name, old, held);
        let held = held.share()?;
        let _trigrams = held.trigrams();
        let hash = held.hash();
        let number = self.version + 1;
        put_content(
            &mut self.numbers,
            &mut self.store,
            name,
            number,
            held,
            later,
        )?;
        leave(
            &mut self.groups,
            &mut self.hints,
            &mut self.store,
            old,
            name,
            false,
        );
        self.held_bytes = held_bytes;
        self.version = number;
        change_hint(&mut self.hints, number, None, hash);
        Ok(())
    }

    /// The hash of the body of the content with this number, if there is one.
    fn hash_at(&self, number: u32) -> Option<u64> {
        hash_at(&self.store.slots, number)
    }

    /// As `Index::expect_fill`.
    pub(crate) fn expect_fill(&mut self, expected: bool)
        ensures { self.new ≡ self.old }
    {
        self.store.expects_fill = expected;
        self.store.taken = if expected { self.store.taken } else { 0 };
    }

    /// As `Index::fill`.
    pub(crate) fn fill<R: Threads + Sync>(
        &mut self,
        rt: &R,
        threads: usize,
    ) -> Result<(), AllocError>
        ensures { self.new ≡ self.old }
    {
        self.store.fill(rt, threads)
    }

    /// As `Index::fill_some`.
    pub(crate) fn fill_some(&mut self, most: usize) -> Result<usize, AllocError>
        ensures { self.new ≡ self.old }
    {
        self.store.fill_some(most)
    }

    /// As `Index::fill_one`.
    pub(crate) fn fill_one(&mut self, most: usize) -> Result<usize, AllocError>
        ensures { self.new ≡ self.old }
    {
        self.store.fill_one(most)
    }

    /// As `Index::is_filling`.
    pub(crate) fn is_filling(&self) -> bool {
        self.store.sets.waiting.is_some()
    }

    /// As `Index::remove`, or, with `later`, as `Index::remove_in_pieces`.
    pub(crate) fn remove(&mut self, name: &Name, later: bool) -> Result<(), AllocError>
        requires { self.old.version + 1 < 2 ^ 32 }
        ensures ok { OnOk result (plain_state self.new ≡ applied (remove_command name.now) (plain_state self.old)) }
        ensures err { OnErr result (self.new ≡ self.old) }
        ensures done { IsOk result }
    {
        let old = self.number(name);
        let held_bytes = self.bytes_without(name, old);
        self.numbers.remove(name);
        leave(
            &mut self.groups,
            &mut self.hints,
            &mut self.store,
            old,
            name,
            later,
        );
        self.held_bytes = held_bytes;
        self.version += 1;
        Ok(())
    }

    /// As `Index::remove_under`.
    pub(crate) fn remove_under(&mut self, prefix: &Name) -> Result<(), AllocError>
        requires { self.old.version + 1 < 2 ^ 32 }
        ensures ok { OnOk result (plain_state self.new ≡ applied (remove_under_command prefix.now) (plain_state self.old)) }
        ensures err { OnErr result (self.new ≡ self.old) }
        ensures done { IsOk result }
    {
        while self.take_one_under(prefix, false) {}
        self.version += 1;
        Ok(())
    }

    /// As `Index::copy_under`. With `later`, the numbers of contents that go can wait.
    pub(crate) fn copy_under(
        &mut self,
        from: &Name,
        to: &Name,
        later: bool,
    ) -> Result<(), AllocError>
        requires { self.old.version + 1 < 2 ^ 32 }
        ensures ok { OnOk result (plain_state self.new ≡ applied (copy_under_command from.now to.now) (plain_state self.old)) }
        ensures err { OnErr result (plain_state self.new ≡ plain_state self.old) }
    {
        let alloc = *self.store.slots.allocator();
        let copies = copies_under(alloc, &self.numbers, from, to)?;
        if !has_room(&self.numbers, copies.len()) {
            return Err(AllocError);
        }
        let (count, held_bytes) = enter_all(
            &mut self.numbers,
            &mut self.groups,
            &self.store,
            &copies,
            self.held_bytes,
        );
        let (hints, store) = (&mut self.hints, &mut self.store);
        if count < copies.len() {
            let done = &copies[..count];
            restore_all(&mut self.numbers, done);
            leave_all(&mut self.groups, hints, store, done, Leaves::New, later);
            return Err(AllocError);
        }
        leave_all(&mut self.groups, hints, store, &copies, Leaves::Old, later);
        self.copied = None;
        self.held_bytes = held_bytes;
        self.version += 1;
        Ok(())
    }

    /// As `Index::take_one_under`, but the number of a content waits only with `later`.
    pub(crate) fn take_one_under(&mut self, prefix: &Name, later: bool) -> bool
        ensures taken { IsTrue result → IsTakenUnder prefix.now (plain_state self.old) (plain_state self.new) }
        ensures same { applied (remove_under_command prefix.now) (plain_state self.new) ≡ applied (remove_under_command prefix.now) (plain_state self.old) }
        ensures none { IsFalse result → (self.new ≡ self.old) × (has_under prefix.now self.old.documents ≡ false) }
    {
        let alloc = *self.store.slots.allocator();
        let Some(number) = number_under(alloc, &self.numbers, prefix, self.version) else {
            return false;
        };
        let Some(name) = name_under(&self.groups, &self.store.slots, number, prefix) else {
            return false;
        };
        let Some((own, old)) = self.numbers.remove_entry(name) else {
            return false;
        };
        let length = length_at(&self.store.slots, old);
        leave(
            &mut self.groups,
            &mut self.hints,
            &mut self.store,
            Some(old),
            &own,
            later,
        );
        self.held_bytes -= length as u64;
        true
    }

    /// As `Index::copy_some_under`.
    pub(crate) fn copy_some_under(&mut self, from: &Name, to: &Name) -> bool
        ensures same { applied (copy_under_command from.now to.now) (plain_state self.new) ≡ applied (copy_under_command from.now to.now) (plain_state self.old) }
        ensures none { IsFalse result → (plain_state self.new ≡ plain_state self.old) }
    {
        if !are_apart(from, to) {
            return false;
        }
        let alloc = *self.store.slots.allocator();
        let first = first_left(&self.copied, from);
        let Ok(part) = some_copies(alloc, &self.numbers, from, to, first) else {
            return false;
        };
        let Part { copies, next, more } = part;
        if !has_room(&self.numbers, copies.len()) {
            return false;
        }
        let (count, held_bytes) = enter_all(
            &mut self.numbers,
            &mut self.groups,
            &self.store,
            &copies,
            self.held_bytes,
        );
        let (hints, store) = (&mut self.hints, &mut self.store);
        let done = &copies[..count];
        leave_all(&mut self.groups, hints, store, done, Leaves::Old, true);
        self.held_bytes = held_bytes;
        let goes_on = more || count > 0;
        self.copied = if goes_on { Some(next) } else { None };
        goes_on
    }

    /// The version: the number of commands that were applied.
    pub(crate) fn version(&self) -> u32
        ensures version { result ≡ self.now.version }
        ensures state { IsState self.now }
    {
        self.version
    }

    /// The number of documents.
    pub(crate) fn documents(&self) -> u32
        ensures { result ≡ length self.now.documents }
    {
        self.numbers.len() as u32
    }

    /// The total length of the documents' bodies, in bytes.
    pub(crate) fn held_bytes(&self) -> u64
        ensures { result ≡ body_bytes (plain_documents self.now.documents) }
    {
        self.held_bytes
    }

    /// The total length of the bodies once the document with this name, and the number `old`, has this one.
    fn bytes_with(&self, name: &Name, old: Option<u32>, held: &Analysed) -> u64
        requires { old ≡ number_of name.now self.now.documents }
        ensures { result ≡ body_bytes (insert (plain_documents self.now.documents) name.now held.now) }
    {
        let _ = &self.version;
        let others = self.bytes_without(name, old);
        let length = held.body().as_bytes().len() as u64;
        others + length
    }

    /// The total length of the bodies of the documents with other names, where this one has the number `old`.
    fn bytes_without(&self, name: &Name, old: Option<u32>) -> u64
        requires { old ≡ number_of name.now self.now.documents }
        ensures { result ≡ body_bytes (remove (plain_documents self.now.documents) name.now) }
    {
        let Some(number) = old else {
            return self.held_bytes;
        };
        let length = length_at(&self.store.slots, number) as u64;
        self.held_bytes - length
    }

    /// The number of the content of the document with this name, if there is such a document.
    fn number(&self, name: &Name) -> Option<u32>
        ensures { result ≡ number_of name.now self.now.documents }
    {
        self.numbers.get(name).copied()
    }

    /// The number `old` of this name's content, if it has no other name.
    fn own(&self, name: &Name, old: Option<u32>) -> Option<u32>
        requires { old ≡ number_of name.now self.now.documents }
        ensures { IfSome result (λ number. IsOwn name.now number self.now.documents) }
    {
        let Some(number) = old else {
            return None;
        };
        if is_alone(&self.groups, number) {
            Some(number)
        } else {
            None
        }
    }

    /// The body of the document with this name, if there is one.
    pub(crate) fn body(&self, name: &Name) -> Option<&Body>
        ensures { option_map (λ body. body.now) result ≡ body_under (plain_documents self.now.documents) name.now }
    {
        let Some(number) = self.number(name) else {
            return None;
        };
        let Some(occupant) = occupant_at(&self.store.slots, number) else {
            return None;
        };
        Some(occupant.held.body())
    }

    /// The numbers of the contents whose trigrams meet the query, rising, and how many documents have these contents. `OutOfMemory`
    /// means that memory ran out, or that documents wait (`Index::is_filling`): between two pieces, or since memory ran out when they
    /// were to be put into their sets.
    pub(crate) fn candidates<W: Watch>(
        &self,
        alloc: Global,
        query: &Query,
        watch: &mut W,
    ) -> Result<(posting::List, u32), Unanswered>
        ensures chosen { IfOk result (λ chosen. AreChosen (formula_of query.now) self.now.documents chosen.0.members chosen.1) }
        ensures called_off { IfErr result (IsCalledOffOnlyIf (W.has_said_no watch.new)) }
    {
        let sets = &self.store.sets;
        match &sets.waiting {
            Some(_) => Err(Unanswered::OutOfMemory),
            None => {
                let list = sets.postings.select(alloc, query, &sets.live, watch)?;
                let count = count_names(&self.groups, &list, watch)?;
                Ok((list, count as u32))
            }
        }
    }

    /// The documents whose numbers are in the list, of which there are `count`, and whose names begin with one of the prefixes, in the
    /// order of their names: all of them, or the first ones, of which there are `most` or more. A number that no document has is left
    /// out. The cost depends mainly on how many names begin with the prefixes and are gone through until `most` documents are found
    /// or, if `count` is less than an eighth of the names in question, on `count`. If `count` is more than `most`, it counts as less
    /// only below a 64th. All numbers of the list are gone through in any case, and each prefix is looked for once or twice.
    ///
    /// An `Err` means that memory ran out, that a name or a body has too many handles, or that `watch` called it off.
    pub(crate) fn chosen_documents_under<W: Watch>(
        &self,
        alloc: Global,
        chosen: &posting::List,
        count: usize,
        prefixes: &Prefixes,
        most: usize,
        watch: &mut W,
    ) -> Result<Vec<SharedDocument>, Unanswered>
        ensures documents { IfOk result (λ shared. AreFirstInNameOrder most (filter (is_chosen chosen.now.members prefixes.now) self.now.documents)
            (documents_shared shared.items)) }
        ensures called_off { IfErr result (IsCalledOffOnlyIf (W.has_said_no watch.new)) }
    {
        let _ = &self.version;
        let few = if most < count { FEW_FOR_FIRST } else { FEW };
        if self.has_many_under(alloc, prefixes, count.saturating_mul(few), watch)? {
            self.few(alloc, chosen, prefixes, most, watch)
        } else {
            self.many(alloc, chosen, count, prefixes, most, watch)
        }
    }

    /// Whether about `most` names or more begin with one of the prefixes. An `Err` means that memory ran out, or that `watch` called it
    /// off.
    fn has_many_under<W: Watch>(
        &self,
        alloc: Global,
        prefixes: &Prefixes,
        most: usize,
        watch: &mut W,
    ) -> Result<bool, Unanswered>
        ensures { IfErr result (IsCalledOffOnlyIf (W.has_said_no watch.new)) }
    {
        if self.numbers.len() < most {
            return Ok(false);
        }
        let mut left = most;
        for prefix in prefixes.texts() {
            let count = self.count_under(alloc, prefix.as_slice(), left, watch)?;
            if count >= left {
                return Ok(true);
            }
            left -= count;
        }
        Ok(false)
    }

    /// About how many names begin with the prefix, up to `most`: one name in each `STRIDE` shows it. A prefix under which fewer
    /// are counts as one, since it has to be looked for. An `Err` means that memory ran out, or that `watch` called it off.
    fn count_under<W: Watch>(
        &self,
        alloc: Global,
        prefix: &[u8],
        most: usize,
        watch: &mut W,
    ) -> Result<usize, Unanswered>
        ensures { IfErr result (IsCalledOffOnlyIf (W.has_said_no watch.new)) }
    {
        if prefix.is_empty() {
            return Ok(self.numbers.len());
        }
        ask(watch)?;
        let mut pace = Pace::each(DOCUMENTS / STRIDE);
        let Some(first) = first_under(alloc, prefix)? else {
            return Ok(1);
        };
        let mut names = self.numbers.range((first.as_ref(), Bound::Unbounded));
        for stride in 0..most / STRIDE {
            pace.look(watch)?;
            match names.nth(STRIDE - 1) {
                Some((name, _)) if name.as_bytes().starts_with(prefix) => {}
                _ => return Ok(stride * STRIDE + 1),
            }
        }
        Ok(most)
    }

    /// The documents whose numbers are in the list and whose names begin with one of the prefixes, up to `most`: each number is
    /// looked up, and then the documents are sorted by name.
    fn few<W: Watch>(
        &self,
        alloc: Global,
        chosen: &posting::List,
        prefixes: &Prefixes,
        most: usize,
        watch: &mut W,
    ) -> Result<Vec<SharedDocument>, Unanswered>
        ensures documents { IfOk result (λ shared. AreFirstInNameOrder most (filter (is_chosen chosen.now.members prefixes.now) self.now.documents)
            (documents_shared shared.items)) }
        ensures called_off { IfErr result (IsCalledOffOnlyIf (W.has_said_no watch.new)) }
    {
        let _ = &self.version;
        let mut shared = self.numbered(alloc, chosen, prefixes, watch)?;
        sort_by_name(alloc, &mut shared, watch)?;
        shared.truncate(most);
        Ok(shared)
    }

    /// The allocator of what it keeps.
    pub(crate) fn allocator(&self) -> Global {
        *self.store.slots.allocator()
    }

    /// Another handle to the body of a content that is the same as this one, if the hints lead to it.
    pub(crate) fn held_like(&self, body: &Body) -> Option<Analysed>
        ensures { IfSome result (λ held. held ≡ body.now) }
    {
        let number = self.hints.get(&hash_of(body.as_bytes())).copied()?;
        let occupant = occupant_at(&self.store.slots, number)?;
        if occupant.held.body().as_bytes() != body.as_bytes() {
            return None;
        }
        occupant.held.share().ok()
    }

    /// The documents whose numbers are in the list and whose names begin with one of the prefixes, in the order of their
    /// numbers.
    fn numbered<W: Watch>(
        &self,
        alloc: Global,
        chosen: &posting::List,
        prefixes: &Prefixes,
        watch: &mut W,
    ) -> Result<Vec<SharedDocument>, Unanswered>
        ensures documents { IfOk result (λ shared. documents_shared shared.items
            ≡ filter (is_under_any prefixes.now) (documents_numbered self.now.documents chosen.now.members)) }
        ensures rising { IsStrictlyIncreasing chosen.now.members }
        ensures called_off { IfErr result (IsCalledOffOnlyIf (W.has_said_no watch.new)) }
    {
        let numbers = chosen.numbers();
        let mut shared = Vec::with_capacity(alloc, chosen.len())?;
        let mut pace = Pace::each(DOCUMENTS);
        let mut near = 0;
        for number in numbers {
            pace.look(watch)?;
            self.add_if_under(number, &mut near, prefixes, &mut shared, &mut pace, watch)?;
        }
        Ok(shared)
    }

    /// Adds the documents that have this number, whose slot may be at the place `near`, and whose names begin with one of the prefixes.
    fn add_if_under<W: Watch>(
        &self,
        number: u32,
        near: &mut usize,
        prefixes: &Prefixes,
        shared: &mut Vec<SharedDocument>,
        pace: &mut Pace,
        watch: &mut W,
    ) -> Result<(), Unanswered>
        ensures documents { OnOk result (documents_shared shared.new.items
            ≡ documents_shared shared.old.items ++ filter (is_under_any prefixes.now) (document_numbered self.now.documents number)) }
        ensures called_off { IfErr result (IsCalledOffOnlyIf (W.has_said_no watch.new)) }
    {
        let Some(occupant) = occupant_near(&self.store.slots, near, number) else {
            return Ok(());
        };
        match self.groups.get(&number) {
            Some(names) => {
                add_named(names, number, &occupant.held, prefixes, shared, pace, watch)
            }
            None => Ok(add_one(&occupant.name, number, &occupant.held, prefixes, shared)?),
        }
    }

    /// The documents whose numbers are in the list, of which there are `count`, and whose names begin with one of the prefixes, found
    /// among those of each prefix in turn, until there are `most`.
    fn many<W: Watch>(
        &self,
        alloc: Global,
        chosen: &posting::List,
        count: usize,
        prefixes: &Prefixes,
        most: usize,
        watch: &mut W,
    ) -> Result<Vec<SharedDocument>, Unanswered>
        ensures documents { IfOk result (λ shared. AreFirstInNameOrder most (filter (is_chosen chosen.now.members prefixes.now) self.now.documents)
            (documents_shared shared.items)) }
        ensures called_off { IfErr result (IsCalledOffOnlyIf (W.has_said_no watch.new)) }
    {
        // the names rise, as is known of what goes through them
        let _in_order = self.numbers.iter();
        let among = chosen.lookup(alloc, watch)?;
        let mut shared = Vec::new(alloc);
        for prefix in prefixes.texts() {
            if shared.len() < most {
                let left = most - shared.len();
                let part = self.under(alloc, &among, prefix.as_slice(), count, left, watch)?;
                shared = joined(shared, part)?;
            }
        }
        Ok(shared)
    }

    /// The documents whose numbers are among these, of which there are `count`, and whose names begin with the prefix, in the
    /// order of their names, until there are `most`.
    fn under<W: Watch>(
        &self,
        alloc: Global,
        among: &Lookup,
        prefix: &[u8],
        count: usize,
        most: usize,
        watch: &mut W,
    ) -> Result<Vec<SharedDocument>, Unanswered>
        ensures documents { IfOk result (λ shared. AreFirstInNameOrder most (filter (is_picked among.now prefix.now) self.now.documents)
            (documents_shared shared.items)) }
        ensures called_off { IfErr result (IsCalledOffOnlyIf (W.has_said_no watch.new)) }
    {
        let _ = &self.version;
        ask(watch)?;
        match first_under(alloc, prefix)? {
            Some(first) => {
                // most prefixes leave few of them
                let room = if prefix.is_empty() {
                    most.min(count)
                } else {
                    0
                };
                let shared = Vec::with_capacity(alloc, room)?;
                self.under_from(among, prefix, &first, shared, most, watch)
            }
            None => Ok(Vec::new(alloc)),
        }
    }

    /// The same, found among all documents in the order of their names, from `first` on, and put into this empty vector.
    fn under_from<W: Watch>(
        &self,
        among: &Lookup,
        prefix: &[u8],
        first: &Bound<Name>,
        room: Vec<SharedDocument>,
        most: usize,
        watch: &mut W,
    ) -> Result<Vec<SharedDocument>, Unanswered>
        requires first { IsFirstUnder prefix.now first.now }
        requires empty { room.items ≡ [] }
        ensures documents { IfOk result (λ shared. AreFirstInNameOrder most (filter (is_picked among.now prefix.now) self.now.documents)
            (documents_shared shared.items)) }
        ensures called_off { IfErr result (IsCalledOffOnlyIf (W.has_said_no watch.new)) }
    {
        let mut shared = room;
        let mut pace = Pace::each(DOCUMENTS);
        // documents that came one after the other have slots side by side
        let mut near = 0;
        for (name, number) in self.numbers.range((first.as_ref(), Bound::Unbounded)) {
            pace.look(watch)?;
            if shared.len() >= most {
                return Ok(shared);
            }
            if !name.as_bytes().starts_with(prefix) {
                return Ok(shared);
            }
            if among.has(*number) {
                self.add(name, *number, &mut near, &mut shared)?;
            }
        }
        Ok(shared)
    }

    /// Adds the document with this name, which has the content with this number. Its slot may be at the place `near`.
    fn add(
        &self,
        name: &Name,
        number: u32,
        near: &mut usize,
        shared: &mut Vec<SharedDocument>,
    ) -> Result<(), AllocError>
        requires { number_of name.now self.now.documents ≡ Some number }
        ensures { OnOk result (documents_shared shared.new.items
            ≡ documents_shared shared.old.items ++ document_named self.now.documents name.now) }
    {
        let Some(occupant) = occupant_near(&self.store.slots, near, number) else {
            return Err(AllocError);
        };
        push_document(name, number, &occupant.held, shared)
    }
}

/// The name from which on a copy goes on, if that begins with `from`, and otherwise `from`.
fn first_left<'a>(copied: &'a Option<Name>, from: &'a Name) -> &'a Name {
    match copied {
        Some(next) if next.as_bytes().starts_with(from.as_bytes()) => next,
        _ => from,
    }
}

/// The documents of both, the first ones first.
fn joined(
    first: Vec<SharedDocument>,
    later: Vec<SharedDocument>,
) -> Result<Vec<SharedDocument>, AllocError>
    ensures { IfOk result (λ both. both.items ≡ first.items ++ later.items) }
{
    if first.as_slice().is_empty() {
        return Ok(later);
    }
    let mut both = first;
    let mut rest = later;
    both.append(&mut rest)?;
    Ok(both)
}

/// From where on the names stand that begin with the prefix; nothing if no name can begin with it. An `Err` means that
/// memory ran out.
fn first_under(alloc: Global, prefix: &[u8]) -> Result<Option<Bound<Name>>, AllocError>
    ensures some { IfOk result (λ found. IfSome found (IsFirstUnder prefix.now)) }
    ensures none { IfOk result (λ found. IfNone found ((name : List ℕ) → IsName name → begins_with prefix.now name ≡ false)) }
{
    match Name::within(alloc, prefix, MAX_NAME) {
        Ok(name) => Ok(Some(Bound::Included(name))),
        Err(NameError::Empty) => Ok(Some(Bound::Unbounded)),
        Err(NameError::TooLong) => Ok(None),
        Err(NameError::BadByte) => Ok(None),
        Err(NameError::OutOfMemory) => Err(AllocError),
    }
}

/// The number of a document whose name begins with the prefix, if there is one, where none is above `greatest`. It is that of the
/// first or of the last one of these in the order of names, whichever is nearer to an end of the sets: documents mostly come in the
/// order of their names, and a number near an end is found at once. If memory runs out, it is that of the first one.
fn number_under(
    alloc: Global,
    numbers: &BTreeMap<Name, u32>,
    prefix: &Name,
    greatest: u32,
) -> Option<u32>
    ensures some { IfSome result (λ number. (name : List ℕ) × (begins_with prefix.now name ≡ true)
        × (get (slice_cmp nat_cmp) numbers.now name ≡ Some number)) }
    ensures none { IfNone result ((name : List ℕ) → begins_with prefix.now name ≡ true → get (slice_cmp nat_cmp) numbers.now name ≡ None) }
{
    let first = first_number_under(numbers, prefix)?;
    match last_number_under(alloc, numbers, prefix) {
        Some(last) if greatest.saturating_sub(last) < first => Some(last),
        _ => Some(first),
    }
}

/// The number that is entered under the last name that begins with the prefix. `None` does not say that there is none: it can also
/// mean that memory ran out, or that no name of this length is behind all of those.
fn last_number_under(alloc: Global, numbers: &BTreeMap<Name, u32>, prefix: &Name) -> Option<u32>
    ensures some { IfSome result (λ number. (name : List ℕ) × (begins_with prefix.now name ≡ true)
        × (get (slice_cmp nat_cmp) numbers.now name ≡ Some number)) }
{
    let text = prefix.as_bytes();
    let Some(end) = end_of_names(alloc, prefix) else {
        return None;
    };
    if prefix.cmp(&end) != Ordering::Less {
        return None;
    }
    let mut names = numbers.range((Bound::Included(prefix), Bound::Excluded(&end)));
    let Some((name, number)) = names.next_back() else {
        return None;
    };
    if !name.as_bytes().starts_with(text) {
        return None;
    }
    Some(*number)
}

/// The number that is entered under the first name that begins with the prefix, if there is one.
fn first_number_under(numbers: &BTreeMap<Name, u32>, prefix: &Name) -> Option<u32>
    ensures some { IfSome result (λ number. (name : List ℕ) × (begins_with prefix.now name ≡ true)
        × (get (slice_cmp nat_cmp) numbers.now name ≡ Some number)) }
    ensures none { IfNone result ((name : List ℕ) → begins_with prefix.now name ≡ true → get (slice_cmp nat_cmp) numbers.now name ≡ None) }
{
    let text = prefix.as_bytes();
    let mut names = numbers.range((Bound::Included(prefix), Bound::Unbounded));
    let Some((name, number)) = names.next() else {
        return None;
    };
    if !name.as_bytes().starts_with(text) {
        return None;
    }
    Some(*number)
}

/// Makes room for a new document, and enters its number under its name. Returns another handle to the name. After an `Err`
/// nothing was entered.
fn enter(
    numbers: &mut BTreeMap<Name, u32>,
    store: &mut Store,
    name: &Name,
    number: u32,
    trigrams: &Trigrams,
) -> Result<Name, AllocError>
    requires { (last : ℕ) × IsStore last store.old }
    ensures documents { stored store.new ≡ stored store.old }
    ensures store { (last : ℕ) → IsStore last store.old → IsStore last store.new }
    ensures name { IfOk result (λ own. (own ≡ name.now) × IsName own) }
    ensures numbers { OnOk result ((q : List ℕ) → get (slice_cmp nat_cmp) numbers.new q
        ≡ (if bytes_eq name.now q then Some number else get (slice_cmp nat_cmp) numbers.old q)) }
    ensures ordered { OnOk result (IsOrdered (slice_cmp nat_cmp) numbers.new) }
    ensures len { OnOk result (btree_map_len numbers.new ≤ btree_map_len numbers.old + 1) }
    ensures err { OnErr result (IsUnchanged numbers.old numbers.new) }
    ensures room { OnOk result ((body : List ℕ) → ListsTrigrams body trigrams.now → HasPlaceFor store.new number body) }
{
    store.make_room(number, trigrams)?;
    let _bytes = name.as_bytes();
    let own = name.share()?;
    numbers.insert(name.share()?, number)?;
    Ok(own)
}

/// Enters the name under a new number, and puts in a content with this number, name and body, which waits if `later` is asked for.
/// After an `Err` nothing was entered.
fn put_content(
    numbers: &mut BTreeMap<Name, u32>,
    store: &mut Store,
    name: &Name,
    number: u32,
    held: Analysed,
    later: bool,
) -> Result<(), AllocError>
    requires store { (last : ℕ) × IsStore last store.old × (last < number) }
    requires bytes { content_bytes (stored store.old) + length held < 2 ^ 64 }
    ensures numbers { OnOk result ((q : List ℕ) → get (slice_cmp nat_cmp) numbers.new q
        ≡ (if bytes_eq name.now q then Some number else get (slice_cmp nat_cmp) numbers.old q)) }
    ensures ordered { OnOk result (IsOrdered (slice_cmp nat_cmp) numbers.new) }
    ensures len { OnOk result (btree_map_len numbers.new ≤ btree_map_len numbers.old + 1) }
    ensures name { OnOk result (IsName name.now) }
    ensures documents { OnOk result (stored store.new ≡ stored store.old ++ document number name.now held ∷ []) }
    ensures store { OnOk result (IsStore number store.new) }
    ensures err { OnErr result (IsUnchanged numbers.old numbers.new) }
    ensures kept { OnErr result (stored store.new ≡ stored store.old) }
    ensures kept_store { OnErr result ((last : ℕ) → IsStore last store.old → IsStore last store.new) }
{
    if later {
        let none = Trigrams::new(*store.slots.allocator(), &[])?;
        let own = enter(numbers, store, name, number, &none)?;
        store.put_later(number, Occupant { name: own, held });
        return Ok(());
    }
    let own = enter(numbers, store, name, number, held.trigrams())?;
    store.put_in(number, Occupant { name: own, held });
    Ok(())
}

/// Enters the name under the number of a content, and among the content's names. After an `Err` nothing was entered.
pub(crate) fn enter_copy(
    numbers: &mut BTreeMap<Name, u32>,
    groups: &mut BTreeMap<u32, BTreeSet<Name>>,
    store: &Store,
    name: &Name,
    number: u32,
) -> Result<(), AllocError>
    requires store { (last : ℕ) × IsStore last store.now }
    requires free { get (slice_cmp nat_cmp) numbers.old name.now ≡ None → has_name groups.old (stored store.now) number name.now ≡ false }
    ensures numbers { OnOk result ((q : List ℕ) → get (slice_cmp nat_cmp) numbers.new q
        ≡ (if bytes_eq name.now q then Some number else get (slice_cmp nat_cmp) numbers.old q)) }
    ensures ordered { OnOk result (IsOrdered (slice_cmp nat_cmp) numbers.new) }
    ensures len { OnOk result (btree_map_len numbers.new ≤ btree_map_len numbers.old + 1) }
    ensures name { OnOk result (IsName name.now) }
    ensures ok { OnOk result (HasNames (with_name number name.now (has_name groups.old (stored store.now))) (stored store.now) groups.old groups.new) }
    ensures err { OnErr result (IsUnchanged numbers.old numbers.new) }
    ensures kept { OnErr result (HasNames (has_name groups.old (stored store.now)) (stored store.now) groups.old groups.new) }
{
    let alloc = *store.slots.allocator();
    let Some(occupant) = occupant_at(&store.slots, number) else {
        return Err(AllocError);
    };
    let _bytes = name.as_bytes();
    let own = name.share()?;
    join(groups, alloc, number, &occupant.name, name)?;
    match numbers.insert(own, number) {
        Ok(_) => return Ok(()),
        Err(_) => {}
    }
    take_back(groups, number, name);
    Err(AllocError)
}

/// Whether so many more names are still counted in 32 bits.
fn has_room(numbers: &BTreeMap<Name, u32>, more: usize) -> bool
    ensures { IsTrue result → btree_map_len numbers.now + more < 2 ^ 32 }
{
    match numbers.len().checked_add(more) {
        Some(count) => count <= u32::MAX as usize,
        None => false,
    }
}

/// Whether it is this number.
fn is_number(found: Option<u32>, number: u32) -> bool
    ensures { result ≡ is_number number found }
{
    match found {
        Some(other) => other == number,
        None => false,
    }
}

/// The name leaves the content with this number, if it has had one. The content goes with its last name; if that is much work and
/// `later` is asked for, its number waits to be taken out of the sets of its trigrams. This takes no memory.
pub(crate) fn leave(
    groups: &mut BTreeMap<u32, BTreeSet<Name>>,
    hints: &mut BTreeMap<u64, u32>,
    store: &mut Store,
    old: Option<u32>,
    name: &Name,
    later: bool,
)
    requires store { (last : ℕ) × IsStore last store.old }
    requires name { IfSome old (λ number. has_name groups.old (stored store.old) number name.now ≡ true) }
    requires groups { AreGroupsOf (stored store.old) groups.old }
    ensures left { IsLeft old name.now (stored store.old) groups.old (stored store.new) groups.new }
    ensures store { (last : ℕ) → IsStore last store.old → IsStore last store.new }
{
    let Some(number) = old else {
        return;
    };
    if part(groups, number, name) {
        return;
    }
    forget(hints, hash_at(&store.slots, number), number);
    store.take_out(number, later);
}

/// The length of the body of the content with this number; 0 if there is none.
pub(crate) fn length_at(slots: &[Slot], number: u32) -> usize
    requires { (last : ℕ) × RiseTo last slots.now }
    ensures { result ≡ length (body_at (documents_in slots.now) number) }
{
    match occupant_at(slots, number) {
        Some(occupant) => occupant.held.body().as_bytes().len(),
        None => 0,
    }
}

/// The hash of the body of the content with this number, if there is one.
fn hash_at(slots: &[Slot], number: u32) -> Option<u64>
    requires { (last : ℕ) × RiseTo last slots.now }
{
    Some(occupant_at(slots, number)?.held.hash())
}

/// Notes the hash of the body that the content with this number has now, and forgets that of the body that it had. If there is no
/// memory for it, it is not noted.
fn change_hint(hints: &mut BTreeMap<u64, u32>, number: u32, old: Option<u64>, new: u64) {
    forget(hints, old, number);
    let _ = hints.insert(new, number);
}

/// Forgets that the content with this number has a body of this hash.
fn forget(hints: &mut BTreeMap<u64, u32>, hash: Option<u64>, number: u32) {
    if let Some(hash) = hash {
        if hints.get(&hash).copied() == Some(number) {
            hints.remove(&hash);
        }
    }
}

/// The number of a content with this body, if the hints lead to one.
fn content_with(hints: &BTreeMap<u64, u32>, slots: &[Slot], held: &Analysed) -> Option<u32>
    requires { (last : ℕ) × RiseTo last slots.now }
    ensures { IfSome result (λ number. option_map (λ d. d.1) (document_at number (documents_in slots.now)) ≡ Some held.now) }
{
    let number = hints.get(&held.hash()).copied()?;
    let occupant = occupant_at(slots, number)?;
    if occupant.held.body().as_bytes() != held.body().as_bytes() {
        return None;
    }
    Some(number)
}

/// A name of the content with this number that begins with the prefix, if there is one.
fn name_under<'a>(
    groups: &'a BTreeMap<u32, BTreeSet<Name>>,
    slots: &'a [Slot],
    number: u32,
    prefix: &Name,
) -> Option<&'a Name>
    requires { (last : ℕ) × RiseTo last slots.now }
    ensures some { IfSome result (λ name. (begins_with prefix.now name.now ≡ true) × (has_name groups.now (documents_in slots.now) number name.now ≡ true)) }
    ensures none { IfNone result ((name : List ℕ) → begins_with prefix.now name ≡ true → has_name groups.now (documents_in slots.now) number name ≡ false) }
{
    if let Some(names) = groups.get(&number) {
        return first_name_under(names, prefix);
    }
    let Some(occupant) = occupant_at(slots, number) else {
        return None;
    };
    if !occupant.name.as_bytes().starts_with(prefix.as_bytes()) {
        return None;
    }
    Some(&occupant.name)
}

/// The first of these names that begins with the prefix, if there is one.
fn first_name_under<'a>(names: &'a BTreeSet<Name>, prefix: &Name) -> Option<&'a Name>
    ensures some { IfSome result (λ name. (begins_with prefix.now name.now ≡ true) × (contains (slice_cmp nat_cmp) names.now name.now ≡ true)) }
    ensures none { IfNone result ((name : List ℕ) → begins_with prefix.now name ≡ true → contains (slice_cmp nat_cmp) names.now name ≡ false) }
{
    let text = prefix.as_bytes();
    let mut found = names.range((Bound::Included(prefix), Bound::Unbounded));
    let Some(name) = found.next() else {
        return None;
    };
    if !name.as_bytes().starts_with(text) {
        return None;
    }
    Some(name)
}

/// Whether the content with this number has one name.
fn is_alone(groups: &BTreeMap<u32, BTreeSet<Name>>, number: u32) -> bool
    ensures { IsTrue result → IsAlone (get nat_cmp groups.now number) }
{
    match groups.get(&number) {
        Some(names) => names.len() == 1,
        None => true,
    }
}

/// How many names the contents with these numbers have, all together. An `Err` means that `watch` called it off.
fn count_names<W: Watch>(
    groups: &BTreeMap<u32, BTreeSet<Name>>,
    chosen: &posting::List,
    watch: &mut W,
) -> Result<usize, Unanswered>
    requires { sum (map (names_count groups.now) chosen.now.members) < 2 ^ 32 }
    ensures count { IfOk result (λ count. count ≡ sum (map (names_count groups.now) chosen.now.members)) }
    ensures called_off { IfErr result (IsCalledOffOnlyIf (W.has_said_no watch.new)) }
{
    if groups.is_empty() {
        return Ok(chosen.len());
    }
    let numbers = chosen.numbers();
    let mut count = 0;
    let mut pace = Pace::each(DOCUMENTS);
    for number in numbers {
        pace.look(watch)?;
        let names = names_of(groups, number);
        count += names;
    }
    Ok(count)
}

/// How many names the content with this number has.
fn names_of(groups: &BTreeMap<u32, BTreeSet<Name>>, number: u32) -> usize
    ensures { result ≡ names_count groups.now number }
{
    match groups.get(&number) {
        Some(names) => names.len(),
        None => 1,
    }
}

/// Adds a document with this number and body for each of these names that begins with one of the prefixes.
fn add_named<W: Watch>(
    names: &BTreeSet<Name>,
    number: u32,
    held: &Analysed,
    prefixes: &Prefixes,
    shared: &mut Vec<SharedDocument>,
    pace: &mut Pace,
    watch: &mut W,
) -> Result<(), Unanswered>
    ensures documents { OnOk result (documents_shared shared.new.items
        ≡ documents_shared shared.old.items ++ filter (is_under_any prefixes.now) (map (λ name. document number name held.now) names.now.keys)) }
    ensures called_off { IfErr result (IsCalledOffOnlyIf (W.has_said_no watch.new)) }
{
    for name in names.iter() {
        pace.look(watch)?;
        add_one(name, number, held, prefixes, shared)?;
    }
    Ok(())
}

/// Adds a document with this name, number and body, if the name begins with one of the prefixes.
fn add_one(
    name: &Name,
    number: u32,
    held: &Analysed,
    prefixes: &Prefixes,
    shared: &mut Vec<SharedDocument>,
) -> Result<(), AllocError>
    ensures { OnOk result (documents_shared shared.new.items
        ≡ documents_shared shared.old.items ++ filter (is_under_any prefixes.now) (document number name.now held.now ∷ [])) }
{
    if !prefixes.have(name.as_bytes()) {
        return Ok(());
    }
    push_document(name, number, held, shared)
}

/// Adds a document with this name, number and body.
fn push_document(
    name: &Name,
    number: u32,
    held: &Analysed,
    shared: &mut Vec<SharedDocument>,
) -> Result<(), AllocError>
    ensures { OnOk result (documents_shared shared.new.items ≡ documents_shared shared.old.items ++ document number name.now held.now ∷ []) }
{
    shared.push(SharedDocument {
        number,
        name: name.share()?,
        held: held.held()?,
    })?;
    Ok(())
}

/// The first name of the same length that is behind all names that begin with this one, if there is such a name and memory
/// for it. No contract depends on it.
fn end_of_names(alloc: Global, name: &Name) -> Option<Name> {
    let mut bytes = Vec::from_slice(alloc, name.as_bytes()).ok()?;
    let next = match bytes.pop()? {
        126 => 128,
        last => last.checked_add(1)?,
    };
    bytes.push(next).ok()?;
    Name::within(alloc, bytes.as_slice(), MAX_NAME).ok()
}
