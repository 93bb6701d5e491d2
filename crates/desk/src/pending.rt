//! What was accepted since the last publish, and the documents that it leaves.

ghost use Rattle.std.specs.Prelude.{◌≡◌, ◌+◌, ◌<◌, ◌^◌, ◌≤◌, [], length, drop, bytes_eq, nat_lt, IfOk, IfErr, IfSome, OnOk, OnErr};
ghost use Rattle.std.specs.List.{list_any};
ghost use Rattle.prefixes.specs.Under.{begins_with};
ghost use Rattle.documents.specs.declared.command.Command.TheVariants.{Put as put_command};
ghost use Rattle.documents.specs.Documents.{has_long_copy, has_under, is_taken, renamed};
ghost use Rattle.documents.specs.State.{state_of};
ghost use Rattle.versions.specs.Updates.{after, command_of, commands_of};
ghost use Rattle.desk.specs.Private.Puts.{ArePuts, is_long, puts};

use crate::hints::{Hints, hash_of};
use core::slice::from_ref;
use documents::{Body, Held, Name};
use std::alloc::{AllocError, Global};
use std::thread::Threads;
use versions::{Draft, Index, Like, Update};

/// The updates that were accepted since the last publish, and a draft of the documents after the first of them. A put is accepted
/// without the draft, which takes it in later; what is not a put asks what documents there are, so the draft has it at once.
#[derive(Drop)]
pub(crate) struct Pending {
    pub(crate) draft: Draft,
    /// How many updates the draft has.
    pub(crate) done: usize,
    pub(crate) updates: Vec<Update>,
    hints: Hints,
    ghost within: { done ≤ length updates.items },
    ghost puts: { ArePuts (drop done updates.items) },
}

impl Pending {
    ghost use Rattle.desk.specs.Private.Pending.{commands_in, state_after, Adds, IsSettled, Stays};

    /// Nothing, where nothing was published. It takes no memory.
    pub(crate) fn new(alloc: Global) -> Pending
        ensures { (commands_in result ≡ []) × (state_after result ≡ state_of []) }
    {
        Pending {
            draft: Draft::new(alloc),
            done: 0,
            updates: Vec::new(alloc),
            hints: Hints::new(alloc),
        }
    }

    /// The number of updates.
    pub(crate) fn len(&self) -> usize
        ensures { result ≡ length (commands_in self.now) }
    {
        self.updates.len()
    }

    /// Where its memory comes from.
    pub(crate) fn allocator(&self) -> Global {
        *self.updates.allocator()
    }

    /// Whether a document has the name after all updates.
    pub(crate) fn has(&self, name: &Name) -> bool
        ensures { result ≡ is_taken name.now (state_after self.now).documents }
    {
        self.draft.has(name) || is_put(&self.updates[self.done..], name)
    }

    /// Whether the name of some document begins with the prefix after all updates.
    pub(crate) fn has_under(&self, prefix: &Name) -> bool
        ensures { result ≡ has_under prefix.now (state_after self.now).documents }
    {
        self.draft.has_under(prefix) || is_put_under(&self.updates[self.done..], prefix)
    }

    /// Whether the copy of some document would have a name of more than `most` bytes after all updates.
    pub(crate) fn has_long_copy(&self, from: &Name, to: &Name, most: usize) -> bool
        ensures { result ≡ has_long_copy most from.now to.now (state_after self.now).documents }
    {
        self.draft.has_long_copy(from, to, most)
            || is_put_long(&self.updates[self.done..], from, to, most)
    }

    /// Adds the put of this name and body. If the same body is there already, this one is dropped, and that one has one more name. An
    /// `Err` means that memory ran out, and hands them back.
    pub(crate) fn put(&mut self, name: Name, body: Body) -> Result<(), (Name, Body)>
        ensures ok { OnOk result (Adds (put_command name body) self.old self.new) }
        ensures err { OnErr result (Stays self.old self.new) }
        ensures returned { IfErr result (λ r. (r.0 ≡ name) × (r.1 ≡ body)) }
    {
        if self.updates.reserve(1).is_err() {
            return Err((name, body));
        }
        let hash = hash_of(&body);
        let (held, like) = match self.kept(hash, &body) {
            Some((held, like)) => {
                drop(body);
                (held, Some(like))
            }
            None => match Held::new(body) {
                Ok(held) => (held, None),
                Err(refused) => return Err((name, refused.body)),
            },
        };
        if let Some(noted) = self.noted(&name, &like) {
            self.hints.note(hash, noted, &self.draft);
        }
        self.updates.push_reserved(Update::Put(name, held, like));
        Ok(())
    }

    /// Another handle to a body that is there and is the same as this one, and where it is, if the hints lead to one.
    fn kept(&self, hash: u64, body: &Body) -> Option<(Held, Like)>
        ensures { IfSome result (λ kept. kept.0 ≡ body.now) }
    {
        let like = self.hints.get(hash)?;
        let held = self.placed(like)?;
        if held.body().as_bytes() != body.as_bytes() {
            return None;
        }
        let held = held.share().ok()?;
        let name = like.name.share().ok()?;
        let (version, number) = (like.version, like.number);
        Some((
            held,
            Like {
                name,
                version,
                number,
            },
        ))
    }

    /// The body where the hint says, if there is one: that of a put which the draft lacks, or else the one under the name.
    fn placed(&self, like: &Like) -> Option<&Held> {
        let waiting = &self.updates[self.done..];
        if like.version >= self.draft.version() {
            let at = (like.version - self.draft.version()) as usize;
            if let Some(Update::Put(_, held, _)) = waiting.get(at) {
                return Some(held);
            }
        }
        self.draft.held(&like.name)
    }

    /// Where the body of the next put is then, if it is put under this name, and now is where the other hint says, or nowhere.
    fn noted(&self, name: &Name, like: &Option<Like>) -> Option<Like> {
        let name = name.share().ok()?;
        let waiting = u32::try_from(self.updates.len() - self.done).ok()?;
        let version = self.draft.version().checked_add(waiting)?;
        let number = match like {
            Some(like) => like.number,
            None => version,
        };
        Some(Like {
            name,
            version,
            number,
        })
    }

    /// Adds an update, which the draft takes in at once. An `Err` means that memory ran out, or that something has too many handles.
    pub(crate) fn add(&mut self, update: Update) -> Result<(), AllocError>
        requires { (state_after self.old).version + 1 < 2 ^ 32 }
        ensures ok { OnOk result (Adds (command_of update) self.old self.new) }
        ensures err { OnErr result (Stays self.old self.new) }
    {
        self.settle()?;
        self.updates.reserve(1)?;
        self.draft = self.draft.after(from_ref(&update))?;
        self.updates.push_reserved(update);
        self.done = self.updates.len();
        Ok(())
    }

    /// Has the draft take in all updates. An `Err` is as that of `add`.
    pub(crate) fn settle(&mut self) -> Result<(), AllocError>
        requires { (state_after self.old).version < 2 ^ 32 }
        ensures same { Stays self.old self.new }
        ensures ok { OnOk result (IsSettled self.new) }
    {
        if self.done < self.updates.len() {
            self.draft = self.draft.after(&self.updates[self.done..])?;
            self.done = self.updates.len();
        }
        Ok(())
    }

    /// The documents after all updates, as an index that can be searched. Bodies that are in no index yet are analysed, in up to
    /// `threads` threads. An `Err` is as that of `add`.
    pub(crate) fn whole<R: Threads + Sync>(
        &mut self,
        rt: &R,
        threads: usize,
    ) -> Result<Index, AllocError>
        requires { IsSettled self.old }
        ensures same { Stays self.old self.new }
        ensures settled { IsSettled self.new }
        ensures ok { IfOk result (λ index. index ≡ state_after self.old) }
    {
        self.draft.whole(rt, threads)
    }

    /// Forgets the updates, once they are published.
    pub(crate) fn clear(&mut self)
        requires { IsSettled self.old }
        ensures none { commands_in self.new ≡ [] }
        ensures state { state_after self.new ≡ state_after self.old }
    {
        self.updates = Vec::new(self.allocator());
        self.done = 0;
    }
}

/// Whether one of the updates puts a document with this name.
fn is_put(updates: &[Update], name: &Name) -> bool
    ensures { result ≡ list_any (puts (λ other. bytes_eq other name.now)) updates.now }
{
    updates.iter().any(|update| puts_name(update, name))
}

fn puts_name(update: &Update, name: &Name) -> bool
    ensures { result ≡ puts (λ other. bytes_eq other name.now) update.now }
{
    match update {
        Update::Put(other, _, _) => other.as_bytes() == name.as_bytes(),
        _ => false,
    }
}

/// Whether one of the updates puts a document whose name begins with the prefix.
fn is_put_under(updates: &[Update], prefix: &Name) -> bool
    ensures { result ≡ list_any (puts (begins_with prefix.now)) updates.now }
{
    updates.iter().any(|update| puts_under(update, prefix))
}

fn puts_under(update: &Update, prefix: &Name) -> bool
    ensures { result ≡ puts (begins_with prefix.now) update.now }
{
    match update {
        Update::Put(name, _, _) => begins(name, prefix),
        _ => false,
    }
}

/// Whether one of the updates puts a document whose name begins with `from`, and has more than `most` bytes with `to` in its place.
fn is_put_long(updates: &[Update], from: &Name, to: &Name, most: usize) -> bool
    ensures { result ≡ list_any (puts (is_long most from.now to.now)) updates.now }
{
    updates
        .iter()
        .any(|update| puts_long(update, from, to, most))
}

fn puts_long(update: &Update, from: &Name, to: &Name, most: usize) -> bool
    ensures { result ≡ puts (is_long most from.now to.now) update.now }
{
    match update {
        Update::Put(name, _, _) => begins(name, from) && is_long_copy(name, from, to, most),
        _ => false,
    }
}

/// Whether the name, which begins with `from`, has more than `most` bytes with `to` in its place.
fn is_long_copy(name: &Name, from: &Name, to: &Name, most: usize) -> bool
    ensures { result ≡ nat_lt most (length (renamed from.now to.now name.now)) }
{
    let rest = name.as_bytes().len().saturating_sub(from.as_bytes().len());
    to.as_bytes().len() + rest > most
}

/// Whether the name begins with the prefix.
fn begins(name: &Name, prefix: &Name) -> bool
    ensures { result ≡ begins_with prefix.now name.now }
{
    name.as_bytes().starts_with(prefix.as_bytes())
}
