//! Many commands, of which the last puts wait to be entered together.

ghost use Rattle.std.specs.Prelude.{◌≡◌, ◌+◌, ◌<◌, ◌^◌, length, true, IfOk, IfSome};
ghost use Rattle.documents.specs.declared.command.Command.TheVariants.{Put as put_command};
ghost use Rattle.documents.specs.State.{applied};
ghost use Rattle.versions.specs.Updates.{command_of};
ghost use Rattle.versions.specs.Private.Growing.{IsNumberFor, IsPlaced};

use crate::draft::{Draft, next};
use crate::sets::Sets;
use crate::update::{Like, Update};
use documents::{Held, Name};
use names::{Names, Put};
use std::alloc::{AllocError, Global};
use std::marker::Model;

/// The documents that commands leave. The last of these commands are puts that the names lack: they are entered together.
///
/// Contracts see the state after all of them.
#[derive(Drop)]
pub(crate) struct Growing<'a> {
    version: u32,
    analysed: u32,
    names: Names,
    sets: Sets,
    puts: Vec<Put<'a>>,
}

impl<'a> Model for Growing<'a> {
    ghost use Rattle.documents.specs.State.{State, state, state_code};
    ghost use Rattle.versions.specs.Updates.{after};
    ghost use Rattle.versions.specs.Private.Growing.{commands_put, IsGrowing};
    ghost use Rattle.versions.specs.Private.Version.{bodies_of};

    ghost Value = { State };

    ghost coded = { state_code };

    ghost view = { λ g. after (commands_put g.puts.items) (state g.version (bodies_of g.names)) };

    ghost invariant = { λ g. IsGrowing g.version g.analysed g.names g.sets g.puts.items };
}

impl<'a> Growing<'a> {
    /// The documents of a draft.
    pub(crate) fn of(alloc: Global, draft: Draft) -> Growing<'a>
        ensures { result ≡ draft }
    {
        let Draft {
            version,
            analysed,
            names,
            sets,
        } = draft;
        Growing {
            version,
            analysed,
            names,
            sets,
            puts: Vec::new(alloc),
        }
    }

    /// The documents after one more command. An `Err` is as that of `Draft::after`.
    pub(crate) fn with(self, alloc: Global, update: &'a Update) -> Result<Growing<'a>, AllocError>
        requires { self.version + 1 < 2 ^ 32 }
        ensures { IfOk result (λ next. next ≡ applied (command_of update.entry.now) self.entry) }
    {
        match update {
            Update::Put(name, held, like) => self.with_put(name, held, like),
            Update::Remove(name) => Ok(Growing::of(alloc, self.settled()?.remove(name)?)),
            Update::RemoveUnder(prefix) => {
                Ok(Growing::of(alloc, self.settled()?.remove_under(prefix)?))
            }
            Update::CopyUnder(from, to) => {
                Ok(Growing::of(alloc, self.settled()?.copy_under(from, to)?))
            }
        }
    }

    /// The documents after one more put. An `Err` means that memory ran out.
    fn with_put(
        self,
        name: &'a Name,
        held: &'a Held,
        like: &Option<Like>,
    ) -> Result<Growing<'a>, AllocError>
        requires { self.version + 1 < 2 ^ 32 }
        ensures { IfOk result (λ next. next ≡ applied (put_command name.entry.now held.entry.now) self.entry) }
    {
        let Growing {
            version,
            analysed,
            names,
            sets,
            mut puts,
        } = self;
        // its contract says that the body is one
        let _ = held.body().as_bytes();
        let number = number_for(version, &names, &puts, held, like);
        puts.push(Put {
            name: name.as_bytes(),
            number,
            held,
        })?;
        Ok(Growing {
            version,
            analysed,
            names,
            sets,
            puts,
        })
    }

    /// The draft of all commands. An `Err` is as that of `Draft::after`.
    pub(crate) fn settled(self) -> Result<Draft, AllocError>
        requires { self.version < 2 ^ 32 }
        ensures { IfOk result (λ draft. draft ≡ self.entry) }
    {
        let Growing {
            version,
            analysed,
            names,
            sets,
            puts,
        } = self;
        if puts.is_empty() {
            return Ok(Draft::of(version, analysed, names, sets));
        }
        let names = names.with_all(&puts)?;
        next(version + puts.len() as u32, analysed, names, &sets)
    }
}

/// The number of the content that a put of this body makes: that of a content with the same body, if one is where the hint says, and
/// a new one otherwise.
fn number_for(
    version: u32,
    names: &Names,
    puts: &[Put<'_>],
    held: &Held,
    like: &Option<Like>,
) -> u32
    requires { version + length puts.now < 2 ^ 32 }
    ensures { IsNumberFor version names.now puts.now held.now result }
{
    let new = version + puts.len() as u32;
    let Some(like) = like else {
        return new;
    };
    match placed(version, names, puts, like) {
        Some((number, other)) if is_same(other, held) => number,
        _ => new,
    }
}

/// The number and the body of the content where the hint says, if there is one: that of a put that waits, or else the one under the
/// name.
fn placed<'a>(
    version: u32,
    names: &'a Names,
    puts: &[Put<'a>],
    like: &Like,
) -> Option<(u32, &'a Held)>
    ensures { IfSome result (λ found. IsPlaced names.now puts.now found.0 found.1.now) }
{
    if like.version >= version {
        let at = (like.version - version) as usize;
        if at < puts.len() {
            let put = puts[at];
            return Some((put.number, put.held));
        }
    }
    match names.get(like.name.as_bytes()) {
        Some(content) => Some((content.number, &content.held)),
        None => None,
    }
}

/// Whether both bodies are the same.
fn is_same(one: &Held, other: &Held) -> bool
    ensures { result ≡ true → one.now ≡ other.now }
{
    one.body().as_bytes() == other.body().as_bytes()
}
