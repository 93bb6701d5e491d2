//! The item `find`.

ghost use Rattle.std.specs.Prelude.{◌≢◌, IfErr, IfOk};
ghost use Rattle.request.specs.Faults.{IsFirstFault};
ghost use Rattle.request.specs.Find.{HasNoFind, IsFindOf, SpellsFind};
ghost use Rattle.request.specs.Private.Kept.{shown_settings};
ghost use Rattle.request.specs.Shown.{shown_options};

use crate::fault::FindFault;
use crate::options::{FindOptions, options_of};
use crate::settings::{Earlier, Setting, take_setting};
use crate::words::cut_word;
use std::alloc::Global;

/// What a `find` asks for.
#[derive(Debug, Drop)]
pub struct Find<'t> {
    /// Its options.
    pub options: FindOptions<'t>,
    /// Its pattern, not read yet.
    pub pattern: &'t [u8],
}

/// Reads what follows `find ` in its line: options in any order, the word `--`, and the pattern, which can have spaces.
///
/// A word ends at a space, so two spaces have an empty word between them. Each option can be there once, `-n` and `-N`
/// up to 16 times, and `--under` and `--not-under` up to 4,096 times. Of `-l`, `-c`, `-q`, `-C`, `--column` and `--spans` only one can be there, and `-v` with neither
/// `--column` nor `--spans`. What follows `-n` and `-N` is the next word, whatever it is; a number is one or more
/// decimal digits. (This program's own language.)
///
/// An `Err` is the first fault from the left. `OutOfMemory` says nothing about the text. Memory is taken from `alloc`,
/// for the settings while they are read and for the tests of names.
pub fn read_find<'t>(alloc: Global, text: &'t [u8]) -> Result<Find<'t>, FindFault<'t>>
    ensures find { IfOk result (λ find. IsFindOf text.now (shown_options find.options) find.pattern.now) }
    ensures refused { IfErr result (λ fault. fault ≢ FindFault.OutOfMemory → HasNoFind text.now) }
    ensures fault { IfErr result (λ fault. fault ≢ FindFault.OutOfMemory → IsFirstFault text.now fault) }
{
    let read = read_settings(alloc, text)?;
    let options = options_of(alloc, &read.settings)?;
    Ok(Find {
        options,
        pattern: read.pattern,
    })
}

/// The settings of a `find`, and its pattern.
#[derive(Debug, Drop)]
struct Read<'t> {
    settings: Vec<Setting<'t>>,
    pattern: &'t [u8],
}

/// Reads the settings before the pattern, and the pattern.
fn read_settings<'t>(alloc: Global, text: &'t [u8]) -> Result<Read<'t>, FindFault<'t>>
    ensures ok { IfOk result (λ read. SpellsFind text.now (shown_settings read.settings.items) read.pattern.now) }
    ensures err { IfErr result (λ fault. fault ≢ FindFault.OutOfMemory → IsFirstFault text.now fault) }
{
    let mut earlier = Earlier::none(alloc);
    let mut left = text;
    loop {
        let cut = cut_word(left);
        if cut.word == b"--".as_slice() {
            return Ok(Read {
                settings: earlier.settings,
                pattern: cut.after,
            });
        }
        let taken = take_setting(&earlier, left)?;
        earlier.push(taken.setting)?;
        left = taken.rest;
    }
}
