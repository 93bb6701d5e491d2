//! A session, from a file or from standard input.

ghost use Rattle.std.specs.Prelude.{ℕ, List, Option, IfOk, IfErr};
ghost use Rattle.cli.specs.CommandLine.{IsInLimits};
ghost use Rattle.tsearch.specs.Served.{IsServed};
ghost use Rattle.program.specs.Response.{EndsOver, EndsSession, IsFaultOfSession, IsSessionOf, live_options_of};
ghost use Rattle.program.specs.Reads.{IsLoadFrom};

use crate::disk::Disk;
use crate::error::ProgramError;
use crate::files::FileSource;
use crate::read::{Noted, fault_of_script};
use crate::response::{Open, lengths_of};
use cli::Settings;
use std::alloc::Global;
use std::io::{self, BufReader, Read, Write};
use std::sync::Wait;
use std::thread::Threads;
use std::time::Clock;
use tsearch::{LiveError, LiveOptions, serve};

/// Input is read in parts of at most this many bytes.
const INPUT_BUFFER: usize = 65536;

/// Serves a session from the file that the settings name, or from `input` if they name none. Returns its status.
///
/// `CannotRead` means that the file cannot be opened, or that the reading fails, `OutOfMemory` that there was no memory
/// for opening it or for the buffer, `OutputClosed` that nobody reads the output any more, and `Live` that the session
/// ended early for another reason.
#[tactic(auto, using(crate::proofs::OutputLemmas::nothing_written, crate::proofs::SessionLemmas::session_ended))]
pub fn serve_session<
    R: Threads + Wait + Clock + Sync + Send + Copy + Drop + 'static,
    D: Disk,
    I: Read + Drop + Send + 'static,
    O: Write,
>(
    rt: &R,
    alloc: Global,
    settings: &Settings<'_>,
    source: &mut FileSource<'_, D>,
    input: I,
    out: &mut O,
) -> Result<u8, ProgramError>
where
    D::File: Send + 'static,
    requires limits { IsInLimits settings.now }
    ensures served { IfOk result (IsSessionOf (D.opens source.old.disk.now) (D.has_file source.old.disk.now) (I.remaining input)
        source.old.failures source.new.failures (O.contents out.old) (O.contents out.new) settings.now) }
    ensures failed { IfErr result (EndsSession (D.opens source.old.disk.now) (D.has_file source.old.disk.now) (I.remaining input)
        source.old.failures source.new.failures (O.contents out.old) (O.contents out.new) settings.now) }
{
    match settings.file {
        Some(path) => match source.disk.open(path) {
            Ok(file) => serve_reader(rt, alloc, settings, source, file, out),
            Err(error) => Err(fault_of_script(alloc, settings.file, &error)),
        },
        None => serve_reader(rt, alloc, settings, source, input, out),
    }
}

/// Serves a session from a reader.
#[tactic(auto, using(crate::proofs::OutputLemmas::nothing_written))]
fn serve_reader<
    R: Threads + Wait + Clock + Sync + Send + Copy + Drop + 'static,
    D: Disk,
    I: Read + Drop + Send + 'static,
    O: Write,
>(
    rt: &R,
    alloc: Global,
    settings: &Settings<'_>,
    source: &mut FileSource<'_, D>,
    input: I,
    out: &mut O,
) -> Result<u8, ProgramError>
    requires limits { IsInLimits settings.now }
    ensures served { IfOk result (IsServed (live_options_of settings.now)
        (IsLoadFrom (D.opens source.old.disk.now) (D.has_file source.old.disk.now) settings.now.max_body) source.old.failures source.new.failures
        (I.remaining input) (O.contents out.old) (O.contents out.new)) }
    ensures failed { IfErr result (EndsOver (D.opens source.old.disk.now) (D.has_file source.old.disk.now)
        source.old.failures source.new.failures (O.contents out.old) (O.contents out.new) (I.remaining input) settings.now) }
{
    let Ok((noted, met)) = Noted::new(*rt, alloc, input) else {
        return Err(ProgramError::OutOfMemory);
    };
    let reader = match BufReader::with_capacity(alloc, INPUT_BUFFER, noted) {
        Ok(reader) => reader,
        Err(_) => return Err(ProgramError::OutOfMemory),
    };
    source.most_bytes = settings.max_body;
    let options = LiveOptions {
        readers: settings.readers,
        max_commands: settings.max_commands,
        lengths: lengths_of(settings),
        search_ms: settings.search_ms,
        times: settings.times,
        stats: settings.stats,
    };
    match serve(rt, alloc, reader, options, source, out, Open) {
        Ok(status) => Ok(status),
        Err(error) => Err(fault_of_session(alloc, settings.file, error, met.try_recv(rt).ok())),
    }
}

/// The program's error for that of a session, whose input has met this error last.
fn fault_of_session(
    alloc: Global,
    file: Option<&str>,
    error: LiveError,
    met: Option<io::Error>,
) -> ProgramError
    ensures { IsFaultOfSession result }
{
    match (error, met) {
        (LiveError::CannotRead, Some(met)) => fault_of_script(alloc, file, &met),
        (LiveError::OutputClosed, _) => ProgramError::OutputClosed,
        (other, _) => ProgramError::Live(other),
    }
}
