//! From the arguments to the bytes that are written and the status.

ghost use Rattle.std.specs.Prelude.{◌≡◌, IfOk, IfErr, IfSome, IfNone, IsSome, map, string_bytes};
ghost use Rattle.cli.specs.CommandLine.{AreRefused, IsInLimits};
ghost use Rattle.program.specs.Response.{EndsRun, IsFailure, IsResponse, IsRunOf, lengths_of};

use crate::disk::Disk;
use crate::error::ProgramError;
use crate::files::FileSource;
use crate::output::{show, write_text};
use crate::read::read_script;
use crate::session::serve_session;
use cli::{HELP, Request, Settings, VERSION, read_arguments};
use documents::Lengths;
use std::alloc::Global;
use std::io::{Read, Write};
use std::sync::Wait;
use std::thread::Threads;
use std::time::Clock;
use transcript::status;
use tsearch::run::run;
use tsearch::{Gate, Options, Point};

/// The status if an argument is refused, or the program has no response or cannot write it.
const REFUSED: u8 = 2;

/// Does what the arguments ask for. Returns the status: that of the run or session (0, 1 or 2), 0 for the help and the
/// version, or 2 if the program cannot do what they ask, and then the error too. The first argument is the program's
/// name.
///
/// A run or a session reads its script from the file that the arguments name, or from `input`, and its loads
/// from the files of the source. A run's transcript is written to `out` at its end, the text of a session as its
/// items come, and the help or the version if the arguments ask for that. Nothing else is written.
///
/// If the program cannot do this, it says why on standard error, unless nobody reads its output any more. Nothing is
/// written if the arguments are refused, if the script cannot be read or if the run has no transcript; otherwise a
/// beginning of the text. If standard error fails too, only the status shows it.
#[tactic(auto, using(crate::proofs::ResponseLemmas::refused_have_none))]
pub fn respond<
    R: Eprint + Threads + Wait + Clock + Sync + Send + Copy + Drop + 'static,
    D: Disk,
    I: Read + Drop + Send + 'static,
    O: Write,
>(
    rt: &R,
    alloc: Global,
    arguments: &[String],
    source: &mut FileSource<'_, D>,
    input: I,
    out: &mut O,
) -> (u8, Option<ProgramError>)
where
    D::File: Send + 'static,
    ensures responded { IfNone result.1 (IsResponse (D.opens source.old.disk.now) (D.has_file source.old.disk.now)
        (I.remaining input) source.old.failures source.new.failures (O.contents out.old) (O.contents out.new)
        (map string_bytes arguments.now) result.0) }
    ensures failed { IfSome result.1 (λ error. (result.0 ≡ 2) × IsFailure (D.opens source.old.disk.now) (D.has_file source.old.disk.now)
        (I.remaining input) source.old.failures source.new.failures (O.contents out.old) (O.contents out.new)
        (map string_bytes arguments.now) error) }
    ensures refused { AreRefused (map string_bytes arguments.now) → IsSome result.1 }
{
    match response(rt, alloc, arguments, source, input, out) {
        Ok(status) => (status, None),
        Err(error) => (report(rt, &error), Some(error)),
    }
}

/// Says on standard error why there is no response, and returns the status for that, 2. Nothing is said if nobody reads
/// the output any more.
pub fn report<R: Eprint>(rt: &R, error: &ProgramError) -> u8
    ensures { result ≡ 2 }
{
    // If standard error fails too, only the status shows it.
    let _ = match error {
        ProgramError::Arguments(refused) => rt.eprint(refused),
        ProgramError::OutputClosed => Ok(()),
        other => rt.eprintln(other),
    };
    REFUSED
}

/// Does what the arguments ask for. Returns the status.
#[tactic(auto, using(crate::proofs::OutputLemmas::nothing_written))]
fn response<
    R: Threads + Wait + Clock + Sync + Send + Copy + Drop + 'static,
    D: Disk,
    I: Read + Drop + Send + 'static,
    O: Write,
>(
    rt: &R,
    alloc: Global,
    arguments: &[String],
    source: &mut FileSource<'_, D>,
    input: I,
    out: &mut O,
) -> Result<u8, ProgramError>
where
    D::File: Send + 'static,
    ensures responded { IfOk result (IsResponse (D.opens source.old.disk.now) (D.has_file source.old.disk.now) (I.remaining input)
        source.old.failures source.new.failures (O.contents out.old) (O.contents out.new) (map string_bytes arguments.now)) }
    ensures failed { IfErr result (IsFailure (D.opens source.old.disk.now) (D.has_file source.old.disk.now) (I.remaining input)
        source.old.failures source.new.failures (O.contents out.old) (O.contents out.new) (map string_bytes arguments.now)) }
{
    match read_arguments(alloc, arguments) {
        Ok(Request::Run(settings)) if settings.live => {
            serve_session(rt, alloc, &settings, source, input, out)
        }
        Ok(Request::Run(settings)) => run_script(rt, alloc, &settings, source, input, out),
        Ok(Request::Help) => show(HELP, out),
        Ok(Request::Version) => show(VERSION, out),
        Err(error) => Err(ProgramError::Arguments(error)),
    }
}

/// A gate that is always open: the readers of the program never wait.
#[derive(Clone, Copy)]
pub struct Open;

impl Gate for Open {
    fn turn(&self, _search: u32, _point: Point) {}
}

/// How long names, bodies and lines may be, as the settings say.
pub(crate) fn lengths_of(settings: &Settings<'_>) -> Lengths
    ensures { result ≡ lengths_of settings.now }
{
    Lengths {
        name: settings.max_name as usize,
        body: settings.max_body as usize,
        line: settings.max_line as usize,
    }
}

/// Reads the script, runs it and writes its transcript, and returns the status of the run.
#[tactic(auto, using(crate::proofs::OutputLemmas::nothing_written))]
fn run_script<R: Threads + Wait + Clock + Sync, D: Disk, I: Read + Drop, O: Write>(
    rt: &R,
    alloc: Global,
    settings: &Settings<'_>,
    source: &mut FileSource<'_, D>,
    input: I,
    out: &mut O,
) -> Result<u8, ProgramError>
    requires limits { IsInLimits settings.now }
    ensures run { IfOk result (IsRunOf (D.opens source.old.disk.now) (D.has_file source.old.disk.now) (I.remaining input)
        source.old.failures source.new.failures (O.contents out.old) (O.contents out.new) settings.now) }
    ensures failed { IfErr result (EndsRun (D.opens source.old.disk.now) (D.has_file source.old.disk.now) (I.remaining input)
        source.old.failures source.new.failures (O.contents out.old) (O.contents out.new) settings.now) }
{
    let script = match read_script(alloc, source.disk, settings.file, input) {
        Ok(script) => script,
        Err(error) => return Err(error),
    };
    source.most_bytes = settings.max_body;
    let options = Options {
        readers: settings.readers,
        max_commands: settings.max_commands,
        lengths: lengths_of(settings),
        search_ms: settings.search_ms,
        times: settings.times,
    };
    let transcript = match run(rt, alloc, &script, options, source, &Open) {
        Ok(transcript) => transcript,
        Err(error) => return Err(ProgramError::Run(error)),
    };
    let status = status(&transcript);
    // Without readers, no thread is started.
    let threads = settings.readers as usize + 1;
    match write_text(rt, alloc, threads, transcript, settings.stats, out) {
        Ok(()) => Ok(status),
        Err(error) => Err(error),
    }
}
