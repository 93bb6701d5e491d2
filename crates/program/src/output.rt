//! Text that is written to standard output.

ghost use Rattle.std.specs.Prelude.{◌≡◌, ◌≢◌, IfOk, IfErr, OnOk, OnErr};
ghost use Rattle.std.specs.Io.KnownBytes.{Appends};
ghost use Rattle.transcript.specs.Transcript.{text_of_transcript};
ghost use Rattle.transcript.specs.Written.{AppendsFront};
ghost use Rattle.program.specs.Response.{IsFaultOfOutput, IsFaultOfText};

use crate::error::ProgramError;
use std::alloc::Global;
use std::io::Write;
use std::thread::Threads;
use transcript::{Transcript, WriteError, flush_whole, write_transcript, write_whole};

/// Writes the text of a transcript, and flushes it. The text of a large answer is formed in up to `threads` threads, if
/// these are two or more.
///
/// `OutOfMemory` means that memory ran out for text, `CannotWrite` that the output failed or took no byte, and
/// `OutputClosed` that nobody reads it any more. A beginning of the text is then written.
#[tactic(auto, using(crate::proofs::OutputLemmas::written_and_kept, crate::proofs::OutputLemmas::whole_and_kept))]
pub fn write_text<R: Threads + Sync, W: Write>(
    rt: &R,
    alloc: Global,
    threads: usize,
    transcript: Transcript,
    stats: bool,
    out: &mut W,
) -> Result<(), ProgramError>
    ensures ok { OnOk result (Appends (W.contents out.old) (W.contents out.new) (text_of_transcript stats transcript.entries.items)) }
    ensures err { OnErr result (AppendsFront (W.contents out.old) (W.contents out.new) (text_of_transcript stats transcript.entries.items)) }
    ensures fault { IfErr result IsFaultOfText }
{
    if let Err(error) = write_transcript(rt, alloc, threads, transcript, stats, out) {
        return Err(fault_of_writing(error));
    }
    match flush_whole(out) {
        Ok(()) => Ok(()),
        Err(error) => Err(fault_of_writing(error)),
    }
}

/// Writes a text, and flushes it. Returns the status, 0.
///
/// `CannotWrite` means that the output failed or took no byte, and `OutputClosed` that nobody reads it any more. A
/// beginning of the text is then written.
#[tactic(auto, using(crate::proofs::OutputLemmas::written_and_kept, crate::proofs::OutputLemmas::whole_and_kept))]
pub fn show<W: Write>(text: &str, out: &mut W) -> Result<u8, ProgramError>
    ensures ok { IfOk result (λ status. (status ≡ 0) × Appends (W.contents out.old) (W.contents out.new) text.now) }
    ensures err { OnErr result (AppendsFront (W.contents out.old) (W.contents out.new) text.now) }
    ensures fault { IfErr result IsFaultOfOutput }
{
    if let Err(error) = write_whole(out, text.as_bytes()) {
        return Err(fault_of_writing(error));
    }
    match flush_whole(out) {
        Ok(()) => Ok(0),
        Err(error) => Err(fault_of_writing(error)),
    }
}

/// The program's error for one that it met while it wrote.
fn fault_of_writing(error: WriteError) -> ProgramError
    ensures closed { error ≡ WriteError.Closed → result ≡ ProgramError.OutputClosed }
    ensures memory { error ≡ WriteError.OutOfMemory → result ≡ ProgramError.OutOfMemory }
    ensures text { IsFaultOfText result }
    ensures output { error ≢ WriteError.OutOfMemory → IsFaultOfOutput result }
{
    match error {
        WriteError::Failed | WriteError::Stopped => ProgramError::CannotWrite,
        WriteError::Closed => ProgramError::OutputClosed,
        WriteError::OutOfMemory => ProgramError::OutOfMemory,
    }
}
