//! `tsearch`: searches documents by extended regular expressions, as a script says.
//!
//! The program fetches its arguments, does what they ask for, and ends with the status.
#![tactic(auto)]

mod disk;
mod error;
mod files;
mod laws;
mod output;
mod read;
mod response;
mod session;

use cli::not_text;
use disk::HostDisk;
use error::ProgramError;
use files::FileSource;
use response::{report, respond};
use std::env::{self, Env};
use std::io;
use std::process::ExitCode;

/// The program uses so many pieces of its stack, of so many bytes, before its first item. That is a MiB; the highest trees
/// over the longest lines take 0.7.
const PIECES: usize = 16;

const PIECE: usize = 65_536;

fn main(rt: HostRuntime) -> ExitCode {
    let status = match fetch_arguments(&rt) {
        Ok(arguments) if !has_stack(PIECES, arguments.len()) => report(
            &rt,
            &ProgramError::OutOfMemory,
        ),
        Ok(arguments) => {
            let disk = HostDisk::new(&rt);
            let mut source = FileSource::new(&disk);
            let mut out = io::writer(&rt);
            let (status, _) = respond(
                &rt,
                rt.alloc(),
                &arguments,
                &mut source,
                rt.reader(),
                &mut out,
            );
            status
        }
        Err(error) => report(&rt, &error),
    };
    ExitCode::from(status)
}

/// Uses so many pieces of the stack and a further one, so that they are there from now on: later the stack could not grow
/// where no memory is left, and the system would end the process. The result is `true`. It is that of a byte at a place
/// that is known only when the program runs, so no compiler leaves the bytes out, or makes one piece of all of them.
#[cycle(has_stack)]
#[inline(never)]
fn has_stack(pieces: usize, number: usize) -> bool {
    let mut room = [0u8; PIECE];
    room[number % PIECE] = 1;
    let rest = pieces == 0 || has_stack(pieces - 1, number);
    let at = if rest { number / 2 } else { number / 3 };
    room[at % PIECE] < 2
}

/// The arguments of the program. The first one is its name.
///
/// `Arguments` means that an argument is not UTF-8, and `OutOfMemory` that memory ran out.
fn fetch_arguments<R: Env + AllocGlobal>(rt: &R) -> Result<Vec<String>, ProgramError> {
    let arguments = match env::args(rt) {
        Ok(arguments) => arguments,
        Err(error) if error.kind() == io::ErrorKind::OutOfMemory => {
            return Err(ProgramError::OutOfMemory);
        }
        Err(_) => return Err(ProgramError::Arguments(not_text(rt.alloc()))),
    };
    match arguments.collect(rt.alloc()) {
        Ok(arguments) => Ok(arguments),
        Err(_) => Err(ProgramError::OutOfMemory),
    }
}
