//! The script, from a file or from standard input.

ghost use Rattle.std.specs.Prelude.{◌≡◌, ◌⊎◌, IfOk, IfErr};
ghost use Rattle.std.specs.IoError.{error_kind};
ghost use Rattle.program.specs.Reads.{IsScriptFrom};
ghost use Rattle.program.specs.Response.{IsFaultOfInput};

use crate::disk::{Disk, read_at_most, read_path};
use crate::error::ProgramError;
use crossbeam_channel::{Receiver, Sender, bounded};
use script::MAX_SCRIPT;
use std::alloc::{AllocError, Global};
use std::io::{self, ErrorKind, Read};
use std::sync::Wait;

/// Reads the script from the file at the path `file`, or from `input` if there is no path. If the script has over
/// `MAX_SCRIPT` bytes, only one byte more than that is read.
///
/// `OutOfMemory` means that memory ran out, and `CannotRead` that the file cannot be opened or that the reading
/// fails.
pub fn read_script<D: Disk, I: Read + Drop>(
    alloc: Global,
    disk: &D,
    file: Option<&str>,
    input: I,
) -> Result<Vec<u8>, ProgramError>
    ensures script { IfOk result (λ script. IsScriptFrom (D.opens disk.now) (I.remaining input) file.entry script.items) }
    ensures fault { IfErr result IsFaultOfInput }
{
    let most = MAX_SCRIPT as u64 + 1;
    let read = match file {
        Some(path) => read_path(alloc, disk, path, 0, most),
        None => read_at_most(alloc, input, 0, most),
    };
    match read {
        Ok(script) => Ok(script),
        Err(error) => Err(fault_of_script(alloc, file, &error)),
    }
}

/// The program's error for one that it met while it opened or read the script: `CannotRead`, or `OutOfMemory` if
/// memory ran out in the reading or for the text.
pub fn fault_of_script(alloc: Global, file: Option<&str>, error: &io::Error) -> ProgramError
    ensures memory { error_kind error.now ≡ ErrorKind.OutOfMemory → result ≡ ProgramError.OutOfMemory }
    ensures fault { IsFaultOfInput result }
{
    if error.kind() == ErrorKind::OutOfMemory {
        return ProgramError::OutOfMemory;
    }
    match text_of_fault(alloc, file.unwrap_or("standard input"), error) {
        Ok(text) => ProgramError::CannotRead(text),
        Err(_) => ProgramError::OutOfMemory,
    }
}

/// The name and the reason, as `a.script: No such file or directory`.
fn text_of_fault(alloc: Global, name: &str, error: &io::Error) -> Result<String, AllocError> {
    let text = format!(in alloc; "{error}")?;
    let reason = without_number(text.as_str());
    Ok(format!(in alloc; "{name}: {reason}")?)
}

/// The text of an error without the number that an error of the system has at its end.
fn without_number(text: &str) -> &str {
    match text.split_once(" (os error ") {
        Some((reason, _)) => reason,
        None => text,
    }
}

/// A reader that tells the error that ends it, so that it can be shown. An interrupted read does not end it.
#[derive(Drop)]
pub struct Noted<R, I> {
    rt: R,
    reader: I,
    errors: Sender<io::Error>,
}

impl<R: Wait + Drop, I: Read + Drop> Noted<R, I> {
    /// The reader, and where its error comes. An `Err` means that memory ran out.
    pub fn new(
        rt: R,
        alloc: Global,
        reader: I,
    ) -> Result<(Noted<R, I>, Receiver<io::Error>), AllocError>
        ensures { IfOk result (λ noted. noted.0.reader ≡ reader) }
    {
        let (errors, met) = bounded(alloc, 1)?;
        let noted = Noted { rt, reader, errors };
        Ok((noted, met))
    }
}

impl<R: Wait, I: Read> Read for Noted<R, I> {
    ghost remaining = { λ noted. I.remaining noted.reader };

    fn read(&mut self, buf: &mut [u8]) -> io::Result<usize> {
        let read = self.reader.read(buf);
        if let Err(error) = &read {
            if error.kind() != ErrorKind::Interrupted {
                let _ = self.errors.try_send(&self.rt, *error);
            }
        }
        read
    }
}
