//! Loads, from files.

ghost use Rattle.std.specs.Prelude.{◌≡◌, ◌≢◌, ◌≤◌, ◌<◌, ◌⊎◌, ◌^◌, ◌+◌, ◌-◌, IfOk, IsErrOf};
ghost use Rattle.std.specs.IoError.{error_kind};
ghost use Rattle.std.specs.Str.{IsUtf8};
ghost use Rattle.program.specs.Reads.{IsLoadFrom, IsReadFrom};

use crate::disk::{Disk, read_path};
use std::alloc::Global;
use std::io::{self, ErrorKind};
use tsearch::{Fault, Source};

/// The files that a script's loads name by their paths, and how often they have failed.
#[derive(Drop)]
pub struct FileSource<'a, D> {
    /// Where the files are.
    pub disk: &'a D,
    /// How long a body may be, in bytes. Of a longer file only one byte more is read.
    pub most_bytes: u32,
    failures: u64,
}

impl<'a, D: Disk> FileSource<'a, D> {
    /// The files of a disk, with no failures yet, and for bodies with no bytes as long as nothing else is asked for.
    pub fn new(disk: &'a D) -> FileSource<'a, D>
        ensures disk { result.disk ≡ disk.entry }
        ensures failures { result.failures ≡ 0 }
    {
        FileSource {
            disk,
            most_bytes: 0,
            failures: 0,
        }
    }

    /// Reads a regular file. If it is longer than a body may be, only one byte more than that is read.
    ///
    /// `OutOfMemory` means that memory ran out, and `Failed` that the path is not UTF-8, that something else than a
    /// regular file is there, which is then not opened, or that the file cannot be opened or read.
    fn read_file(&self, alloc: Global, path: &[u8]) -> Result<Vec<u8>, Fault>
        ensures bytes { IfOk result (λ bytes. IsLoadFrom (D.opens self.now.disk.now) (D.has_file self.now.disk.now)
            self.now.most_bytes path.now bytes.items) }
        ensures no_text { ¬ IsUtf8 path.now → IsErrOf result Fault.Failed }
    {
        let Ok(path) = str::from_utf8(path) else {
            return Err(Fault::Failed);
        };
        match read_regular(alloc, self.disk, self.most_bytes, path) {
            Ok(bytes) => Ok(bytes),
            Err(fault) => Err(fault),
        }
    }
}

/// Reads the file at the path, at most one byte more than a body may have, if a regular file is there.
fn read_regular<D: Disk>(
    alloc: Global,
    disk: &D,
    most_bytes: u32,
    path: &str,
) -> Result<Vec<u8>, Fault>
    ensures { IfOk result (λ bytes. D.has_file disk.now path.now × IsReadFrom (D.opens disk.now) path.now (most_bytes + 1) bytes.items) }
{
    let len = match disk.file_len(path) {
        Ok(Some(len)) => len,
        Ok(None) => return Err(Fault::Failed),
        Err(error) => return Err(fault_of_load(&error)),
    };
    let most = most_bytes as u64 + 1;
    // One byte more, by which the end of the file is met.
    let room = len.min(most).saturating_add(1) as usize;
    match read_path(alloc, disk, path, room, most) {
        Ok(bytes) => Ok(bytes),
        Err(error) => Err(fault_of_load(&error)),
    }
}

/// The fault that a run gets for an error in a load.
fn fault_of_load(error: &io::Error) -> Fault
    ensures memory { error_kind error.now ≡ ErrorKind.OutOfMemory → result ≡ Fault.OutOfMemory }
    ensures other { error_kind error.now ≢ ErrorKind.OutOfMemory → result ≡ Fault.Failed }
{
    if error.kind() == ErrorKind::OutOfMemory {
        Fault::OutOfMemory
    } else {
        Fault::Failed
    }
}

/// How many failures there are after a read, up to the greatest `u64`.
fn failures_after(failures: u64, read: &Result<Vec<u8>, Fault>) -> u64
    ensures counted { failures ≤ result }
    ensures one { result ≤ failures + 1 }
    ensures bound { result < 2 ^ 64 }
    ensures failure { IsErrOf read.now Fault.Failed → (failures < result) ⊎ (result ≡ 2 ^ 64 - 1) }
    ensures no_failure { ¬ IsErrOf read.now Fault.Failed → result ≡ failures }
{
    match read {
        Err(Fault::Failed) => failures.saturating_add(1),
        _ => failures,
    }
}

impl<D: Disk> Source for FileSource<'_, D> {
    ghost holds = { λ source path bytes. IsLoadFrom (D.opens source.disk.now) (D.has_file source.disk.now) source.most_bytes path bytes };

    ghost failed = { λ source. source.failures };

    fn read(&mut self, alloc: Global, path: &[u8]) -> Result<Vec<u8>, Fault> {
        let read = self.read_file(alloc, path);
        self.failures = failures_after(self.failures, &read);
        read
    }

    fn failures(&self) -> u64 {
        self.failures
    }
}
