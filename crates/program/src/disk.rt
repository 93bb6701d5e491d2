//! Files, by their paths.

ghost use Rattle.std.specs.Prelude.{◌≡◌, ℕ, List, Option, IfOk, IfSome, take};
ghost use Rattle.std.specs.Fs.{IsFile, file_type};
ghost use Rattle.std.specs.declared.fs.attrs.Metadata.{Metadata};
ghost use Rattle.program.specs.Reads.{IsReadFrom};

use std::alloc::Global;
use std::fs;
use std::io::{self, Read};
use std::rt::Files;

/// Opens files by their paths.
pub trait Disk {
    /// A file that is open.
    type File: Read + Drop;

    /// The file at the path has these bytes. `None` means that its bytes are not known.
    ghost opens: { Self → List ℕ → Option (List ℕ) → Type 0 };

    /// A regular file was seen at the path: no folder, pipe or device.
    ghost has_file: { Self → List ℕ → Type 0 };

    /// Opens the file at the path, at its start. An `Err` means that it cannot be opened.
    fn open(&self, path: &str) -> io::Result<Self::File>
        ensures { IfOk result (λ file. opens self.now path.now (Self.File.remaining file)) };

    /// How many bytes the regular file at the path has, or `None` if something else is there: a folder, a pipe or a
    /// device. Nothing is opened, so this never waits for whoever writes into a pipe. An `Err` means that it cannot be
    /// told, since nothing is there or it may not be seen.
    fn file_len(&self, path: &str) -> io::Result<Option<u64>>
        ensures { IfOk result (λ seen. IfSome seen (λ _. has_file self.now path.now)) };
}

/// The files of the machine on which the program runs.
///
/// Contracts know that the bytes are those of a file that was opened, but not which file is at a path. They know that
/// some regular file was seen, but not where.
#[derive(Drop)]
pub struct HostDisk<'a, R> {
    files: &'a R,
}

impl<'a, R> HostDisk<'a, R> {
    /// The files that a runtime opens.
    pub fn new(files: &'a R) -> HostDisk<'a, R>
        ensures { result.files ≡ files.entry }
    {
        HostDisk { files }
    }
}

impl<R: Files> Disk for HostDisk<'_, R> {
    type File = R::File;

    ghost opens = { λ _ _ bytes. (file : R.File) × (R.File.remaining file ≡ bytes) };

    ghost has_file = { λ _ _. (seen : Metadata) × IsFile (file_type seen) };

    fn open(&self, path: &str) -> io::Result<R::File> {
        fs::open(self.files, path)
    }

    fn file_len(&self, path: &str) -> io::Result<Option<u64>> {
        match fs::metadata(self.files, path) {
            Ok(seen) if seen.is_file() => Ok(Some(seen.len())),
            Ok(_) => Ok(None),
            Err(error) => Err(error),
        }
    }
}

/// Reads the file at the path to its end, or its first `most` bytes if it has more. Room is made for `room` bytes
/// first. An `Err` means that the file cannot be opened or read, or that memory ran out.
pub fn read_path<D: Disk>(
    alloc: Global,
    disk: &D,
    path: &str,
    room: usize,
    most: u64,
) -> io::Result<Vec<u8>>
    ensures { IfOk result (λ bytes. IsReadFrom (D.opens disk.now) path.now most bytes.items) }
{
    match disk.open(path) {
        Ok(file) => read_at_most(alloc, file, room, most),
        Err(error) => Err(error),
    }
}

/// Reads a reader to its end, or its first `most` bytes if there are more. Room is made for `room` bytes first, and no
/// more if fewer are read. An `Err` means that the reading failed, or that memory ran out.
pub fn read_at_most<R: Read + Drop>(
    alloc: Global,
    reader: R,
    room: usize,
    most: u64,
) -> io::Result<Vec<u8>>
    ensures { IfSome (R.remaining reader) (λ all. IfOk result (λ bytes. bytes.items ≡ take most all)) }
{
    let mut bytes = Vec::with_capacity(alloc, room)?;
    reader.take(most).read_to_end(&mut bytes)?;
    Ok(bytes)
}
