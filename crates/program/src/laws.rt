//! A law of the program. The function does nothing: its clauses are the law.

ghost use Rattle.program.specs.Laws.{LoadsAreOfFiles, ReadsAreOne};

use crate::disk::Disk;

/// What is read from a path is the front of its file, and a load is of a regular file.
pub fn reads_are_one<D: Disk>(_disk: &D)
    ensures read { ReadsAreOne (D.opens _disk.now) }
    ensures load { LoadsAreOfFiles (D.opens _disk.now) (D.has_file _disk.now) }
{}
