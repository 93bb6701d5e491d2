//! The rule under which the two copies are read and exchanged.

use crate::batches::Front;
use crate::shelf::Shelf;
use atomic_table::{Join, Split};
use crossbeam_utils::rule::{Outcome, Protocol};
use left_right::reader::Reader;
use left_right::writer::Writer;

/// The index is the result of the commands of the shelf's front. What a seat has met, if anything, is a front of the
/// shelf's opening.
pub struct Kept;

impl Protocol<Shelf, Option<Front>> for Kept {
    ghost use Rattle.std.specs.Prelude.{None};
    ghost use Rattle.published.specs.Private.Rule.{IsKept};

    ghost holds = { IsKept };

    ghost first = { None };
}

/// The step of a publish and of a search: afterwards the seat has met what is then on the shelf.
pub(crate) struct Meet;

impl Outcome<Shelf, Option<Front>> for Meet {
    ghost use Rattle.published.specs.Private.Rule.{Meets};

    ghost then = { Meets };
}

/// What the writer has met, passed on to a reader.
pub(crate) struct Note;

impl Split<Option<Front>> for Note {
    ghost left = { λ met. met };

    ghost right = { λ met. met };
}

impl Join<Option<Front>> for Note {
    ghost use Rattle.std.specs.Prelude.{None};

    ghost both = { λ met note. note };

    ghost spent = { None };
}

/// What a reading reads a shelf with.
pub(crate) type ShelfReader = Reader<Shelf, Option<Front>, Kept>;

/// Both shelves, as `left_right`'s writer keeps them. Of the operations that it can keep, it never has any.
pub(crate) type Both = Writer<Shelf, (), Option<Front>, Kept>;
