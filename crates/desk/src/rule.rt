//! The rule under which the two copies are read and exchanged.

use crate::batches::Front;
use crate::shown::Shown;
use atomic_table::{Join, Split};
use crossbeam_utils::rule::{Outcome, Protocol};
use left_right::reader::Reader;
use left_right::writer::Writer;

/// The index is the result of the commands of the front. What a seat has met, if anything, is a front of the
/// same opening.
pub struct Kept;

impl Protocol<Shown, Option<Front>> for Kept {
    ghost use Rattle.std.specs.Prelude.{None};
    ghost use Rattle.desk.specs.Private.Rule.{IsKept};

    ghost holds = { IsKept };

    ghost first = { None };
}

/// The step of a publish and of a look: afterwards the seat has met what is then shown.
pub(crate) struct Meet;

impl Outcome<Shown, Option<Front>> for Meet {
    ghost use Rattle.desk.specs.Private.Rule.{Meets};

    ghost then = { Meets };
}

/// What the writer has met, passed on to a reader.
pub(crate) struct Note;

impl Split<Option<Front>> for Note {
    ghost left = { λ met. met };

    ghost right = { λ met. met };
}

impl Join<Option<Front>> for Note {
    ghost use Rattle.std.specs.Prelude.{None};

    ghost both = { λ met note. note };

    ghost spent = { None };
}

/// What a reading enters a copy with.
pub(crate) type ShownReader = Reader<Shown, Option<Front>, Kept>;

/// Both copies, as `left_right`'s writer keeps them. Of the operations that it can keep, it never has any.
pub(crate) type Both = Writer<Shown, (), Option<Front>, Kept>;
