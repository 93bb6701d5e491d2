//! The name of an opening, in types.

use std::marker::Brand;

/// Which opening a value belongs to, for the proofs. Each call that opens a service picks it (`Brand`).
pub trait Naming {
    ghost use Rattle.logbook.specs.Pages.{Book};

    ghost book: { Book };
}

impl Naming for Brand {
    ghost book = { record { number = 0; log_name = 0; cells_name = 0 } };
}
