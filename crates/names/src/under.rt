//! Names under prefixes.

ghost use Rattle.std.specs.Prelude.{◌≡◌, ◌++◌, List, ℕ, true, IfOk};
ghost use Rattle.prefixes.specs.Under.{is_under_one};

use prefixes::Prefixes;
use std::alloc::{AllocError, Global};
use std::marker::Model;

/// Tells which names begin with one of some prefixes.
///
/// Contracts see the prefixes.
#[derive(Drop)]
pub(crate) struct Under<'a> {
    prefixes: &'a Prefixes,
    /// A name that lies in two parts, in one piece.
    name: Vec<u8>,
}

impl<'a> Model for Under<'a> {
    ghost use Rattle.std.specs.Prelude.{List, ℕ};

    ghost Value = { List (List ℕ) };

    ghost view = { λ u. u.prefixes.now };
}

impl<'a> Under<'a> {
    /// Tells which names begin with one of these.
    pub(crate) fn new(alloc: Global, prefixes: &'a Prefixes) -> Under<'a>
        ensures { result ≡ prefixes.entry.now }
    {
        Under {
            prefixes,
            name: Vec::new(alloc),
        }
    }

    /// Whether all names that begin with a text are known to begin with one of the prefixes.
    pub(crate) fn has_all(&self, beginning: &[u8]) -> bool
        ensures { result ≡ true → (rest : List ℕ) → is_under_one self.now (beginning.now ++ rest) ≡ true }
    {
        self.prefixes.have(beginning)
    }

    /// Whether the name of these two parts begins with one of the prefixes, which may be known. An `Err` means that memory ran out.
    pub(crate) fn has(
        &mut self,
        known: bool,
        beginning: &[u8],
        rest: &[u8],
    ) -> Result<bool, AllocError>
        requires { known ≡ true → is_under_one self.old (beginning.now ++ rest.now) ≡ true }
        ensures same { self.new ≡ self.old }
        ensures answer { IfOk result (λ answer. answer ≡ is_under_one self.old (beginning.now ++ rest.now)) }
    {
        if known {
            return Ok(true);
        }
        if self.prefixes.is_empty() {
            return Ok(false);
        }
        self.name.clear();
        self.name.extend_from_slice(beginning)?;
        self.name.extend_from_slice(rest)?;
        Ok(self.prefixes.have(self.name.as_slice()))
    }
}
