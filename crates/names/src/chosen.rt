//! Names that are chosen by the numbers of their contents.

ghost use Rattle.std.specs.Prelude.{◌≡◌, ◌∷◌, [], List, ℕ, true, OnOk};
ghost use Rattle.prefixes.specs.Under.{is_under_one};
ghost use Rattle.names.specs.Contents.{entry_of};
ghost use Rattle.names.specs.Private.Counted.{AreCounted, Counts};

use crate::content::Named;
use crate::under::Under;
use std::alloc::{AllocError, Global};

/// The names that are chosen.
#[derive(Drop)]
pub struct Chosen<'a> {
    /// How many there are.
    pub count: usize,
    /// Those of them that were asked for, in order.
    pub named: Vec<Named<'a>>,
}

impl<'a> Chosen<'a> {
    /// No names.
    pub(crate) fn none(alloc: Global) -> Chosen<'a>
        ensures { (texts : List (List ℕ)) (most : ℕ) → AreCounted texts most [] result.count result.named.items }
    {
        Chosen {
            count: 0,
            named: Vec::new(alloc),
        }
    }

    /// Counts an entry. It is named too, if fewer than `most` are and its name begins with one of the prefixes, which may be known. An
    /// `Err` means that memory ran out.
    pub(crate) fn add(
        &mut self,
        named: Named<'a>,
        most: usize,
        known: bool,
        under: &mut Under<'_>,
    ) -> Result<(), AllocError>
        requires { known ≡ true → is_under_one under.old (entry_of named).0 ≡ true }
        ensures same { under.new ≡ under.old }
        ensures counts { OnOk result (Counts under.old most (entry_of named.entry ∷ []) self.old self.new) }
    {
        let Some(count) = self.count.checked_add(1) else {
            return Err(AllocError);
        };
        self.count = count;
        if self.named.len() >= most {
            return Ok(());
        }
        if !under.has(known, named.beginning, named.rest)? {
            return Ok(());
        }
        self.named.push(named)?;
        Ok(())
    }
}
