//! The names of the documents after all accepted commands.

ghost use Rattle.std.specs.Prelude.{◌≡◌, ℕ, List, [], ◌∷◌, ◌++◌, Bool, false, not, ◌&&◌, ◌||◌, true, length, nat_lt, IfOk, OnOk, OnErr, bytes_eq};
ghost use Rattle.prefixes.specs.Under.{begins_with};
ghost use Rattle.std.specs.List.{list_any};
ghost use Rattle.published.specs.Private.Names.{has_name, has_long_copy, has_name_under, is_one_of, names_under, new_copies};
ghost use Rattle.documents.specs.Documents.{renamed};

use documents::Name;
use std::alloc::{AllocError, Global};
use std::collections::BTreeSet;
use std::ops::Bound;

/// A set of names.
#[derive(Drop)]
pub struct Names {
    names: BTreeSet<Name>,
    alloc: Global,
}

impl Names {
    /// The set with no name.
    pub(crate) fn new(alloc: Global) -> Names
        ensures { (name : List ℕ) → has_name result name ≡ false }
    {
        Names {
            names: BTreeSet::new(alloc),
            alloc,
        }
    }

    /// Whether the name is in the set.
    pub(crate) fn has(&self, name: &Name) -> bool
        ensures { result ≡ has_name self.now name.now }
    {
        self.names.contains(name)
    }

    /// Adds the name, and returns whether it is new. An `Err` means that memory ran out, and changes nothing.
    pub(crate) fn add(&mut self, name: &Name) -> Result<bool, AllocError>
        ensures added { IfOk result (λ added. added ≡ not (has_name self.old name.now)) }
        ensures ok { IfOk result (λ added. (other : List ℕ) → has_name self.new other ≡ (bytes_eq name.now other || has_name self.old other)) }
        ensures err { OnErr result (self.new ≡ self.old) }
    {
        Ok(self.names.insert(name.share()?)?)
    }

    /// Takes the name out of the set. If it is not there, nothing changes.
    pub(crate) fn remove(&mut self, name: &Name)
        ensures { (other : List ℕ) → has_name self.new other ≡ (not (bytes_eq name.now other) && has_name self.old other) }
    {
        self.names.remove(name);
    }

    /// Whether some name in the set begins with the prefix.
    pub(crate) fn has_under(&self, prefix: &Name) -> bool
        ensures { result ≡ has_name_under self.now prefix.now }
    {
        let mut from = self
            .names
            .range((Bound::Included(prefix), Bound::Unbounded));
        match from.next() {
            Some(name) => begins(name, prefix),
            None => false,
        }
    }

    /// Handles to the names in the set that begin with the prefix. An `Err` means that memory ran out, or that a name has too many
    /// handles.
    pub(crate) fn under(&self, prefix: &Name) -> Result<Vec<Name>, AllocError>
        ensures { IfOk result (λ found. found.items ≡ names_under self.now prefix.now) }
    {
        let mut found = Vec::new(self.alloc);
        for name in self
            .names
            .range((Bound::Included(prefix), Bound::Unbounded))
        {
            if !begins(name, prefix) {
                return Ok(found);
            }
            found.push(name.share()?)?;
        }
        Ok(found)
    }

    /// Whether a name in the set that begins with `from` has more than `most` bytes with `to` in its place.
    pub(crate) fn has_long_copy(&self, from: &Name, to: &Name, most: usize) -> bool
        ensures { result ≡ has_long_copy self.now most from.now to.now }
    {
        for name in self.names.range((Bound::Included(from), Bound::Unbounded)) {
            if !begins(name, from) {
                return false;
            }
            if is_long_copy(name, from, to, most) {
                return true;
            }
        }
        false
    }

    /// The names that these get with `to` in place of `from`, but for those in the set. An `Err` means that memory ran out.
    pub(crate) fn new_copies(
        &self,
        names: &[Name],
        from: &Name,
        to: &Name,
    ) -> Result<Vec<Name>, AllocError>
        ensures { IfOk result (λ copies. copies.items ≡ new_copies self.now from.now to.now names.now) }
    {
        let mut copies = Vec::new(self.alloc);
        for at in 0..names.len() {
            self.add_copy(&mut copies, &names[at], from, to)?;
        }
        Ok(copies)
    }

    /// Adds the name with `to` in place of `from` to the copies, unless it is in the set. An `Err` means that memory ran out.
    fn add_copy(
        &self,
        copies: &mut Vec<Name>,
        name: &Name,
        from: &Name,
        to: &Name,
    ) -> Result<(), AllocError>
        ensures { OnOk result (copies.new.items ≡ copies.old.items ++ new_copies self.now from.now to.now (name.now ∷ [])) }
    {
        let Some(copy) = name.with_beginning(self.alloc, from.as_bytes().len(), to) else {
            return Err(AllocError);
        };
        if self.has(&copy) {
            return Ok(());
        }
        copies.push(copy)?;
        Ok(())
    }

    /// Adds these names, which are not in the set. An `Err` means that memory ran out, and changes nothing.
    pub(crate) fn add_all(&mut self, names: &[Name]) -> Result<(), AllocError>
        requires { (name : List ℕ) → is_one_of names.now name ≡ true → has_name self.old name ≡ false }
        ensures ok { OnOk result ((other : List ℕ) → has_name self.new other ≡ (is_one_of names.now other || has_name self.old other)) }
        ensures err { OnErr result ((other : List ℕ) → has_name self.new other ≡ has_name self.old other) }
    {
        for at in 0..names.len() {
            match self.add(&names[at]) {
                Ok(_) => {}
                Err(error) => {
                    self.remove_all(&names[..at]);
                    return Err(error);
                }
            }
        }
        Ok(())
    }

    /// Takes these names out of the set.
    pub(crate) fn remove_all(&mut self, names: &[Name])
        ensures { (other : List ℕ) → has_name self.new other ≡ (not (list_any (λ name. bytes_eq name other) names.now) && has_name self.old other) }
    {
        for name in names {
            self.remove(name);
        }
    }
}

/// Whether the name, which begins with `from`, has more than `most` bytes with `to` in its place.
fn is_long_copy(name: &Name, from: &Name, to: &Name, most: usize) -> bool
    ensures { result ≡ nat_lt most (length (renamed from.now to.now name.now)) }
{
    let rest = name.as_bytes().len().saturating_sub(from.as_bytes().len());
    to.as_bytes().len() + rest > most
}

/// Whether the name begins with the prefix.
fn begins(name: &Name, prefix: &Name) -> bool
    ensures { result ≡ begins_with prefix.now name.now }
{
    name.as_bytes().starts_with(prefix.as_bytes())
}
