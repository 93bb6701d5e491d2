//! What names begin with.

use crate::pattern::Prepared;

impl Prepared {
    ghost use Rattle.std.specs.Prelude.{◌≡◌, ℕ, IsFalse, List, true};
    ghost use Rattle.prepare.specs.Prepared.{pattern_of};

    /// Whether names are asked for by what they begin with. If not, every name is asked for, as far as that goes.
    pub fn has_prefixes(&self) -> bool
        ensures { IsFalse result → (name : List ℕ) → (pattern_of self.now).within name ≡ true }
    {
        !self.under.is_empty() || !self.not_under.is_empty()
    }

    /// Whether the name is asked for by what it begins with.
    pub fn is_within(&self, name: &[u8]) -> bool
        ensures { result ≡ (pattern_of self.now).within name.now }
    {
        (self.under.is_empty() || self.under.have(name)) && !self.not_under.have(name)
    }
}
