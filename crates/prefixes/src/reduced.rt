//! Some prefixes, kept so that a name is tested in few steps.

ghost use Rattle.std.specs.Prelude.{◌≡◌, ◌∷◌, ◌++◌, ◌<◌, ◌≤◌, [], ℕ, List, IfOk, OnOk, get_or, length, map, true};
ghost use Rattle.std.specs.Ordering.{nat_cmp, is_le};
ghost use Rattle.std.specs.Cmp.Lexicographic.{slice_cmp};
ghost use Rattle.prefixes.specs.Under.{begins_with, is_under_one};
ghost use Rattle.prefixes.specs.Private.Apart.{Adds, AreApart, SplitsAt, bytes_of, Rise};

use std::alloc::{AllocError, Global};
use std::cmp::Ordering;
use std::marker::Model;

/// Texts with which names can begin. Of two texts of which one begins with the other only the shorter one is kept, since every
/// name under the longer one is under it too. Contracts see the texts that are kept, which rise.
#[derive(Debug, Drop)]
pub struct Prefixes {
    texts: Vec<Vec<u8>>,
}

impl Model for Prefixes {
    ghost use Rattle.std.specs.Prelude.{List, ℕ};
    ghost use Rattle.prefixes.specs.Private.Apart.{AreApart, bytes_of};

    ghost Value = { List (List ℕ) };

    ghost view = { λ p. bytes_of p.texts.items };

    ghost invariant = { λ p. AreApart (bytes_of p.texts.items) };
}

impl Prefixes {
    ghost use Rattle.std.specs.Prelude.{◌≡◌, ◌∷◌, [], ◌==◌, ℕ, List, IfOk, length, map};
    ghost use Rattle.prefixes.specs.Under.{is_under_one};
    ghost use Rattle.prefixes.specs.Private.Apart.{AreApart, bytes_of};

    /// No prefixes, under which no name is.
    pub fn none(alloc: Global) -> Prefixes
        ensures { result ≡ [] }
    {
        Prefixes {
            texts: Vec::new(alloc),
        }
    }

    /// One prefix. An `Err` means that memory ran out.
    pub fn one(alloc: Global, text: Vec<u8>) -> Result<Prefixes, AllocError>
        ensures { IfOk result (λ prefixes. prefixes ≡ text.items ∷ []) }
    {
        let mut texts = Vec::new(alloc);
        texts.push(text)?;
        Ok(Prefixes { texts })
    }

    /// These prefixes. An `Err` means that memory ran out.
    pub fn of(alloc: Global, texts: &[&[u8]]) -> Result<Prefixes, AllocError>
        ensures names { IfOk result (λ prefixes. (name : List ℕ) → is_under_one prefixes name ≡ is_under_one (map (λ text. text.now) texts.now) name) }
        ensures none { IfOk result (λ prefixes. (length prefixes == 0) ≡ (length texts.now == 0)) }
    {
        let mut sorted = Vec::from_slice(alloc, texts)?;
        sorted.sort_unstable_by(|one, other| one.cmp(other));
        let mut kept = Vec::new(alloc);
        for text in &sorted {
            add(alloc, &mut kept, text)?;
        }
        Ok(Prefixes { texts: kept })
    }

    /// Whether there are none.
    pub fn is_empty(&self) -> bool
        ensures { result ≡ (length self.now == 0) }
    {
        self.texts.is_empty()
    }

    /// The texts that are kept. They rise, and none begins with another.
    pub fn texts(&self) -> &[Vec<u8>]
        ensures texts { bytes_of result.now ≡ self.now }
        ensures apart { AreApart self.now }
    {
        self.texts.as_slice()
    }

    /// Whether the name begins with one of them. That takes one comparison for each doubling of their number.
    pub fn have(&self, name: &[u8]) -> bool
        ensures { result ≡ is_under_one self.now name.now }
    {
        let texts = self.texts.as_slice();
        let next = next_after(texts, name);
        next > 0 && name.starts_with(texts[next - 1].as_slice())
    }
}

/// Adds a text that is not below those before it, unless it is under the last of them.
fn add(alloc: Global, kept: &mut Vec<Vec<u8>>, text: &[u8]) -> Result<(), AllocError>
    ensures { OnOk result (Adds text.now (bytes_of kept.old.items) (bytes_of kept.new.items)) }
{
    if let Some(last) = kept.last() {
        if text.starts_with(last.as_slice()) {
            return Ok(());
        }
    }
    kept.push(Vec::from_slice(alloc, text)?)?;
    Ok(())
}

/// How many of the texts, which rise, are not above the name.
fn next_after(texts: &[Vec<u8>], name: &[u8]) -> usize
    requires { Rise (bytes_of texts.now) }
    ensures { SplitsAt name.now (bytes_of texts.now) result }
{
    let mut low = 0;
    let mut high = texts.len();
    while low < high {
        let middle = low + (high - low) / 2;
        if texts[middle].as_slice().cmp(name).is_le() {
            low = middle + 1;
        } else {
            high = middle;
        }
    }
    low
}
