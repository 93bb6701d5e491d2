//! Texts one after the other.

ghost use Rattle.std.specs.Prelude.{◌≡◌, ◌+◌, ◌-◌, ◌<◌, ◌≤◌, ◌^◌, ℕ, [], ◌∷◌, ◌++◌, map, get_or, length, take, drop, IfOk, OnOk};
ghost use Rattle.names.specs.Private.Entries.{with_prefix};

use std::alloc::{AllocError, Global};
use std::marker::Model;

/// Texts in one piece of memory, with the places where they end.
///
/// Contracts see the list of them.
#[derive(Drop)]
pub(crate) struct Texts {
    text: Vec<u8>,
    ends: Vec<u32>,
}

impl Model for Texts {
    ghost use Rattle.std.specs.Prelude.{List, ℕ, length};
    ghost use Rattle.names.specs.Private.Entries.{parts_from, RiseTo};

    ghost Value = { List (List ℕ) };

    ghost view = { λ t. parts_from t.text.items 0 t.ends.items };

    ghost invariant = { λ t. RiseTo (length t.text.items) 0 t.ends.items };
}

impl Texts {
    /// No texts.
    pub(crate) fn new(alloc: Global) -> Texts
        ensures { result ≡ [] }
    {
        Texts {
            text: Vec::new(alloc),
            ends: Vec::new(alloc),
        }
    }

    /// The texts with one more behind them, which is given in three parts. An `Err` means that memory ran out, or that they
    /// have 4 GiB together.
    pub(crate) fn with(self, first: &[u8], second: &[u8], third: &[u8]) -> Result<Texts, AllocError>
        ensures { IfOk result (λ texts. texts ≡ self ++ (first.now ++ (second.now ++ third.now)) ∷ []) }
    {
        let Texts { mut text, mut ends } = self;
        text.extend_from_slice(first)?;
        text.extend_from_slice(second)?;
        text.extend_from_slice(third)?;
        match u32::try_from(text.len()) {
            Ok(end) => ends.push(end)?,
            Err(_) => return Err(AllocError),
        }
        Ok(Texts { text, ends })
    }

    /// The texts with others from one place on and before another one behind them, each of these behind this text. An `Err` is as
    /// that of `with`.
    pub(crate) fn with_begun(
        self,
        beginning: &[u8],
        others: &Texts,
        from: usize,
        to: usize,
    ) -> Result<Texts, AllocError>
        requires order { from ≤ to }
        requires inside { to ≤ length others.now }
        ensures { IfOk result (λ texts. texts ≡ self ++ with_prefix beginning.now (drop from (take to others.now))) }
    {
        let mut texts = self;
        for at in from..to {
            texts = texts.with(beginning, others.at(at), &[])?;
        }
        Ok(texts)
    }

    /// The texts with others from one place on and before another one behind them. An `Err` is as that of `with`.
    pub(crate) fn with_run(
        self,
        others: &Texts,
        from: usize,
        to: usize,
    ) -> Result<Texts, AllocError>
        requires order { from ≤ to }
        requires inside { to ≤ length others.now }
        ensures { IfOk result (λ texts. texts ≡ self ++ drop from (take to others.now)) }
    {
        let Texts { mut text, mut ends } = self;
        let base = text.len();
        let low = start(&others.ends, from);
        let high = start(&others.ends, to);
        text.extend_from_slice(piece(&others.text, low, high))?;
        if text.len() > u32::MAX as usize {
            return Err(AllocError);
        }
        push_moved(&mut ends, run_of(&others.ends, from, to), low, base)?;
        Ok(Texts { text, ends })
    }

    /// How many there are.
    pub(crate) fn len(&self) -> usize
        ensures { result ≡ length self.now }
    {
        self.ends.len()
    }

    /// One of them.
    pub(crate) fn at(&self, at: usize) -> &[u8]
        requires { at < length self.now }
        ensures { result.now ≡ get_or self.now at [] }
    {
        let from = start(&self.ends, at);
        let to = self.ends[at] as usize;
        piece(&self.text, from, to)
    }
}

/// A part of a text.
fn piece(text: &[u8], from: usize, to: usize) -> &[u8]
    requires order { from ≤ to }
    requires inside { to ≤ length text.now }
    ensures { result.now ≡ take (to - from) (drop from text.now) }
{
    &text[from..to]
}

/// A part of some places.
fn run_of(ends: &[u32], from: usize, to: usize) -> &[u32]
    requires order { from ≤ to }
    requires inside { to ≤ length ends.now }
    ensures { result.now ≡ take (to - from) (drop from ends.now) }
{
    &ends[from..to]
}

/// Where the text at a place begins.
fn start(ends: &[u32], at: usize) -> usize
    requires { at ≤ length ends.now }
    ensures { result ≡ get_or (0 ∷ ends.now) at 0 }
{
    if at == 0 {
        return 0;
    }
    ends[at - 1] as usize
}

/// Adds places, as they lie once the bytes before `low` are left out and `base` others come before them.
fn push_moved(ends: &mut Vec<u32>, run: &[u32], low: usize, base: usize) -> Result<(), AllocError>
    requires above { (k : ℕ) → k < length run.now → low ≤ get_or run.now k 0 }
    requires fits { (k : ℕ) → k < length run.now → (get_or run.now k 0 - low) + base < 2 ^ 32 }
    ensures { OnOk result (ends.new.items ≡ ends.old.items ++ map (λ e. (e - low) + base) run.now) }
{
    ends.reserve(run.len())?;
    for end in run {
        ends.push((*end as usize - low + base) as u32)?;
    }
    Ok(())
}
