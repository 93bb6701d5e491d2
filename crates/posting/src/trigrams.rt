//! The trigrams of a text, in few bytes.

ghost use Rattle.std.specs.Prelude.{◌≡◌, ◌<◌, ◌≤◌, [], length, not, filter, IfOk, IfSome, IfNone};
ghost use Rattle.posting.specs.ListValue.{has};
ghost use Rattle.posting.specs.Private.Gaps.{not_below, IsLower};
ghost use Rattle.std.specs.List.Sorted.{IsStrictlyIncreasing};
ghost use Rattle.std.specs.Iterator.{YieldsFirst, item_count};

use crate::list::{List, Numbers, Taken, lower};
use query::Trigram;
use std::alloc::{AllocError, Global};
use std::marker::Model;

/// Trigrams, each once, in the bytes of a `List` of their numbers: one or two bytes for each
/// trigram of a long text.
///
/// Contracts see them as their numbers, rising.
#[derive(Drop)]
pub struct Trigrams {
    numbers: List,
}

impl Model for Trigrams {
    ghost use Rattle.std.specs.Prelude.{List, ℕ, ◌<◌, All};

    ghost Value = { List ℕ };

    ghost view = { λ t. t.numbers.members };

    ghost invariant = { λ t. All (λ n. n < 16777216) t.numbers.members };
}

impl Trigrams {
    /// Keeps these trigrams, which are rising by their numbers, each once, in no more bytes than they need.
    ///
    /// An `Err` means that memory ran out.
    pub fn new(alloc: Global, rising: &[Trigram]) -> Result<Trigrams, AllocError>
        requires { IsStrictlyIncreasing rising.now }
        ensures { IfOk result (λ trigrams. trigrams ≡ rising.now) }
    {
        let mut numbers = List::new(alloc);
        numbers.room_for_all(rising.len())?;
        for trigram in rising {
            numbers.append(trigram.number());
        }
        // the list mostly has room to spare; its copy has none
        let numbers = numbers.copy()?;
        Ok(Trigrams { numbers })
    }

    /// The trigrams that the other has not, and those of the other that these have not.
    ///
    /// An `Err` means that memory ran out.
    pub fn differences(&self, other: &Trigrams) -> Result<(Trigrams, Trigrams), AllocError>
        ensures own { IfOk result (λ both. both.0 ≡ filter (λ t. not (has other.now t)) self.now) }
        ensures others { IfOk result (λ both. both.1 ≡ filter (λ t. not (has self.now t)) other.now) }
    {
        let (own, others) = self.numbers.differences(&other.numbers)?;
        Ok((Trigrams { numbers: own }, Trigrams { numbers: others }))
    }

    /// In how many bytes they are kept: one or two for each, mostly. It is at hand, so it serves to compare bodies.
    pub fn size(&self) -> usize
        ensures { length self.now ≤ result }
    {
        self.numbers.size()
    }

    /// The trigrams, rising.
    pub fn iter(&self) -> TrigramsIterator<'_>
        ensures { result ≡ self.now }
    {
        TrigramsIterator {
            numbers: self.numbers.numbers(),
        }
    }

    /// The trigrams from this number on, rising.
    pub(crate) fn iter_from(&self, number: u32) -> TrigramsIterator<'_>
        ensures trigrams { result ≡ not_below number self.now }
        ensures rising { IsStrictlyIncreasing self.now }
    {
        TrigramsIterator {
            numbers: self.numbers.numbers_from(number),
        }
    }
}

/// Trigrams, rising.
#[derive(Drop)]
pub struct TrigramsIterator<'a> {
    numbers: Numbers<'a>,
}

impl<'a> Model for TrigramsIterator<'a> {
    ghost use Rattle.std.specs.Prelude.{List, ℕ, ◌<◌, All};

    ghost Value = { List ℕ };

    ghost view = { λ t. t.numbers };

    ghost invariant = { λ t. All (λ n. n < 16777216) t.numbers };
}

impl<'a> TrigramsIterator<'a> {
    /// The same trigrams, once more.
    pub(crate) fn again(&self) -> TrigramsIterator<'a>
        ensures { result ≡ self.now }
    {
        TrigramsIterator {
            numbers: self.numbers.again(),
        }
    }
}

impl<'a> Iterator for TrigramsIterator<'a> {
    type Item = Trigram;

    ghost next_gives = { YieldsFirst (λ numbers. numbers) };

    ghost remaining = { item_count (λ numbers. numbers) };

    fn next(&mut self) -> Option<Trigram> {
        match self.numbers.next() {
            Some(number) => Some(trigram_of_number(number)),
            None => None,
        }
    }
}

/// Takes the lower of the two next trigrams out of both, and returns it, and which of the two had it.
pub(crate) fn lower_trigram(
    left: &mut TrigramsIterator<'_>,
    right: &mut TrigramsIterator<'_>,
) -> Option<(Trigram, Taken)>
    ensures some { IfSome result (λ next. (next.0 ≡ next.1.number) × IsLower left.old right.old next.1 left.new right.new) }
    ensures none { IfNone result ((left.old ≡ []) × (right.old ≡ [])) }
{
    match lower(&mut left.numbers, &mut right.numbers) {
        Some(next) => Some((trigram_of_number(next.number), next)),
        None => None,
    }
}

fn trigram_of_number(number: u32) -> Trigram
    requires { number < 16777216 }
    ensures { result ≡ number }
{
    let high = number / 256;
    Trigram::of([(high / 256) as u8, (high % 256) as u8, (number % 256) as u8])
}
