//! The sets of all trigrams.

ghost use Rattle.std.specs.Prelude.{◌≡◌, ◌≢◌, ℕ, ◌<◌, ◌≤◌, ◌||◌, ◌&&◌, ◌==◌, true, false, [], ◌∷◌, filter, map, All, IfOk, IfErr, IfSome, IfNone, OnOk, IsTrue};
ghost use Rattle.std.specs.List.{list_all};
ghost use Rattle.query.specs.Query.{formula_of, formulas_of, texts, all_of, one_of};
ghost use Rattle.query.specs.Pairs.{texts_in};
ghost use Rattle.watch.specs.CalledOff.{IsCalledOffOnlyIf};
ghost use Rattle.posting.specs.ListValue.{has, without};
ghost use Rattle.posting.specs.Postings.{slot_limit, set_of, holds, IsPrepared, IsAbsent, AllDiffer};
ghost use Rattle.posting.specs.Postings.{SameSets, KeepsRoom, is_listed, AddsNumber, WithdrawsNumber, GivesBack, MovesNumber, IsMovedUntil, selected, trigrams_with};
ghost use Rattle.posting.specs.Private.Moves.{MovesIn, IsMovedIn};
ghost use Rattle.posting.specs.Private.Sets.{members_of};
ghost use Rattle.posting.specs.Private.Selection.{Finds};

use crate::filling::{Entry, fill_parts, put};
use crate::list::{List, Taken, union_of};
use crate::part::{PARTS, Part, Set, part_of, place_in_part};
use crate::trigrams::{Trigrams, lower_trigram};
use query::{Pairs, Query, Trigram, trigrams_in_turn};
use std::alloc::{AllocError, Global};
use std::marker::Model;
use std::thread::Threads;
use watch::{Unanswered, Watch, ask};

/// A share of a set is given in so many parts.
pub const WHOLE: usize = 256;

/// What it counts as to change a set, in bytes of bodies, if no number is passed.
const SET_WORK: usize = 8;

/// How many numbers that are passed count as a byte of a body. By measurement it takes as long to change a set as to pass 80.
const PASSED_FOR_A_BYTE: usize = 10;

/// A set of numbers for each trigram.
///
/// The head of list.rt says how the sets lie in memory. `withdraw` and `move_some` give memory back: that of the list of a set that
/// has at most one number below 2^31 afterwards, and room and pages that few sets use.
///
/// Contracts see it as a table of sets by the trigrams' numbers. A set has its numbers, and a limit: `prepare` raises the limit
/// above a number, and `add` puts the number in.
#[derive(Drop)]
pub struct Postings {
    parts: [Part; 8],
}

impl Model for Postings {
    ghost use Rattle.std.specs.Prelude.{List, length, ◌≡◌};
    ghost use Rattle.posting.specs.Postings.{NumberSet};
    ghost use Rattle.posting.specs.Private.Parts.{whole_of};

    ghost Value = { List NumberSet };

    ghost view = { λ p. whole_of p.parts };

    ghost invariant = { λ p. length p.parts ≡ 8 };
}

impl Postings {
    /// Postings whose sets are all empty. This takes no memory yet.
    pub fn new(alloc: Global) -> Postings
        ensures { (trigram n : ℕ) → holds result trigram n ≡ false }
    {
        Postings {
            parts: [
                Part::new(alloc),
                Part::new(alloc),
                Part::new(alloc),
                Part::new(alloc),
                Part::new(alloc),
                Part::new(alloc),
                Part::new(alloc),
                Part::new(alloc),
            ],
        }
    }

    /// Whether there is no set, nor room for one, as after `new`. Otherwise all sets can still be empty.
    pub fn is_bare(&self) -> bool
        ensures { IsTrue result → (trigram n : ℕ) → holds self.now trigram n ≡ false }
    {
        are_bare(&self.parts)
    }

    /// Makes room for a number in the set of each of these trigrams, so that `add` needs no more memory. The sets keep
    /// their numbers.
    ///
    /// An `Err` means that memory ran out. Some sets may then have room already. A `withdraw` from these sets frees
    /// the room of those that are empty, and may free that of the others, as a `move_some` may.
    pub fn prepare(&mut self, number: u32, trigrams: &Trigrams) -> Result<(), AllocError>
        ensures sets { SameSets self.old self.new }
        ensures room { KeepsRoom self.old self.new }
        ensures ok { OnOk result (IsPrepared self.new number trigrams.now) }
    {
        for trigram in trigrams.iter() {
            self.make_room(trigram, number)?;
        }
        Ok(())
    }

    /// Puts the number into the sets of these trigrams, which were prepared for it and do not have it. The trigrams all
    /// differ. This needs no more memory.
    pub fn add(&mut self, number: u32, trigrams: &Trigrams)
        requires prepared { IsPrepared self.old number trigrams.now }
        requires absent { IsAbsent self.old trigrams.now number }
        requires once { AllDiffer trigrams.now }
        ensures { AddsNumber self.old self.new trigrams.now number }
    {
        for trigram in trigrams.iter() {
            self.insert(trigram, number);
        }
    }

    /// Takes the number out of the sets of these trigrams. A set that does not have it keeps its numbers. The list of a set
    /// that is empty afterwards is freed, and these sets and other empty sets may lose room that was made for them. This needs
    /// no more memory, and gives back what the other sets do not need.
    pub fn withdraw(&mut self, number: u32, trigrams: &Trigrams)
        ensures sets { WithdrawsNumber self.old self.new trigrams.now number }
        ensures empty { GivesBack self.new trigrams.now }
    {
        for trigram in trigrams.iter() {
            self.remove(trigram, number);
        }
        self.give_back();
    }

    /// Puts each of these numbers into the sets of its trigrams, in up to `threads` threads, each with a range of the sets. A
    /// number that is in a set already stays there.
    ///
    /// An `Err` means that memory ran out. Some of the numbers may then be in some sets, and others not; no set has lost a number.
    pub fn fill<R: Threads + Sync>(
        &mut self,
        rt: &R,
        threads: usize,
        entries: &[Entry<'_>],
    ) -> Result<(), AllocError>
        ensures ok { OnOk result ((t n : ℕ) → holds self.new t n ≡ (holds self.old t n || is_listed entries.now t n)) }
        ensures kept { (t n : ℕ) → holds self.old t n ≡ true → holds self.new t n ≡ true }
        ensures grown { (t n : ℕ) → holds self.new t n ≡ true → (holds self.old t n || is_listed entries.now t n) ≡ true }
    {
        let alloc = self.parts[0].allocator();
        fill_parts(rt, alloc, threads, 0, self.parts.as_mut_slice(), entries)
    }

    /// Moves the number from the sets of the old trigrams to those of the new ones, for the trigrams from `from` on in their
    /// order: takes it out of the sets of trigrams that only the old ones have, and puts it into those of trigrams that only the new
    /// ones have. This goes on until the work comes to `most`, where a set that changes counts as in `work` with this `share`, and a
    /// trigram that both have, whose set stays, counts 1. Returns the first trigram that is not reached, `None` if there is none, and
    /// how much of `most` is left.
    ///
    /// An `Err` means that memory ran out. Some of the sets may then have changed, each as it is to.
    pub fn move_some(
        &mut self,
        number: u32,
        old: &Trigrams,
        new: &Trigrams,
        from: u32,
        most: usize,
        share: usize,
    ) -> Result<(Option<u32>, usize), AllocError>
        ensures ok { IfOk result (λ done. IsMovedUntil self.new number old.now new.now from done.0) }
        ensures moved { MovesNumber self.old self.new number old.now new.now }
    {
        let moved = self.move_until(number, old, new, from, most, share);
        self.give_back();
        moved
    }

    fn move_until(
        &mut self,
        number: u32,
        old: &Trigrams,
        new: &Trigrams,
        from: u32,
        most: usize,
        share: usize,
    ) -> Result<(Option<u32>, usize), AllocError>
        ensures ok { IfOk result (λ done. IsMovedUntil self.new number old.now new.now from done.0) }
        ensures moved { MovesNumber self.old self.new number old.now new.now }
    {
        let mut olds = old.iter_from(from);
        let mut news = new.iter_from(from);
        let mut left = most;
        while let Some(next) = lower_trigram(&mut olds, &mut news) {
            if left == 0 {
                return Ok((Some(next.1.number), 0));
            }
            let work = self.work_by(next.0, share);
            let is_change = self.move_one(number, next.0, next.1)?;
            left = left.saturating_sub(if is_change { work } else { 1 });
        }
        Ok((None, left))
    }

    /// Takes the number out of the set of this trigram if only the old ones have it, and puts it in if only the new ones do. Returns
    /// whether it is one of these.
    fn move_one(&mut self, number: u32, trigram: Trigram, next: Taken) -> Result<bool, AllocError>
        ensures ok { OnOk result (IsMovedIn self.new number trigram next.in_left next.in_right) }
        ensures moved { MovesIn self.old self.new number trigram next.in_left next.in_right }
    {
        if !next.in_right {
            self.remove(trigram, number);
            return Ok(true);
        }
        if !next.in_left {
            self.put(trigram, number)?;
            return Ok(true);
        }
        Ok(false)
    }

    /// About how much work it is to take a number out of the sets of these trigrams, or to put it into them, in bytes of bodies: a
    /// usual text has a trigram for each eight. `share` is the part of each set that is passed for that, in parts of `WHOLE`.
    pub fn work(&self, trigrams: &Trigrams, share: usize) -> usize {
        let mut work = 0_usize;
        for trigram in trigrams.iter() {
            work = work.saturating_add(self.work_by(trigram, share));
        }
        work
    }

    fn work_by(&self, trigram: Trigram, share: usize) -> usize {
        let passed = self.size_by(trigram).saturating_mul(share) / WHOLE;
        SET_WORK.saturating_add(passed / PASSED_FOR_A_BYTE)
    }

    fn put(&mut self, trigram: Trigram, number: u32) -> Result<(), AllocError>
        ensures ok { OnOk result ((t n : ℕ) → holds self.new t n ≡ (holds self.old t n || (trigram == t && number == n))) }
        ensures kept { (t n : ℕ) → holds self.old t n ≡ true → holds self.new t n ≡ true }
        ensures grown { (t n : ℕ) → holds self.new t n ≡ true → (holds self.old t n || (trigram == t && number == n)) ≡ true }
    {
        put(0, self.parts.as_mut_slice(), trigram, number)
    }

    /// The numbers of `live` whose trigrams meet the query. The trigrams of a number are those whose sets have it.
    ///
    /// Calls nest as deep as the query is high. By measurement each level takes at most 720 bytes of stack, so 2 MiB of
    /// stack bear 2,900 levels.
    ///
    /// An `Err` means that memory ran out, or that `watch` called it off.
    pub fn select<W: Watch>(
        &self,
        alloc: Global,
        query: &Query,
        live: &List,
        watch: &mut W,
    ) -> Result<List, Unanswered>
        ensures chosen { IfOk result (λ chosen. chosen.members
            ≡ selected self.now (formula_of query.now) live.now.members) }
        ensures called_off { IfErr result (IsCalledOffOnlyIf (W.has_said_no watch.new)) }
    {
        if live.is_empty() {
            return Ok(List::new(alloc));
        }
        self.narrow(alloc, query, live, watch)
    }

    fn make_room(&mut self, trigram: Trigram, number: u32) -> Result<(), AllocError>
        ensures members { (t : ℕ) → (set_of self.new t).members ≡ (set_of self.old t).members }
        ensures room { KeepsRoom self.old self.new }
        ensures ok { OnOk result (number < (set_of self.new trigram).limit) }
    {
        let part = &mut self.parts[part_of(trigram)];
        part.make_room(place_in_part(trigram), number)
    }

    fn insert(&mut self, trigram: Trigram, number: u32)
        requires room { number < (set_of self.old trigram).limit }
        requires absent { has (set_of self.old trigram).members number ≡ false }
        ensures at { (n : ℕ) → has (set_of self.new trigram).members n ≡ (has (set_of self.old trigram).members n || number == n) }
        ensures others { (t : ℕ) → t ≢ trigram → set_of self.new t ≡ set_of self.old t }
    {
        let part = &mut self.parts[part_of(trigram)];
        part.insert(place_in_part(trigram), number);
    }

    fn remove(&mut self, trigram: Trigram, number: u32)
        ensures at { (set_of self.new trigram).members ≡ without number (set_of self.old trigram).members }
        ensures others { (t : ℕ) → t ≢ trigram → set_of self.new t ≡ set_of self.old t }
        ensures empty { (set_of self.new trigram).members ≡ [] → (set_of self.new trigram).limit ≤ slot_limit }
    {
        let part = &mut self.parts[part_of(trigram)];
        part.remove(place_in_part(trigram), number);
    }

    /// Gives back memory that the sets do not need.
    fn give_back(&mut self)
        ensures members { (t : ℕ) → (set_of self.new t).members ≡ (set_of self.old t).members }
        ensures limits { (t : ℕ) → (set_of self.old t).limit ≤ slot_limit → (set_of self.new t).limit ≤ slot_limit }
    {
        for number in 0..PARTS {
            let part = &mut self.parts[number];
            part.give_back();
        }
    }

    /// The set of a trigram.
    fn set(&self, trigram: Trigram) -> Set<'_>
        ensures { members_of result ≡ (set_of self.now trigram).members }
    {
        self.parts[part_of(trigram)].set(place_in_part(trigram))
    }

    /// The numbers of `within` whose trigrams have this one.
    fn narrow_by<W: Watch>(
        &self,
        alloc: Global,
        trigram: Trigram,
        within: &List,
        watch: &mut W,
    ) -> Result<List, Unanswered>
        ensures chosen { IfOk result (λ chosen. chosen.members ≡ filter (has (set_of self.now trigram).members) within.now.members) }
        ensures called_off { IfErr result (IsCalledOffOnlyIf (W.has_said_no watch.new)) }
    {
        match self.set(trigram) {
            Set::Empty => Ok(List::new(alloc)),
            Set::One(number) => only(alloc, number, within, watch),
            Set::List(list) => within.intersect(list, watch),
        }
    }

    /// The numbers of `within` whose trigrams have this one, and perhaps numbers outside `within`.
    fn collect_by<W: Watch>(
        &self,
        alloc: Global,
        trigram: Trigram,
        within: &List,
        watch: &mut W,
    ) -> Result<List, Unanswered>
        ensures found { IfOk result (λ found. (n : ℕ) → IsTrue (has within.now.members n)
            → has found.members n ≡ has (set_of self.now trigram).members n) }
        ensures called_off { IfErr result (IsCalledOffOnlyIf (W.has_said_no watch.new)) }
    {
        match self.set(trigram) {
            Set::Empty => Ok(List::new(alloc)),
            Set::One(number) => Ok(List::one(alloc, number)),
            Set::List(list) => list.shortened(within, watch),
        }
    }

    /// The numbers of `within` whose trigrams have all of these, and perhaps numbers outside `within`. The trigram that
    /// the fewest numbers have comes first.
    fn collect_all_by<W: Watch>(
        &self,
        alloc: Global,
        trigrams: &[Trigram],
        within: &List,
        watch: &mut W,
    ) -> Result<List, Unanswered>
        ensures found { IfOk result (λ found. (n : ℕ) → IsTrue (has within.now.members n)
            → has found.members n ≡ list_all (trigrams_with self.now n) trigrams.now) }
        ensures called_off { IfErr result (IsCalledOffOnlyIf (W.has_said_no watch.new)) }
    {
        let (first, _) = self.rarest(trigrams);
        let mut found = match trigrams.get(first) {
            Some(trigram) => self.collect_by(alloc, *trigram, within, watch)?,
            None => within.copy()?,
        };
        for (i, trigram) in trigrams.iter().enumerate() {
            if found.is_empty() {
                return Ok(found);
            }
            if i != first {
                found = self.narrow_by(alloc, *trigram, &found, watch)?;
            }
        }
        Ok(found)
    }

    /// The place of the trigram that the fewest numbers have (the first such), and how many have it.
    fn rarest(&self, trigrams: &[Trigram]) -> (usize, usize) {
        let mut first = 0;
        let mut fewest = usize::MAX;
        for (i, trigram) in trigrams.iter().enumerate() {
            let size = self.size_by(*trigram);
            if size < fewest {
                first = i;
                fewest = size;
            }
        }
        (first, fewest)
    }

    /// How many numbers have the trigram.
    fn size_by(&self, trigram: Trigram) -> usize {
        match self.set(trigram) {
            Set::Empty => 0,
            Set::One(_) => 1,
            Set::List(list) => list.size(),
        }
    }

    /// The numbers of `within` whose trigrams have all those of one of the texts, and perhaps numbers outside `within`.
    fn collect_texts<W: Watch>(
        &self,
        alloc: Global,
        pairs: &Pairs,
        within: &List,
        watch: &mut W,
    ) -> Result<List, Unanswered>
        ensures found { IfOk result (λ found. Finds self.now (texts (texts_in pairs.now)) within.now.members found.members) }
        ensures called_off { IfErr result (IsCalledOffOnlyIf (W.has_said_no watch.new)) }
    {
        let texts = pairs.texts(alloc)?;
        let mut lists = Vec::new(alloc);
        for text in &texts {
            ask(watch)?;
            let trigrams = trigrams_in_turn(alloc, text.as_slice())?;
            lists.push(self.collect_all_by(alloc, trigrams.as_slice(), within, watch)?)?;
        }
        union_of(alloc, &lists, watch)
    }

    /// The numbers of `within` that meet the query.
    #[cycle(narrow)]
    fn narrow<W: Watch>(
        &self,
        alloc: Global,
        query: &Query,
        within: &List,
        watch: &mut W,
    ) -> Result<List, Unanswered>
        ensures chosen { IfOk result (λ chosen. chosen.members
            ≡ selected self.now (formula_of query.now) within.now.members) }
        ensures called_off { IfErr result (IsCalledOffOnlyIf (W.has_said_no watch.new)) }
    {
        match query {
            Query::Any => Ok(within.copy()?),
            Query::Has(trigram) => self.narrow_by(alloc, *trigram, within, watch),
            _ => within.intersect(&self.collect(alloc, query, within, watch)?, watch),
        }
    }

    /// The numbers of `within` that meet the query, and perhaps numbers outside `within`. So the result for many
    /// members is intersected with `within` only once.
    #[cycle(narrow)]
    fn collect<W: Watch>(
        &self,
        alloc: Global,
        query: &Query,
        within: &List,
        watch: &mut W,
    ) -> Result<List, Unanswered>
        ensures found { IfOk result (λ found. Finds self.now (formula_of query.now) within.now.members found.members) }
        ensures called_off { IfErr result (IsCalledOffOnlyIf (W.has_said_no watch.new)) }
    {
        match query {
            Query::Any => Ok(within.copy()?),
            Query::None => Ok(List::new(alloc)),
            Query::Has(trigram) => self.collect_by(alloc, *trigram, within, watch),
            Query::Pairs(pairs) => self.collect_texts(alloc, pairs, within, watch),
            Query::And(members) => self.collect_all(alloc, members, within, watch),
            Query::Or(members) => self.collect_any(alloc, members, within, watch),
        }
    }

    /// The member that the fewest numbers can meet comes first, so the longer lists are examined in few places.
    #[cycle(narrow)]
    fn collect_all<W: Watch>(
        &self,
        alloc: Global,
        members: &[Query],
        within: &List,
        watch: &mut W,
    ) -> Result<List, Unanswered>
        ensures found { IfOk result (λ found. Finds self.now (all_of (formulas_of (map formula_of members.now)))
            within.now.members found.members) }
        ensures called_off { IfErr result (IsCalledOffOnlyIf (W.has_said_no watch.new)) }
    {
        let (first, _) = self.fewest(alloc, members)?;
        let mut found = match members.get(first) {
            Some(member) => self.collect(alloc, member, within, watch)?,
            None => within.copy()?,
        };
        for (i, member) in members.iter().enumerate() {
            if found.is_empty() {
                return Ok(found);
            }
            if i != first {
                found = self.narrow(alloc, member, &found, watch)?;
            }
        }
        Ok(found)
    }

    #[cycle(narrow)]
    fn collect_any<W: Watch>(
        &self,
        alloc: Global,
        members: &[Query],
        within: &List,
        watch: &mut W,
    ) -> Result<List, Unanswered>
        ensures found { IfOk result (λ found. Finds self.now (one_of (formulas_of (map formula_of members.now)))
            within.now.members found.members) }
        ensures called_off { IfErr result (IsCalledOffOnlyIf (W.has_said_no watch.new)) }
    {
        let mut lists = Vec::new(alloc);
        for member in members {
            lists.push(self.collect(alloc, member, within, watch)?)?;
        }
        union_of(alloc, &lists, watch)
    }

    /// At most this many numbers meet the query.
    #[cycle(most)]
    fn most(&self, alloc: Global, query: &Query) -> Result<usize, AllocError> {
        match query {
            Query::Any => Ok(usize::MAX),
            Query::None => Ok(0),
            Query::Has(trigram) => Ok(self.size_by(*trigram)),
            Query::Pairs(pairs) => self.most_of_texts(alloc, pairs),
            Query::And(members) => {
                let (_, most) = self.fewest(alloc, members)?;
                Ok(most)
            }
            Query::Or(members) => self.most_of_all(alloc, members),
        }
    }

    /// The place of the member that the fewest numbers can meet (the first such), and how many can meet it at most.
    #[cycle(most)]
    fn fewest(&self, alloc: Global, members: &[Query]) -> Result<(usize, usize), AllocError> {
        let mut first = 0;
        let mut fewest = usize::MAX;
        for (i, member) in members.iter().enumerate() {
            let most = self.most(alloc, member)?;
            if most < fewest {
                first = i;
                fewest = most;
            }
        }
        Ok((first, fewest))
    }

    #[cycle(most)]
    fn most_of_all(&self, alloc: Global, members: &[Query]) -> Result<usize, AllocError> {
        let mut sum: usize = 0;
        for member in members {
            sum = sum.saturating_add(self.most(alloc, member)?);
        }
        Ok(sum)
    }

    fn most_of_texts(&self, alloc: Global, pairs: &Pairs) -> Result<usize, AllocError> {
        let texts = pairs.texts(alloc)?;
        let mut sum: usize = 0;
        for text in &texts {
            let trigrams = trigrams_in_turn(alloc, text.as_slice())?;
            let (_, most) = self.rarest(trigrams.as_slice());
            sum = sum.saturating_add(most);
        }
        Ok(sum)
    }
}

/// The set with this number if it is in another set, else the empty one.
fn only<W: Watch>(
    alloc: Global,
    number: u32,
    within: &List,
    watch: &mut W,
) -> Result<List, Unanswered>
    ensures only { IfOk result (λ only. only.members ≡ filter (has (number ∷ [])) within.now.members) }
    ensures called_off { IfErr result (IsCalledOffOnlyIf (W.has_said_no watch.new)) }
{
    within.intersect(&List::one(alloc, number), watch)
}

/// Whether there is no set in any of these parts, nor room for one.
#[cycle(are_bare)]
fn are_bare(parts: &[Part]) -> bool
    ensures { IsTrue result → All (λ p. (trigram n : ℕ) → holds p trigram n ≡ false) parts.now }
{
    match parts {
        [] => true,
        [first, others @ ..] => first.is_bare() && are_bare(others),
    }
}
