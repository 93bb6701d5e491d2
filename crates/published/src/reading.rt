//! Readings see what is published, and never wait.

ghost use Rattle.std.specs.Prelude.{◌≡◌, ◌⊎◌, true, Some, length, IfOk, IfSome};
ghost use mathlib.Core.List.{IsPrefix};
ghost use Rattle.left_right.specs.Sides.{view};
ghost use Rattle.logbook.specs.Pages.{Book};
ghost use Rattle.documents.specs.State.{state_of};
ghost use Rattle.std.specs.Fn.{FnOnceReturnsAt};
ghost use Rattle.published.specs.Counts.{AreCountsOf};
ghost use Rattle.published.specs.Private.Rule.{HasMet};

use crate::batches::Front;
use crate::counts::Counts;
use crate::error::OpenError;
use crate::rule::{Both, Meet, Note, ShelfReader};
use crate::told::Told;
use core::mem::replace_with;
use documents::Corpus;
use index::Index;
use std::marker::{Model, PhantomData};

/// What one thread at a time searches with. It has one of the opening's places.
///
/// Contracts see it as the opening that it belongs to, and the commands that it has seen: the longest list
/// that it has learnt of or met in a search.
#[derive(Drop)]
pub struct Reading {
    reader: ShelfReader,
    front: Front,
}

impl Model for Reading {
    ghost use Rattle.left_right.specs.Sides.{view as met_by};
    ghost use Rattle.published.specs.History.{Known};
    ghost use Rattle.published.specs.Private.Rule.{HasMet};

    ghost Value = { Known };

    ghost view = { λ r. r.front };

    ghost invariant = { λ r. HasMet r.front.opening (met_by r.reader.place) };
}

impl Reading {
    /// A reading that has seen as much as the writer has met.
    ///
    /// An `Err` is `NoPlace`: no place is left for it.
    pub(crate) fn of(both: &mut Both, front: &Front) -> Result<Reading, OpenError>
        requires { view both.old.desk.place ≡ Some front.now }
        ensures reading { IfOk result (λ reading. reading ≡ front.now) }
        ensures met { view both.new.desk.place ≡ view both.old.desk.place }
        ensures shown { both.new.desk.shown ≡ both.old.desk.shown }
        ensures spare { both.new.desk.spare ≡ both.old.desk.spare }
    {
        let Ok(mut reader) = both.factory().reader() else {
            return Err(OpenError::NoPlace);
        };
        reader.learn::<Note>(both.desk.tell::<Note>());
        Ok(Reading {
            reader,
            front: front.again(),
        })
    }

    /// Takes note of a publish of the same opening: from then on the reading has seen at least what it published.
    /// It takes no memory and never waits.
    pub fn learn(&mut self, told: &Told)
        requires { told.now.opening ≡ self.old.opening }
        ensures opening { self.new.opening ≡ self.old.opening }
        ensures seen { IsPrefix self.old.commands self.new.commands }
        ensures told { IsPrefix told.now.commands self.new.commands }
        ensures longer { (self.new ≡ self.old) ⊎ (self.new ≡ told.now) }
    {
        self.front = self.front.longer(&told.front);
    }

    /// The number of commands that it has seen.
    pub fn seen(&self) -> u32
        ensures { result ≡ length self.now.commands }
    {
        self.front.version()
    }

    /// What it has seen, as a publish of it would have handed it out. It takes no memory.
    pub fn told(&self) -> Told
        ensures { result ≡ self.now }
    {
        Told {
            front: self.front.again(),
        }
    }

    /// Enters what is published, once, looks at it, and leaves. It never waits. `None` means that the desk was closed.
    pub fn look<T: Drop, F: FnOnce(&Index) -> T>(&mut self, look: F) -> Option<T>
        requires { F.IsAlwaysCallable look }
        ensures opening { self.new.opening ≡ self.old.opening }
        ensures seen { IsPrefix self.old.commands self.new.commands }
        ensures looked { IfSome result (FnOnceReturnsAt F.FnOnce look (state_of self.new.commands)) }
    {
        let visit = Visit {
            look,
            found: PhantomData,
        };
        let (front, found) = replace_with(&mut self.reader, visit, enter)?;
        if self.meet(front) { Some(found) } else { None }
    }

    /// Counts what is published. It takes no memory and never waits. `None` means that the desk was closed.
    pub fn counts(&mut self) -> Option<Counts>
        ensures opening { self.new.opening ≡ self.old.opening }
        ensures seen { IsPrefix self.old.commands self.new.commands }
        ensures counts { IfSome result (AreCountsOf (state_of self.new.commands)) }
    {
        self.look(count)
    }

    /// Takes note of a front that was met. `false` means that it lacks something that was seen, which never happens.
    fn meet(&mut self, front: Front) -> bool
        requires { front.opening ≡ self.old.opening }
        ensures opening { self.new.opening ≡ self.old.opening }
        ensures seen { IsPrefix self.old.commands self.new.commands }
        ensures met { result ≡ true → self.new.commands ≡ front.commands }
    {
        if !self.front.begins(&front) {
            return false;
        }
        self.front = front;
        true
    }
}

/// How much the index holds.
fn count(index: &Index) -> Counts
    ensures { AreCountsOf index.now result }
{
    Counts {
        version: index.version(),
        documents: index.documents(),
        bytes: index.held_bytes(),
    }
}

/// What is done inside, and the type of what it finds.
struct Visit<T, F> {
    look: F,
    found: PhantomData<T>,
}

/// Enters, looks and leaves. `None` if it cannot enter; otherwise the front that it met and what it found.
fn enter<T: Drop, F: FnOnce(&Index) -> T>(
    reader: ShelfReader,
    visit: Visit<T, F>,
) -> (ShelfReader, Option<(Front, T)>)
    requires { F.IsAlwaysCallable visit.look }
    ensures met { (opening : Book) → HasMet opening (view reader.place) → HasMet opening (view result.0.place) }
    ensures one { IfSome result.1 (λ looked. (opening : Book) → HasMet opening (view reader.place) → looked.0.opening ≡ opening) }
    ensures looked { IfSome result.1 (λ looked. FnOnceReturnsAt F.FnOnce visit.look (state_of looked.0.commands) looked.1) }
{
    let Visit { look, found: _ } = visit;
    match reader.enter_as::<Meet>() {
        Ok(reading) => {
            let shelf = reading.get();
            let front = shelf.front.again();
            let found = look(&shelf.index);
            (reading.leave(), Some((front, found)))
        }
        Err(reader) => (reader, None),
    }
}
