//! Readings see what is published, and never wait.

ghost use Rattle.std.specs.Prelude.{◌≡◌, ◌⊎◌, true, Some, length, IfOk, IfSome};
ghost use mathlib.Core.List.{IsPrefix};
ghost use Rattle.left_right.specs.Sides.{view};
ghost use Rattle.logbook.specs.Pages.{Book};
ghost use Rattle.documents.specs.State.{state_of};
ghost use Rattle.std.specs.Arc.{arc_value};
ghost use Rattle.std.specs.Fn.{FnOnceReturnsAt};
ghost use Rattle.desk.specs.Counts.{AreCountsOf};
ghost use Rattle.desk.specs.Private.Rule.{HasMet};

use crate::batches::Front;
use crate::counts::Counts;
use crate::error::OpenError;
use crate::rule::{Both, Meet, Note, ShownReader};
use crate::told::Told;
use core::mem::replace_with;
use documents::Corpus;
use std::marker::Model;
use std::sync::Arc;
use versions::Index;

/// What one thread at a time searches with. It has one of the opening's places.
///
/// Contracts see it as the opening that it belongs to, and the commands that it has seen: the longest list
/// that it has learnt of or met in a search.
#[derive(Drop)]
pub struct Reading {
    reader: ShownReader,
    front: Front,
}

impl Model for Reading {
    ghost use Rattle.left_right.specs.Sides.{view as met_by};
    ghost use Rattle.desk.specs.History.{Known};
    ghost use Rattle.desk.specs.Private.Rule.{HasMet};

    ghost Value = { Known };

    ghost view = { λ r. r.front };

    ghost invariant = { λ r. HasMet r.front.opening (met_by r.reader.place) };
}

impl Reading {
    /// A reading that has seen as much as the writer has met.
    ///
    /// An `Err` is `NoPlace`: no place is left for it.
    pub(crate) fn of(both: &mut Both, front: &Front) -> Result<Reading, OpenError>
        requires { view both.old.desk.place ≡ Some front.now }
        ensures reading { IfOk result (λ reading. reading ≡ front.now) }
        ensures met { view both.new.desk.place ≡ view both.old.desk.place }
        ensures shown { both.new.desk.shown ≡ both.old.desk.shown }
        ensures spare { both.new.desk.spare ≡ both.old.desk.spare }
    {
        let Ok(mut reader) = both.factory().reader() else {
            return Err(OpenError::NoPlace);
        };
        reader.learn::<Note>(both.desk.tell::<Note>());
        Ok(Reading {
            reader,
            front: front.again(),
        })
    }

    /// Takes note of a publish of the same opening: from then on the reading has seen at least what it published.
    /// It takes no memory and never waits.
    pub fn learn(&mut self, told: &Told)
        requires { told.now.opening ≡ self.old.opening }
        ensures opening { self.new.opening ≡ self.old.opening }
        ensures seen { IsPrefix self.old.commands self.new.commands }
        ensures told { IsPrefix told.now.commands self.new.commands }
        ensures longer { (self.new ≡ self.old) ⊎ (self.new ≡ told.now) }
    {
        self.front = self.front.longer(&told.front);
    }

    /// The number of commands that it has seen.
    pub fn seen(&self) -> u32
        ensures { result ≡ length self.now.commands }
    {
        self.front.version()
    }

    /// What it has seen, as a publish of it would have handed it out. It takes no memory.
    pub fn told(&self) -> Told
        ensures { result ≡ self.now }
    {
        Told {
            front: self.front.again(),
        }
    }

    /// Enters what is published, once, takes a handle to it and leaves; then it looks at it. It never waits, and no publish waits for
    /// the look. `None` means that the desk was closed, or that the index has too many handles.
    pub fn look<T: Drop, F: FnOnce(&Index) -> T>(&mut self, look: F) -> Option<T>
        requires { F.IsAlwaysCallable look }
        ensures opening { self.new.opening ≡ self.old.opening }
        ensures seen { IsPrefix self.old.commands self.new.commands }
        ensures looked { IfSome result (FnOnceReturnsAt F.FnOnce look (state_of self.new.commands)) }
    {
        let index = self.take()?;
        Some(look(&index))
    }

    /// Counts what is published. It takes no memory and never waits. `None` means that the desk was closed.
    pub fn counts(&mut self) -> Option<Counts>
        ensures opening { self.new.opening ≡ self.old.opening }
        ensures seen { IsPrefix self.old.commands self.new.commands }
        ensures counts { IfSome result (AreCountsOf (state_of self.new.commands)) }
    {
        self.look(count)
    }

    /// A handle to what is published. It takes no memory and never waits. `None` is as that of `look`.
    fn take(&mut self) -> Option<Arc<Index>>
        ensures opening { self.new.opening ≡ self.old.opening }
        ensures seen { IsPrefix self.old.commands self.new.commands }
        ensures taken { IfSome result (λ index. arc_value index ≡ state_of self.new.commands) }
    {
        let (front, index) = replace_with(&mut self.reader, (), enter)?;
        if self.meet(front) { Some(index) } else { None }
    }

    /// Takes note of a front that was met. `false` means that it lacks something that was seen, which never happens.
    fn meet(&mut self, front: Front) -> bool
        requires { front.opening ≡ self.old.opening }
        ensures opening { self.new.opening ≡ self.old.opening }
        ensures seen { IsPrefix self.old.commands self.new.commands }
        ensures met { result ≡ true → self.new.commands ≡ front.commands }
    {
        if !self.front.begins(&front) {
            return false;
        }
        self.front = front;
        true
    }
}

/// How much the index holds.
fn count(index: &Index) -> Counts
    ensures { AreCountsOf index.now result }
{
    Counts {
        version: index.version(),
        documents: index.documents(),
        bytes: index.held_bytes(),
    }
}

/// Enters, takes a handle and leaves. `None` if it cannot enter, or if there are too many handles.
fn enter(reader: ShownReader, _nothing: ()) -> (ShownReader, Option<(Front, Arc<Index>)>)
    ensures met { (opening : Book) → HasMet opening (view reader.place) → HasMet opening (view result.0.place) }
    ensures one { IfSome result.1 (λ taken. (opening : Book) → HasMet opening (view reader.place) → taken.0.opening ≡ opening) }
    ensures taken { IfSome result.1 (λ taken. arc_value taken.1 ≡ state_of taken.0.commands) }
{
    match reader.enter_as::<Meet>() {
        Ok(reading) => {
            let shown = reading.get();
            let front = shown.front.again();
            let index = Arc::try_clone(&shown.index);
            let reader = reading.leave();
            match index {
                Ok(index) => (reader, Some((front, index))),
                Err(_) => (reader, None),
            }
        }
        Err(reader) => (reader, None),
    }
}
