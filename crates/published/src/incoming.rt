//! The bodies of puts, before and after their analysis.

ghost use Rattle.std.specs.Prelude.{◌≡◌, IfSome};

use core::mem::replace_with;
use documents::Held;
use index::{Analysed, Index};
use std::marker::Model;

/// How far the body of a put has come.
#[derive(Drop)]
pub enum Stage {
    /// It is as it was handed in.
    Plain(Held),
    /// Its trigrams are found.
    Analysed(Analysed),
}

/// The body of a put. Its trigrams are found once, by the publish that shows it.
///
/// Contracts see it as the bytes of the body.
#[derive(Drop)]
pub struct Incoming {
    stage: Stage,
}

impl Model for Incoming {
    ghost use Rattle.std.specs.Prelude.{List, ℕ};
    ghost use Rattle.published.specs.Private.Incoming.{body_at};

    ghost Value = { List ℕ };

    ghost view = { λ i. body_at i.stage };
}

impl Incoming {
    /// The body, not analysed yet.
    pub(crate) fn new(held: Held) -> Incoming
        ensures { result ≡ held }
    {
        Incoming {
            stage: Stage::Plain(held),
        }
    }

    /// Finds the trigrams of the body, and keeps them with it, unless that is done. If a document of the index has the same body, its
    /// trigrams are taken. If memory runs out, it stays to be done.
    pub(crate) fn analyse(&mut self, index: &Index)
        ensures { self.new ≡ self.old }
    {
        replace_with(
            self,
            index,
            |incoming: Incoming, index: &Index| -> (Incoming, ())
                ensures { result.0 ≡ incoming }
            { (incoming.analysed(index), ()) },
        );
    }

    fn analysed(self, index: &Index) -> Incoming
        ensures { result ≡ self }
    {
        let Incoming { stage } = self;
        match stage {
            Stage::Plain(held) => match index.analysed(held) {
                Ok(analysed) => Incoming {
                    stage: Stage::Analysed(analysed),
                },
                Err(held) => Incoming::new(held),
            },
            Stage::Analysed(analysed) => Incoming {
                stage: Stage::Analysed(analysed),
            },
        }
    }

    /// The body with its trigrams. `None` means that they are not found yet.
    pub(crate) fn with_trigrams(&self) -> Option<&Analysed>
        ensures { IfSome result (λ analysed. analysed.now ≡ self.now) }
    {
        match &self.stage {
            Stage::Plain(_) => None,
            Stage::Analysed(analysed) => Some(analysed),
        }
    }

    /// The number of bytes of the body.
    pub(crate) fn len(&self) -> usize {
        match &self.stage {
            Stage::Plain(held) => held.body().as_bytes().len(),
            Stage::Analysed(analysed) => analysed.body().as_bytes().len(),
        }
    }
}
