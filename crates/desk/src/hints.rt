//! Where bodies were put, so that one that is there already is found.

use documents::Body;
use std::alloc::Global;
use std::collections::BTreeMap;
use std::hash::{FoldHasher, Hasher};
use versions::{Draft, Like};

/// How many hints are looked at for each one that is noted, to forget those that lead to nothing. With more than one, there are never
/// many more of these than of others.
const LOOKED_AT: usize = 2;

/// By the hash of a body, where it was put. Of the bodies with one hash the last one is known, so many bodies that are made to have the
/// same hash cost no more than others. No contract depends on what hints there are.
#[derive(Drop)]
pub(crate) struct Hints {
    places: BTreeMap<u64, Like>,
    /// The hints that are looked at next have at least this hash.
    next: u64,
}

impl Hints {
    /// No hints. They take no memory.
    pub(crate) fn new(alloc: Global) -> Hints {
        Hints {
            places: BTreeMap::new(alloc),
            next: 0,
        }
    }

    /// Where a body with this hash was put, if that is known.
    pub(crate) fn get(&self, hash: u64) -> Option<&Like> {
        self.places.get(&hash)
    }

    /// Notes where a body with this hash was put. Without memory it is not noted. A few other hints are forgotten, if they lead to
    /// nothing in the draft.
    pub(crate) fn note(&mut self, hash: u64, like: Like, draft: &Draft) {
        let _ = self.places.insert(hash, like);
        for _ in 0..LOOKED_AT {
            self.look(draft);
        }
    }

    /// Looks at the next hint, and forgets it if it leads to nothing in the draft.
    fn look(&mut self, draft: &Draft) {
        let Some((hash, leads)) = self.next(draft) else {
            self.next = 0;
            return;
        };
        if !leads {
            self.places.remove(&hash);
        }
        self.next = hash.wrapping_add(1);
    }

    /// The hash of the next hint, and whether it leads to a content.
    fn next(&self, draft: &Draft) -> Option<(u64, bool)> {
        let (hash, like) = self.places.range(self.next..).next()?;
        Some((*hash, draft.leads(like)))
    }
}

/// A hash of the body.
pub(crate) fn hash_of(body: &Body) -> u64 {
    let mut hasher = FoldHasher::default();
    hasher.write(body.as_bytes());
    hasher.finish()
}
