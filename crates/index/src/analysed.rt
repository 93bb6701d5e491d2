//! Bodies with their trigrams, which several indexes share.

ghost use Rattle.std.specs.Prelude.{◌≡◌, IfOk, IfErr};
ghost use Rattle.query.specs.Trigrams.{ListsTrigrams};
ghost use Rattle.documents.specs.Text.{IsBody};

use documents::{Body, Held};
use posting::Trigrams;
use query::trigrams_of;
use std::alloc::{AllocError, Global};
use std::hash::{FoldHasher, Hasher};
use std::marker::Model;
use std::sync::Arc;

/// A body and the trigrams of its lines.
#[derive(Drop)]
struct Analysis {
    held: Held,
    trigrams: Trigrams,
    /// A hash of the body.
    hash: u64,
}

/// A handle to a body and its trigrams, which all handles to it share. The trigrams are found only once.
///
/// Contracts see it as the bytes of the body.
#[derive(Drop)]
pub struct Analysed {
    shared: Arc<Analysis>,
}

impl Model for Analysed {
    ghost use Rattle.std.specs.Prelude.{List, ℕ};

    ghost Value = { List ℕ };

    ghost use Rattle.index.specs.Private.Analysis.{body_in, IsAnalysed};

    ghost view = { λ a. body_in a.shared };

    ghost invariant = { λ a. IsAnalysed a.shared };
}

impl Analysed {
    /// Finds the trigrams of the body's lines, and keeps them with it. An `Err` means that memory ran out, and hands
    /// the body back.
    pub fn new(alloc: Global, held: Held) -> Result<Analysed, Held>
        ensures analysed { IfOk result (λ analysed. analysed ≡ held) }
        ensures returned { IfErr result (λ returned. returned ≡ held) }
    {
        let Ok(trigrams) = trigrams_in(alloc, held.body()) else {
            return Err(held);
        };
        let hash = hash_of(held.body().as_bytes());
        let analysis = Analysis {
            held,
            trigrams,
            hash,
        };
        match Arc::new(alloc, analysis) {
            Ok(shared) => Ok(Analysed { shared }),
            Err(refused) => Err(refused.value.held),
        }
    }

    /// Another handle to the same body and its trigrams, with no memory of its own. An `Err` means that there are too many handles.
    pub fn share(&self) -> Result<Analysed, AllocError>
        ensures { IfOk result (λ analysed. analysed ≡ self.now) }
    {
        let shared = Arc::try_clone(&self.shared)?;
        Ok(Analysed { shared })
    }

    /// Another handle to the body alone. An `Err` means that it has too many handles.
    pub fn held(&self) -> Result<Held, AllocError>
        ensures { IfOk result (λ held. held ≡ self.now) }
    {
        self.shared.held.share()
    }

    /// The body.
    pub fn body(&self) -> &Body
        ensures { result.now ≡ self.now }
    {
        self.shared.held.body()
    }

    /// A hash of the body, which was computed once. No contract depends on it.
    pub(crate) fn hash(&self) -> u64 {
        self.shared.hash
    }

    /// The trigrams of the body's lines, rising, each once.
    pub(crate) fn trigrams(&self) -> &Trigrams
        ensures trigrams { ListsTrigrams self.now result.now }
        ensures body { IsBody self.now }
    {
        let _bytes = self.shared.held.body().as_bytes();
        &self.shared.trigrams
    }
}

/// A hash of these bytes.
pub(crate) fn hash_of(bytes: &[u8]) -> u64 {
    let mut hasher = FoldHasher::default();
    hasher.write(bytes);
    hasher.finish()
}

/// The trigrams of a body's lines.
///
/// An `Err` means that memory ran out.
fn trigrams_in(alloc: Global, body: &Body) -> Result<Trigrams, AllocError>
    ensures trigrams { IfOk result (λ trigrams. ListsTrigrams body.now trigrams) }
    ensures body { IsBody body.now }
{
    let found = trigrams_of(alloc, body.as_bytes())?;
    Trigrams::new(alloc, &found)
}
