//! What each of the two copies has: a handle to an index, and the front of the history that it represents.

ghost use Rattle.std.specs.Prelude.{◌≡◌};
ghost use Rattle.std.specs.Arc.{arc_value};
ghost use Rattle.desk.specs.Private.Sight.{sight};

use crate::batches::Front;
use left_right::Absorb;
use std::alloc::AllocError;
use std::marker::Model;
use std::sync::Arc;
use versions::Index;

/// A handle to an index, and the front of the history that the index represents.
///
/// Contracts see it as the state of the index and the front.
#[derive(Drop)]
pub struct Shown {
    pub(crate) index: Arc<Index>,
    pub(crate) front: Front,
}

impl Model for Shown {
    ghost use Rattle.std.specs.Arc.{arc_value};
    ghost use Rattle.std.specs.Coded.{codes};
    ghost use Rattle.documents.specs.State.{state_code};
    ghost use Rattle.desk.specs.Private.Sight.{Sight, sight};

    ghost Value = { Sight };

    ghost coded = { Prim.hlevel (codes, state_code) };

    ghost view = { λ s. sight (arc_value s.index) s.front };
}

/// `left_right`'s own log stays empty: a copy is written anew by an assignment, which needs no memory.
impl Absorb<()> for Shown {
    type State = ();

    ghost state = { λ _. tt };

    ghost applied = { λ state _. state };

    fn absorb_first(&mut self, _operation: &(), _other: &Shown) -> Result<(), AllocError> {
        Ok(())
    }
}

impl Shown {
    /// This index, with this front.
    pub(crate) fn new(index: Arc<Index>, front: &Front) -> Shown
        ensures { result ≡ sight (arc_value index) front.now }
    {
        Shown {
            index,
            front: front.again(),
        }
    }
}
