//! Bodies that several values share.

ghost use Rattle.std.specs.Prelude.{◌≡◌, IfOk, IfErr};

use crate::body::Body;
use crate::error::HeldError;
use std::alloc::AllocError;
use std::marker::Model;
use std::sync::Arc;

/// A handle to a body, which stays in memory for as long as a handle to it does.
///
/// Contracts see it as the bytes of the body.
#[derive(Drop)]
pub struct Held {
    body: Arc<Body>,
}

impl Model for Held {
    ghost use Rattle.std.specs.Prelude.{List, ℕ};
    ghost use Rattle.std.specs.Arc.{arc_value};

    ghost Value = { List ℕ };

    ghost view = { λ h. arc_value h.body };
}

impl Held {
    /// The first handle to the body. An `Err` means that memory ran out, and hands the body back.
    pub fn new(body: Body) -> Result<Held, HeldError>
        ensures held { IfOk result (λ held. held ≡ body) }
        ensures returned { IfErr result (λ e. e.body ≡ body) }
    {
        match Arc::new(body.allocator(), body) {
            Ok(body) => Ok(Held { body }),
            Err(refused) => Err(HeldError {
                body: refused.value,
                error: AllocError,
            }),
        }
    }

    /// Another handle to the same body, with no memory of its own. An `Err` means that the body has too many handles.
    pub fn share(&self) -> Result<Held, AllocError>
        ensures { IfOk result (λ held. held ≡ self.now) }
    {
        let body = Arc::try_clone(&self.body)?;
        Ok(Held { body })
    }

    /// The body.
    pub fn body(&self) -> &Body
        ensures { result.now ≡ self.now }
    {
        &self.body
    }
}
