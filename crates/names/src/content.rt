//! What a name stands for.

ghost use Rattle.std.specs.Prelude.{◌≡◌, length, IfOk};

use documents::Held;
use std::alloc::AllocError;

/// What a name stands for: a body, and the number by which it is known to be the same as another's.
#[derive(Drop)]
pub struct Content {
    /// The number of the body.
    pub number: u32,
    /// A handle to the body.
    pub held: Held,
}

impl Content {
    /// Another handle to the content. An `Err` means that its body has too many handles.
    pub fn share(&self) -> Result<Content, AllocError>
        ensures { IfOk result (λ content. content ≡ self.now) }
    {
        Ok(Content {
            number: self.number,
            held: self.held.share()?,
        })
    }

    /// The length of the body, in bytes.
    pub(crate) fn length(&self) -> usize
        ensures { result ≡ length self.now.held }
    {
        self.held.body().as_bytes().len()
    }
}

/// A name and what it stands for, as they lie in a map.
#[derive(Clone, Copy)]
pub struct Named<'a> {
    /// What the name begins with.
    pub beginning: &'a [u8],
    /// What comes behind that in the name.
    pub rest: &'a [u8],
    /// What the name stands for.
    pub content: &'a Content,
}
