//! Segments while they are made of bodies.

ghost use Rattle.std.specs.Prelude.{◌≡◌, ◌<◌, ◌++◌, ◌∷◌, [], IfOk, All};
ghost use Rattle.std.specs.List.Sorted.{IsStrictlyIncreasing};
ghost use Rattle.segments.specs.Bodies.{known_content, body_content};

use crate::content::Analysed;
use crate::keys::{push_keys, table_of};
use crate::marks::Marks;
use crate::order::in_order;
use crate::segment::Segment;
use std::alloc::{AllocError, Global};
use std::marker::Model;

/// A segment while it is made: contents are added one after the other, and nothing is put in order before the end.
///
/// Contracts see it as the list of the contents so far, each with its number and its rising trigrams.
#[derive(Drop)]
pub struct Builder {
    numbers: Vec<u32>,
    /// The key of each content and each of its trigrams: one content's after the other's, in any order within a content.
    keys: Vec<u64>,
}

impl Model for Builder {
    ghost use Rattle.std.specs.Prelude.{List};
    ghost use Rattle.segments.specs.Contents.{Content};
    ghost use Rattle.segments.specs.Private.Keyed.{contents_keyed, AreKeyed};

    ghost Value = { List Content };

    ghost view = { λ b. contents_keyed b.numbers.items b.keys.items };

    ghost invariant = { λ b. AreKeyed b.numbers.items b.keys.items };
}

impl Builder {
    /// No content yet.
    pub fn new(alloc: Global) -> Builder
        ensures { result ≡ [] }
    {
        Builder {
            numbers: Vec::new(alloc),
            keys: Vec::new(alloc),
        }
    }

    /// The same with one more content: the body, with a number above all others. The marks find its trigrams.
    ///
    /// An `Err` means that memory ran out.
    pub fn with_body(
        self,
        marks: &mut Marks,
        number: u32,
        body: &[u8],
    ) -> Result<Builder, AllocError>
        requires { All (λ c. c.number < number) self }
        ensures { IfOk result (λ more. more ≡ self ++ body_content number body.now ∷ []) }
    {
        let mut more = self;
        let place = more.numbers.len() as u32;
        marks.push_trigrams(&mut more.keys, place, body)?;
        more.numbers.push(number)?;
        Ok(more)
    }

    /// The same with one more content, whose trigrams are known, with a number above all others.
    ///
    /// An `Err` means that memory ran out.
    pub fn with_analysed(self, content: Analysed<'_>) -> Result<Builder, AllocError>
        requires above { All (λ c. c.number < content.number) self }
        requires rising { IsStrictlyIncreasing content.trigrams.now }
        ensures { IfOk result (λ more. more ≡ self ++ known_content content.entry.number content.entry.trigrams.now ∷ []) }
    {
        let mut more = self;
        let place = more.numbers.len() as u32;
        push_keys(&mut more.keys, place, content.trigrams)?;
        more.numbers.push(content.number)?;
        Ok(more)
    }

    /// The segment of the contents. All their keys are put in order at once.
    ///
    /// An `Err` means that memory ran out.
    pub fn finish(self, alloc: Global) -> Result<Segment, AllocError>
        ensures { IfOk result (λ segment. segment ≡ self) }
    {
        let Builder { numbers, keys } = self;
        let table = table_of(alloc, numbers.len(), in_order(keys)?)?;
        Ok(Segment::of(numbers, table))
    }
}
