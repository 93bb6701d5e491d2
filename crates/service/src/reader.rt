//! What searches a reader has.

ghost use Rattle.std.specs.Prelude.{◌≡◌};

use crate::naming::Naming;
use published::Reading;
use std::marker::PhantomData;

/// The leave to answer searches of a service, and what they are searched with. It can be in another thread.
#[derive(Drop)]
pub struct Reader<J: Naming> {
    /// What it searches with.
    pub reading: Reading,
    /// Its number, from 1.
    pub number: u32,
    pub of: PhantomData<J>,
    pub ghost opening: { reading.opening ≡ J.book },
}
