//! Trigrams.

ghost use Rattle.std.specs.Prelude.{◌≡◌, ◌<◌, ◌^◌, slice_index};
ghost use Rattle.query.specs.Trigrams.{trigram_of};
ghost use Rattle.query.specs.declared.number.TheConstants.{TRIGRAMS};

use std::marker::Model;

/// How many trigrams there are: the number of each is below this.
pub const TRIGRAMS: u32 = 16_777_216;

/// Three consecutive bytes of a text.
///
/// Contracts see it as its number.
#[derive(Clone, Copy, Debug, PartialEq, Eq, PartialOrd, Ord, Hash)]
pub struct Trigram {
    value: u32,
}

impl Model for Trigram {
    ghost use Rattle.std.specs.Prelude.{ℕ, ◌<◌};
    ghost use Rattle.query.specs.declared.number.TheConstants.{TRIGRAMS};

    ghost Value = { ℕ };

    ghost view = { λ t. t.value };

    ghost invariant = { λ t. t.value < TRIGRAMS };

    ghost inverse = { λ number. record { value = number } };
}

impl Trigram {
    /// The trigram of three bytes, in this order.
    pub fn of(bytes: [u8; 3]) -> Trigram
        ensures { result ≡ trigram_of (slice_index bytes 0) (slice_index bytes 1) (slice_index bytes 2) }
    {
        let [first, second, third] = bytes;
        Trigram {
            value: 65536 * first as u32 + 256 * second as u32 + third as u32,
        }
    }

    /// The trigram with this number.
    pub(crate) fn numbered(number: u32) -> Trigram
        requires { number < TRIGRAMS }
        ensures { result ≡ number }
    {
        Trigram { value: number }
    }

    /// Its number: 65536 times the first byte, plus 256 times the second, plus the third; below 2^24.
    pub fn number(self) -> u32
        ensures value { result ≡ self }
        ensures bound { result < 2 ^ 24 }
    {
        self.value
    }
}
