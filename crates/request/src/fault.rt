//! Why a `find` is refused.

ghost use Rattle.std.specs.Prelude.{◌≡◌, ◌++◌, OnOk, codes};
ghost use Rattle.request.specs.Names.{length_text, range_text, text_of, times_text};

use crate::names::OptionName;
use std::alloc::{AllocError, AllocFailed};

/// Why a `find` is refused: the first fault from the left.
#[derive(Clone, Copy, Debug, PartialEq, Eq)]
pub enum FindFault<'t> {
    /// This word before the pattern names no option. It can be empty.
    BadOption(&'t [u8]),
    /// The option is there already.
    Twice(OptionName),
    /// The option is there as often as it can be.
    TooOften(OptionName),
    /// The option is not followed by a number within its range.
    NeedsNumber(OptionName),
    /// The option is not followed by a word within its length.
    NeedsWord(OptionName),
    /// The first option is there already, and the second cannot be there as well.
    Exclude(OptionName, OptionName),
    /// There is no `--` before the pattern.
    NoSeparator,
    /// Memory ran out.
    OutOfMemory,
}

impl<T: Drop> From<AllocFailed<T>> for FindFault<'_> {
    ghost use Rattle.request.specs.declared.fault.FindFault.TheVariants.{OutOfMemory};

    ghost from_gives = { λ _ fault. fault ≡ OutOfMemory };

    fn from(_: AllocFailed<T>) -> Self {
        FindFault::OutOfMemory
    }
}

impl FindFault<'_> {
    ghost use Rattle.request.specs.Faults.{reason_of};

    /// Writes the fault in words to the end of a text, as in `option -m twice`.
    ///
    /// An `Err` means that memory ran out. Some of the words can then be at the text's end.
    pub fn write_reason(&self, text: &mut Vec<u8>) -> Result<(), AllocError>
        ensures { OnOk result (text.new.items ≡ text.old.items ++ reason_of self.now) }
    {
        match self {
            FindFault::BadOption(word) => add(text, b"bad option ", word),
            FindFault::Twice(name) => add_option(text, *name, b" twice"),
            FindFault::TooOften(name) => add_option(text, *name, too_often(*name)),
            FindFault::NeedsNumber(name) => add_option(text, *name, needed(*name)),
            FindFault::NeedsWord(name) => add_option(text, *name, needed_word(*name)),
            FindFault::Exclude(earlier, name) => {
                add(text, earlier.text().as_bytes(), b" and ")?;
                add(text, name.text().as_bytes(), b" exclude each other")
            }
            FindFault::NoSeparator => text.extend_from_slice(b"no -- before the pattern"),
            FindFault::OutOfMemory => text.extend_from_slice(b"out of memory"),
        }
    }
}

/// Adds two texts.
fn add(text: &mut Vec<u8>, first: &[u8], second: &[u8]) -> Result<(), AllocError>
    ensures { OnOk result (text.new.items ≡ text.old.items ++ first.now ++ second.now) }
{
    text.extend_from_slice(first)?;
    text.extend_from_slice(second)
}

/// Adds an option and what is said of it.
fn add_option(text: &mut Vec<u8>, name: OptionName, said: &[u8]) -> Result<(), AllocError>
    ensures { OnOk result (text.new.items ≡ text.old.items ++ codes "option " ++ text_of name ++ said.now) }
{
    add(text, b"option ", name.text().as_bytes())?;
    text.extend_from_slice(said)
}

/// What is said of an option without its number.
fn needed(name: OptionName) -> &'static [u8]
    ensures { result.now ≡ codes " needs a number from " ++ range_text name }
{
    match name {
        OptionName::Context => b" needs a number from 0 to 1000",
        _ => b" needs a number from 1 to 4294967295",
    }
}

/// What is said of an option that is there too often.
fn too_often(name: OptionName) -> &'static [u8]
    ensures { result.now ≡ codes " over " ++ times_text name ++ codes " times" }
{
    match name {
        OptionName::Under => b" over 4096 times",
        OptionName::NotUnder => b" over 4096 times",
        _ => b" over 16 times",
    }
}

/// What is said of an option without its word.
fn needed_word(name: OptionName) -> &'static [u8]
    ensures { result.now ≡ codes " needs a word of " ++ length_text name }
{
    match name {
        OptionName::Lane => b" needs a word of 1 to 64 bytes",
        _ => b" needs a word of 1 byte or more",
    }
}
