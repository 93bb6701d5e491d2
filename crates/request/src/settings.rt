//! The settings before the pattern, each an option and what follows it.

ghost use Rattle.std.specs.Prelude.{◌≡◌, ◌≢◌, ◌≤◌, ◌<◌, ℕ, IfErr, IfOk, List, MatchBool, MatchOption, codes, length};
ghost use Rattle.request.specs.Faults.{IsFaultAt, IsFree, IsNamed};
ghost use Rattle.request.specs.Names.{takes};
ghost use Rattle.request.specs.Private.Kept.{IsTally, shown_argument, shown_setting, shown_settings};
ghost use Rattle.request.specs.Settings.{Setting as Spelled, SpellsArgument, SpellsSetting};
ghost use Rattle.request.specs.Words.{after_word, first_word};

use crate::fault::FindFault;
use crate::names::{OptionName, Takes, option_named};
use crate::words::{cut_word, number_in};
use std::alloc::Global;

/// What follows an option.
#[derive(Clone, Copy, Debug)]
pub enum Argument<'t> {
    /// Nothing that belongs to it.
    Nothing,
    /// A word.
    Text(&'t [u8]),
    /// A number.
    Number(u32),
}

/// An option and what follows it.
#[derive(Clone, Copy, Debug)]
pub struct Setting<'t> {
    /// The option.
    pub name: OptionName,
    /// What follows it.
    pub argument: Argument<'t>,
}

/// The settings that were taken so far. There can be thousands of prefixes, which exclude no option, so they are only counted
/// where the next setting is looked at.
#[derive(Debug, Drop)]
pub struct Earlier<'t> {
    /// All of them, in their order.
    pub settings: Vec<Setting<'t>>,
    // those of other options than `--under` and `--not-under`, in their order
    others: Vec<Setting<'t>>,
    under: usize,
    not_under: usize,
}

impl<'t> Earlier<'t> {
    ghost use Rattle.std.specs.Prelude.{◌≡◌, ◌∷◌, ◌++◌, [], OnOk, IfErr};
    ghost use Rattle.request.specs.Private.Kept.{IsTally, prefix_times};

    /// No settings.
    pub fn none(alloc: Global) -> Earlier<'t>
        ensures none { result.settings.items ≡ [] }
        ensures tally { IsTally result }
    {
        Earlier {
            settings: Vec::new(alloc),
            others: Vec::new(alloc),
            under: 0,
            not_under: 0,
        }
    }

    /// Adds a setting. An `Err` is `OutOfMemory`.
    pub fn push(&mut self, setting: Setting<'t>) -> Result<(), FindFault<'t>>
        requires { IsTally self.old }
        ensures settings { OnOk result (self.new.settings.items ≡ self.old.settings.items ++ setting.entry ∷ []) }
        ensures tally { OnOk result (IsTally self.new) }
        ensures err { IfErr result (λ fault. fault ≡ FindFault.OutOfMemory) }
    {
        self.settings.push(setting)?;
        match setting.name {
            OptionName::Under => self.under += 1,
            OptionName::NotUnder => self.not_under += 1,
            _ => self.others.push(setting)?,
        }
        Ok(())
    }

    /// How many of them are of this option, if it is `--under` or `--not-under`, and 0 if not.
    fn prefix_times(&self, name: OptionName) -> usize
        ensures { result ≡ prefix_times self.now.under self.now.not_under name }
    {
        match name {
            OptionName::Under => self.under,
            OptionName::NotUnder => self.not_under,
            _ => 0,
        }
    }
}

/// A setting, and the text after it.
#[derive(Clone, Copy, Debug)]
pub struct CutSetting<'t> {
    /// The setting.
    pub setting: Setting<'t>,
    /// The text after it.
    pub rest: &'t [u8],
}

/// Takes the setting at the front of a text, which comes after these settings. The text does not begin with the word
/// `--`.
///
/// An `Err` is the first fault of the setting: `NoSeparator` if the text is empty, or ends where `-n` or `-N` needs a
/// word; `BadOption` if its first word names no option; `Twice`, `TooOften` or `Exclude` if the option cannot follow
/// the earlier ones; or `NeedsNumber` if no number within its range follows it, and `NeedsWord` if no word within its
/// length does. It is never `OutOfMemory`.
pub fn take_setting<'t>(
    earlier: &Earlier<'t>,
    text: &'t [u8],
) -> Result<CutSetting<'t>, FindFault<'t>>
    requires separator { first_word text.now ≢ codes "--" }
    requires tally { IsTally earlier.now }
    ensures ok { IfOk result (λ taken. SpellsSetting text.now taken.rest.now (shown_setting taken.setting)) }
    ensures free { IfOk result (λ taken. IsFree taken.setting.name (shown_settings earlier.now.settings.items)) }
    ensures shorter { IfOk result (λ taken. length taken.rest.now < length text.now) }
    ensures err { IfErr result (IsFaultAt (shown_settings earlier.now.settings.items) text.now) }
{
    if text.is_empty() {
        return Err(FindFault::NoSeparator);
    }
    let cut = cut_word(text);
    let Some(name) = option_named(cut.word) else {
        return Err(FindFault::BadOption(cut.word));
    };
    if let Some(fault) = fault_after(earlier, name) {
        return Err(fault);
    }
    let followed = take_argument(name, cut.after)?;
    Ok(CutSetting {
        setting: Setting {
            name,
            argument: followed.argument,
        },
        rest: followed.rest,
    })
}

/// Why the option cannot follow these settings.
fn fault_after<'t>(earlier: &Earlier<'t>, name: OptionName) -> Option<FindFault<'t>>
    requires { IsTally earlier.now }
    ensures { MatchOption result (IsFree name (shown_settings earlier.now.settings.items))
        (λ fault. (text : List ℕ) → IsNamed text name → IsFaultAt (shown_settings earlier.now.settings.items) text fault) }
{
    let mut times = 0;
    for setting in &earlier.others {
        if setting.name.is(name) {
            if !name.is_repeatable() {
                return Some(FindFault::Twice(name));
            }
            times += 1;
        } else if setting.name.excludes(name) {
            return Some(FindFault::Exclude(setting.name, name));
        }
    }
    if times + earlier.prefix_times(name) >= name.most_times() {
        return Some(FindFault::TooOften(name));
    }
    None
}

/// What follows an option, and the text after that.
#[derive(Clone, Copy, Debug)]
struct Followed<'t> {
    argument: Argument<'t>,
    rest: &'t [u8],
}

/// Takes what follows the option from the text after its word.
fn take_argument(name: OptionName, text: &[u8]) -> Result<Followed<'_>, FindFault<'_>>
    ensures ok { IfOk result (λ followed. SpellsArgument (takes name) text.now followed.rest.now (shown_argument followed.argument)) }
    ensures shorter { IfOk result (λ followed. length followed.rest.now ≤ length text.now) }
    ensures err { IfErr result (λ fault. (settings : List Spelled) (whole : List ℕ) → IsNamed whole name → after_word whole ≡ text.now
        → IsFree name settings → IsFaultAt settings whole fault) }
{
    match name.takes() {
        Takes::Nothing => Ok(Followed {
            argument: Argument::Nothing,
            rest: text,
        }),
        Takes::Word => {
            if text.is_empty() {
                return Err(FindFault::NoSeparator);
            }
            let cut = cut_word(text);
            Ok(Followed {
                argument: Argument::Text(cut.word),
                rest: cut.after,
            })
        }
        Takes::ShortWord(most) => {
            let cut = cut_word(text);
            if !is_short(cut.word, most) {
                return Err(FindFault::NeedsWord(name));
            }
            Ok(Followed {
                argument: Argument::Text(cut.word),
                rest: cut.after,
            })
        }
        Takes::Number(least, greatest) => {
            let cut = cut_word(text);
            match number_in(cut.word, least, greatest) {
                Some(number) => Ok(Followed {
                    argument: Argument::Number(number),
                    rest: cut.after,
                }),
                None => Err(FindFault::NeedsNumber(name)),
            }
        }
    }
}

/// Whether a word has at least one byte, and at most so many.
fn is_short(word: &[u8], most: u32) -> bool
    ensures { MatchBool result ((0 < length word.now) × (length word.now ≤ most))
        ((0 < length word.now) → (length word.now ≤ most) → ⊥) }
{
    !word.is_empty() && word.len() <= most as usize
}
