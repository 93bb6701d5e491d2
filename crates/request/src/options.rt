//! The options that settings say.

ghost use Rattle.std.specs.Prelude.{◌≡◌, IfErr, IfOk, map, option_map, slice_get, unwrap_or};
ghost use Rattle.std.specs.List.{filter_map};
ghost use Rattle.request.specs.Find.{case_if, has_option, lane_in, limit_in, options_of, prefix_in, test_in, view_in};
ghost use Rattle.request.specs.Private.Kept.{shown_argument, shown_settings};
ghost use Rattle.request.specs.Shown.{shown_options, shown_test};

use crate::fault::FindFault;
use crate::names::OptionName;
use crate::settings::{Argument, Setting};
use ere::Case;
use std::alloc::Global;

/// A pattern that the names of documents must match, or must not match.
#[derive(Clone, Copy, Debug)]
pub struct NameTest<'t> {
    /// The pattern, not read yet.
    pub pattern: &'t [u8],
    /// Whether names must match it. If not, they must not match it.
    pub wanted: bool,
}

/// What is shown of the lines that are found.
#[derive(Clone, Copy, Debug, PartialEq, Eq)]
pub enum View {
    /// Each line. This is shown if no option says another view.
    Lines,
    /// Each line, with as many lines before it and after it, 0 to 1000. Even with 0 this is not `Lines`: stretches of
    /// lines that do not touch are set apart, as `grep -C 0` does.
    Context(u32),
    /// Each line, and where its first match is.
    Column,
    /// Each line, and where its matches are.
    Spans,
    /// The names of the documents alone.
    Names,
    /// The names of the documents, and how many of their lines are found.
    Counts,
    /// Only how much is found.
    Header,
}

/// The options of a `find`.
#[derive(Debug, Drop)]
pub struct FindOptions<'t> {
    /// Whether case counts in the pattern.
    pub case: Case,
    /// Whether the pattern is a text, in which every byte stands for itself.
    pub literal: bool,
    /// Whether only matches count that have no letter, digit or `_` right before or after them.
    pub whole_words: bool,
    /// Whether only matches count that are whole lines. Then `whole_words` changes nothing.
    pub whole_lines: bool,
    /// Whether the lines that contain no match are found.
    pub invert: bool,
    /// The tests of names, in the order of the settings. A name must pass all of them.
    pub names: Vec<NameTest<'t>>,
    /// The texts with one of which a name must begin, if there are any, in the order of the settings.
    pub under: Vec<&'t [u8]>,
    /// The texts with none of which a name may begin, in the order of the settings.
    pub not_under: Vec<&'t [u8]>,
    /// Whether case counts in the patterns of names.
    pub name_case: Case,
    /// How many lines, or names, are shown at most, from 1. `None` if all are.
    pub limit: Option<u32>,
    /// What is shown.
    pub view: View,
    /// Whether a zero byte comes after each name.
    pub zero: bool,
    /// The lane in which the search waits for a reader, if one is named: 1 to 64 bytes. It changes no answer.
    pub lane: Option<&'t [u8]>,
}

/// The options that these settings say.
///
/// An `Err` is `OutOfMemory`: there is no memory for the tests of names or for the prefixes.
pub fn options_of<'t>(
    alloc: Global,
    settings: &[Setting<'t>],
) -> Result<FindOptions<'t>, FindFault<'t>>
    ensures ok { IfOk result (λ options. shown_options options ≡ options_of (shown_settings settings.now)) }
    ensures err { IfErr result (λ fault. fault ≡ FindFault.OutOfMemory) }
{
    let names = tests_of(alloc, settings)?;
    let under = prefixes_of(alloc, OptionName::Under, settings)?;
    let not_under = prefixes_of(alloc, OptionName::NotUnder, settings)?;
    Ok(FindOptions {
        case: case_if(has_option(settings, OptionName::IgnoreCase)),
        literal: has_option(settings, OptionName::Literal),
        whole_words: has_option(settings, OptionName::WholeWords),
        whole_lines: has_option(settings, OptionName::WholeLines),
        invert: has_option(settings, OptionName::Invert),
        names,
        under,
        not_under,
        name_case: case_if(has_option(settings, OptionName::IgnoreNameCase)),
        limit: limit_of(settings),
        view: view_of(settings),
        zero: has_option(settings, OptionName::Zero),
        lane: lane_of(settings),
    })
}

/// The tests of names, in the order of the settings.
fn tests_of<'t>(alloc: Global, settings: &[Setting<'t>]) -> Result<Vec<NameTest<'t>>, FindFault<'t>>
    ensures ok { IfOk result (λ tests. map shown_test tests.items
        ≡ filter_map (λ setting. test_in setting.name setting.argument) (shown_settings settings.now)) }
    ensures err { IfErr result (λ fault. fault ≡ FindFault.OutOfMemory) }
{
    let mut tests = Vec::new(alloc);
    for setting in settings {
        if let Some(test) = test_in(setting) {
            tests.push(test)?;
        }
    }
    Ok(tests)
}

/// The prefixes that this option gives, in the order of the settings.
fn prefixes_of<'t>(
    alloc: Global,
    of: OptionName,
    settings: &[Setting<'t>],
) -> Result<Vec<&'t [u8]>, FindFault<'t>>
    ensures ok { IfOk result (λ prefixes. map (λ prefix. prefix.now) prefixes.items
        ≡ filter_map (λ setting. prefix_in of setting.name setting.argument) (shown_settings settings.now)) }
    ensures err { IfErr result (λ fault. fault ≡ FindFault.OutOfMemory) }
{
    let mut prefixes = Vec::new(alloc);
    for setting in settings {
        if let Some(prefix) = prefix_in(of, setting) {
            prefixes.push(prefix)?;
        }
    }
    Ok(prefixes)
}

/// The prefix in a setting of this option.
fn prefix_in<'t>(of: OptionName, setting: &Setting<'t>) -> Option<&'t [u8]>
    ensures { option_map (λ word. word.now) result ≡ prefix_in of setting.now.name (shown_argument setting.now.argument) }
{
    match setting.argument {
        Argument::Text(prefix) if of.is(setting.name) => Some(prefix),
        _ => None,
    }
}

/// Whether a setting is of this option.
fn has_option(settings: &[Setting<'_>], name: OptionName) -> bool
    ensures { result ≡ has_option name (shown_settings settings.now) }
{
    settings.iter().any(|setting| setting.name.is(name))
}

/// `Ignore` if case is ignored.
fn case_if(ignored: bool) -> Case
    ensures { result ≡ case_if ignored }
{
    if ignored { Case::Ignore } else { Case::Exact }
}

/// The test of names in a setting.
fn test_in<'t>(setting: &Setting<'t>) -> Option<NameTest<'t>>
    ensures { option_map shown_test result ≡ test_in setting.now.name (shown_argument setting.now.argument) }
{
    match (setting.name, setting.argument) {
        (OptionName::Named, Argument::Text(pattern)) => Some(NameTest {
            pattern,
            wanted: true,
        }),
        (OptionName::NotNamed, Argument::Text(pattern)) => Some(NameTest {
            pattern,
            wanted: false,
        }),
        _ => None,
    }
}

/// The limit, if a setting has one.
fn limit_of(settings: &[Setting<'_>]) -> Option<u32>
    ensures { result ≡ slice_get (filter_map (λ setting. limit_in setting.name setting.argument) (shown_settings settings.now)) 0 }
{
    for setting in settings {
        if let Some(limit) = limit_in(setting) {
            return Some(limit);
        }
    }
    None
}

/// The limit in a setting.
fn limit_in(setting: &Setting<'_>) -> Option<u32>
    ensures { result ≡ limit_in setting.now.name (shown_argument setting.now.argument) }
{
    match (setting.name, setting.argument) {
        (OptionName::Limit, Argument::Number(limit)) => Some(limit),
        _ => None,
    }
}

/// The lane, if a setting names one.
fn lane_of<'t>(settings: &[Setting<'t>]) -> Option<&'t [u8]>
    ensures { option_map (λ word. word.now) result
        ≡ slice_get (filter_map (λ setting. lane_in setting.name setting.argument) (shown_settings settings.now)) 0 }
{
    for setting in settings {
        if let Some(lane) = lane_in(setting) {
            return Some(lane);
        }
    }
    None
}

/// The lane in a setting.
fn lane_in<'t>(setting: &Setting<'t>) -> Option<&'t [u8]>
    ensures { option_map (λ word. word.now) result ≡ lane_in setting.now.name (shown_argument setting.now.argument) }
{
    match (setting.name, setting.argument) {
        (OptionName::Lane, Argument::Text(lane)) => Some(lane),
        _ => None,
    }
}

/// What is shown: what a setting says, or `Lines` if none says it.
fn view_of(settings: &[Setting<'_>]) -> View
    ensures { result ≡ unwrap_or (slice_get (filter_map (λ setting. view_in setting.name setting.argument) (shown_settings settings.now)) 0) View.Lines }
{
    for setting in settings {
        if let Some(view) = view_in(setting) {
            return view;
        }
    }
    View::Lines
}

/// What is shown by a setting.
fn view_in(setting: &Setting<'_>) -> Option<View>
    ensures { result ≡ view_in setting.now.name (shown_argument setting.now.argument) }
{
    match (setting.name, setting.argument) {
        (OptionName::Names, _) => Some(View::Names),
        (OptionName::Counts, _) => Some(View::Counts),
        (OptionName::Header, _) => Some(View::Header),
        (OptionName::Context, Argument::Number(lines)) => Some(View::Context(lines)),
        (OptionName::Column, _) => Some(View::Column),
        (OptionName::Spans, _) => Some(View::Spans),
        _ => None,
    }
}
