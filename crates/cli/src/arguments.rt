//! The arguments of the program, and the settings that they spell.

ghost use Rattle.std.specs.Prelude.{◌≡◌, IfOk, IfErr, Some, codes, false, map, string_bytes};
ghost use Rattle.clap.specs.Faults.{fault_of};
ghost use Rattle.clap.specs.Kinds.{FailsBy};
ghost use Rattle.clap.specs.Simple.{app_of, new_app, new_rule};
ghost use Rattle.clap.specs.Walk.{rule_of};
ghost use Rattle.cli.specs.CommandLine.{IsInLimits, IsRefusalOf, IsRequestOf, IsSettingsIn, command_line, flag, found_in, with_version};

use crate::error::ArgumentError;
use crate::help::{HELP, VERSION};
use crate::limits::{
    DEFAULT_MAX_BODY, DEFAULT_MAX_COMMANDS, DEFAULT_MAX_LINE, DEFAULT_MAX_NAME, DEFAULT_READERS,
    MAX_BODY, MAX_COMMANDS, MAX_LINE, MAX_NAME, MAX_READERS, MAX_SEARCH_MS,
};
use clap::builder::ValueParser;
use clap::error::ErrorKind;
use clap::{Arg, ArgAction, Command, Error, value_parser};
use std::alloc::{AllocError, Global};

/// How the arguments set a run or a session.
#[derive(Clone, Copy, Debug, PartialEq, Eq)]
pub struct Settings<'a> {
    /// `--live`: whether it is a session, which carries out each item of the script as it comes.
    pub live: bool,
    /// `--readers`: how many readers there are, 0 to 16, by default 2.
    pub readers: u32,
    /// `--max-commands`: how many commands are accepted at most, 1 to 4,294,967,294, by default 1,000,000.
    pub max_commands: u32,
    /// `--stats`: whether each answer shows its number of candidates and of documents.
    pub stats: bool,
    /// `--search-ms`: after how many milliseconds a search that has no answer yet is given up, 1 to 4,294,967,295, if
    /// there is such a limit.
    pub search_ms: Option<u32>,
    /// `--max-body`: how long a body may be, in bytes, 1 to 67,108,864, by default 1,048,576.
    pub max_body: u32,
    /// `--max-line`: how long a line may be, in bytes, 1 to 67,108,864, by default 16,384.
    pub max_line: u32,
    /// `--max-name`: how long a name may be, in bytes, 1 to 4,096, by default 255.
    pub max_name: u32,
    /// `--times`: whether each answer shows how long it waited and worked, and the way its lines were found.
    pub times: bool,
    /// `FILE`: the path of the script, if it is not standard input.
    pub file: Option<&'a str>,
}

/// What arguments ask for.
#[derive(Clone, Copy, Debug, PartialEq, Eq)]
pub enum Request<'a> {
    /// A run or a session with these settings.
    Run(Settings<'a>),
    /// The help, which is `HELP`.
    Help,
    /// The version, which is `VERSION`.
    Version,
}

/// Reads the arguments. The first one is the program's name.
///
/// `Refused` means that `clap` refuses them, and `OutOfMemory` that memory ran out.
pub fn read_arguments<'a>(
    alloc: Global,
    arguments: &'a [String],
) -> Result<Request<'a>, ArgumentError>
    ensures request { IfOk result (IsRequestOf (map string_bytes arguments.entry.now)) }
    ensures refused { IfErr result (IsRefusalOf (map string_bytes arguments.entry.now)) }
{
    match read_settings(alloc, arguments) {
        Ok(settings) => Ok(Request::Run(settings)),
        Err(error) => match error.kind() {
            ErrorKind::DisplayHelp => Ok(Request::Help),
            ErrorKind::DisplayVersion => Ok(Request::Version),
            ErrorKind::OutOfMemory => Err(ArgumentError::OutOfMemory),
            _ => Err(ArgumentError::Refused(error)),
        },
    }
}

/// The error for arguments that are not UTF-8: `Refused`, or `OutOfMemory` if memory ran out for its text.
pub fn not_text(alloc: Global) -> ArgumentError {
    let message = "invalid UTF-8 was detected in one or more arguments";
    let refused = match command(alloc) {
        Ok(mut command) => command.error(ErrorKind::InvalidValue, message),
        Err(error) => Err(error),
    };
    match refused {
        Ok(error) => ArgumentError::Refused(error),
        Err(_) => ArgumentError::OutOfMemory,
    }
}

/// Reads the settings from the arguments, with the defaults for those that are missing.
fn read_settings<'a>(alloc: Global, arguments: &'a [String]) -> Result<Settings<'a>, Error>
    ensures found { IfOk result (IsSettingsIn (found_in (map string_bytes arguments.entry.now))) }
    ensures limits { IfOk result IsInLimits }
    ensures kinds { FailsBy (fault_of command_line (map string_bytes arguments.entry.now)) result }
{
    let matches = command(alloc)?.try_get_matches_from(arguments)?;
    let readers = matches.get_one::<u32>("readers");
    let max_commands = matches.get_one::<u32>("max-commands");
    let stats = matches.get_one::<bool>("stats");
    let live = matches.get_one::<bool>("live");
    let search_ms = matches.get_one::<u32>("search-ms");
    let max_body = matches.get_one::<u32>("max-body");
    let max_line = matches.get_one::<u32>("max-line");
    let max_name = matches.get_one::<u32>("max-name");
    let times = matches.get_one::<bool>("times");
    Ok(Settings {
        live: live.unwrap_or(false),
        readers: readers.unwrap_or(DEFAULT_READERS),
        max_commands: max_commands.unwrap_or(DEFAULT_MAX_COMMANDS),
        stats: stats.unwrap_or(false),
        search_ms,
        max_body: max_body.unwrap_or(DEFAULT_MAX_BODY),
        max_line: max_line.unwrap_or(DEFAULT_MAX_LINE),
        max_name: max_name.unwrap_or(DEFAULT_MAX_NAME),
        times: times.unwrap_or(false),
        file: matches.get_str("FILE"),
    })
}

/// The command line that `clap` reads the arguments by. An `Err` means that memory ran out.
fn command<'a>(alloc: Global) -> Result<Command<'a>, AllocError>
    ensures command_line { IfOk result (λ command. app_of command ≡ command_line) }
{
    let readers = value_parser!(u32).range(0..=MAX_READERS as i64);
    let max_commands = value_parser!(u32).range(1..=MAX_COMMANDS as i64);
    let search_ms = value_parser!(u32).range(1..=MAX_SEARCH_MS as i64);
    let max_body = value_parser!(u32).range(1..=MAX_BODY as i64);
    let max_line = value_parser!(u32).range(1..=MAX_LINE as i64);
    let max_name = value_parser!(u32).range(1..=MAX_NAME as i64);
    program(alloc)?
        .arg(number_option(alloc, "readers", readers))?
        .arg(flag(alloc, "stats"))?
        .arg(number_option(alloc, "max-commands", max_commands))?
        .arg(flag(alloc, "live"))?
        .arg(number_option(alloc, "search-ms", search_ms))?
        .arg(number_option(alloc, "max-body", max_body))?
        .arg(number_option(alloc, "max-line", max_line))?
        .arg(number_option(alloc, "max-name", max_name))?
        .arg(flag(alloc, "times"))?
        .arg(Arg::new(alloc, "FILE"))
}

/// The program without its options. An `Err` means that memory ran out.
fn program<'a>(alloc: Global) -> Result<Command<'a>, AllocError>
    ensures { IfOk result (λ command. app_of command ≡ with_version (new_app (codes "tsearch"))) }
{
    let named = Command::new(alloc, "tsearch").bin_name("tsearch")?;
    Ok(named.override_help(HELP).version(VERSION))
}

/// The option `--name N`, whose value is read by this parser.
fn number_option<'a>(alloc: Global, name: &'a str, parser: ValueParser<'a>) -> Arg<'a>
    ensures rule { rule_of result ≡ record (new_rule name.now) { long = Some name.now; value_names = 1; parser = Some parser.entry } }
    ensures local { result.global ≡ false }
{
    Arg::new(alloc, name)
        .long(name)
        .value_name("N")
        .value_parser(parser)
}

/// The option `--name`, which takes no value.
fn flag<'a>(alloc: Global, name: &'a str) -> Arg<'a>
    ensures rule { rule_of result ≡ flag name.now }
    ensures local { result.global ≡ false }
{
    Arg::new(alloc, name).long(name).action(ArgAction::SetTrue)
}
