//! Laws of the command line. Each function does nothing: its clauses are the law.

ghost use Rattle.cli.specs.Laws.{OptionsAskForThemselves, SettingsAreOne, SettingsStandAlone};

/// Arguments spell one set of settings at most, and those that spell one ask for neither the help nor the version.
pub fn settings_are_one()
    ensures one { SettingsAreOne }
    ensures alone { SettingsStandAlone }
{}

/// `--version` alone asks for the version only, and `--help` alone for the help only.
pub fn options_ask_for_themselves()
    ensures { OptionsAskForThemselves }
{}
