//! The command line of `tsearch`: `tsearch [--readers N] [--stats] [--max-commands N] [--live] [--search-ms N]
//! [--max-body N] [--max-line N] [--max-name N] [--times] [FILE]`.
//!
//! `read_arguments` turns the arguments of the program into its settings, or says that they ask for the help
//! or the version, or why they are refused. `clap` reads them.
#![tactic(auto)]

mod arguments;
mod error;
mod help;
mod laws;
mod limits;

pub use arguments::{Request, Settings, not_text, read_arguments};
pub use error::ArgumentError;
pub use help::{HELP, VERSION};
pub use laws::{options_ask_for_themselves, settings_are_one};
