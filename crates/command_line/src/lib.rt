//! The words of the command line, read with `clap`.
//!
//! The definition of the command that the words name (`specs/Words.antt`) doesn't mention the
//! parser, and [`command_of`] returns what it says for every list of words. Each command has a
//! variant of [`Command`], a word in [`Command::by`], and a subcommand of the parser.
#![tactic(auto)]

mod command;
mod parser;

pub use command::Command;
pub use parser::command_of;
