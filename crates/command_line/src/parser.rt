// The parser: a program with one subcommand for each command, and no options, help or version.
ghost use Rattle.std.specs.Prelude.{◌≡◌, map, string_bytes, IfOk};
ghost use Rattle.std.specs.List.{list_any};
ghost use Rattle.clap.specs.Words.{app_of, subcommand_rows_of};
ghost use Rattle.clap.specs.Simple.{shape_of};
ghost use Rattle.command_line.specs.Words.{command_of, is_option};
ghost use Rattle.command_line.specs.Program.{bare, command_met, numbered, program, with_words};

use crate::command::Command;
use clap::ArgMatches;
use clap::error::ErrorKind;
use std::alloc::{AllocError as OutOfMemory, Global};

// The words of the commands that are one word alone.
const LONE_COMMANDS: [&str; 8] = [
    "list", "policy", "label", "run", "buffers", "carry", "audit", "loads",
];

/// The command that the words name, if any. The words don't include the program's name.
///
/// If a word begins with a hyphen, nothing is parsed: the program has no options, so the words
/// aren't a command.
pub fn command_of(alloc: Global, words: &[String]) -> Result<Option<Command>, OutOfMemory>
    ensures { IfOk result (λ command. command ≡ command_of (map string_bytes words.now)) }
{
    if has_option(words) {
        return Ok(None);
    }
    match program(alloc)?.try_get_matches_from(words) {
        Ok(matches) => Ok(command_met(&matches)),
        Err(error) => match error.kind() {
            ErrorKind::OutOfMemory => Err(OutOfMemory),
            _ => Ok(None),
        },
    }
}

// The command of the subcommand that the parser met.
fn command_met(matches: &ArgMatches) -> Option<Command>
    ensures { result ≡ command_met (subcommand_rows_of matches.now) }
{
    match matches.subcommand() {
        Some((name, rest)) => Command::by(name, rest.get_str("number")),
        None => None,
    }
}

fn has_option(words: &[String]) -> bool
    ensures { result ≡ list_any (λ word. is_option (string_bytes word)) words.now }
{
    words.iter().any(|word| is_option(word.as_str()))
}

fn is_option(word: &str) -> bool
    ensures { result ≡ is_option word.now }
{
    match word.as_bytes() {
        [first, ..] => *first == b'-',
        [] => false,
    }
}

fn program<'a>(alloc: Global) -> Result<clap::Command<'a>, OutOfMemory>
    ensures { IfOk result (λ p. app_of p ≡ program) }
{
    let numbered = numbered(alloc, "gen")?;
    let program = bare(alloc).subcommand(numbered)?;
    with_commands(alloc, program, &LONE_COMMANDS)
}

fn bare<'a>(alloc: Global) -> clap::Command<'a>
    ensures { app_of result ≡ bare }
{
    clap::Command::new(alloc, "imakern")
        .no_binary_name(true)
        .disable_help_flag(true)
        .disable_help_subcommand(true)
        .disable_version_flag(true)
        .subcommand_required(true)
}

// Adds a subcommand for each of the words.
fn with_commands<'a>(
    alloc: Global,
    program: clap::Command<'a>,
    names: &[&'a str],
) -> Result<clap::Command<'a>, OutOfMemory>
    ensures { IfOk result (λ p. app_of p
        ≡ with_words (app_of program.entry) (map (λ name. name.now) names.now)) }
{
    let mut program = program;
    for &name in names {
        program = program.subcommand(clap::Command::new(alloc, name))?;
    }
    Ok(program)
}

// A command that takes one number.
fn numbered<'a>(alloc: Global, name: &'a str) -> Result<clap::Command<'a>, OutOfMemory>
    ensures { IfOk result (λ command. shape_of command ≡ numbered name.entry.now) }
{
    let number = clap::Arg::new(alloc, "number").required(true);
    clap::Command::new(alloc, name).arg(number)
}
