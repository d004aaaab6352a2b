// The commands of the program and the words that name them.
ghost use Rattle.std.specs.Prelude.{◌≡◌, ◌≤◌, IfSome, option_map};
ghost use Rattle.command_line.specs.Words.{command_by, command_named, command_numbered, script_number};

use text_forms::short_number_of;

/// A command of the program.
#[derive(Clone, Copy)]
pub enum Command {
    /// Prints the measurement list of the files of a list text.
    List,
    /// Prints the canonical text of a policy.
    Policy,
    /// Prints the values that a seal would write on the files of a script.
    Label,
    /// Runs a script and prints the report of its run.
    Run,
    /// Measures the buffers of a text into one list, and prints the list and each buffer's answer.
    Buffers,
    /// Prints the measurement list that goes on from the one that an earlier boot left.
    Carry,
    /// Runs a script and prints the report of its run, and its audit trail.
    Audit,
    /// Runs a script and prints the report of its run, and what the kernel itself has read in it.
    Loads,
    /// Runs the generated script of a number from 1 to 1,000,000 and prints the summary of its run.
    Gen(u32),
}

impl Command {
    /// The command that `word` names, with the number after it if there is one.
    pub fn by(word: &str, number: Option<&str>) -> Option<Command>
        ensures { result ≡ command_by word.now (option_map (λ n. n.now) number.entry) }
    {
        match number {
            None => named(word),
            Some(number) => numbered(word, number),
        }
    }
}

fn named(word: &str) -> Option<Command>
    ensures { result ≡ command_named word.now }
{
    match word {
        "list" => Some(Command::List),
        "policy" => Some(Command::Policy),
        "label" => Some(Command::Label),
        "run" => Some(Command::Run),
        "buffers" => Some(Command::Buffers),
        "carry" => Some(Command::Carry),
        "audit" => Some(Command::Audit),
        "loads" => Some(Command::Loads),
        _ => None,
    }
}

fn numbered(word: &str, number: &str) -> Option<Command>
    ensures { result ≡ command_numbered word.now number.now }
{
    match word {
        "gen" => match script_number(number) {
            Some(number) => Some(Command::Gen(number)),
            None => None,
        },
        _ => None,
    }
}

fn script_number(text: &str) -> Option<u32>
    ensures { result ≡ script_number text.now }
{
    match short_number_of(text.as_bytes(), 10, 1_000_000) {
        Some(number) if number > 0 => Some(number as u32),
        _ => None,
    }
}
