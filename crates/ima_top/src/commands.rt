// The commands: which of them read their input, and how each answers it.
ghost use Rattle.std.specs.Prelude.{◌≡◌, ◌≤◌, length, IfOk};
ghost use Rattle.ima_top.specs.Answered.{Answers};
ghost use Rattle.ima_top.specs.commands.Table.{reads, refusal, IsOutput};
ghost use Rattle.ima_top.specs.Limits.{most_input};

mod audit;
mod bad_line;
mod buffers;
mod carry;
mod entries;
mod gen_;
mod label;
mod list;
mod loads;
mod policy;
mod ran;
mod run;

use crate::not_done::NotDone;
use command_line::Command;
use ima_io::{Gate, Pieces};
use std::alloc::{AllocError as OutOfMemory, Global};
use std::sync::Wait;
use std::thread::Threads;

/// The line that is written to the note if the words don't name a command.
pub const USAGE_LINE: &[u8] =
    b"usage: imakern list | run | policy | label | gen N | buffers | carry | audit | loads\n";

/// Whether the command reads its input. A command that doesn't is answered as if the input were
/// empty.
#[tactic(auto, unfolding(crate::specs::commands::Table::reads))]
pub fn reads(command: Command) -> bool
    ensures { result ≡ reads command }
{
    match command {
        Command::List | Command::Policy | Command::Label | Command::Run => true,
        Command::Buffers | Command::Carry | Command::Audit | Command::Loads => true,
        Command::Gen(_) => false,
    }
}

/// The command's answer to the input; each step of a task of its run passes the gate first. The
/// error is `Refused` if the input isn't in the command's grammar, or `OutOfMemory`.
#[tactic(auto, unfolding(crate::specs::commands::Table::refusal, crate::specs::commands::Table::IsOutput))]
pub fn answer_input<G: Gate + Sync, R: Threads + Wait + Sync>(
    rt: &R,
    alloc: Global,
    command: Command,
    input: Vec<u8>,
    gate: &G,
) -> Result<Answer, NotDone>
    requires { length input.items ≤ most_input }
    ensures { Answers result (refusal command input.items)
        (λ answer. IsOutput command input.items answer.stuck answer.output) }
{
    let output = match command {
        Command::Run => return run::answer(rt, alloc, input, gate),
        Command::Audit => return audit::answer(rt, alloc, &input, gate),
        Command::Loads => return loads::answer(rt, alloc, &input, gate),
        Command::Buffers => return buffers::answer(rt, alloc, &input, gate),
        Command::List => list::answer(alloc, &input)?,
        Command::Policy => policy::answer(alloc, &input)?,
        Command::Label => label::answer(alloc, &input)?,
        Command::Carry => carry::answer(alloc, &input)?,
        Command::Gen(number) => gen_::summarize(rt, alloc, number, gate)?,
    };
    let output = whole(alloc, output)?;
    Ok(Answer {
        output,
        stuck: false,
    })
}

// Makes an output of one piece.
fn whole(alloc: Global, output: Vec<u8>) -> Result<Pieces, OutOfMemory>
    ensures { IfOk result (λ pieces. pieces ≡ output.items) }
{
    let mut pieces = Pieces::new(alloc);
    pieces.push(output)?;
    Ok(pieces)
}

/// The answer of a command to its input.
#[derive(Drop)]
pub struct Answer {
    /// The whole output.
    pub output: Pieces,
    /// Whether the run that the output reports is stuck. A command without tasks, or whose tasks
    /// never wait, is never stuck.
    pub stuck: bool,
}
