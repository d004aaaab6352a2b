// The command `run`: the report of the run of a script.
ghost use Rattle.std.specs.Prelude.{◌≤◌, length};
ghost use Rattle.ima_top.specs.Answered.{Answers};
ghost use Rattle.ima_top.specs.Limits.{most_input};
ghost use Rattle.ima_top.specs.commands.Run.{IsRunOutput, run_refusal};

use crate::commands::Answer;
use crate::commands::ran::{report, script};
use crate::not_done::NotDone;
use ima_io::Gate;
use script_run::run;
use std::alloc::Global;
use std::sync::Wait;
use std::thread::Threads;

/// The report of the script's run, or the line that names the script's first fault. The input is
/// dropped once it is parsed.
pub fn answer<G: Gate + Sync, R: Threads + Wait + Sync>(
    rt: &R,
    alloc: Global,
    input: Vec<u8>,
    gate: &G,
) -> Result<Answer, NotDone>
    requires { length input.items ≤ most_input }
    ensures { Answers result (run_refusal input.items)
        (λ answer. IsRunOutput input.items answer.stuck answer.output) }
{
    let script = script(alloc, &input)?;
    drop(input);
    let ended = run(rt, alloc, script, gate)?;
    let answer = report(alloc, ended)?;
    Ok(answer)
}
