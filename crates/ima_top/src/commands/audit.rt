// The command `audit`: the report of the run of a script, and then the trail of what the lines of
// `audit` and `hash` asked for in that run.
ghost use Rattle.std.specs.Prelude.{◌≤◌, length, IfOk};
ghost use Rattle.ima_top.specs.Answered.{Answers};
ghost use Rattle.ima_top.specs.Limits.{most_input};
ghost use Rattle.ima_top.specs.commands.Audit.{IsAuditOutput, trail_of};
ghost use Rattle.ima_top.specs.commands.Ran.{IsLeftBy, IsReportAnd, script_refusal};

use crate::commands::Answer;
use crate::commands::ran::{ran, report_and};
use crate::not_done::NotDone;
use audit_trail::trail;
use ima_io::Gate;
use run_model::Ended;
use script_text::Script;
use std::alloc::{AllocError as OutOfMemory, Global};
use std::sync::Wait;
use std::thread::Threads;

/// The report of the script's run and its trail, or the line that names the script's first fault.
pub fn answer<G: Gate + Sync, R: Threads + Wait + Sync>(
    rt: &R,
    alloc: Global,
    input: &[u8],
    gate: &G,
) -> Result<Answer, NotDone>
    requires { length input.now ≤ most_input }
    ensures { Answers result (script_refusal input.now)
        (λ answer. IsAuditOutput input.now answer.stuck answer.output) }
{
    let (script, ended) = ran(rt, alloc, input, gate)?;
    let answer = reported(alloc, script, ended)?;
    Ok(answer)
}

// The report of a run of the script that left this state, and the trail of that run.
fn reported(alloc: Global, script: Script, ended: Ended) -> Result<Answer, OutOfMemory>
    requires { IsLeftBy script ended }
    ensures { IfOk result (λ answer. IsReportAnd trail_of script answer.stuck answer.output) }
{
    let trail = trail(alloc, &script, &ended)?;
    drop(script);
    let answer = report_and(alloc, ended, trail)?;
    Ok(answer)
}
