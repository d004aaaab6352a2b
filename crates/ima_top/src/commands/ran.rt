// What the commands of scripts have in common: the script of the input, its run, and the report of
// the run, which `audit` and `loads` let a further text follow.
ghost use Rattle.std.specs.Prelude.{◌≡◌, ◌≤◌, ◌++◌, length, IfOk};
ghost use Rattle.report_text.specs.Report.{report_of};
ghost use Rattle.script_text.specs.Grammar.{script_of};
ghost use Rattle.ima_top.specs.Answered.{Answers};
ghost use Rattle.ima_top.specs.Limits.{most_input};
ghost use Rattle.ima_top.specs.commands.Ran.{IsLeftBy, script_refusal};

use crate::commands::Answer;
use crate::commands::bad_line::bad_line;
use crate::not_done::NotDone;
use ima_io::Gate;
use report_text::report_in_pieces;
use run_model::Ended;
use script_run::run;
use script_text::{Script, ScriptErr, parse};
use std::alloc::{AllocError as OutOfMemory, Global};
use std::sync::Wait;
use std::thread::Threads;

/// The script of the input, or the line that names its first fault.
#[tactic(auto, unfolding(crate::specs::commands::Ran::script_refusal))]
pub fn script(alloc: Global, input: &[u8]) -> Result<Script, NotDone>
    requires { length input.now ≤ most_input }
    ensures { Answers result (script_refusal input.now) (λ s. script_of input.now ≡ Ok s) }
{
    match parse(alloc, input) {
        Ok(script) => Ok(script),
        Err(ScriptErr::Refused(fault)) => Err(NotDone::Refused(bad_line(alloc, fault)?)),
        Err(ScriptErr::OutOfMemory) => Err(NotDone::OutOfMemory),
    }
}

/// The script of the input, and the state that its run leaves. A run consumes its script, so the
/// input is parsed once more.
pub fn ran<G: Gate + Sync, R: Threads + Wait + Sync>(
    rt: &R,
    alloc: Global,
    input: &[u8],
    gate: &G,
) -> Result<(Script, Ended), NotDone>
    requires { length input.now ≤ most_input }
    ensures { Answers result (script_refusal input.now)
        (λ r. (script_of input.now ≡ Ok r.0) × IsLeftBy r.0 r.1) }
{
    let consumed = script(alloc, input)?;
    consumed.keeps();
    let ended = run(rt, alloc, consumed, gate)?;
    let script = script(alloc, input)?;
    Ok((script, ended))
}

/// The report of a run that left this state.
pub fn report(alloc: Global, ended: Ended) -> Result<Answer, OutOfMemory>
    ensures stuck { IfOk result (λ answer. answer.stuck ≡ ended.stuck) }
    ensures output { IfOk result (λ answer. answer.output ≡ report_of ended) }
{
    let stuck = ended.stuck;
    let output = report_in_pieces(alloc, ended)?;
    Ok(Answer { output, stuck })
}

/// The report of a run that left this state, and then the text.
pub fn report_and(alloc: Global, ended: Ended, text: Vec<u8>) -> Result<Answer, OutOfMemory>
    ensures stuck { IfOk result (λ answer. answer.stuck ≡ ended.stuck) }
    ensures output { IfOk result (λ answer. answer.output ≡ report_of ended ++ text.items) }
{
    let mut answer = report(alloc, ended)?;
    answer.output.push(text)?;
    Ok(answer)
}
