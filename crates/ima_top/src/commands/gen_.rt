// The command `gen`: the summary of the run of a generated script.
ghost use Rattle.std.specs.Prelude.{◌≡◌, IfOk};
ghost use Rattle.ima_top.specs.Summarized.{IsLoaded};
ghost use Rattle.ima_top.specs.commands.Gen.{IsGenOutput};

use ima_io::Gate;
use report_text::summary;
use script_run::run;
use script_text::{Script, ScriptErr, parse};
use std::alloc::{AllocError as OutOfMemory, Global};
use std::sync::Wait;
use std::thread::Threads;

/// The summary of the run of the number's script. No number is refused.
pub fn summarize<G: Gate + Sync, R: Threads + Wait + Sync>(
    rt: &R,
    alloc: Global,
    number: u32,
    gate: &G,
) -> Result<Vec<u8>, OutOfMemory>
    ensures { IfOk result (λ output. IsGenOutput number output.items) }
{
    let (script, size) = loaded(alloc, number)?;
    let ended = run(rt, alloc, script, gate)?;
    let output = summary(alloc, number, size, &ended)?;
    Ok(output)
}

// The generated script of the number, and the length of its text in bytes.
fn loaded(alloc: Global, number: u32) -> Result<(Script, usize), OutOfMemory>
    ensures { IfOk result (λ r. IsLoaded number r.0 r.1) }
{
    let text = load_gen::script(alloc, number)?;
    match parse(alloc, &text) {
        Ok(script) => Ok((script, text.len())),
        Err(ScriptErr::OutOfMemory) => Err(OutOfMemory),
        Err(ScriptErr::Refused(_)) => unreachable!(),
    }
}
