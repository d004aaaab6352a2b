// The command `buffers`: the run that measures the buffers of a text into one list.
ghost use Rattle.std.specs.Prelude.{◌≡◌, ◌≤◌, false, length};
ghost use Rattle.buffer_measure.specs.texts.Grammar.{buffers_of};
ghost use Rattle.ima_top.specs.Answered.{Answers};
ghost use Rattle.ima_top.specs.Limits.{most_input};
ghost use Rattle.ima_top.specs.commands.Buffers.{buffers_refusal, IsBuffersOutput};

use crate::commands::Answer;
use crate::commands::bad_line::bad_line;
use crate::not_done::NotDone;
use buffer_measure::{
    BufferText, measure_owned, parse, print_determines, print_in_pieces, runs_alone,
};
use ima_io::Gate;
use script_text::ScriptErr;
use std::alloc::Global;
use std::sync::Wait;
use std::thread::Threads;

/// The run of the text's callers, printed, or the line that names the text's first fault. Each
/// buffer passes the gate before it is measured. The callers run, and the lines of the list are
/// made, on as many threads as the text says.
pub fn answer<G: Gate + Sync, R: Threads + Wait + Sync>(
    rt: &R,
    alloc: Global,
    input: &[u8],
    gate: &G,
) -> Result<Answer, NotDone>
    requires { length input.now ≤ most_input }
    ensures { Answers result (buffers_refusal input.now)
        (λ answer. (answer.stuck ≡ false) × IsBuffersOutput input.now answer.output) }
{
    let text = text_of(alloc, input)?;
    text.keeps();
    runs_alone();
    print_determines();
    let threads = text.threads() as usize;
    let run = measure_owned(rt, alloc, text, gate)?;
    let output = print_in_pieces(rt, alloc, run, threads)?;
    Ok(Answer {
        output,
        stuck: false,
    })
}

// The text of buffers, or the line that names its first fault.
#[tactic(auto, unfolding(crate::specs::commands::Buffers::buffers_refusal))]
fn text_of(alloc: Global, input: &[u8]) -> Result<BufferText, NotDone>
    requires { length input.now ≤ most_input }
    ensures { Answers result (buffers_refusal input.now)
        (λ text. buffers_of input.now ≡ Ok text) }
{
    match parse(alloc, input) {
        Ok(text) => Ok(text),
        Err(ScriptErr::Refused(fault)) => Err(NotDone::Refused(bad_line(alloc, fault)?)),
        Err(ScriptErr::OutOfMemory) => Err(NotDone::OutOfMemory),
    }
}
