// The outcome of a run.

ghost use Rattle.std.specs.Prelude.{◌≡◌, ◌++◌, codes, IfOk, OnOk};
ghost use Rattle.report_text.specs.Numerals.{numeral};
ghost use Rattle.order_outcomes.specs.Calls.{listed_of, verdict_of};
ghost use Rattle.order_outcomes.specs.Outcome.{call_text, calls_text, done_text, listed_text, outcome_of, task_text, tasks_text, verdict_text};

use crate::calls::{listed_of, verdict_of};
use crate::lines::{Kind, push_lines};
use label_values::Verdict;
use report_text::{push_number, push_reply};
use run_model::steps::Reply;
use run_model::{Ended, EndedTask};
use std::alloc::{AllocError as OutOfMemory, Global};
use xattr_store::Bytes;

fn push_verdict(out: &mut Vec<u8>, verdict: Option<Verdict>) -> Result<(), OutOfMemory>
    ensures { OnOk result (out.new.items ≡ out.old.items ++ verdict_text verdict) }
{
    match verdict {
        None => Ok(()),
        Some(Verdict::Pass) => out.extend_from_slice(b" pass"),
        Some(Verdict::Deny(cause)) => {
            out.extend_from_slice(b" deny ")?;
            out.extend_from_slice(cause.word().as_bytes())
        }
    }
}

// Prints whether the list had the content, and ends the line.
fn push_listed(out: &mut Vec<u8>, listed: Option<bool>) -> Result<(), OutOfMemory>
    ensures { OnOk result (out.new.items ≡ out.old.items ++ listed_text listed ++ codes "\n") }
{
    match listed {
        None => out.extend_from_slice(b"\n"),
        Some(true) => out.extend_from_slice(b" listed\n"),
        Some(false) => out.extend_from_slice(b" unlisted\n"),
    }
}

// Prints what the journals say of a call: the verdict of its grant, and of a read whether the list
// had the content. This ends the line.
fn push_said(
    alloc: Global,
    out: &mut Vec<u8>,
    ended: &Ended,
    task: usize,
    call: usize,
) -> Result<(), OutOfMemory>
    ensures { OnOk result (out.new.items
        ≡ out.old.items ++ verdict_text (verdict_of task call ended.now.inodes)
        ++ listed_text (listed_of ended.now.list task call ended.now.inodes) ++ codes "\n") }
{
    let inodes = ended.inodes.as_slice();
    let listed = listed_of(alloc, ended.list.as_slice(), inodes, task, call)?;
    push_verdict(out, verdict_of(inodes, task, call))?;
    push_listed(out, listed)
}

// Prints the line of a call.
fn push_call(
    alloc: Global,
    out: &mut Vec<u8>,
    ended: &Ended,
    task: usize,
    call: usize,
    reply: &Reply,
) -> Result<(), OutOfMemory>
    ensures { OnOk result (out.new.items ≡ out.old.items
        ++ call_text ended.now.list ended.now.inodes task call reply.now) }
{
    push_number(out, call as u64)?;
    out.extend_from_slice(b" ")?;
    push_reply(out, reply)?;
    push_said(alloc, out, ended, task, call)
}

// Prints the lines of the answered calls of a task.
fn push_calls(
    alloc: Global,
    out: &mut Vec<u8>,
    ended: &Ended,
    task: usize,
    replies: &[Reply],
) -> Result<(), OutOfMemory>
    ensures { OnOk result (out.new.items ≡ out.old.items
        ++ calls_text ended.now.list ended.now.inodes task 0 replies.now) }
{
    for (call, reply) in replies.iter().enumerate() {
        push_call(alloc, out, ended, task, call, reply)?;
    }
    Ok(())
}

fn push_done(out: &mut Vec<u8>, done: bool) -> Result<(), OutOfMemory>
    ensures { OnOk result (out.new.items ≡ out.old.items ++ done_text done) }
{
    if done {
        out.extend_from_slice(b" done\n")
    } else {
        out.extend_from_slice(b" unfinished\n")
    }
}

// Prints the number of a task, and whether all of its calls are answered.
fn push_head(out: &mut Vec<u8>, number: usize, done: bool) -> Result<(), OutOfMemory>
    ensures { OnOk result (out.new.items
        ≡ out.old.items ++ codes "task " ++ numeral number ++ done_text done) }
{
    out.extend_from_slice(b"task ")?;
    push_number(out, number as u64)?;
    push_done(out, done)
}

// Prints the lines of a task: whether all of its calls are answered, and what they were told.
fn push_task(
    alloc: Global,
    out: &mut Vec<u8>,
    ended: &Ended,
    number: usize,
    task: &EndedTask,
) -> Result<(), OutOfMemory>
    ensures { OnOk result (out.new.items ≡ out.old.items
        ++ task_text ended.now.list ended.now.inodes number task.now) }
{
    push_head(out, number, task.done)?;
    push_calls(alloc, out, ended, number, task.replies.as_slice())
}

fn push_tasks(
    alloc: Global,
    out: &mut Vec<u8>,
    ended: &Ended,
    tasks: &[EndedTask],
) -> Result<(), OutOfMemory>
    ensures { OnOk result (out.new.items ≡ out.old.items
        ++ tasks_text ended.now.list ended.now.inodes 0 tasks.now) }
{
    for (number, task) in tasks.iter().enumerate() {
        push_task(alloc, out, ended, number, task)?;
    }
    Ok(())
}

/// The outcome of the run that left this state, as a text: the lines of the list's measurements and
/// of its violations, each once and in byte order, and of each task whether it is done, with a line
/// for each answered call.
pub fn outcome_of(alloc: Global, ended: &Ended) -> Result<Bytes, OutOfMemory>
    ensures { IfOk result (λ outcome. outcome ≡ outcome_of ended.now) }
{
    let mut out = Vec::new(alloc);
    let list = ended.list.as_slice();
    push_lines(alloc, &mut out, Kind::Measurements, list)?;
    push_lines(alloc, &mut out, Kind::Violations, list)?;
    push_tasks(alloc, &mut out, ended, ended.tasks.as_slice())?;
    Ok(Bytes::from_vec(out))
}
