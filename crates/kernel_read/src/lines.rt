// The lines of the table.

ghost use Rattle.std.specs.Prelude.{◌≡◌, ℕ, ◌+◌, ◌<◌, ◌≤◌, ◌++◌, Some, length, slice_get, vec_len, IfOk, OnOk};
ghost use Rattle.std.specs.List.{join_with_byte};
ghost use Rattle.report_text.specs.Texts.{line_text};
ghost use Rattle.report_text.specs.Words.{or_dash, placed_words};
ghost use Rattle.script_text.specs.events.forms.Words.{text_of};
ghost use Rattle.run_laws.specs.kernel_reads.Reads.{read_by};
ghost use Rattle.kernel_read.specs.Lines.{hook_text};
ghost use Rattle.kernel_read.specs.Places.{HasPlaces, calls_in, placed_in};
ghost use Rattle.kernel_read.specs.Table.{call_line, call_lines, load_line, task_lines};
ghost use Rattle.script_text.specs.steps.declared.call.Call.{Call};

use crate::calls::read_of;
use crate::places::Row;
use inode_events::EndedInode;
use inode_events::templates::Placed;
use policy_text::Func;
use report_text::{push_number, push_numbers, push_reply};
use run_model::EndedTask;
use run_model::steps::{Call, Reply};
use script_text::TaskBlock;
use std::alloc::AllocError as OutOfMemory;

// Prints a place, or `-`.
fn push_place(out: &mut Vec<u8>, placed: Option<Placed>) -> Result<(), OutOfMemory>
    ensures { OnOk result (out.new.items
        ≡ out.old.items ++ join_with_byte 32 (or_dash (placed_words placed))) }
{
    match placed {
        Some(Placed::Added(place)) => push_numbers(out, b"added", &[place]),
        Some(Placed::Already(place)) => push_numbers(out, b"already", &[place]),
        None => out.extend_from_slice(b"-"),
    }
}

// Prints `load TASK.CALL FUNC` with a space after each.
fn push_hook(out: &mut Vec<u8>, task: u64, call: u64, func: Func) -> Result<(), OutOfMemory>
    ensures { OnOk result (out.new.items ≡ out.old.items ++ hook_text task call func) }
{
    out.extend_from_slice(b"load ")?;
    push_number(out, task)?;
    out.extend_from_slice(b".")?;
    push_number(out, call)?;
    out.extend_from_slice(b" ")?;
    out.extend_from_slice(func.word().as_bytes())?;
    out.extend_from_slice(b" ")
}

// Prints the line of a call.
fn push_load(
    out: &mut Vec<u8>,
    task: u64,
    call: u64,
    func: Func,
    path: &[u8],
    placed: Option<Placed>,
    reply: &Reply,
) -> Result<(), OutOfMemory>
    ensures { OnOk result (out.new.items
        ≡ out.old.items ++ line_text (load_line task call func path.now placed reply.now)) }
{
    push_hook(out, task, call, func)?;
    out.extend_from_slice(path)?;
    out.extend_from_slice(b" ")?;
    push_place(out, placed)?;
    out.extend_from_slice(b" ")?;
    push_reply(out, reply)?;
    out.extend_from_slice(b"\n")
}

// Prints the line of an answered call, if the kernel reads a file by it. Returns how many lines.
fn push_call(
    out: &mut Vec<u8>,
    task: usize,
    call: usize,
    what: &Call,
    reply: &Reply,
    row: &Row,
    inodes: &[EndedInode],
) -> Result<u64, OutOfMemory>
    requires { slice_get row.now call ≡ Some (placed_in inodes.now task call (read_by what.now)) }
    ensures text { IfOk result (λ lines. out.new.items ≡ out.old.items
        ++ text_of (call_line inodes.now task call what.now reply.now (read_by what.now))) }
    ensures count { IfOk result (λ lines. lines
        ≡ length (call_line inodes.now task call what.now reply.now (read_by what.now))) }
    ensures grows { IfOk result (λ lines. vec_len out.old + lines ≤ vec_len out.new) }
{
    let Some((func, number)) = read_of(what) else {
        return Ok(0);
    };
    let Some(inode) = inodes.get(number as usize) else {
        return Ok(0);
    };
    let path = inode.path.as_slice();
    push_load(
        out,
        task as u64,
        call as u64,
        func,
        path,
        row.at(call),
        reply,
    )?;
    Ok(1)
}

// Prints the lines of a task, and returns how many.
fn push_task(
    out: &mut Vec<u8>,
    task: usize,
    calls: &[Call],
    replies: &[Reply],
    row: &Row,
    inodes: &[EndedInode],
) -> Result<u64, OutOfMemory>
    requires { (k : ℕ) (c : Call) → slice_get calls.now k ≡ Some c
        → slice_get row.now k ≡ Some (placed_in inodes.now task k (read_by c)) }
    ensures text { IfOk result (λ lines. out.new.items ≡ out.old.items
        ++ text_of (call_lines inodes.now task 0 calls.now replies.now)) }
    ensures count { IfOk result (λ lines. lines
        ≡ length (call_lines inodes.now task 0 calls.now replies.now)) }
    ensures grows { IfOk result (λ lines. vec_len out.old + lines ≤ vec_len out.new) }
{
    let mut lines = 0;
    for call in 0..calls.len().min(replies.len()) {
        lines += push_call(out, task, call, &calls[call], &replies[call], row, inodes)?;
    }
    Ok(lines)
}

// Prints the lines of all tasks, and returns how many.
pub fn push_tasks(
    out: &mut Vec<u8>,
    tasks: &[TaskBlock],
    ended: &[EndedTask],
    rows: &[Row],
    inodes: &[EndedInode],
) -> Result<u64, OutOfMemory>
    requires { HasPlaces (calls_in tasks.now) inodes.now rows.now }
    ensures text { IfOk result (λ lines. out.new.items ≡ out.old.items
        ++ text_of (task_lines inodes.now 0 (calls_in tasks.now) ended.now)) }
    ensures count { IfOk result (λ lines. lines
        ≡ length (task_lines inodes.now 0 (calls_in tasks.now) ended.now)) }
{
    let mut lines = 0;
    for task in 0..tasks.len().min(ended.len()) {
        let block = &tasks[task];
        let done = &ended[task];
        lines += push_task(
            out,
            task,
            block.calls.as_slice(),
            done.replies.as_slice(),
            &rows[task],
            inodes,
        )?;
    }
    Ok(lines)
}
