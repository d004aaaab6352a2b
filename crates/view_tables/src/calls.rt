// The calls of the tasks and their replies in a page.

ghost use Rattle.std.specs.Prelude.{◌≡◌, slice_get, take, IfOk, OnOk};
ghost use Rattle.view_tables.specs.Calls as spec;
ghost use Rattle.view_page.specs.Parts.{Pushed};

use crate::entries::{FIRST_SHOWN, added_at, is_shown, push_said};
use report_read::{Inode, InodeHead, Reply, Span, Task};
use std::alloc::{AllocError as OutOfMemory, Global};
use view_page::{Part, Side, Table, after_word, cut, path, push_more, push_parts};
use view_plan::{Asked, At, Shown, counted, fill, is_drawn};

// Of the calls of a task that weren't ok at most as many are shown.
const MOST_REFUSED: u64 = 50;

// No more tasks are shown.
const MOST_TASKS: usize = 64;

fn push_call_link(
    out: &mut Vec<u8>,
    text: &[u8],
    side: Side,
    at: At,
    call: u64,
) -> Result<(), OutOfMemory>
    ensures { OnOk result
        (Pushed text.now out.old.items out.new.items (spec.call_link side at call)) }
{
    let parts = [
        Part::Table(Table::Link),
        Part::Side(side),
        Part::Table(Table::I),
        Part::Number(u64::from(at.inode)),
        Part::Table(Table::E),
        Part::Number(u64::from(at.place)),
        Part::Table(Table::Shown),
        Part::Number(call),
        Part::Table(Table::LinkEnd),
    ];
    push_parts(out, text, &parts)
}

// The number of a call, with a link to its first event if the page draws it.
fn push_linked(
    out: &mut Vec<u8>,
    text: &[u8],
    side: Side,
    shown: &[Shown],
    at: At,
    call: u64,
) -> Result<(), OutOfMemory>
    ensures { OnOk result
        (Pushed text.now out.old.items out.new.items (spec.linked side shown.now at call)) }
{
    if is_drawn(shown, at) {
        push_call_link(out, text, side, at, call)
    } else {
        push_parts(out, text, &[Part::Number(call)])
    }
}

fn push_path_of(out: &mut Vec<u8>, text: &[u8], head: InodeHead) -> Result<(), OutOfMemory>
    ensures { OnOk result
        (Pushed text.now out.old.items out.new.items (spec.path_of text.now head)) }
{
    push_said(out, text, cut(80, path(text, head)))
}

// The path of the inode of this number.
fn push_path(
    out: &mut Vec<u8>,
    text: &[u8],
    inodes: &[Inode],
    number: usize,
) -> Result<(), OutOfMemory>
    ensures { OnOk result (Pushed text.now out.old.items out.new.items
        (spec.path_said text.now (slice_get inodes.now number))) }
{
    match inodes.get(number) {
        Some(inode) => push_path_of(out, text, inode.head),
        None => push_parts(out, text, &[]),
    }
}

fn push_call_by(
    out: &mut Vec<u8>,
    text: &[u8],
    side: Side,
    shown: &[Shown],
    inodes: &[Inode],
    at: At,
    call: u64,
) -> Result<(), OutOfMemory>
    ensures { OnOk result (Pushed text.now out.old.items out.new.items
        (spec.call_by text.now side shown.now inodes.now at call)) }
{
    let line = cut(80, after_word(text, after_word(text, at.line)));
    push_linked(out, text, side, shown, at, call)?;
    push_said(out, text, line)?;
    push_path(out, text, inodes, at.inode as usize)
}

fn push_call_at(
    out: &mut Vec<u8>,
    text: &[u8],
    side: Side,
    shown: &[Shown],
    inodes: &[Inode],
    at: Option<At>,
    call: u64,
) -> Result<(), OutOfMemory>
    ensures { OnOk result (Pushed text.now out.old.items out.new.items
        (spec.call_at text.now side shown.now inodes.now at call)) }
{
    match at {
        Some(at) => push_call_by(out, text, side, shown, inodes, at, call),
        None => push_parts(
            out,
            text,
            &[Part::Number(call), Part::Table(Table::NoEvent)],
        ),
    }
}

fn chip_is(ok: bool) -> Part
    ensures { result ≡ spec.chip_is ok }
{
    if ok {
        Part::Table(Table::Chip)
    } else {
        Part::Table(Table::ChipNo)
    }
}

fn push_reply(out: &mut Vec<u8>, text: &[u8], line: Span) -> Result<(), OutOfMemory>
    ensures { OnOk result
        (Pushed text.now out.old.items out.new.items (spec.reply text.now line)) }
{
    let reply = after_word(text, line);
    let parts = [
        Part::Table(Table::Reply),
        Part::Text(cut(200, reply)),
        Part::Table(Table::Shown),
        Part::Text(cut(24, reply)),
        Part::Table(Table::ReplyEnd),
    ];
    push_parts(out, text, &parts)
}

fn push_chip(
    out: &mut Vec<u8>,
    text: &[u8],
    side: Side,
    shown: &[Shown],
    inodes: &[Inode],
    at: Option<At>,
    call: u64,
    reply: Reply,
) -> Result<(), OutOfMemory>
    ensures { OnOk result (Pushed text.now out.old.items out.new.items
        (spec.chip text.now side shown.now inodes.now at call reply)) }
{
    push_parts(out, text, &[chip_is(reply.ok)])?;
    push_call_at(out, text, side, shown, inodes, at, call)?;
    push_reply(out, text, reply.line)
}

// The call of this number after so many that weren't ok, if it is shown.
fn push_chip_at(
    out: &mut Vec<u8>,
    text: &[u8],
    side: Side,
    shown: &[Shown],
    inodes: &[Inode],
    firsts: &[Option<At>],
    marks: u64,
    call: usize,
    reply: Reply,
) -> Result<(), OutOfMemory>
    ensures { OnOk result (Pushed text.now out.old.items out.new.items
        (spec.chip_at text.now side shown.now inodes.now firsts.now marks call reply)) }
{
    if is_shown(MOST_REFUSED, call as u64, marks, !reply.ok) {
        let at = added_at(firsts, call);
        push_chip(out, text, side, shown, inodes, at, call as u64, reply)
    } else {
        push_parts(out, text, &[])
    }
}

fn push_chips_of(
    out: &mut Vec<u8>,
    text: &[u8],
    side: Side,
    shown: &[Shown],
    inodes: &[Inode],
    firsts: &[Option<At>],
    replies: &[Reply],
) -> Result<(), OutOfMemory>
    ensures { OnOk result (Pushed text.now out.old.items out.new.items
        (spec.chips_from text.now side shown.now inodes.now firsts.now 0 0 replies.now)) }
{
    let mut marks = 0;
    for (call, reply) in replies.iter().enumerate() {
        let reply = *reply;
        push_chip_at(out, text, side, shown, inodes, firsts, marks, call, reply)?;
        marks = counted(!reply.ok, marks);
    }
    Ok(())
}

// For each of so many calls of a task, its first event.
fn firsts(
    alloc: Global,
    task: u64,
    calls: usize,
    inodes: &[Inode],
) -> Result<Vec<Option<At>>, OutOfMemory>
    ensures { IfOk result (λ v. v.items ≡ spec.firsts task calls inodes.now) }
{
    let mut table = Vec::new(alloc);
    table.resize(calls, None)?;
    fill(&mut table, Asked::Calls(task), inodes);
    Ok(table)
}

fn push_chips(
    alloc: Global,
    out: &mut Vec<u8>,
    text: &[u8],
    side: Side,
    shown: &[Shown],
    inodes: &[Inode],
    task: u64,
    replies: &[Reply],
) -> Result<(), OutOfMemory>
    ensures { OnOk result (Pushed text.now out.old.items out.new.items
        (spec.chips text.now side shown.now inodes.now task replies.now)) }
{
    let firsts = firsts(alloc, task, replies.len(), inodes)?;
    push_chips_of(out, text, side, shown, inodes, &firsts, replies)
}

fn push_cut_calls(out: &mut Vec<u8>, text: &[u8], n: u64) -> Result<(), OutOfMemory>
    ensures { OnOk result (Pushed text.now out.old.items out.new.items (spec.cut_calls n)) }
{
    if n > FIRST_SHOWN {
        let parts = [
            Part::Table(Table::Calls),
            Part::Number(n),
            Part::Table(Table::CallsEnd),
        ];
        push_parts(out, text, &parts)
    } else {
        push_parts(out, text, &[])
    }
}

fn push_waits(out: &mut Vec<u8>, text: &[u8], done: bool, call: u64) -> Result<(), OutOfMemory>
    ensures { OnOk result (Pushed text.now out.old.items out.new.items (spec.waits done call)) }
{
    if done {
        push_parts(out, text, &[])
    } else {
        let parts = [
            Part::Table(Table::Wait),
            Part::Number(call),
            Part::Table(Table::WaitEnd),
        ];
        push_parts(out, text, &parts)
    }
}

fn push_task_head(out: &mut Vec<u8>, text: &[u8], number: u64) -> Result<(), OutOfMemory>
    ensures { OnOk result (Pushed text.now out.old.items out.new.items (spec.task_head number)) }
{
    let parts = [
        Part::Table(Table::TaskRow),
        Part::Number(number),
        Part::Table(Table::Cell),
    ];
    push_parts(out, text, &parts)
}

fn push_task_by(
    alloc: Global,
    out: &mut Vec<u8>,
    text: &[u8],
    side: Side,
    shown: &[Shown],
    inodes: &[Inode],
    number: u64,
    done: bool,
    replies: &[Reply],
) -> Result<(), OutOfMemory>
    ensures { OnOk result (Pushed text.now out.old.items out.new.items
        (spec.task_by text.now side shown.now inodes.now number done replies.now)) }
{
    push_task_head(out, text, number)?;
    push_chips(alloc, out, text, side, shown, inodes, number, replies)?;
    push_cut_calls(out, text, replies.len() as u64)?;
    push_waits(out, text, done, replies.len() as u64)?;
    push_parts(out, text, &[Part::Table(Table::RowEnd)])
}

fn push_task(
    alloc: Global,
    out: &mut Vec<u8>,
    text: &[u8],
    side: Side,
    shown: &[Shown],
    inodes: &[Inode],
    number: u64,
    task: &Task,
) -> Result<(), OutOfMemory>
    ensures { OnOk result (Pushed text.now out.old.items out.new.items
        (spec.task text.now side shown.now inodes.now number task.now)) }
{
    push_task_by(
        alloc,
        out,
        text,
        side,
        shown,
        inodes,
        number,
        task.done,
        &task.replies,
    )
}

fn push_tasks(
    alloc: Global,
    out: &mut Vec<u8>,
    text: &[u8],
    side: Side,
    shown: &[Shown],
    inodes: &[Inode],
    tasks: &[Task],
) -> Result<(), OutOfMemory>
    ensures { OnOk result (Pushed text.now out.old.items out.new.items
        (spec.tasks_from text.now side shown.now inodes.now 0 tasks.now)) }
{
    for (number, task) in tasks.iter().enumerate() {
        push_task(alloc, out, text, side, shown, inodes, number as u64, task)?;
    }
    Ok(())
}

fn first_of(tasks: &[Task]) -> &[Task]
    ensures { result.now ≡ take spec.most_tasks tasks.now }
{
    &tasks[..tasks.len().min(MOST_TASKS)]
}

/// Appends the calls of the tasks and their replies.
pub fn push_calls(
    alloc: Global,
    out: &mut Vec<u8>,
    text: &[u8],
    side: Side,
    shown: &[Shown],
    inodes: &[Inode],
    tasks: &[Task],
) -> Result<(), OutOfMemory>
    ensures { OnOk result (Pushed text.now out.old.items out.new.items
        (spec.calls text.now side shown.now inodes.now tasks.now)) }
{
    let more = tasks.len().saturating_sub(MOST_TASKS) as u64;
    push_parts(out, text, &[Part::Table(Table::Replies)])?;
    push_tasks(alloc, out, text, side, shown, inodes, first_of(tasks))?;
    push_parts(out, text, &[Part::Table(Table::TableEnd)])?;
    push_more(
        out,
        text,
        Part::Table(Table::More),
        more,
        Part::Table(Table::MoreEnd),
    )
}
