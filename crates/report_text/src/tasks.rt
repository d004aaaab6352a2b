// The section of the tasks: whether each is done, and its replies.

ghost use Rattle.std.specs.Prelude.{◌≡◌, ◌∷◌, ◌++◌, OnOk};
ghost use Rattle.report_events.specs.Numerals.{numeral};
ghost use Rattle.std.specs.List.{join_with_byte};
ghost use Rattle.text_forms.specs.Words.{text_of};
ghost use Rattle.report_text.specs.Report.{all_task_lines, reply_lines, reply_words, task_lines};
ghost use Rattle.report_events.specs.Texts.{line_text};

use crate::pieces::cut;
use call_steps::Reply;
use hash_algos::Sha256Digest;
use ima_io::Pieces;
use list_format::append_hex;
use report_events::{push_number, push_numbered, push_pair};
use run_model::EndedTask;
use std::alloc::{AllocError as OutOfMemory, Global};

pub fn push_tasks(out: &mut Vec<u8>, tasks: &[EndedTask]) -> Result<(), OutOfMemory>
    ensures { OnOk result (out.new.items
        ≡ out.old.items ++ text_of (all_task_lines 0 tasks.now)) }
{
    for (number, task) in tasks.iter().enumerate() {
        push_task(out, number as u64, task)?;
    }
    Ok(())
}

// Prints each task and then drops it, so that its memory is free for the text.
pub fn push_tasks_in_pieces(
    alloc: Global,
    out: &mut Pieces,
    tasks: Vec<EndedTask>,
) -> Result<(), OutOfMemory>
    ensures { OnOk result (out.new ≡ out.old ++ text_of (all_task_lines 0 tasks.items)) }
{
    let mut piece = Vec::new(alloc);
    let mut number = 0;
    for task in tasks {
        push_task(&mut piece, number, &task)?;
        piece = cut(alloc, out, piece)?;
        number += 1;
    }
    out.push(piece)?;
    Ok(())
}

fn push_task(out: &mut Vec<u8>, number: u64, task: &EndedTask) -> Result<(), OutOfMemory>
    ensures { OnOk result (out.new.items
        ≡ out.old.items ++ text_of (task_lines number task.now)) }
{
    push_numbered(out, b"task", number)?;
    out.extend_from_slice(if task.done {
        b" done\n".as_slice()
    } else {
        b" unfinished\n"
    })?;
    push_replies(out, task.replies.as_slice())
}

// Prints the replies of the answered calls, each with the number of its call.
fn push_replies(out: &mut Vec<u8>, replies: &[Reply]) -> Result<(), OutOfMemory>
    ensures { OnOk result (out.new.items
        ≡ out.old.items ++ text_of (reply_lines 0 replies.now)) }
{
    for (call, reply) in replies.iter().enumerate() {
        push_answer(out, call as u64, reply)?;
    }
    Ok(())
}

fn push_answer(out: &mut Vec<u8>, call: u64, reply: &Reply) -> Result<(), OutOfMemory>
    ensures { OnOk result (out.new.items
        ≡ out.old.items ++ line_text (numeral call ∷ reply_words reply.now)) }
{
    push_number(out, call)?;
    out.extend_from_slice(b" ")?;
    push_reply(out, reply)?;
    out.extend_from_slice(b"\n")
}

/// Prints a reply: its word, and what belongs to it.
pub fn push_reply(out: &mut Vec<u8>, reply: &Reply) -> Result<(), OutOfMemory>
    ensures { OnOk result (out.new.items
        ≡ out.old.items ++ join_with_byte 32 (reply_words reply.now)) }
{
    match reply {
        Reply::Done => out.extend_from_slice(b"ok"),
        Reply::Bytes { n, digest } => push_bytes(out, *n, digest),
        Reply::NotFound => out.extend_from_slice(b"ENOENT"),
        Reply::BadFile => out.extend_from_slice(b"EBADF"),
        Reply::TextBusy => out.extend_from_slice(b"ETXTBSY"),
        Reply::TooBig => out.extend_from_slice(b"EFBIG"),
        Reply::TooLong => out.extend_from_slice(b"E2BIG"),
        Reply::NoData => out.extend_from_slice(b"ENODATA"),
        Reply::Invalid => out.extend_from_slice(b"EINVAL"),
        Reply::EvmName => out.extend_from_slice(b"EPERM evm-attribute"),
        Reply::NotAdmin => out.extend_from_slice(b"EPERM admin"),
        Reply::Status(status) => push_pair(out, b"EPERM", status.word().as_bytes()),
        Reply::Denied(cause) => push_pair(out, b"EACCES", cause.word().as_bytes()),
    }
}

// Prints the answer of a read: the number of bytes, and their digest.
fn push_bytes(out: &mut Vec<u8>, n: u32, digest: &Sha256Digest) -> Result<(), OutOfMemory>
    ensures { OnOk result (out.new.items
        ≡ out.old.items ++ join_with_byte 32 (reply_words (Reply.Bytes n digest.now))) }
{
    push_numbered(out, b"ok", u64::from(n))?;
    append_hex(out, b' ', digest.as_slice())
}
