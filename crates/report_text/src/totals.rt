// The summary of a generated run: its totals.

ghost use Rattle.std.specs.Prelude.{◌≡◌, [], ◌∷◌, ◌++◌, IfOk, OnOk, count_by, not};
ghost use Rattle.report_events.specs.Numerals.{numeral};
ghost use Rattle.std.specs.List.{join_with_byte};
ghost use Rattle.text_forms.specs.Words.{text_of};
ghost use Rattle.report_text.specs.Summary.{count_lines, event_count, is_ok_reply, reply_count, size_lines, summary_of};

use crate::lists::push_values;
use call_steps::Reply;
use inode_events::EndedInode;
use inode_meta::DEFAULT_PCR;
use itoa::Buffer;
use list_format::violations;
use report_events::push_numbered;
use run_model::{Ended, EndedTask};
use std::alloc::{AllocError as OutOfMemory, Global};

/// The summary of the run of the generated script `number`, whose text has `script` bytes. Its
/// lines, which end in a newline, have the number, the length of the script, the length of the list
/// and its violations, the number of events of all inodes, the number of replies that begin with
/// `ok` and of the others, and the default register.
pub fn summary(alloc: Global, number: u32, script: usize, e: &Ended) -> Result<Vec<u8>, OutOfMemory>
    ensures { IfOk result (λ text. text.items ≡ summary_of number script e.now) }
{
    let mut out = Vec::new(alloc);
    push_sizes(&mut out, number, script, e)?;
    push_counts(&mut out, e)?;
    push_values(&mut out, &e.banks, DEFAULT_PCR)?;
    Ok(out)
}

fn push_sizes(out: &mut Vec<u8>, number: u32, script: usize, e: &Ended) -> Result<(), OutOfMemory>
    ensures { OnOk result (out.new.items
        ≡ out.old.items ++ text_of (size_lines number script e.now)) }
{
    let list = e.list.as_slice();
    push_numbered(out, b"gen", u64::from(number))?;
    push_numbered(out, b"\nscript", script as u64)?;
    push_numbered(out, b"\nlist", list.len() as u64)?;
    push_numbered(out, b" violations", violations(list))?;
    out.extend_from_slice(b"\n")
}

fn push_counts(out: &mut Vec<u8>, e: &Ended) -> Result<(), OutOfMemory>
    ensures { OnOk result (out.new.items ≡ out.old.items ++ text_of (count_lines e.now)) }
{
    let replies = count_replies(e.tasks.as_slice());
    push_sum(out, b"events", count_events(e.inodes.as_slice()))?;
    push_sum(out, b"\nreplies ok", replies.ok)?;
    push_sum(out, b" refused", replies.refused)?;
    out.extend_from_slice(b"\n")
}

// Prints the words, a space and the number, which may have up to 128 bits.
fn push_sum(out: &mut Vec<u8>, words: &[u8], n: u128) -> Result<(), OutOfMemory>
    ensures { OnOk result (out.new.items
        ≡ out.old.items ++ join_with_byte 32 (words.now ∷ numeral n ∷ [])) }
{
    out.extend_from_slice(words)?;
    out.extend_from_slice(b" ")?;
    out.extend_from_slice(Buffer::new().format(n).as_bytes())
}

fn count_events(inodes: &[EndedInode]) -> u128
    ensures { result ≡ event_count inodes.now }
{
    let mut events = 0u128;
    for inode in inodes {
        events += inode.journal.len() as u128;
    }
    events
}

// The number of replies that begin with `ok`, and of the others.
#[derive(Clone, Copy)]
struct Replies {
    ok: u128,
    refused: u128,
}

fn count_replies(tasks: &[EndedTask]) -> Replies
    ensures ok { result.ok ≡ reply_count is_ok_reply tasks.now }
    ensures refused { result.refused ≡ reply_count (λ r. not (is_ok_reply r)) tasks.now }
{
    let mut ok = 0u128;
    let mut refused = 0u128;
    for task in tasks {
        let replies = task.replies.as_slice();
        ok += count_ok(replies) as u128;
        refused += count_refused(replies) as u128;
    }
    Replies { ok, refused }
}

fn count_ok(replies: &[Reply]) -> usize
    ensures { result ≡ count_by is_ok_reply replies.now }
{
    replies.iter().filter(|r| is_ok_reply(*r)).count()
}

fn count_refused(replies: &[Reply]) -> usize
    ensures { result ≡ count_by (λ r. not (is_ok_reply r)) replies.now }
{
    replies.iter().filter(|r| !is_ok_reply(*r)).count()
}

fn is_ok_reply(reply: &Reply) -> bool
    ensures { result ≡ is_ok_reply reply.now }
{
    match reply {
        Reply::Done | Reply::Bytes { .. } => true,
        _ => false,
    }
}
