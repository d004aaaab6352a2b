// The report as a whole.

ghost use Rattle.std.specs.Prelude.{◌≡◌, [], ◌∷◌, ◌++◌, IfOk, OnOk, codes, length};
ghost use Rattle.report_events.specs.Numerals.{numeral};
ghost use Rattle.std.specs.List.{count_by, flat_map, list_all};
ghost use Rattle.list_format.specs.Line.{ascii_line};
ghost use Rattle.text_forms.specs.Words.{text_of};
ghost use Rattle.report_text.specs.Report.{all_inode_lines, all_task_lines, appended_lines, ending_word, head_lines, pcr_lines, report_of};

use crate::inodes::{push_inodes, push_inodes_in_pieces};
use crate::lists::{push_appended, push_entries, push_registers};
use crate::tasks::{push_tasks, push_tasks_in_pieces};
use ima_io::Pieces;
use inode_events::EndedInode;
use inode_meta::Template;
use list_format::violations;
use report_events::push_numbered;
use run_model::{Ended, EndedTask};
use std::alloc::{AllocError as OutOfMemory, Global};

/// The report of a run, in lines that end in a newline: whether the run is done; its list, in the
/// form of `ascii_runtime_measurements`; the registers that an entry extends; the appended rules,
/// if the script can append any; each inode with its journal; and each task with its replies.
pub fn report(alloc: Global, e: &Ended) -> Result<Vec<u8>, OutOfMemory>
    ensures { IfOk result (λ text. text.items ≡ report_of e.now) }
{
    let mut out = head(alloc, e)?;
    push_inodes(&mut out, e.template, e.grows, e.inodes.as_slice())?;
    push_tasks(&mut out, e.tasks.as_slice())?;
    push_end(&mut out)?;
    Ok(out)
}

/// The same report, in pieces. Each journal is dropped once it is printed, so that the report
/// reuses its memory.
pub fn report_in_pieces(alloc: Global, e: Ended) -> Result<Pieces, OutOfMemory>
    ensures { IfOk result (λ text. text ≡ report_of e) }
{
    let first = head(alloc, &e)?;
    let Ended {
        template,
        grows,
        inodes,
        tasks,
        ..
    } = e;
    let text = pieces(alloc, first, template, grows, inodes, tasks)?;
    Ok(text)
}

// The pieces of a report, of which the first is before the inodes.
fn pieces(
    alloc: Global,
    first: Vec<u8>,
    template: Template,
    grows: bool,
    inodes: Vec<EndedInode>,
    tasks: Vec<EndedTask>,
) -> Result<Pieces, OutOfMemory>
    ensures { IfOk result (λ text. text ≡ first.items
        ++ text_of (all_inode_lines template grows 0 inodes.items)
        ++ text_of (all_task_lines 0 tasks.items)
        ++ codes "end\n") }
{
    let mut out = Pieces::new(alloc);
    out.push(first)?;
    push_inodes_in_pieces(alloc, &mut out, template, grows, inodes)?;
    push_tasks_in_pieces(alloc, &mut out, tasks)?;
    out.push(end(alloc)?)?;
    Ok(out)
}

// The sections of the report before the inodes.
fn head(alloc: Global, e: &Ended) -> Result<Vec<u8>, OutOfMemory>
    ensures { IfOk result (λ out. out.items ≡ ((text_of (head_lines e.now)
        ++ flat_map ascii_line e.now.list)
        ++ text_of (pcr_lines e.now.list e.now.banks))
        ++ text_of (appended_lines e.now.grows e.now.base e.now.rules)) }
{
    let mut out = Vec::new(alloc);
    push_head(&mut out, e)?;
    push_entries(&mut out, e.list.as_slice())?;
    push_registers(&mut out, e.list.as_slice(), &e.banks)?;
    push_appended(alloc, &mut out, e.grows, e.base, e.rules.as_slice())?;
    Ok(out)
}

fn end(alloc: Global) -> Result<Vec<u8>, OutOfMemory>
    ensures { IfOk result (λ out. out.items ≡ codes "end\n") }
{
    let mut out = Vec::new(alloc);
    push_end(&mut out)?;
    Ok(out)
}

fn push_end(out: &mut Vec<u8>) -> Result<(), OutOfMemory>
    ensures { OnOk result (out.new.items ≡ out.old.items ++ codes "end\n") }
{
    out.extend_from_slice(b"end\n")
}

fn push_head(out: &mut Vec<u8>, e: &Ended) -> Result<(), OutOfMemory>
    ensures { OnOk result (out.new.items ≡ out.old.items ++ text_of (head_lines e.now)) }
{
    let list = e.list.as_slice();
    out.extend_from_slice(b"imakern report 1\nrun ")?;
    out.extend_from_slice(ending_word(e).as_bytes())?;
    push_numbered(out, b"\nlist", list.len() as u64)?;
    push_numbered(out, b" violations", violations(list))?;
    out.extend_from_slice(b"\n")
}

fn ending_word(e: &Ended) -> &'static str
    ensures { result.now ≡ ending_word e.now }
{
    if e.stuck {
        "stuck"
    } else if all_done(e.tasks.as_slice()) {
        "done"
    } else {
        "unfinished"
    }
}

fn all_done(tasks: &[EndedTask]) -> bool
    ensures { result ≡ list_all (λ t. t.done) tasks.now }
{
    tasks.iter().all(|t| t.done)
}
