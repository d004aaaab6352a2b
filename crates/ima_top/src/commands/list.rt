// The command `list`: the measurement list of the files of a list text, and its registers.
ghost use Rattle.std.specs.Prelude.{◌≡◌, ◌≤◌, length, IfOk, IsTrue};
ghost use Rattle.std.specs.List.{All};
ghost use Rattle.text_forms.specs.Paths.{is_path};
ghost use Rattle.measure_book.specs.Replay.{banks_of};
ghost use Rattle.ima_top.specs.Answered.{Answers};
ghost use Rattle.ima_top.specs.Limits.{most_input};
ghost use Rattle.ima_top.specs.commands.List.{list_refusal, IsListOutput, list_text, measured};

use crate::commands::bad_line::bad_line;
use crate::commands::entries::entries_of;
use crate::not_done::NotDone;
use hash_algos::{Algo, Digest};
use ima_templates::Entry;
use inode_meta::DEFAULT_PCR;
use list_carry::carry_on;
use measure_book::registers::Banks;
use report_text::{push_entries, push_values};
use script_text::{ScriptErr, parse_list};
use std::alloc::{AllocError as OutOfMemory, Global};
use xattr_store::Bytes;

/// The measurement list of the files, or the line that names the first fault of the list text.
#[tactic(auto, unfolding(crate::specs::commands::List::list_refusal, crate::specs::commands::List::IsListOutput))]
pub fn answer(alloc: Global, input: &[u8]) -> Result<Vec<u8>, NotDone>
    requires { length input.now ≤ most_input }
    ensures { Answers result (list_refusal input.now)
        (λ output. IsListOutput input.now output.items) }
{
    match parse_list(alloc, input) {
        Ok(text) => {
            let (list, banks) = measured(alloc, &text.files)?;
            Ok(list_text(alloc, &list, &banks)?)
        }
        Err(ScriptErr::Refused(fault)) => Err(NotDone::Refused(bad_line(alloc, fault)?)),
        Err(ScriptErr::OutOfMemory) => Err(NotDone::OutOfMemory),
    }
}

// The entries of the files, after a boot aggregate of zeros, and their registers. The template can
// show each path.
fn measured(alloc: Global, files: &[(Bytes, Bytes)]) -> Result<(Vec<Entry>, Banks), OutOfMemory>
    requires { All (λ f. IsTrue (is_path f.0)) files.now }
    ensures list { IfOk result (λ r. r.0.items ≡ measured files.now) }
    ensures banks { IfOk result (λ r. r.1 ≡ banks_of (measured files.now)) }
{
    let entries = entries_of(alloc, &Digest::zeros(Algo::Sha256), files)?;
    carry_on(alloc, None, entries)
}

fn list_text(alloc: Global, list: &[Entry], banks: &Banks) -> Result<Vec<u8>, OutOfMemory>
    requires { banks.now ≡ banks_of list.now }
    ensures { IfOk result (λ text. text.items ≡ list_text list.now) }
{
    let mut text = Vec::new(alloc);
    push_entries(&mut text, list)?;
    push_values(&mut text, banks, DEFAULT_PCR)?;
    Ok(text)
}
