//! Deeds that neither consult the measurement list nor belong to a collection.

ghost use Rattle.inode_events.specs.declared.deed.Deed.TheVariants as Deed;
ghost use Rattle.std.specs.Prelude.{◌≡◌, ℕ, ◌+◌, List, Some, IfOk, OnErr};
ghost use Rattle.ima_templates.specs.declared.entry.Entry.{Entry as AnyEntry};
ghost use Rattle.inode_events.specs.declared.told.Told.TheVariants as AnyTold;
ghost use Rattle.world_model.specs.inodes.Acts.{Acts, MayBy, Stays};
ghost use Rattle.world_model.specs.inodes.answers.Answers.{counted_told, set_told, wrote_told};
ghost use Rattle.task_steps.specs.Hashed.{IsPlainDeed};
ghost use Rattle.task_steps.specs.Leaving.{answer_by};
ghost use Rattle.task_state.specs.Steps.{deed_in};

use grow_list::Pass;
use inode_events::{BoxedBytes, BoxedValue, Event, Told};
use inode_meta::{Cred, Who};
use std::alloc::AllocError as OutOfMemory;
use task_state::DueDeed;
use world_model::inodes::InodeCell;
use world_model::inodes::answers::{Counted, Got, Set, Wrote, counted_told, set_told, wrote_told};

// The answer to a count of a file.
fn count_answer(counted: Result<Counted, OutOfMemory>) -> Result<Option<Told>, OutOfMemory>
    ensures { result ≡ answer_by (λ c. Some (counted_told c)) counted }
{
    match counted {
        Ok(counted) => Ok(Some(counted_told(counted))),
        Err(err) => Err(err),
    }
}

// The answer to a read.
fn read_answer(got: Result<Got, OutOfMemory>) -> Result<Option<Told>, OutOfMemory>
    ensures { result ≡ answer_by (λ g. Some (AnyTold.Read g.n g.digest)) got }
{
    match got {
        Ok(got) => Ok(Some(Told::Read {
            n: got.n,
            digest: got.digest,
        })),
        Err(err) => Err(err),
    }
}

// The answer to a write or a truncation.
fn write_answer(wrote: Result<Wrote, OutOfMemory>) -> Result<Option<Told>, OutOfMemory>
    ensures { result ≡ answer_by (λ w. Some (wrote_told w)) wrote }
{
    match wrote {
        Ok(wrote) => Ok(Some(wrote_told(wrote))),
        Err(err) => Err(err),
    }
}

// The answer to a change of attributes or metadata.
fn change_answer(set: Result<Set, OutOfMemory>) -> Result<Option<Told>, OutOfMemory>
    ensures { result ≡ answer_by set_told set }
{
    match set {
        Ok(set) => Ok(set_told(set)),
        Err(err) => Err(err),
    }
}

// The answer to the drop of a file that isn't open for writing.
fn close_answer(closed: Result<(), OutOfMemory>) -> Result<Option<Told>, OutOfMemory>
    ensures { result ≡ answer_by (λ _. Some AnyTold.Dropped) closed }
{
    match closed {
        Ok(()) => Ok(Some(Told::Dropped)),
        Err(err) => Err(err),
    }
}

// Sets or removes an attribute.
fn set_attr(
    cell: &mut InodeCell,
    pass: &mut Pass<Event>,
    who: Who,
    name: &BoxedBytes,
    value: &BoxedValue,
    cred: Cred,
) -> Result<Option<Told>, OutOfMemory>
    requires name { pass.old.name ≡ cell.old.journal }
    requires number { pass.old.number ≡ who.task + 1 }
    ensures acts { IfOk result (λ o. (list : List AnyEntry) → Acts cell.old cell.new list list
        pass.old pass.new who (Deed.SetAttr name.now value.now cred.admin) o) }
    ensures err { OnErr result (Stays cell.old cell.new pass.old pass.new) }
{
    let value = match value.get() {
        Some(value) => Some(value.as_slice()),
        None => None,
    };
    change_answer(cell.set_attr(pass, who, &cred, name.as_slice(), value))
}

/// Does the deed. `None` means that it is blocked.
pub fn apply_plain(
    cell: &mut InodeCell,
    pass: &mut Pass<Event>,
    who: Who,
    due: DueDeed<'_>,
    cred: &Cred,
) -> Result<Option<Told>, OutOfMemory>
    requires name { pass.old.name ≡ cell.old.journal }
    requires number { pass.old.number ≡ who.task + 1 }
    requires may { MayBy cell.old pass.old.number (deed_in due) }
    requires plain { IsPlainDeed (deed_in due) }
    ensures acts { IfOk result (λ o. (list : List AnyEntry) → Acts cell.old cell.new list list
        pass.old pass.new who (deed_in due.entry) o) }
    ensures err { OnErr result (Stays cell.old cell.new pass.old pass.new) }
{
    match due {
        DueDeed::Count(how) => count_answer(cell.count(pass, who, how)),
        DueDeed::Read { file, from, len } => read_answer(cell.read(pass, who, file, from, len)),
        DueDeed::Write { file, from, bytes } => {
            write_answer(cell.write(pass, who, file, from, bytes.as_slice()))
        }
        DueDeed::Trunc { file, len } => write_answer(cell.trunc(pass, who, file, len)),
        DueDeed::SetAttr { name, value, admin } => {
            set_attr(cell, pass, who, name, value, Cred { admin, ..*cred })
        }
        DueDeed::SetMeta(change) => change_answer(cell.set_meta(pass, who, change)),
        DueDeed::Close(file) => close_answer(cell.close_read(pass, who, file)),
        _ => unreachable!(),
    }
}
