//! Deeds that begin, continue or end a collection and don't consult the measurement list.

ghost use Rattle.inode_events.specs.declared.deed.Deed.TheVariants as Deed;
ghost use Rattle.std.specs.Prelude.{◌≡◌, ℕ, ◌+◌, List, IfOk, OnErr};
ghost use Rattle.ima_templates.specs.declared.entry.Entry.{Entry as AnyEntry};
ghost use Rattle.world_model.specs.inodes.Acts.{Acts, MayBy, Stays};
ghost use Rattle.task_steps.specs.Hashed.{IsCollectingDeed};
ghost use Rattle.world_model.specs.Due.{HashesTold};
ghost use Rattle.world_model.specs.Tasks.{HashesBefore};
ghost use Rattle.task_state.specs.Steps.{deed_in};

use crate::gathering::{gather, sums};
use grow_list::Pass;
use inode_events::{Event, Told};
use inode_hashing::Hashing;
use inode_meta::Who;
use std::alloc::AllocError as OutOfMemory;
use task_state::DueDeed;
use world_model::HashState;
use world_model::inodes::answers::{finished_told, piece_told};
use world_model::inodes::{CloseTaken, InodeCell};

// Reads and hashes the next piece of a take's collection.
fn chunk(
    cell: &mut InodeCell,
    pass: &mut Pass<Event>,
    who: Who,
    file: u64,
    hash_state: &mut HashState,
) -> Result<Option<Told>, OutOfMemory>
    requires name { pass.old.name ≡ cell.old.journal }
    requires number { pass.old.number ≡ who.task + 1 }
    requires may { MayBy cell.old pass.old.number (Deed.Chunk file) }
    requires hashes { HashesBefore cell.old.inode cell.old.list hash_state.old (Deed.Chunk file) }
    ensures acts { IfOk result (λ o. (list : List AnyEntry) → Acts cell.old cell.new list list
        pass.old pass.new who (Deed.Chunk file) o) }
    ensures hashes { IfOk result (λ o. HashesTold cell.old.inode cell.new.list hash_state.old
        hash_state.new (Deed.Chunk file) o) }
    ensures err { OnErr result (Stays cell.old cell.new pass.old pass.new) }
    ensures kept { OnErr result (hash_state.new ≡ hash_state.old) }
{
    let (piece, page) = cell.chunk(pass, who, file)?;
    gather(hash_state, piece, &page);
    Ok(Some(piece_told(piece)))
}

// Reads and hashes the next piece of a close's collection.
fn close_chunk(
    cell: &mut InodeCell,
    pass: &mut Pass<Event>,
    who: Who,
    file: u64,
    hash_state: &mut HashState,
) -> Result<Option<Told>, OutOfMemory>
    requires name { pass.old.name ≡ cell.old.journal }
    requires number { pass.old.number ≡ who.task + 1 }
    requires may { MayBy cell.old pass.old.number (Deed.CloseChunk file) }
    requires hashes { HashesBefore cell.old.inode cell.old.list hash_state.old
        (Deed.CloseChunk file) }
    ensures acts { IfOk result (λ o. (list : List AnyEntry) → Acts cell.old cell.new list list
        pass.old pass.new who (Deed.CloseChunk file) o) }
    ensures hashes { IfOk result (λ o. HashesTold cell.old.inode cell.new.list hash_state.old
        hash_state.new (Deed.CloseChunk file) o) }
    ensures err { OnErr result (Stays cell.old cell.new pass.old pass.new) }
    ensures kept { OnErr result (hash_state.new ≡ hash_state.old) }
{
    let (piece, page) = cell.close_chunk(pass, who, file)?;
    gather(hash_state, piece, &page);
    Ok(Some(piece_told(piece)))
}

// Begins a writer's close. `None` means that it is blocked.
fn close_take(
    cell: &mut InodeCell,
    pass: &mut Pass<Event>,
    who: Who,
    file: u64,
    hash_state: &mut HashState,
) -> Result<Option<Told>, OutOfMemory>
    requires name { pass.old.name ≡ cell.old.journal }
    requires number { pass.old.number ≡ who.task + 1 }
    requires may { MayBy cell.old pass.old.number (Deed.CloseTake file) }
    ensures acts { IfOk result (λ o. (list : List AnyEntry) → Acts cell.old cell.new list list
        pass.old pass.new who (Deed.CloseTake file) o) }
    ensures hashes { IfOk result (λ o. HashesTold cell.old.inode cell.new.list hash_state.old
        hash_state.new (Deed.CloseTake file) o) }
    ensures err { OnErr result (Stays cell.old cell.new pass.old pass.new) }
    ensures kept { OnErr result (hash_state.new ≡ hash_state.old) }
{
    match cell.close_take(pass, who, file)? {
        CloseTaken::Begun(algo) => {
            *hash_state = HashState::Running(Hashing::begin(algo));
            Ok(Some(Told::Begun))
        }
        CloseTaken::Dropped => Ok(Some(Told::Dropped)),
        CloseTaken::Blocked => Ok(None),
    }
}

// Ends a writer's close.
fn close_finish(
    cell: &mut InodeCell,
    pass: &mut Pass<Event>,
    who: Who,
    file: u64,
    hash_state: &HashState,
) -> Result<Option<Told>, OutOfMemory>
    requires name { pass.old.name ≡ cell.old.journal }
    requires number { pass.old.number ≡ who.task + 1 }
    requires may { MayBy cell.old pass.old.number (Deed.CloseFinish file) }
    requires hashes { HashesBefore cell.old.inode cell.old.list hash_state.now
        (Deed.CloseFinish file) }
    ensures acts { IfOk result (λ o. (list : List AnyEntry) → Acts cell.old cell.new list list
        pass.old pass.new who (Deed.CloseFinish file) o) }
    ensures hashes { IfOk result (λ o. HashesTold cell.old.inode cell.new.list hash_state.now
        hash_state.now (Deed.CloseFinish file) o) }
    ensures err { OnErr result (Stays cell.old cell.new pass.old pass.new) }
{
    let Some(sums) = sums(hash_state) else {
        unreachable!()
    };
    Ok(Some(finished_told(cell.close_finish(pass, who, file, sums)?)))
}

/// Does a deed that begins, continues or ends a collection. `None` means that it is blocked.
pub fn collect(
    cell: &mut InodeCell,
    pass: &mut Pass<Event>,
    who: Who,
    due: DueDeed<'_>,
    hash_state: &mut HashState,
) -> Result<Option<Told>, OutOfMemory>
    requires name { pass.old.name ≡ cell.old.journal }
    requires number { pass.old.number ≡ who.task + 1 }
    requires may { MayBy cell.old pass.old.number (deed_in due) }
    requires hashes { HashesBefore cell.old.inode cell.old.list hash_state.old (deed_in due) }
    requires collects { IsCollectingDeed (deed_in due) }
    ensures acts { IfOk result (λ o. (list : List AnyEntry) → Acts cell.old cell.new list list
        pass.old pass.new who (deed_in due.entry) o) }
    ensures hashes { IfOk result (λ o. HashesTold cell.old.inode cell.new.list hash_state.old
        hash_state.new (deed_in due.entry) o) }
    ensures err { OnErr result (Stays cell.old cell.new pass.old pass.new) }
    ensures kept { OnErr result (hash_state.new ≡ hash_state.old) }
{
    match due {
        DueDeed::Chunk(file) => chunk(cell, pass, who, file, hash_state),
        DueDeed::CloseTake(file) => close_take(cell, pass, who, file, hash_state),
        DueDeed::CloseChunk(file) => close_chunk(cell, pass, who, file, hash_state),
        DueDeed::CloseFinish(file) => close_finish(cell, pass, who, file, hash_state),
        _ => unreachable!(),
    }
}
