//! A deed of a task on one inode of its world.

ghost use Rattle.std.specs.Prelude.{◌≡◌, ◌+◌, IfOk, length};
ghost use Rattle.inode_events.specs.Asked.{outcome};
ghost use Rattle.inode_events.specs.NewestFirst.{newest_first};
ghost use Rattle.task_steps.specs.worlds.Ready.{HasLooked, IsReady};
ghost use Rattle.task_steps.specs.task_states.Steps.{deed_in};
ghost use Rattle.task_steps.specs.Acting.{IsPlacedAt, WorldInodeDid, told_in, told_of};

use crate::answers::{StepResult, told_at};
use crate::{Actor, look_and_apply};
use grow_list::Pass;
use ima_templates::Entry;
use inode_events::Event;
use measure_book::Book;
use std::alloc::AllocError as OutOfMemory;
use task_state::DueDeed;
use world_model::{HashState, WorldInode};

/// Does the deed on the inode, through its task's passes of the journal and of the measurement
/// list. `None` means that it is blocked.
pub fn apply_at(
    world_inode: &mut WorldInode,
    pass: &mut Pass<Event>,
    book: &mut Book,
    listed: &mut Pass<Entry>,
    actor: &Actor<'_>,
    due: DueDeed<'_>,
    hash_state: &mut HashState,
) -> Result<Option<StepResult>, OutOfMemory>
    requires name { pass.old.name ≡ world_inode.old.cell.journal }
    requires number { pass.old.number ≡ actor.now.who.task + 1 }
    requires book_name { world_inode.old.cell.book ≡ book.old.name }
    requires listed { listed.old.name ≡ book.old.name }
    requires ready { HasLooked world_inode.old.cell.inode pass.old.number pass.old.seen
        world_inode.old.cell.list pass.old.mine
        → IsReady world_inode.old.cell.inode pass.old.number world_inode.old.cell.list
        hash_state.old actor.now.action actor.now.slot (deed_in due) }
    ensures did { WorldInodeDid world_inode.old world_inode.new book.old book.new pass.old pass.new
        listed.old listed.new actor.now.who (deed_in due.entry) hash_state.old hash_state.new
        (told_in result) }
    ensures told { IfOk result (λ o. told_of o ≡ outcome world_inode.old.cell.inode book.old.list
        (deed_in due.entry) (newest_first world_inode.old.cell.list)) }
    ensures place { IfOk result (λ o. IsPlacedAt (length world_inode.old.cell.list) o) }
{
    let place = world_inode.cell.len();
    book.look(listed);
    let told = look_and_apply(&mut world_inode.cell, pass, actor, due, book, hash_state);
    book.look(listed);
    told_at(place, told)
}
