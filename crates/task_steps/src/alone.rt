//! A deed of a task on one inode of its world, for which the measurement list isn't lent.

ghost use Rattle.std.specs.Prelude.{◌≡◌, ◌+◌, List, IfOk, length};
ghost use Rattle.ima_templates.specs.declared.entry.Entry.{Entry as AnyEntry};
ghost use Rattle.inode_events.specs.Asked.{outcome};
ghost use Rattle.inode_events.specs.NewestFirst.{newest_first};
ghost use Rattle.task_steps.specs.Hashed.{IsAloneDeed};
ghost use Rattle.task_steps.specs.worlds.Ready.{HasLooked, IsReady};
ghost use Rattle.task_steps.specs.task_states.Steps.{deed_in};
ghost use Rattle.task_steps.specs.Acting.{IsPlacedAt, WorldInodeDidAlone, told_in, told_of};

use crate::answers::{StepResult, told_at};
use crate::{Actor, look_and_apply_alone};
use grow_list::Pass;
use inode_events::Event;
use std::alloc::AllocError as OutOfMemory;
use task_state::DueDeed;
use world_model::{HashState, WorldInode};

/// Does a deed that doesn't consult the measurement list on the inode, through its task's pass of
/// the journal. `None` means that it is blocked.
pub fn apply_alone_at(
    world_inode: &mut WorldInode,
    pass: &mut Pass<Event>,
    actor: &Actor<'_>,
    due: DueDeed<'_>,
    hash_state: &mut HashState,
) -> Result<Option<StepResult>, OutOfMemory>
    requires name { pass.old.name ≡ world_inode.old.cell.journal }
    requires number { pass.old.number ≡ actor.now.who.task + 1 }
    requires ready { HasLooked world_inode.old.cell.inode pass.old.number pass.old.seen
        world_inode.old.cell.list pass.old.mine
        → IsReady world_inode.old.cell.inode pass.old.number world_inode.old.cell.list
        hash_state.old actor.now.action actor.now.slot (deed_in due) }
    requires alone { IsAloneDeed (deed_in due) }
    ensures did { WorldInodeDidAlone world_inode.old world_inode.new pass.old pass.new actor.now.who
        (deed_in due.entry) hash_state.old hash_state.new (told_in result) }
    ensures told { IfOk result (λ o. (list : List AnyEntry) → told_of o
        ≡ outcome world_inode.old.cell.inode list (deed_in due.entry)
        (newest_first world_inode.old.cell.list)) }
    ensures place { IfOk result (λ o. IsPlacedAt (length world_inode.old.cell.list) o) }
{
    let place = world_inode.cell.len();
    let told = look_and_apply_alone(&mut world_inode.cell, pass, actor, due, hash_state);
    told_at(place, told)
}
