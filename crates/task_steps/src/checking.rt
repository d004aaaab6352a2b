//! A check of a task on one inode of its world, by the rules in force.

ghost use Rattle.inode_events.specs.declared.deed.Deed.TheVariants as Deed;
ghost use Rattle.std.specs.Prelude.{◌≡◌, ◌+◌};
ghost use Rattle.task_steps.specs.inodes.Acts.{MayBy};
ghost use Rattle.inode_events.specs.Checks.{no_action};
ghost use Rattle.inode_events.specs.NewestFirst.{newest_first};
ghost use Rattle.inode_events.specs.State.{metadata};
ghost use Rattle.task_steps.specs.worlds.declared.hash_state.HashState.{HashState as AnyHashState};
ghost use Rattle.task_steps.specs.worlds.Ready.{HasLooked};
ghost use Rattle.task_steps.specs.Acting.{WorldInodeDid, told_in};
ghost use Rattle.task_steps.specs.Checking.{IsChecked, check_by};

use crate::answers::{StepResult, checked_at};
use crate::{Actor, Checks, look_and_check};
use grow_list::Pass;
use ima_templates::Entry;
use inode_events::Event;
use measure_book::Book;
use policy_cell::matching::Index;
use policy_rules::Super;
use std::alloc::AllocError as OutOfMemory;
use world_model::WorldInode;

/// Makes the check on the inode, which is on this file system, through its task's passes of the
/// journal and of the measurement list.
pub fn check_at(
    world_inode: &mut WorldInode,
    pass: &mut Pass<Event>,
    book: &mut Book,
    listed: &mut Pass<Entry>,
    actor: &Actor<'_>,
    asked: Checks,
    rules: &Index,
    place: &Super,
) -> Result<Option<StepResult>, OutOfMemory>
    requires name { pass.old.name ≡ world_inode.old.cell.journal }
    requires number { pass.old.number ≡ actor.now.who.task + 1 }
    requires book_name { world_inode.old.cell.book ≡ book.old.name }
    requires listed { listed.old.name ≡ book.old.name }
    requires ready { HasLooked world_inode.old.cell.inode pass.old.number pass.old.seen
        world_inode.old.cell.list pass.old.mine
        → MayBy world_inode.old.cell pass.old.number
        (Deed.Check asked.file asked.func no_action 0) }
    ensures did { (g : AnyHashState)
        → WorldInodeDid world_inode.old world_inode.new book.old book.new
        pass.old pass.new listed.old listed.new actor.now.who
        (check_by rules.now actor.now.cred.now place.now
        (metadata (newest_first world_inode.old.cell.list)) asked) g g (told_in result) }
    ensures told { IsChecked world_inode.old.cell.inode world_inode.old.cell.list
        book.old.list rules.now actor.now.cred.now place.now asked result }
{
    let at = world_inode.cell.len();
    book.look(listed);
    let told = look_and_check(
        &mut world_inode.cell,
        pass,
        actor,
        asked,
        rules,
        place,
        book,
    );
    book.look(listed);
    checked_at(at, told)
}
