//! A look of a task at the journals of its world.

ghost use Rattle.std.specs.Prelude.{◌≡◌, ℕ, Some, length, slice_get};
ghost use Rattle.grow_list.specs.Shown.{Passed as AnyPass};
ghost use Rattle.inode_events.specs.declared.told.Event.{Event as AnyEvent};
ghost use Rattle.task_steps.specs.worlds.World.{WorldInodeValue};
ghost use Rattle.task_steps.specs.Looking.{AreSameWorldInodes, HaveLooked, IsLooked, IsSameWorldInode};

use grow_list::Pass;
use inode_events::Event;
use world_model::WorldInode;

/// Brings the passes of all journals up to date.
pub fn look_at_inodes(world_inodes: &mut Vec<WorldInode>, passes: &mut Vec<Pass<Event>>)
    requires even { length passes.old.items ≡ length world_inodes.old.items }
    requires names { (i : ℕ) (s : WorldInodeValue) (q : AnyPass AnyEvent)
        → slice_get world_inodes.old.items i ≡ Some s → slice_get passes.old.items i ≡ Some q
        → q.name ≡ s.cell.journal }
    ensures world_inodes { AreSameWorldInodes world_inodes.old.items world_inodes.new.items }
    ensures passes { HaveLooked world_inodes.old.items passes.old.items passes.new.items }
{
    for i in 0..world_inodes.len() {
        look_at(&mut world_inodes[i], &mut passes[i]);
    }
}

// Brings the pass of the inode's journal up to date.
fn look_at(world_inode: &mut WorldInode, pass: &mut Pass<Event>)
    requires { pass.old.name ≡ world_inode.old.cell.journal }
    ensures world_inode { IsSameWorldInode world_inode.old world_inode.new }
    ensures pass { IsLooked world_inode.old pass.old pass.new }
{
    world_inode.cell.look(pass);
}
