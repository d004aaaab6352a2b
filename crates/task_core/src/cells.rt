//! What can be seen of a world and of its tasks between turns.

ghost use Rattle.std.specs.Prelude.{◌≡◌};
ghost use Rattle.std.specs.Option.{option_copied};
ghost use Rattle.inode_events.specs.NewestFirst.{newest_first};
ghost use Rattle.inode_events.specs.Semaphores.{left};
ghost use Rattle.task_core.specs.Cells.{IsCellAt};

use crate::task::Task;
use crate::world::World;
use task_state::TaskState;
use world_model::inodes::InodeCell;

impl World {
    /// The inode of this number.
    pub fn inode(&self, i: usize) -> Option<&InodeCell>
        ensures { IsCellAt self.now.consts self.now.state i (option_copied result) }
    {
        match self.parts.world_inodes.get(i) {
            Some(world_inode) => Some(&world_inode.cell),
            None => None,
        }
    }

    /// The value of the semaphore: its posts minus its waits.
    pub fn left(&self, sem: u8) -> u64
        ensures { result ≡ left sem (newest_first self.now.state.signals) }
    {
        self.parts.sems.left(sem)
    }
}

impl Task {
    /// What the task knows of its own calls.
    pub fn task_state(&self) -> &TaskState
        ensures { result.now ≡ self.now.task_state }
    {
        &self.task_state
    }
}
