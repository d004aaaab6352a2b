//! The look of a task at all lists of its world.

ghost use Rattle.std.specs.Prelude.{◌≡◌};
ghost use Rattle.world_model.specs.Runs.{HasMade};
ghost use Rattle.world_model.specs.Tasks.{IsTask};

use crate::task::Task;
use crate::world::World;
use world_locks::acts::look_at_inodes;

impl Task {
    /// Looks at each list of the world. Afterwards the entries of the task's number in each list
    /// are exactly those that the task has made.
    pub fn look(&mut self, world: &mut World)
        requires { IsTask world.old.consts self.old }
        ensures made { HasMade world.new.consts world.new.state self.new }
        ensures still { IsTask world.new.consts self.new }
        ensures consts { world.new.consts ≡ world.old.consts }
        ensures state { world.new.state ≡ world.old.state }
        ensures same { (self.new.number ≡ self.old.number)
            × (self.new.task_state ≡ self.old.task_state) }
    {
        let passes = &mut self.passes;
        look_at_inodes(&mut world.parts.world_inodes, &mut passes.inodes);
        world.parts.sems.look(&mut passes.sems);
        world.parts.book.look(&mut passes.book);
        world.parts.rules.look(&mut passes.rules);
    }
}
