use std::marker::Model;
use world_close::Parts;

/// The inodes, the measurement list, the semaphores and the rules that tasks share. Contracts see
/// its constants and its lists.
#[derive(Drop)]
pub struct World {
    pub(crate) parts: Parts,
}

impl Model for World {
    ghost use Rattle.world_model.specs.World.{WorldValue};

    ghost Value = { WorldValue };

    ghost use Rattle.task_core.specs.WorldFields.{IsWorld, world_of};

    ghost view = { world_of };

    ghost invariant = { IsWorld };
}
