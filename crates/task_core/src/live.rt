//! A world that threads share.

ghost use Rattle.std.specs.Prelude.{◌≡◌, ◌<◌, IfOk, length};

use crate::world::World;
use std::alloc::AllocError as OutOfMemory;
use std::sync::Wait;
use world_locks::{Locks, Name};

/// A world that threads share: a lock for each inode, and one lock each for the measurement list,
/// the semaphores and the rules. Its constants are those that `N` names.
pub struct Live<N: Name> {
    pub(crate) locks: Locks<N>,
}

// Written out, so that the drop is proved here once, and not again in each crate above.
impl<N: Name> Drop for Live<N> {
    fn drop(self) {
        let Live { locks: _ } = self;
    }
}

impl World {
    /// Puts the lists of the world under locks, so that threads can share it.
    pub fn share<N: Name>(self) -> Result<Live<N>, OutOfMemory>
        requires { self.consts ≡ N.consts }
    {
        let World { parts } = self;
        let locks = Locks::new(parts)?;
        Ok(Live { locks })
    }
}

impl<N: Name> Live<N> {
    /// Takes the lists out of their locks. The world has the same constants.
    pub fn back(self) -> Result<World, OutOfMemory>
        ensures { IfOk result (λ world. world.consts ≡ N.consts) }
    {
        let Live { locks } = self;
        let parts = locks.into_parts()?;
        let world = World { parts };
        Ok(world)
    }

    /// Takes the lock of the inode of this number, calls `f` once, and releases the lock.
    pub fn hold<R: Wait, F: FnOnce()>(&self, rt: &R, inode: u32, f: F)
        requires below { inode < length N.consts.each_inode }
        requires call { F.IsAlwaysCallable f }
    {
        self.locks.hold(rt, inode, f);
    }
}
