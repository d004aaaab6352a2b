//! The start of a world.

ghost use Rattle.std.specs.Prelude.{◌≡◌, ◌+◌, ◌<◌, ◌^◌, All, IfOk, length};
ghost use Rattle.world_start.specs.Start.{AreConstsOf, AreFirstPasses, Begins};
ghost use Rattle.world_start.specs.Started.{IsFile};

use crate::world::World;
use ima_templates::Entry;
use inode_events::{Image, Settings};
use policy_rules::{Policy, Super};
use std::alloc::{AllocError as OutOfMemory, Global};
use world_model::Passes;
use world_start::{Start, start_lists};
use xattr_store::Bytes;

impl World {
    /// Starts a world of these inodes, each on the file system that its place names, with these
    /// rules. Returns it with the passes of each task, in order. Its lists are those with which a
    /// run begins.
    pub fn start(
        alloc: Global,
        settings: Settings,
        boot: Entry,
        inodes: Vec<(Bytes, Image)>,
        supers: Vec<Super>,
        places: Vec<u32>,
        rules: Policy,
        tasks: u32,
    ) -> Result<(World, Vec<Passes>), OutOfMemory>
        requires files { All IsFile inodes.items }
        requires even { length places.items ≡ length inodes.items }
        requires places { All (λ place. place < length supers.items) places.items }
        requires callers { length inodes.items + tasks + 1 < 2 ^ 32 }
        ensures consts { IfOk result (λ r. AreConstsOf settings boot inodes.items supers.items
            places.items rules tasks r.0.consts) }
        ensures begins { IfOk result (λ r. Begins r.0.consts r.0.state) }
        ensures passes { IfOk result (λ r. AreFirstPasses r.0.consts r.1.items) }
    {
        let start = start_lists(alloc, settings, boot, inodes, supers, places, rules, tasks)?;
        let Start { parts, passes } = start;
        let world = World { parts };
        Ok((world, passes))
    }
}
