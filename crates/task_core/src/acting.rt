//! The steps of a task on one inode of its world.

ghost use Rattle.inode_events.specs.declared.deed.Deed.TheVariants as Deed;
ghost use Rattle.std.specs.Prelude.{◌≡◌, IfOk, slice_get};
ghost use Rattle.inode_events.specs.Checks.{no_action};
ghost use Rattle.world_model.specs.Tasks.{ArePassesOf};
ghost use Rattle.world_model.specs.declared.hash_state.HashState.{HashState as AnyHashState};
ghost use Rattle.task_state.specs.Steps.{deed_in};
ghost use Rattle.world_locks.specs.acts.Acting.{EventIn, IsSaid, ReadyAt, told_in};
ghost use Rattle.world_locks.specs.acts.Checking.{CheckIn};

use crate::world::World;
use std::alloc::AllocError as OutOfMemory;
use task_state::DueDeed;
use world_locks::acts::{Actor, Checks, StepResult, apply_at, check_at};
use world_model::{HashState, Passes};

impl World {
    /// Does the deed on the inode of this number, through the task's passes. `None` means that it
    /// is blocked.
    pub(crate) fn apply(
        &mut self,
        i: u32,
        passes: &mut Passes,
        actor: &Actor<'_>,
        due: DueDeed<'_>,
        hash_state: &mut HashState,
    ) -> Result<Option<StepResult>, OutOfMemory>
        requires passes { ArePassesOf self.old.consts actor.now.who.task passes.old }
        requires ready { ReadyAt self.old.consts i passes.old.inodes actor.now.who.task
            hash_state.old actor.now.action actor.now.slot (deed_in due) }
        ensures consts { self.new.consts ≡ self.old.consts }
        ensures event { EventIn self.old.consts i (slice_get self.old.consts.each_inode i)
            actor.now.who
            (deed_in due.entry) self.old.state self.new.state passes.old passes.new hash_state.old
            hash_state.new (told_in result) }
        ensures told { IfOk result (λ o. IsSaid self.old.consts i (deed_in due.entry)
            self.old.state o) }
    {
        if i as usize >= self.parts.world_inodes.len() {
            return Ok(None);
        }
        apply_at(
            &mut self.parts.world_inodes[i as usize],
            &mut passes.inodes[i as usize],
            &mut self.parts.book,
            &mut passes.book,
            actor,
            due,
            hash_state,
        )
    }

    /// Checks the inode of this number by all rules in force, through the task's passes. `None`
    /// means that it is blocked because there is no such inode.
    pub(crate) fn check(
        &mut self,
        i: u32,
        passes: &mut Passes,
        actor: &Actor<'_>,
        asked: Checks,
    ) -> Result<Option<StepResult>, OutOfMemory>
        requires passes { ArePassesOf self.old.consts actor.now.who.task passes.old }
        requires ready { (g : AnyHashState) → ReadyAt self.old.consts i passes.old.inodes
            actor.now.who.task g actor.now.action actor.now.slot
            (Deed.Check asked.file asked.func no_action 0) }
        ensures consts { self.new.consts ≡ self.old.consts }
        ensures check { (g : AnyHashState) → CheckIn self.old.consts i
            (slice_get self.old.consts.each_inode i) actor.now.who actor.now.cred.now asked
            self.old.state self.new.state passes.old passes.new g result }
    {
        if i as usize >= self.parts.world_inodes.len() {
            return Ok(None);
        }
        let world_inode = &mut self.parts.world_inodes[i as usize];
        self.parts.rules.look(&mut world_inode.rules);
        self.parts.rules.look(&mut passes.rules);
        let place = &self.parts.supers[world_inode.place as usize];
        check_at(
            world_inode,
            &mut passes.inodes[i as usize],
            &mut self.parts.book,
            &mut passes.book,
            actor,
            asked,
            self.parts.rules.rules(),
            place,
        )
    }
}
