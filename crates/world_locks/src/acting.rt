//! The steps of a task on one inode under its lock.

ghost use Rattle.inode_events.specs.declared.deed.Deed.TheVariants as Deed;
ghost use Rattle.std.specs.Prelude.{◌≡◌, ◌<◌, length};
ghost use Rattle.inode_events.specs.Checks.{no_action};
ghost use Rattle.world_close.specs.worlds.Tasks.{ArePassesOf};
ghost use Rattle.world_close.specs.worlds.declared.hash_state.HashState.{HashState as AnyHashState};
ghost use Rattle.task_state.specs.Steps.{deed_in};
ghost use Rattle.task_steps.specs.Acting.{ReadyAt};
ghost use Rattle.task_steps.specs.Hashed.{IsAloneDeed, IsListedDeed, IsPageDeed};
ghost use Rattle.world_locks.specs.Met.{CheckMet, EventMet};

use crate::locks::Locks;
use crate::name::Name;
use crate::order::Order;
use inode_cell::answers::piece_told;
use std::alloc::AllocError as OutOfMemory;
use std::sync::Wait;
use task_state::DueDeed;
use task_steps::{Actor, Checks, DeedLocks, StepResult, gather, locks_of};
use world_close::worlds::{HashState, Passes};

impl<N: Name> Locks<N> {
    /// Does the deed on the inode of this number, through the task's passes. `None` means that it
    /// is blocked.
    pub fn lock_and_apply<R: Wait>(
        &self,
        rt: &R,
        i: u32,
        passes: &mut Passes,
        actor: &Actor<'_>,
        due: DueDeed<'_>,
        hash_state: &mut HashState,
    ) -> Result<Option<StepResult>, OutOfMemory>
        requires passes { ArePassesOf N.consts actor.now.who.task passes.old }
        requires ready { ReadyAt N.consts i passes.old.inodes actor.now.who.task hash_state.old
            actor.now.action actor.now.slot (deed_in due) }
        ensures { EventMet N.consts i actor.now.who (deed_in due.entry) passes.old passes.new
            hash_state.old hash_state.new result }
    {
        if i as usize >= self.world_inodes.len() {
            return Ok(None);
        }
        match locks_of(due) {
            DeedLocks::WithList => self.apply_with_list(rt, i, passes, actor, due, hash_state),
            DeedLocks::Page => self.apply_page(rt, i, passes, actor, due, hash_state),
            DeedLocks::Alone => self.apply_without_list(rt, i, passes, actor, due, hash_state),
        }
    }

    // Does a deed that may add to the measurement list, which is locked too.
    fn apply_with_list<R: Wait>(
        &self,
        rt: &R,
        i: u32,
        passes: &mut Passes,
        actor: &Actor<'_>,
        due: DueDeed<'_>,
        hash_state: &mut HashState,
    ) -> Result<Option<StepResult>, OutOfMemory>
        requires below { i < length N.consts.each_inode }
        requires passes { ArePassesOf N.consts actor.now.who.task passes.old }
        requires ready { ReadyAt N.consts i passes.old.inodes actor.now.who.task hash_state.old
            actor.now.action actor.now.slot (deed_in due) }
        requires adds { IsListedDeed (deed_in due) }
        ensures { EventMet N.consts i actor.now.who (deed_in due.entry) passes.old passes.new
            hash_state.old hash_state.new result }
    {
        let mut order = Order::new();
        let mut world_inode = self.take(rt, &mut order, i);
        let mut list = self.take_book(rt, &mut order);
        world_inode.apply(
            &mut passes.inodes[i as usize],
            &mut list,
            &mut passes.book,
            actor,
            due,
            hash_state,
        )
    }

    // Does a deed that doesn't consult the measurement list, under the inode's lock alone.
    fn apply_without_list<R: Wait>(
        &self,
        rt: &R,
        i: u32,
        passes: &mut Passes,
        actor: &Actor<'_>,
        due: DueDeed<'_>,
        hash_state: &mut HashState,
    ) -> Result<Option<StepResult>, OutOfMemory>
        requires below { i < length N.consts.each_inode }
        requires passes { ArePassesOf N.consts actor.now.who.task passes.old }
        requires ready { ReadyAt N.consts i passes.old.inodes actor.now.who.task hash_state.old
            actor.now.action actor.now.slot (deed_in due) }
        requires alone { IsAloneDeed (deed_in due) }
        ensures { EventMet N.consts i actor.now.who (deed_in due.entry) passes.old passes.new
            hash_state.old hash_state.new result }
    {
        let mut order = Order::new();
        self.take(rt, &mut order, i)
            .apply_alone(&mut passes.inodes[i as usize], actor, due, hash_state)
    }

    // Takes a page of a collection, and hashes it after the lock is released.
    fn apply_page<R: Wait>(
        &self,
        rt: &R,
        i: u32,
        passes: &mut Passes,
        actor: &Actor<'_>,
        due: DueDeed<'_>,
        hash_state: &mut HashState,
    ) -> Result<Option<StepResult>, OutOfMemory>
        requires below { i < length N.consts.each_inode }
        requires passes { ArePassesOf N.consts actor.now.who.task passes.old }
        requires ready { ReadyAt N.consts i passes.old.inodes actor.now.who.task hash_state.old
            actor.now.action actor.now.slot (deed_in due) }
        requires page { IsPageDeed (deed_in due) }
        ensures { EventMet N.consts i actor.now.who (deed_in due.entry) passes.old passes.new
            hash_state.old hash_state.new result }
    {
        let mut order = Order::new();
        let taken = self
            .take(rt, &mut order, i)
            .take_page(&mut passes.inodes[i as usize], actor.who, due)?;
        gather(hash_state, taken.piece, &taken.page);
        let told = piece_told(taken.piece);
        Ok(Some(StepResult {
            place: taken.place,
            told,
            action: None,
        }))
    }

    /// Checks the inode of this number by all rules in force, through the task's passes. `None`
    /// means that it is blocked because there is no such inode.
    pub fn lock_and_check<R: Wait>(
        &self,
        rt: &R,
        i: u32,
        passes: &mut Passes,
        actor: &Actor<'_>,
        asked: Checks,
    ) -> Result<Option<StepResult>, OutOfMemory>
        requires passes { ArePassesOf N.consts actor.now.who.task passes.old }
        requires ready { (g : AnyHashState) → ReadyAt N.consts i passes.old.inodes
            actor.now.who.task g actor.now.action actor.now.slot
            (Deed.Check asked.file asked.func no_action 0) }
        ensures { CheckMet N.consts i actor.now.who actor.now.cred.now asked passes.old passes.new
            result }
    {
        if i as usize >= self.world_inodes.len() {
            return Ok(None);
        }
        self.check_locked(rt, i, passes, actor, asked)
    }

    // Checks an inode that is there, under its lock and those of the rules and the measurement
    // list.
    fn check_locked<R: Wait>(
        &self,
        rt: &R,
        i: u32,
        passes: &mut Passes,
        actor: &Actor<'_>,
        asked: Checks,
    ) -> Result<Option<StepResult>, OutOfMemory>
        requires below { i < length N.consts.each_inode }
        requires passes { ArePassesOf N.consts actor.now.who.task passes.old }
        requires ready { (g : AnyHashState) → ReadyAt N.consts i passes.old.inodes
            actor.now.who.task g actor.now.action actor.now.slot
            (Deed.Check asked.file asked.func no_action 0) }
        ensures { CheckMet N.consts i actor.now.who actor.now.cred.now asked passes.old passes.new
            result }
    {
        let mut order = Order::new();
        let mut inode = self.take(rt, &mut order, i);
        let mut rules = self.take_rules(rt, &mut order);
        let mut book = self.take_book(rt, &mut order);
        inode.check(
            &mut passes.inodes[i as usize],
            &mut rules,
            &mut passes.rules,
            &mut book,
            &mut passes.book,
            actor,
            asked,
            self.supers.as_slice(),
        )
    }
}
