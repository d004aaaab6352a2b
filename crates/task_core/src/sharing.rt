//! The steps of a task on what all tasks share besides the inodes: the semaphores and the rules.

ghost use Rattle.std.specs.Prelude.{◌≡◌, ◌+◌, [], ◌∷◌, ◌++◌, length, None, IfOk, OnErr, OnOk};
ghost use Rattle.inode_events.specs.Asked.{entered, made};
ghost use Rattle.inode_events.specs.NewestFirst.{newest_first};
ghost use Rattle.inode_events.specs.Semaphores.{semaphore_says};
ghost use Rattle.world_locks.specs.acts.Acting.{IsPlacedAt, told_in, told_of};
ghost use Rattle.world_locks.specs.acts.Sharing.{AppendsTo, SignalsOn};
ghost use Rattle.world_model.specs.Tasks.{ArePassesOf};

use crate::world::World;
use inode_events::{Deed, Told};
use inode_meta::Who;
use policy_rules::Rule;
use std::alloc::AllocError as OutOfMemory;
use world_locks::acts::StepResult;
use world_model::Passes;

impl World {
    /// Posts to a semaphore or waits for one. `None` means that it is blocked.
    pub(crate) fn signal(
        &mut self,
        passes: &mut Passes,
        who: Who,
        deed: Deed,
    ) -> Result<Option<StepResult>, OutOfMemory>
        requires { ArePassesOf self.old.consts who.task passes.old }
        ensures consts { self.new.consts ≡ self.old.consts }
        ensures signals { SignalsOn self.old.state self.new.state passes.old passes.new who deed
            (told_in result) }
        ensures told { IfOk result (λ o. (told_of o
            ≡ semaphore_says (newest_first self.old.state.signals) deed)
            × IsPlacedAt (length self.old.state.signals) o) }
    {
        self.parts.sems.reserve()?;
        match self.parts.sems.signal(&mut passes.sems, who, deed) {
            Some(place) => Ok(Some(StepResult {
                place,
                told: Told::Done,
                action: None,
            })),
            None => Ok(None),
        }
    }

    /// Appends a copy of the rule to those in force.
    pub(crate) fn append(
        &mut self,
        passes: &mut Passes,
        who: Who,
        rule: &Rule,
    ) -> Result<StepResult, OutOfMemory>
        requires { ArePassesOf self.old.consts who.task passes.old }
        ensures consts { self.new.consts ≡ self.old.consts }
        ensures appends { OnOk result (AppendsTo self.old.state self.new.state passes.old
            passes.new (record { who = who; rule = rule.now })) }
        ensures told { IfOk result (λ a. (a.place ≡ length self.old.state.added)
            × (a.told ≡ Told.Done) × (a.action ≡ None)) }
        ensures err { OnErr result ((self.new.state ≡ self.old.state)
            × (passes.new ≡ passes.old)) }
    {
        let place = self.parts.rules.appended();
        self.parts
            .rules
            .append(self.parts.alloc, &mut passes.rules, who, rule)?;
        Ok(StepResult {
            place,
            told: Told::Done,
            action: None,
        })
    }
}
