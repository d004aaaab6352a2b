//! The steps of a task on the semaphores and the rules, each under its lock alone.

ghost use Rattle.std.specs.Prelude.{◌≡◌, IfOk, OnErr};
ghost use Rattle.world_close.specs.worlds.Tasks.{ArePassesOf};
ghost use Rattle.world_locks.specs.Met.{AppendsMet, SignalsMet};

use crate::locks::Locks;
use crate::name::Name;
use crate::order::Order;
use inode_events::Deed;
use inode_meta::Who;
use policy_rules::Rule;
use std::alloc::AllocError as OutOfMemory;
use std::sync::Wait;
use task_steps::StepResult;
use world_close::worlds::Passes;

impl<N: Name> Locks<N> {
    /// Posts to a semaphore or waits for one. `None` means that it is blocked.
    pub fn lock_and_signal<R: Wait>(
        &self,
        rt: &R,
        passes: &mut Passes,
        who: Who,
        deed: Deed,
    ) -> Result<Option<StepResult>, OutOfMemory>
        requires { ArePassesOf N.consts who.task passes.old }
        ensures { SignalsMet passes.old passes.new who deed result }
    {
        let mut order = Order::new();
        self.take_semaphores(rt, &mut order)
            .signal(&mut passes.sems, who, deed)
    }

    /// Appends a copy of the rule to those in force.
    pub fn lock_and_append<R: Wait>(
        &self,
        rt: &R,
        passes: &mut Passes,
        who: Who,
        rule: &Rule,
    ) -> Result<StepResult, OutOfMemory>
        requires { ArePassesOf N.consts who.task passes.old }
        ensures appends { IfOk result (λ a. AppendsMet passes.old passes.new
            (record { who = who; rule = rule.now }) a) }
        ensures err { OnErr result (passes.new ≡ passes.old) }
    {
        let mut order = Order::new();
        self.take_rules(rt, &mut order)
            .append(self.alloc, &mut passes.rules, who, rule)
    }
}
