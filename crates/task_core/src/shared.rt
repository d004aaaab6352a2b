//! The step of a task on a world that threads share.

ghost use Rattle.std.specs.Prelude.{◌≡◌, false, IfOk, OnErr};
ghost use Rattle.run_model.specs.History.{step_at};
ghost use Rattle.run_model.specs.Rounds.{is_moved};
ghost use Rattle.run_model.specs.declared.turn.Turn.TheVariants as Turn;
ghost use Rattle.task_core.specs.Shared.{IsBlockedBy, StepsTo, TurnsToMet};
ghost use Rattle.world_model.specs.Tasks.{IsTask};
ghost use Rattle.world_locks.specs.Met.{mines_of};

use crate::live::Live;
use crate::task::Task;
use crate::turning::{actor_of, go_on, turn_told};
use inode_events::{Deed, Told};
use run_model::Turn;
use std::alloc::AllocError as OutOfMemory;
use std::sync::Wait;
use task_state::{Step, TaskState};
use world_locks::Name;
use world_locks::acts::{Checks, StepResult, TurnResult, turn_result_of};
use world_model::{HashState, Passes};

impl<N: Name> Live<N> {
    /// Makes the step that is due for the task with these passes and hashes.
    fn try_step<R: Wait>(
        &self,
        rt: &R,
        task_state: &TaskState,
        number: u32,
        passes: &mut Passes,
        hash_state: &mut HashState,
    ) -> Result<TurnResult, OutOfMemory>
        requires { IsTask N.consts (record {
          number = number;
          task_state = task_state.now;
          hash_state = hash_state.old;
          passes = passes.old;
        }) }
        ensures { TurnsToMet N.consts (record {
          number = number;
          task_state = task_state.now;
          hash_state = hash_state.old;
          passes = passes.old;
        }) passes.new hash_state.new result }
    {
        let actor = actor_of(task_state, number);
        let locks = &self.locks;
        match task_state.next() {
            None => Ok(TurnResult::Over),
            Some(Step::Nothing) => Ok(TurnResult::Told(StepResult {
                place: 0,
                told: Told::Nothing,
                action: None,
            })),
            Some(Step::Does { inode, due }) => {
                turn_result_of(locks.lock_and_apply(rt, inode, passes, &actor, due, hash_state))
            }
            Some(
                Step::Checks {
                    inode,
                    file,
                    func,
                    mask,
                },
            ) => turn_result_of(locks.lock_and_check(
                rt,
                inode,
                passes,
                &actor,
                Checks { file, func, mask },
            )),
            Some(Step::Posts(sem)) => turn_result_of(locks.lock_and_signal(
                rt,
                passes,
                actor.who,
                Deed::Post(sem),
            )),
            Some(Step::Waits(sem)) => turn_result_of(locks.lock_and_signal(
                rt,
                passes,
                actor.who,
                Deed::Wait(sem),
            )),
            Some(Step::Appends(rule)) => {
                turn_told(locks.lock_and_append(rt, passes, actor.who, rule))
            }
        }
    }
}

impl Task {
    /// Makes one step of the task on a world that threads share. The step is a turn on the lists
    /// that it found, and after it the task's passes have seen these lists as the turn left them.
    /// After `Blocked`, the list that blocks the step is the one that the task's pass has seen now.
    /// After `Blocked`, or if memory runs out, no entry of the task was added, and the task is
    /// unchanged except for what its passes have seen.
    pub fn step_shared<N: Name, R: Wait>(
        &mut self,
        rt: &R,
        world: &Live<N>,
    ) -> Result<Turn, OutOfMemory>
        requires { IsTask N.consts self.old }
        ensures go { IfOk result (λ r. StepsTo N.consts self.old self.new r) }
        ensures still { IsTask N.consts self.new }
        ensures number { self.new.number ≡ self.old.number }
        ensures program { self.new.task_state.program ≡ self.old.task_state.program }
        ensures blocked { IfOk result (λ r. r ≡ Turn.Blocked → IsBlockedBy N.consts self.old.number
            self.old.passes self.new.passes
            (step_at self.old.task_state.program self.old.task_state.position.call_state)) }
        ensures idle { IfOk result (λ r. is_moved r ≡ false
            → mines_of self.new.passes ≡ mines_of self.old.passes) }
        ensures err { OnErr result ((self.new.task_state.position ≡ self.old.task_state.position)
            × (mines_of self.new.passes ≡ mines_of self.old.passes)) }
    {
        self.task_state.reserve()?;
        let turned = world.try_step(
            rt,
            &self.task_state,
            self.number,
            &mut self.passes,
            &mut self.hash_state,
        )?;
        Ok(go_on(&mut self.task_state, world.locks.mode(), turned))
    }
}
