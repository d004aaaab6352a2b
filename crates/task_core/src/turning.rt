//! The turn of a task.

ghost use Rattle.std.specs.Prelude.{◌≡◌, ◌≤◌, List, IfOk, OnErr};
ghost use Rattle.run_model.specs.History.{who_at};
ghost use Rattle.run_model.specs.Scene.{Program};
ghost use Rattle.run_model.specs.Turns.{step_task};
ghost use Rattle.task_core.specs.GoesOn.{GoesOn, turn_of, turn_told};
ghost use Rattle.world_locks.specs.acts.Turning.{TurnsTo, turned_to};
ghost use Rattle.world_model.specs.WorldConsts.{scene_of};
ghost use Rattle.world_model.specs.Tasks.{IsTask};
ghost use Rattle.world_locks.specs.worlds.Due.{slot_in};
ghost use Rattle.task_state.specs.Value.{due_at};

use crate::task::Task;
use crate::world::World;
use call_steps::Ask;
use inode_events::{Deed, Told};
use inode_meta::{Mode, Slot};
use run_model::Turn;
use std::alloc::AllocError as OutOfMemory;
use task_state::{Step, TaskState};
use world_locks::acts::{Actor, Checks, StepResult, TurnResult, turn_result_of};
use world_model::{HashState, Passes};

// The slot of a take, if one is due.
fn slot_due(task_state: &TaskState) -> Slot
    ensures { result ≡ slot_in (due_at task_state.now.program task_state.now.position.call_state) }
{
    match task_state.due() {
        Some(Ask::Take { slot }) => slot,
        _ => Slot::File,
    }
}

// What the task of this number knows about itself at its next step.
pub(crate) fn actor_of(task_state: &TaskState, number: u32) -> Actor<'_>
    ensures who { result.who
        ≡ who_at number task_state.now.program task_state.now.position.call_state }
    ensures cred { result.cred.now ≡ task_state.now.program.cred }
    ensures action { result.action ≡ task_state.now.checked }
    ensures slot { result.slot
        ≡ slot_in (due_at task_state.now.program task_state.now.position.call_state) }
{
    Actor {
        who: task_state.who(number),
        cred: task_state.cred(),
        action: task_state.checked(),
        slot: slot_due(task_state),
    }
}

// The turn of a step that can't be blocked.
pub(crate) fn turn_told(
    answered: Result<StepResult, OutOfMemory>,
) -> Result<TurnResult, OutOfMemory>
    ensures { result ≡ turn_told answered }
{
    match answered {
        Ok(answered) => Ok(TurnResult::Told(answered)),
        Err(err) => Err(err),
    }
}

// Takes the answer of the turn, if it has one, in room that was reserved.
pub(crate) fn go_on(task_state: &mut TaskState, mode: Mode, turned: TurnResult) -> Turn
    requires { 1 ≤ task_state.old.spare }
    ensures turn { result ≡ turn_of turned }
    ensures program { task_state.new.program ≡ task_state.old.program }
    ensures goes { GoesOn mode task_state.old task_state.new turned }
{
    match turned {
        TurnResult::Over => Turn::Done,
        TurnResult::Blocked => Turn::Blocked,
        TurnResult::Told(answered) => {
            task_state.resume(
                mode,
                &answered.told,
                answered.place,
                answered.action.as_ref(),
            );
            Turn::Moved
        }
    }
}

impl World {
    /// Makes the step that is due for the task with these passes and hashes.
    fn try_step(
        &mut self,
        task_state: &TaskState,
        number: u32,
        passes: &mut Passes,
        hash_state: &mut HashState,
    ) -> Result<TurnResult, OutOfMemory>
        requires { IsTask self.old.consts (record {
          number = number;
          task_state = task_state.now;
          hash_state = hash_state.old;
          passes = passes.old;
        }) }
        ensures consts { self.new.consts ≡ self.old.consts }
        ensures reaches { TurnsTo self.old.consts (record {
          number = number;
          task_state = task_state.now;
          hash_state = hash_state.old;
          passes = passes.old;
        }) self.old.state self.new.state passes.new hash_state.new result }
    {
        let actor = actor_of(task_state, number);
        match task_state.next() {
            None => Ok(TurnResult::Over),
            Some(Step::Nothing) => Ok(TurnResult::Told(StepResult {
                place: 0,
                told: Told::Nothing,
                action: None,
            })),
            Some(Step::Does { inode, due }) => {
                turn_result_of(self.apply(inode, passes, &actor, due, hash_state))
            }
            Some(
                Step::Checks {
                    inode,
                    file,
                    func,
                    mask,
                },
            ) => turn_result_of(self.check(inode, passes, &actor, Checks { file, func, mask })),
            Some(Step::Posts(sem)) => turn_result_of(self.signal(
                passes,
                actor.who,
                Deed::Post(sem),
            )),
            Some(Step::Waits(sem)) => turn_result_of(self.signal(
                passes,
                actor.who,
                Deed::Wait(sem),
            )),
            Some(Step::Appends(rule)) => turn_told(self.append(passes, actor.who, rule)),
        }
    }
}

impl Task {
    /// Makes one step of the task, which is a turn on plain lists. After `Blocked`, or if memory
    /// runs out, the lists and the task are unchanged except for what the task's passes have seen.
    pub fn step(&mut self, world: &mut World) -> Result<Turn, OutOfMemory>
        requires { IsTask world.old.consts self.old }
        ensures go { IfOk result (λ r. (programs : List Program)
            → step_task (scene_of world.old.consts programs) self.old.number
            self.old.task_state.program world.old.state self.old.task_state.position
            ≡ turned_to world.new.state self.new.task_state.position r) }
        ensures still { IsTask world.new.consts self.new }
        ensures consts { world.new.consts ≡ world.old.consts }
        ensures number { self.new.number ≡ self.old.number }
        ensures program { self.new.task_state.program ≡ self.old.task_state.program }
        ensures err { OnErr result ((world.new.state ≡ world.old.state)
            × (self.new.task_state.position ≡ self.old.task_state.position)) }
    {
        self.task_state.reserve()?;
        let turned = world.try_step(
            &self.task_state,
            self.number,
            &mut self.passes,
            &mut self.hash_state,
        )?;
        Ok(go_on(&mut self.task_state, world.parts.settings.mode, turned))
    }
}
