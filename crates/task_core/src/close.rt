//! The end of a world.

ghost use Rattle.std.specs.Prelude.{◌≡◌, ℕ, ◌<◌, false, true, All, IfOk, length, map};
ghost use Rattle.std.specs.List.{list_all, list_any};
ghost use Rattle.call_steps.specs.declared.ending.Ending.{Ending as AnyEnding};
ghost use Rattle.ima_templates.specs.IsEntry.{IsEntry};
ghost use Rattle.inode_events.specs.NewestFirst.{newest_first};
ghost use Rattle.inode_events.specs.Semaphores.{left};
ghost use Rattle.run_model.specs.Ended.{IsThrough};
ghost use Rattle.run_model.specs.EndedValue.{ended_of};
ghost use Rattle.run_model.specs.Rounds.{moves};
ghost use Rattle.run_model.specs.Shown.{IsShown};
ghost use Rattle.run_model.specs.Turns.{run_at};
ghost use Rattle.world_model.specs.WorldConsts.{WorldConsts, scene_of};
ghost use Rattle.world_model.specs.Runs.{AreTasks, moment_of, programs_of};
ghost use Rattle.world_model.specs.Tasks.{Tasked};
ghost use Rattle.world_model.specs.WorldRuns.{moment_in, scene_in};
ghost use Rattle.world_close.specs.Finished.{HaveMade, IsFinished};
ghost use Rattle.world_close.specs.Leaves.{are_stuck, done_by, may_append, rests, task_left};
ghost use Rattle.world_close.specs.Settled.{HasEnded, HaveSameTaskStates, is_over};

use crate::task::Task;
use crate::world::World;
use run_model::{Ended, EndedTask};
use std::alloc::{AllocError as OutOfMemory, Global};
use world_close::semaphores::SemaphoreCell;
use world_close::{Lists, close_lists, rests};
use world_model::Passes;

/// Lets each task look at all lists of the world. Afterwards the entries of its number in each list
/// are exactly those that it has made.
pub fn look_all(world: &mut World, tasks: &mut Vec<Task>)
    requires { AreTasks world.old.consts tasks.old.items }
    ensures consts { world.new.consts ≡ world.old.consts }
    ensures state { world.new.state ≡ world.old.state }
    ensures made { HaveMade world.old.consts world.old.state tasks.new.items }
    ensures tasks { AreTasks world.old.consts tasks.new.items }
    ensures same { HaveSameTaskStates tasks.old.items tasks.new.items }
{
    for k in 0..tasks.len() {
        tasks[k].look(world);
    }
}

// Whether each task is done.
fn are_done(tasks: &[Task]) -> bool
    ensures { result ≡ list_all done_by tasks.now }
{
    for task in tasks {
        if !task.task_state.is_done() {
            return false;
        }
    }
    true
}

// Whether no task can go on.
fn all_rest(tasks: &[Task], sems: &SemaphoreCell) -> bool
    ensures { result ≡ list_all (rests (λ sem. left sem (newest_first sems.now.list))) tasks.now }
{
    for task in tasks {
        if !rests(&task.task_state, sems) {
            return false;
        }
    }
    true
}

// Whether some task isn't done, and none can go on.
fn are_stuck(tasks: &[Task], sems: &SemaphoreCell) -> bool
    ensures { result ≡ are_stuck (λ sem. left sem (newest_first sems.now.list)) tasks.now }
{
    !are_done(tasks) && all_rest(tasks, sems)
}

// Whether some task's program can append a rule.
fn may_grow(tasks: &[Task]) -> bool
    ensures { result ≡ list_any may_append tasks.now }
{
    for task in tasks {
        if task.task_state.appends() {
            return true;
        }
    }
    false
}

impl Task {
    // Splits the task into its passes and its final state.
    fn into_parts(self) -> (Passes, EndedTask)
        ensures passes { result.0 ≡ self.passes }
        ensures ended { result.1 ≡ task_left self }
    {
        let Task {
            number: _,
            task_state,
            hash_state: _,
            passes,
        } = self;
        (passes, task_state.end())
    }
}

// Splits all tasks into their passes and their final states.
fn part(alloc: Global, tasks: Vec<Task>) -> Result<(Vec<Passes>, Vec<EndedTask>), OutOfMemory>
    ensures passes { IfOk result (λ r. r.0.items ≡ map (λ (t : Tasked). t.passes) tasks.items) }
    ensures ended { IfOk result (λ r. r.1.items ≡ map task_left tasks.items) }
{
    let mut passes = Vec::new(alloc);
    let mut ended = Vec::new(alloc);
    for task in tasks {
        let (own, left) = task.into_parts();
        passes.push(own)?;
        ended.push(left)?;
    }
    Ok((passes, ended))
}

// Closes the lists of a world whose tasks have looked at all of them.
fn end(world: World, tasks: Vec<Task>) -> Result<Ended, OutOfMemory>
    ghost consts: { WorldConsts }
    requires consts { world.consts ≡ consts }
    requires count { length tasks.items ≡ consts.tasks }
    requires tasks { AreTasks consts tasks.items }
    requires made { HaveMade consts world.state tasks.items }
    ensures { IfOk result (λ e. HasEnded (scene_of consts (programs_of tasks.items))
        (moment_of world.state tasks.items) e) }
{
    let stuck = are_stuck(tasks.as_slice(), &world.parts.sems);
    let grows = may_grow(tasks.as_slice());
    let Ok((passes, ended)) = part(world.parts.alloc, tasks) else {
        drop(world);
        return Err(OutOfMemory);
    };
    let template = world.parts.settings.template;
    let in_force = world.parts.rules.rules().rules().len();
    let World { parts } = world;
    let lists = close_lists(parts, passes)?;
    let Lists {
        inodes,
        list,
        banks,
        rules: appended,
    } = lists;
    let base = (in_force - appended.len()) as u64;
    Ok(Ended {
        inodes,
        list,
        banks,
        tasks: ended,
        stuck,
        template,
        rules: appended,
        base,
        grows,
    })
}

impl World {
    /// Closes the world of these tasks, and returns the final state of their run. Each journal is
    /// legal, the measurement list is merged with them, and the run is served. If no task can move,
    /// each is done or the run is stuck. A run that has gone on as long as its ending asks may be
    /// shown.
    pub fn close(self, tasks: Vec<Task>) -> Result<Ended, OutOfMemory>
        requires count { length tasks.items ≡ self.consts.tasks }
        requires tasks { AreTasks self.consts tasks.items }
        ensures ended { IfOk result (λ e. e ≡ ended_of (scene_in self tasks.items)
            (run_at (moment_in self tasks.items))) }
        ensures entries { IfOk result (λ e. All IsEntry e.list) }
        ensures finished { IfOk result (λ e. IsFinished (scene_in self tasks.items)
            (moment_in self tasks.items)) }
        ensures ends { IfOk result (λ e. ((n : ℕ) → n < length tasks.items
            → moves (scene_in self tasks.items) (moment_in self tasks.items) n ≡ false)
            → is_over (scene_in self tasks.items) (moment_in self tasks.items) ≡ true) }
        ensures shown { IfOk result (λ e. (ending : AnyEnding)
            → IsThrough ending (is_over (scene_in self tasks.items) (moment_in self tasks.items))
            → IsShown (scene_in self tasks.items) ending (run_at (moment_in self tasks.items))) }
    {
        let mut world = self;
        let mut tasks = tasks;
        look_all(&mut world, &mut tasks);
        let ended = end(world, tasks)?;
        Ok(ended)
    }
}
