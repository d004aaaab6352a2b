//! One turn of a task, and schedules of turns.

ghost use Rattle.std.specs.Prelude.{◌≡◌, ◌<◌, All, IfOk, OnErr, OnOk, length};
ghost use Rattle.run_model.specs.Turns.{turns_of};
ghost use Rattle.task_core.specs.worlds.Runs.{AreTasks};
ghost use Rattle.task_core.specs.worlds.WorldRuns.{IsTurn, SameRun, moment_in, scene_in};
ghost use Rattle.task_runner.specs.Stops.{StopsIn};

use ima_io::{Gate, Who};
use std::alloc::AllocError as OutOfMemory;
use task_core::{Task, Turn, World};

// Passes the gate before the next step of the task, unless its program is over.
pub(crate) fn pass_gate<G: Gate>(task: &Task, gate: &G) {
    if let Some(who) = task.who() {
        gate.pass(Who {
            task: who.task,
            call: who.call,
            step: who.step,
        });
    }
}

/// Makes one turn of the task of this number; passes the gate first unless its program is over. If
/// memory runs out, no turn was made.
pub fn turn_at<G: Gate>(
    world: &mut World,
    tasks: &mut Vec<Task>,
    k: usize,
    gate: &G,
) -> Result<Turn, OutOfMemory>
    requires tasks { AreTasks world.old.consts tasks.old.items }
    requires within { k < length tasks.old.items }
    ensures turned { IfOk result (λ r. IsTurn world.old world.new tasks.old.items tasks.new.items
        k r) }
    ensures err { OnErr result (moment_in world.new tasks.new.items
        ≡ moment_in world.old tasks.old.items) }
    ensures still { SameRun world.old world.new tasks.old.items tasks.new.items }
{
    let task = &mut tasks[k];
    pass_gate(task, gate);
    task.step(world)
}

/// Makes one turn of each task that is named, in order. If memory runs out, some first turns of the
/// schedule were made, and the world is that of these turns.
pub fn run_schedule<G: Gate>(
    world: &mut World,
    tasks: &mut Vec<Task>,
    turns: &[u32],
    gate: &G,
) -> Result<(), OutOfMemory>
    requires tasks { AreTasks world.old.consts tasks.old.items }
    requires turns { All (λ k. k < length tasks.old.items) turns.now }
    ensures run { OnOk result (moment_in world.new tasks.new.items
        ≡ turns_of (scene_in world.old tasks.old.items) (moment_in world.old tasks.old.items)
        turns.now) }
    ensures err { OnErr result (StopsIn (scene_in world.old tasks.old.items)
        (moment_in world.old tasks.old.items) turns.now (moment_in world.new tasks.new.items)) }
    ensures still { SameRun world.old world.new tasks.old.items tasks.new.items }
{
    for k in turns {
        turn_at(world, tasks, *k as usize, gate)?;
    }
    Ok(())
}
