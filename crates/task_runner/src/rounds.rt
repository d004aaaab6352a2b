//! Rounds of all tasks.

ghost use Rattle.std.specs.Prelude.{◌≡◌, ℕ, ◌<◌, ◌||◌, false, IfOk, OnErr, OnOk, length};
ghost use Rattle.run_model.specs.Rounds.{RoundsTo, all_tasks, is_moved, moves};
ghost use Rattle.task_core.specs.worlds.Runs.{AreTasks};
ghost use Rattle.task_core.specs.worlds.WorldRuns.{IsRound, SameRun, moment_in, scene_in};
ghost use Rattle.task_runner.specs.Stops.{StopsIn, StopsInRounds};

use crate::turns::turn_at;
use ima_io::Gate;
use std::alloc::AllocError as OutOfMemory;
use task_core::{Task, Turn, World};

// Whether a task has moved, before or by this turn.
pub(crate) fn has_moved(before: bool, turn: Turn) -> bool
    ensures { result ≡ (is_moved turn || before) }
{
    match turn {
        Turn::Moved => true,
        Turn::Blocked => before,
        Turn::Done => before,
    }
}

// Makes one turn of each task. Returns whether one has moved.
fn round<G: Gate>(world: &mut World, tasks: &mut Vec<Task>, gate: &G) -> Result<bool, OutOfMemory>
    requires { AreTasks world.old.consts tasks.old.items }
    ensures round { IfOk result (λ moved. IsRound world.old world.new tasks.old.items
        tasks.new.items moved) }
    ensures err { OnErr result (StopsIn (scene_in world.old tasks.old.items)
        (moment_in world.old tasks.old.items) (all_tasks (scene_in world.old tasks.old.items))
        (moment_in world.new tasks.new.items)) }
    ensures still { SameRun world.old world.new tasks.old.items tasks.new.items }
{
    let mut moved = false;
    for k in 0..tasks.len() {
        moved = has_moved(moved, turn_at(world, tasks, k, gate)?);
    }
    Ok(moved)
}

/// Runs rounds of all tasks, until one moves none. If memory runs out, the tasks have made some
/// rounds, each of which moved a task, and then some first turns of the next round, and the world
/// is that of these turns. A run of 2^64 rounds counts as out of memory.
pub fn run_rounds<G: Gate>(
    world: &mut World,
    tasks: &mut Vec<Task>,
    gate: &G,
) -> Result<(), OutOfMemory>
    requires { AreTasks world.old.consts tasks.old.items }
    ensures run { OnOk result (RoundsTo (scene_in world.old tasks.old.items)
        (moment_in world.old tasks.old.items) (moment_in world.new tasks.new.items)) }
    ensures stops { OnOk result ((k : ℕ) → k < length tasks.old.items
        → moves (scene_in world.old tasks.old.items) (moment_in world.new tasks.new.items) k
        ≡ false) }
    ensures err { OnErr result (StopsInRounds (scene_in world.old tasks.old.items)
        (moment_in world.old tasks.old.items) (moment_in world.new tasks.new.items)) }
    ensures still { SameRun world.old world.new tasks.old.items tasks.new.items }
{
    for _ in 0..u64::MAX {
        if !round(world, tasks, gate)? {
            return Ok(());
        }
    }
    Err(OutOfMemory)
}
