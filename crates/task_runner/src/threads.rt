//! A run on several threads, and its end on one.

ghost use Rattle.std.specs.Prelude.{◌≡◌, ℕ, ◌<◌, ◌≤◌, false, IfOk, OnOk, length};
ghost use Rattle.run_model.specs.Rounds.{moves};
ghost use Rattle.task_core.specs.worlds.Runs.{AreTasks};
ghost use Rattle.task_runner.specs.Parts.{AreSameTasks};
ghost use Rattle.task_runner.specs.Passes.{HasRunOnThreads, HaveRunInParts};
ghost use Rattle.task_core.specs.worlds.WorldRuns.{SameRun, moment_in, scene_in};

use crate::parts::run_parts;
use crate::rounds::run_rounds;
use ima_io::Gate;
use std::alloc::AllocError as OutOfMemory;
use std::sync::Wait;
use std::thread::Threads;
use task_core::{Name, Task, World, look_all};

// Shares the world, runs the tasks in parts, and takes the world back.
fn run_shared<N: Name, G: Gate + Sync, R: Threads + Wait + Sync>(
    rt: &R,
    world: World,
    tasks: &mut Vec<Task>,
    n: u32,
    gate: &G,
) -> Result<World, OutOfMemory>
    requires threads { 1 ≤ n }
    requires consts { world.consts ≡ N.consts }
    requires tasks { AreTasks world.consts tasks.old.items }
    ensures still { IfOk result (λ w. SameRun world w tasks.old.items tasks.new.items) }
    ensures parts { OnOk result (HaveRunInParts world.consts n tasks.old.items tasks.new.items) }
    ensures tasks { AreSameTasks world.consts tasks.old.items tasks.new.items }
{
    let live = world.share::<N>()?;
    run_parts(rt, &live, tasks.as_mut_slice(), n, gate)?;
    live.back()
}

/// Runs the tasks on at most `n` threads. The world is shared, and the tasks are cut into
/// contiguous parts, none longer than `n` parts need, each of which makes steps of its tasks in
/// turn until a pass over them moves none. Then the world is taken back, each task looks at it, and
/// rounds of all tasks go on until one moves none. If memory runs out, the tasks have made some of
/// their steps, and the world is dropped. A part of 2^64 passes counts as out of memory, as a run
/// of 2^64 rounds does.
pub fn run_threads<N: Name, G: Gate + Sync, R: Threads + Wait + Sync>(
    rt: &R,
    world: World,
    tasks: &mut Vec<Task>,
    n: u32,
    gate: &G,
) -> Result<World, OutOfMemory>
    requires threads { 1 ≤ n }
    requires consts { world.consts ≡ N.consts }
    requires tasks { AreTasks world.consts tasks.old.items }
    ensures still { IfOk result (λ w. SameRun world w tasks.old.items tasks.new.items) }
    ensures stops { IfOk result (λ w. (k : ℕ) → k < length tasks.old.items
        → moves (scene_in world tasks.old.items) (moment_in w tasks.new.items) k ≡ false) }
    ensures parts { IfOk result (λ w. HasRunOnThreads world w n tasks.old.items tasks.new.items) }
    ensures tasks { AreSameTasks world.consts tasks.old.items tasks.new.items }
{
    let mut after = run_shared::<N, G, R>(rt, world, tasks, n, gate)?;
    look_all(&mut after, tasks);
    run_rounds(&mut after, tasks, gate)?;
    Ok(after)
}
