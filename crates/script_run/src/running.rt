//! The run of a script, from its start to its end.

ghost use Rattle.std.specs.Prelude.{◌≡◌, ◌<◌, All, IfOk, length};
ghost use Rattle.script_run.specs.Run.{AreWithin, HasRun, HaveRunAs, LeadsTo};
ghost use Rattle.task_runner.specs.worlds.Runs.{AreTasks};
ghost use Rattle.task_runner.specs.worlds.WorldRuns.{SameRun, moment_in, scene_in};

use crate::appended::rules_kept;
use call_steps::Ending;
use ima_io::Gate;
use run_model::Ended;
use script_start::started;
use script_text::Script;
use std::alloc::{AllocError as OutOfMemory, Global};
use std::marker::Brand;
use std::sync::Wait;
use std::thread::Threads;
use task_runner::tasks::{Task, World};
use task_runner::{run_rounds, run_schedule, run_threads};

// Gives the tasks their turns, as the ending says.
fn turn_all<G: Gate + Sync, R: Threads + Wait + Sync>(
    rt: &R,
    world: World,
    tasks: &mut Vec<Task>,
    ending: &Ending,
    gate: &G,
) -> Result<World, OutOfMemory>
    requires tasks { AreTasks world.consts tasks.old.items }
    requires turns { AreWithin (length tasks.old.items) ending.now }
    ensures run { IfOk result (λ w. LeadsTo (scene_in world tasks.old.items)
        (length tasks.old.items) ending.now (moment_in world tasks.old.items)
        (moment_in w tasks.new.items)) }
    ensures parts { IfOk result (λ w. HaveRunAs ending.now world w tasks.old.items
        tasks.new.items) }
    ensures still { IfOk result (λ w. SameRun world w tasks.old.items tasks.new.items) }
{
    match ending {
        Ending::Schedule(turns) => {
            let mut after = world;
            run_schedule(&mut after, tasks, turns.as_slice(), gate)?;
            Ok(after)
        }
        Ending::Rounds => {
            let mut after = world;
            run_rounds(&mut after, tasks, gate)?;
            Ok(after)
        }
        Ending::Threads(n) => run_threads::<Brand, G, R>(rt, world, tasks, *n, gate),
    }
}

/// Runs the script, passing the gate before each step, and returns the state that the run leaves.
/// The turns are those of the script's schedule, or rounds of all tasks until a round moves none of
/// them. With `threads n` the tasks run on at most `n` threads, with their steps in any order, and
/// then in rounds until none moves.
pub fn run<G: Gate + Sync, R: Threads + Wait + Sync>(
    rt: &R,
    alloc: Global,
    script: Script,
    gate: &G,
) -> Result<Ended, OutOfMemory>
    ensures { IfOk result (HasRun script) }
{
    script.keeps();
    rules_kept(&script);
    let (world, tasks, ending) = started(alloc, script)?;
    let mut tasks = tasks;
    let after = turn_all(rt, world, &mut tasks, &ending, gate)?;
    after.close(tasks)
}
