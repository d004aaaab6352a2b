// Worlds, tasks, and the ways to have their turns made.
//
// "Only calls that take a lock or start threads take the runtime, before the allocator"

ghost use Rattle.std.specs.Prelude.{◌≡◌, ◌+◌, ◌-◌, ◌<◌, ◌≤◌, ◌^◌, All, length};
ghost use Rattle.ima_top.specs.worlds.Runs.{AreTasks};
ghost use Rattle.ima_top.specs.worlds.Tasks.{IsTask};
ghost use Rattle.ima_top.specs.starts.Started.{IsFile};

use std::alloc::Global;
use std::sync::Wait;
use std::thread::Threads;

// ---- task_core

pub fn records(
    passes: &task_core::Passes,
    ended: &task_core::Ended,
    task: &task_core::EndedTask,
    turn: task_core::Turn,
) {
    let _: Vec<grow_list::Pass<inode_events::Event>> = passes.inodes;
    let _: grow_list::Pass<inode_events::Event> = passes.sems;
    let _: grow_list::Pass<ima_templates::Entry> = passes.book;
    let _: grow_list::Pass<policy_cell::RuleEntry> = passes.rules;
    let _: Vec<inode_cell::EndedInode> = ended.inodes;
    let _: Vec<ima_templates::Entry> = ended.list;
    let _: pcr_bank::Banks = ended.banks;
    let _: Vec<task_core::EndedTask> = ended.tasks;
    let _: bool = ended.stuck;
    let _: inode_meta::Template = ended.template;
    let _: bool = task.done;
    let _: Vec<call_steps::Reply> = task.replies;
    match turn {
        task_core::Turn::Moved | task_core::Turn::Blocked | task_core::Turn::Done => {}
    }
}

pub fn world_start(
    alloc: Global,
    settings: inode_events::Settings,
    boot: ima_templates::Entry,
    inodes: Vec<(xattr_store::Bytes, inode_events::Image)>,
    supers: Vec<policy_text::Super>,
    places: Vec<u32>,
    rules: policy_text::Policy,
    tasks: u32,
) -> Result<(task_core::World, Vec<task_core::Passes>), task_core::OutOfMemory>
    requires files { All IsFile inodes.items }
    requires even { length places.items ≡ length inodes.items }
    requires places { All (λ place. place < length supers.items) places.items }
    requires callers { length inodes.items + tasks < 2 ^ 32 - 1 }
{
    task_core::World::start(alloc, settings, boot, inodes, supers, places, rules, tasks)
}

pub fn world_share<N: task_core::Name, R: Wait, F: FnOnce()>(
    world: task_core::World,
    back: task_core::Live<N>,
    held: &task_core::Live<N>,
    rt: &R,
    inode: u32,
    f: F,
) -> (
    Result<task_core::Live<N>, task_core::OutOfMemory>,
    Result<task_core::World, task_core::OutOfMemory>,
)
    requires consts { world.consts ≡ N.consts }
    requires inode { inode < length N.consts.each_inode }
    requires call { F.IsAlwaysCallable f }
{
    task_core::Live::hold(held, rt, inode, f);
    (
        task_core::World::share::<N>(world),
        task_core::Live::back(back),
    )
}

pub fn task_new(
    alloc: Global,
    number: u32,
    cred: inode_meta::Cred,
    program: Vec<call_steps::Call>,
    passes: task_core::Passes,
    other: &task_core::Task,
) -> (
    Result<task_core::Task, task_core::OutOfMemory>,
    Option<inode_meta::Who>,
) {
    (
        task_core::Task::new(alloc, number, cred, program, passes),
        task_core::Task::who(other),
    )
}

pub fn task_look(task: &mut task_core::Task, world: &mut task_core::World)
    requires { IsTask world.old.consts task.old }
{
    task_core::Task::look(task, world)
}

pub fn task_step(
    task: &mut task_core::Task,
    world: &mut task_core::World,
) -> Result<task_core::Turn, task_core::OutOfMemory>
    requires { IsTask world.old.consts task.old }
{
    task_core::Task::step(task, world)
}

pub fn task_step_shared<N: task_core::Name, R: Wait>(
    task: &mut task_core::Task,
    rt: &R,
    world: &task_core::Live<N>,
) -> Result<task_core::Turn, task_core::OutOfMemory>
    requires { IsTask N.consts task.old }
{
    task_core::Task::step_shared(task, rt, world)
}

pub fn world_close(
    world: task_core::World,
    tasks: Vec<task_core::Task>,
) -> Result<task_core::Ended, task_core::OutOfMemory>
    requires count { length tasks.items ≡ world.consts.tasks }
    requires tasks { AreTasks world.consts tasks.items }
{
    task_core::World::close(world, tasks)
}

// ---- task_runner

pub fn run_schedule<G: ima_io::Gate>(
    world: &mut task_core::World,
    tasks: &mut Vec<task_core::Task>,
    turns: &[u32],
    gate: &G,
) -> Result<(), task_runner::OutOfMemory>
    requires tasks { AreTasks world.old.consts tasks.old.items }
    requires turns { All (λ k. k < length tasks.old.items) turns.now }
{
    task_runner::run_schedule(world, tasks, turns, gate)
}

pub fn run_rounds<G: ima_io::Gate>(
    world: &mut task_core::World,
    tasks: &mut Vec<task_core::Task>,
    gate: &G,
) -> Result<(), task_runner::OutOfMemory>
    requires { AreTasks world.old.consts tasks.old.items }
{
    task_runner::run_rounds(world, tasks, gate)
}

pub fn run_threads<N: task_core::Name, G: ima_io::Gate + Sync, R: Threads + Wait + Sync>(
    rt: &R,
    world: task_core::World,
    tasks: &mut Vec<task_core::Task>,
    n: u32,
    gate: &G,
) -> Result<task_core::World, task_runner::OutOfMemory>
    requires threads { 1 ≤ n }
    requires consts { world.consts ≡ N.consts }
    requires tasks { AreTasks world.consts tasks.old.items }
{
    task_runner::run_threads::<N, G, R>(rt, world, tasks, n, gate)
}
