//! The tasks of one thread, and the threads that run all tasks.

ghost use Rattle.std.specs.Prelude.{◌≡◌, ◌*◌, ◌-◌, ◌<◌, ◌≤◌, None, Some, All, IfOk, OnErr, OnOk, length};
ghost use denote.Param.Send.{IsSync};
ghost use Rattle.task_core.specs.worlds.Tasks.{IsTask};
ghost use Rattle.task_runner.specs.Parts.{HaveGone};
ghost use Rattle.task_runner.specs.Passes.{AreOver, HaveRunInParts, IsInPass, IsPartOver, IsPartStopped, IsPass, StepsAt};

use crate::rounds::has_moved;
use crate::turns::pass_gate;
use ima_io::Gate;
use std::alloc::AllocError as OutOfMemory;
use std::sync::Wait;
use std::thread::{Threads, join_mut};
use task_core::{Live, Name, Task, Turn};

// Makes one step of the task at this place; passes the gate first unless its program is over.
fn step_at<N: Name, G: Gate, R: Wait>(
    rt: &R,
    world: &Live<N>,
    tasks: &mut [Task],
    k: usize,
    gate: &G,
) -> Result<Turn, OutOfMemory>
    requires within { k < length tasks.old }
    requires tasks { All (IsTask N.consts) tasks.old }
    ensures gone { HaveGone N.consts tasks.old tasks.new }
    ensures step { IfOk result (λ r. StepsAt N.consts tasks.old tasks.new k (Some r)) }
    ensures err { OnErr result (StepsAt N.consts tasks.old tasks.new k None) }
{
    let task = &mut tasks[k];
    pass_gate(task, gate);
    task.step_shared(rt, world)
}

// Makes one step of each task. Returns whether one moved.
fn pass_over<N: Name, G: Gate, R: Wait>(
    rt: &R,
    world: &Live<N>,
    tasks: &mut [Task],
    gate: &G,
) -> Result<bool, OutOfMemory>
    requires { All (IsTask N.consts) tasks.old }
    ensures gone { HaveGone N.consts tasks.old tasks.new }
    ensures pass { IfOk result (λ moved. IsPass N.consts tasks.old tasks.new
        (length tasks.old) moved) }
    ensures err { OnErr result (IsInPass N.consts tasks.old tasks.new) }
{
    let mut moved = false;
    for k in 0..tasks.len() {
        moved = has_moved(moved, step_at(rt, world, tasks, k, gate)?);
    }
    Ok(moved)
}

// Makes passes over the tasks until one moves none. A part of 2^64 passes counts as out of memory.
fn run_part<N: Name, G: Gate, R: Wait>(
    rt: &R,
    world: &Live<N>,
    tasks: &mut [Task],
    gate: &G,
) -> Result<(), OutOfMemory>
    requires { All (IsTask N.consts) tasks.old }
    ensures gone { HaveGone N.consts tasks.old tasks.new }
    ensures over { OnOk result (IsPartOver N.consts tasks.old tasks.new) }
    ensures err { OnErr result (IsPartStopped N.consts tasks.old tasks.new) }
{
    for _ in 0..u64::MAX {
        if !pass_over(rt, world, tasks, gate)? {
            return Ok(());
        }
    }
    Err(OutOfMemory)
}

// The size of the parts if so many tasks are cut into at most `n` of them.
fn part_size(count: usize, n: usize) -> usize
    requires { 1 ≤ n }
    ensures some { 1 ≤ result }
    ensures few { count ≤ n * result }
    ensures short { 1 < result → n * (result - 1) < count }
{
    count.div_ceil(n).max(1)
}

// Runs the tasks in `count` parts of this size, the last of which may be shorter, each in a thread
// of its own if one can be created. Memory has run out if it has in one of them.
#[cycle(halves)]
fn run_halves<N: Name, G: Gate + Sync, R: Threads + Wait + Sync>(
    rt: &R,
    world: &Live<N>,
    gate: &G,
    size: usize,
    count: usize,
    tasks: &mut [Task],
) -> Result<(), OutOfMemory>
    requires some { 1 ≤ count }
    requires most { length tasks.old ≤ count * size }
    requires tasks { All (IsTask N.consts) tasks.old }
    ensures gone { HaveGone N.consts tasks.old tasks.new }
    ensures parts { OnOk result (AreOver N.consts count size tasks.old tasks.new) }
{
    if count == 1 {
        return run_part(rt, world, tasks, gate);
    }
    let low = count / 2;
    let cut = low.saturating_mul(size).min(tasks.len());
    let (front, back) = tasks.split_at_mut(cut);
    run_both(rt, world, gate, size, low, front, count - low, back)
}

// Runs two halves side by side.
#[cycle(halves)]
fn run_both<N: Name, G: Gate + Sync, R: Threads + Wait + Sync>(
    rt: &R,
    world: &Live<N>,
    gate: &G,
    size: usize,
    low: usize,
    front: &mut [Task],
    high: usize,
    back: &mut [Task],
) -> Result<(), OutOfMemory>
    requires some { (1 ≤ low) × (1 ≤ high) }
    requires most { (length front.old ≤ low * size) × (length back.old ≤ high * size) }
    requires tasks { All (IsTask N.consts) front.old × All (IsTask N.consts) back.old }
    ensures front { HaveGone N.consts front.old front.new }
    ensures back { HaveGone N.consts back.old back.new }
    ensures parts { OnOk result (AreOver N.consts low size front.old front.new
        × AreOver N.consts high size back.old back.new) }
{
    let mut first = || -> Result<(), OutOfMemory>
        requires { IsSync R.row × IsSync G.row × (1 ≤ low) × (length front.now ≤ low * size)
            × All (IsTask N.consts) front.now }
        ensures { HaveGone N.consts front.entry.now front.exit.now
            × OnOk result (AreOver N.consts low size front.entry.now front.exit.now) }
    { run_halves(rt, world, gate, size, low, front) };
    let mut second = || -> Result<(), OutOfMemory>
        requires { IsSync R.row × IsSync G.row × (1 ≤ high) × (length back.now ≤ high * size)
            × All (IsTask N.consts) back.now }
        ensures { HaveGone N.consts back.entry.now back.exit.now
            × OnOk result (AreOver N.consts high size back.entry.now back.exit.now) }
    { run_halves(rt, world, gate, size, high, back) };
    let (one, other) = join_mut(rt, &mut first, &mut second);
    one.and(other)
}

/// Cuts the tasks into at most `n` parts, none longer than so many parts need, each of which runs
/// in a thread of its own until a pass over its tasks moves none. If no thread can be created, the
/// parts run one after another. Memory has run out if it has in one of them.
pub(crate) fn run_parts<N: Name, G: Gate + Sync, R: Threads + Wait + Sync>(
    rt: &R,
    world: &Live<N>,
    tasks: &mut [Task],
    n: u32,
    gate: &G,
) -> Result<(), OutOfMemory>
    requires threads { 1 ≤ n }
    requires tasks { All (IsTask N.consts) tasks.old }
    ensures gone { HaveGone N.consts tasks.old tasks.new }
    ensures parts { OnOk result (HaveRunInParts N.consts n tasks.old tasks.new) }
{
    let size = part_size(tasks.len(), n as usize);
    let count = tasks.len().div_ceil(size).max(1);
    run_halves(rt, world, gate, size, count, tasks)
}
