// The tasks of two moments.

ghost use Rattle.std.specs.Prelude.{◌≡◌, IsTrue, map};
ghost use Rattle.order_sights.specs.Pairs.{ArePositionsPaired, IsPositionPaired};
ghost use Rattle.task_core.specs.worlds.Runs.{position_of};

use crate::pairs::{Pair, same_handles, same_progress};
use call_steps::Handle;
use order_told::same_all;
use std::alloc::{AllocError as OutOfMemory, Global};
use task_core::Task;
use task_state::{Progress, TaskState};

// ---- which files are to be pairs

fn push_progress(
    pairs: &mut Vec<Pair>,
    a: Option<Progress>,
    b: Option<Progress>,
) -> Result<(), OutOfMemory> {
    if let (Some(a), Some(b)) = (a, b) {
        pairs.push(Pair {
            inode: a.inode as usize,
            first: a.file,
            second: b.file,
        })?;
    }
    Ok(())
}

fn push_handles(pairs: &mut Vec<Pair>, a: &[Handle], b: &[Handle]) -> Result<(), OutOfMemory> {
    for (a, b) in a.iter().zip(b) {
        pairs.push(Pair {
            inode: a.inode as usize,
            first: a.file,
            second: b.file,
        })?;
    }
    Ok(())
}

/// The files that tasks at the same places have, in pairs, and for each inode the name of a file
/// that isn't counted yet. Some may be wrong: [`same_tasks`] tells.
pub fn pairs_of(
    alloc: Global,
    inodes: usize,
    a: &[Task],
    b: &[Task],
) -> Result<Vec<Pair>, OutOfMemory> {
    let mut pairs = Vec::new(alloc);
    for inode in 0..inodes {
        pairs.push(Pair {
            inode,
            first: 0,
            second: 0,
        })?;
    }
    for (a, b) in a.iter().zip(b) {
        push_progress(
            &mut pairs,
            a.task_state().progress(),
            b.task_state().progress(),
        )?;
        push_handles(
            &mut pairs,
            a.task_state().handles(),
            b.task_state().handles(),
        )?;
    }
    Ok(pairs)
}

// ---- whether the tasks are the same

fn same_task_state(pairs: &[Pair], a: &TaskState, b: &TaskState) -> bool
    ensures { IsTrue result → IsPositionPaired pairs.now a.now.position b.now.position }
{
    let here = a.at();
    let there = b.at();
    if here != there {
        return false;
    }
    if !same_progress(pairs, a.progress(), b.progress()) {
        return false;
    }
    if !same_handles(pairs, a.handles(), b.handles()) {
        return false;
    }
    same_all(a.replies(), b.replies())
}

fn same_task(pairs: &[Pair], a: &Task, b: &Task) -> bool
    ensures { IsTrue result → IsPositionPaired pairs.now (position_of a.now) (position_of b.now) }
{
    same_task_state(pairs, a.task_state(), b.task_state())
}

/// Whether the tasks at the same places are the same, with files that are pairs.
pub fn same_tasks(pairs: &[Pair], a: &[Task], b: &[Task]) -> bool
    ensures { IsTrue result
        → ArePositionsPaired pairs.now (map position_of a.now) (map position_of b.now) }
{
    if a.len() != b.len() {
        return false;
    }
    for k in 0..a.len() {
        if !same_task(pairs, &a[k], &b[k]) {
            return false;
        }
    }
    true
}
