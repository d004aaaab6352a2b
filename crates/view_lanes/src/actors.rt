// The tasks that act in a drawing, each of which has a lane.

ghost use Rattle.std.specs.Prelude.{◌≡◌, ◌≤◌, ◌+◌, length, IfOk, OnOk};
ghost use Rattle.view_lanes.specs.Lanes as spec;

use report_read::Deed;
use std::alloc::{AllocError as OutOfMemory, Global};
use view_journal::Column;

/// The tasks of the events of these columns, in the order of their numbers.
pub fn tasks(alloc: Global, columns: &[Column]) -> Result<Vec<u32>, OutOfMemory>
    ensures is { IfOk result (λ v. v.items ≡ spec.tasks_of columns.now) }
    ensures few { IfOk result (λ v. length v.items ≤ length columns.now) }
{
    let mut tasks = Vec::new(alloc);
    for column in columns {
        add_actor(&mut tasks, column.event.deed, column.event.who.task)?;
    }
    Ok(tasks)
}

fn add_actor(tasks: &mut Vec<u32>, deed: Deed, task: u32) -> Result<(), OutOfMemory>
    ensures is { OnOk result (tasks.new.items ≡ spec.with_actor deed task tasks.old.items) }
    ensures few { OnOk result (length tasks.new.items ≤ length tasks.old.items + 1) }
{
    match deed {
        Deed::Birth => Ok(()),
        _ => add_task(tasks, task),
    }
}

fn add_task(tasks: &mut Vec<u32>, task: u32) -> Result<(), OutOfMemory>
    ensures is { OnOk result (tasks.new.items ≡ spec.with_task task tasks.old.items) }
    ensures few { OnOk result (length tasks.new.items ≤ length tasks.old.items + 1) }
{
    let at = first_from(task, tasks);
    if at < tasks.len() && tasks[at] == task {
        return Ok(());
    }
    tasks.insert(at, task)?;
    Ok(())
}

fn first_from(task: u32, tasks: &[u32]) -> usize
    ensures is { result ≡ spec.first_from task tasks.now }
    ensures within { result ≤ length tasks.now }
{
    for (at, other) in tasks.iter().enumerate() {
        if *other >= task {
            return at;
        }
    }
    tasks.len()
}
