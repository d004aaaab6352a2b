// Makes the tasks of a script from its task blocks.
ghost use Rattle.std.specs.Prelude.{◌≡◌, ◌<◌, ◌^◌, IfOk, length};
ghost use Rattle.script_start.specs.NewTasks.{AreNew, IsNew};

use script_text::TaskBlock;
use std::alloc::{AllocError as OutOfMemory, Global};
use std::collections::VecDeque;
use task_core::{Passes, Task};

// Makes task `number` of the script, before its first call.
fn task_of(
    alloc: Global,
    number: u32,
    block: TaskBlock,
    passes: Passes,
) -> Result<Task, OutOfMemory>
    ensures { IfOk result (IsNew number block passes) }
{
    let TaskBlock { cred, calls } = block;
    Task::new(alloc, number, cred, calls.into_vec(), passes)
}

/// The tasks of these blocks before their first calls, in order, each with its own passes. The
/// number of a task is the index of its block.
pub fn new_tasks(
    alloc: Global,
    blocks: Vec<TaskBlock>,
    passes: Vec<Passes>,
) -> Result<Vec<Task>, OutOfMemory>
    requires even { length passes.items ≡ length blocks.items }
    requires few { length blocks.items < 2 ^ 32 }
    ensures { IfOk result (λ tasks. AreNew blocks.items passes.items tasks.items) }
{
    let mut left = VecDeque::from(passes);
    let mut tasks = Vec::new(alloc);
    for block in blocks {
        let Some(own) = left.pop_front() else {
            unreachable!()
        };
        let number = tasks.len() as u32;
        tasks.push(task_of(alloc, number, block, own)?)?;
    }
    Ok(tasks)
}
