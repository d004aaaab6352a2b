ghost use Rattle.std.specs.Prelude.{◌≡◌, ◌||◌, length, slice_get};
ghost use Rattle.inode_events.specs.NewestFirst.{newest_first};
ghost use Rattle.inode_events.specs.Semaphores.{left};
ghost use Rattle.run_model.specs.Ended.{is_done, waits_in_vain};

use semaphore_cell::SemaphoreCell;
use task_state::TaskState;

// Whether the task's next call waits for a semaphore with no post left.
fn waits_in_vain(task_state: &TaskState, sems: &SemaphoreCell) -> bool
    ensures { result ≡ waits_in_vain (λ sem. left sem (newest_first sems.now.list))
        (slice_get task_state.now.program.calls (length task_state.now.position.replies)) }
{
    match task_state.awaited() {
        Some(sem) => sems.left(sem) == 0,
        None => false,
    }
}

/// Whether the task is done, or its next call waits for a semaphore with no post left.
pub fn rests(task_state: &TaskState, sems: &SemaphoreCell) -> bool
    ensures { result ≡ (is_done task_state.now.program task_state.now.position
        || waits_in_vain (λ sem. left sem (newest_first sems.now.list))
        (slice_get task_state.now.program.calls (length task_state.now.position.replies))) }
{
    task_state.is_done() || waits_in_vain(task_state, sems)
}
