//! The locks that a deed on an inode needs where tasks share the lists.

ghost use Rattle.task_steps.specs.Hashed.{NeedsLocks};
ghost use Rattle.task_steps.specs.task_states.Steps.{deed_in};

use task_state::DueDeed;

/// The locks under which a deed on an inode is done.
#[derive(Clone, Copy)]
pub enum DeedLocks {
    /// The inode's and the measurement list's, since the deed may add to that list.
    WithList,
    /// The inode's, until the page is taken, which is hashed afterwards.
    Page,
    /// The inode's alone.
    Alone,
}

/// The locks that the deed needs.
pub fn locks_of(due: DueDeed<'_>) -> DeedLocks
    ensures { NeedsLocks (deed_in due.entry) result }
{
    match due {
        DueDeed::Take(_) | DueDeed::Finish(_) => DeedLocks::WithList,
        DueDeed::Chunk(_) | DueDeed::CloseChunk(_) => DeedLocks::Page,
        _ => DeedLocks::Alone,
    }
}
