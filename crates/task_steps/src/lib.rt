//! One step of a task on the lists of its world, and its effect on the run: a deed on one inode, or
//! a check, which is borrowed together with whatever else it needs; its place in the lists; the
//! look at the lists before and after it; and the locks that it needs where tasks share the lists.
#![tactic(auto)]

mod acting;
mod alone;
mod answers;
mod checking;
mod collecting;
mod doing;
mod gathering;
mod listed;
mod locking;
mod looking;
mod plain;

pub use acting::apply_at;
pub use alone::apply_alone_at;
pub use answers::{StepResult, TurnResult, turn_result_of};
pub use checking::check_at;
pub use doing::{Actor, look_and_apply, look_and_apply_alone, look_and_check};
pub use gathering::gather;
pub use listed::Checks;
pub use locking::{DeedLocks, locks_of};
pub use looking::look_at_inodes;
pub use std::alloc::AllocError as OutOfMemory;
