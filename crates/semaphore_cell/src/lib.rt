//! The semaphores of a run: the value of each, and the journal of the posts and waits on them.
#![tactic(auto)]

mod cell;

pub use cell::SemaphoreCell;
pub use grow_list::Pass;
pub use std::alloc::AllocError as OutOfMemory;
