//! Runs of tasks: by a schedule or in rounds on one thread, and on several threads.
#![tactic(auto)]

mod parts;
mod rounds;
mod threads;
mod turns;

pub use rounds::run_rounds;
pub use std::alloc::AllocError as OutOfMemory;
pub use task_core as tasks;
pub use threads::run_threads;
pub use turns::run_schedule;
