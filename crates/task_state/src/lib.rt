//! What a task knows of its own calls: its program, its position among the calls, the progress of
//! the present one, the files that it holds, and the replies so far.
//!
//! From these alone a [`TaskState`] names the step that is due, and takes the outcome of that step.
#![tactic(auto)]

mod advance;
mod handles;
mod progress;
mod state;
mod step;

pub use progress::Progress;
pub use state::TaskState;
pub use std::alloc::AllocError as OutOfMemory;
pub use step::{DueDeed, Step};
