//! Tasks and the world in which they run, on one thread or on several.
#![tactic(auto)]

mod acting;
mod cells;
mod close;
mod live;
mod looking;
mod shared;
mod sharing;
mod start;
mod task;
mod turning;
mod world;

pub use close::look_all;
pub use live::Live;
pub use run_model::{Ended, EndedTask, Turn};
pub use std::alloc::AllocError as OutOfMemory;
pub use task::Task;
pub use world::World;
pub use world_locks::Name;
pub use world_model::Passes;
