//! The start of a world: its lists, and the passes of its tasks.
#![tactic(auto)]

mod cells;
mod gathering;
mod lists;
mod rows;
mod seats;
mod world_inodes;

pub use lists::{Start, start_lists};
