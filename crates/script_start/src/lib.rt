//! The start of a script's run: its world, and its tasks before their first turns.
#![tactic(auto)]

mod from_blocks;
mod starting;

pub use from_blocks::new_tasks;
pub use starting::started;
