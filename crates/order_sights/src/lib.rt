//! What is seen of a script's run between two turns, and when two runs can be met as one.
//!
//! A [`Sight`] has what the run leaves, and the world and the tasks as they stand, which say what
//! can follow. [`are_alike`] compares two of them.
#![tactic(auto)]

mod files;
mod inodes;
mod lists;
mod mark;
mod pairs;
mod sight;
mod states;
mod taken;
mod tasks;

pub use sight::{Sight, are_alike};
