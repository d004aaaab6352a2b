//! The lines of a journal in a report: for each event its place, the step that made it, its deed
//! and its outcome; and the numbers and pairs of words of which lines are made.
//!
//! In `specs/`, `Words` defines a line by its words, and `Texts` the parts of it that may be absent
//! by their bytes.
#![tactic(auto)]

mod acts;
mod deeds;
mod events;
mod push;
mod tolds;

pub use events::{push_events, push_who};
pub use push::{push_number, push_numbered, push_numbers, push_pair};
pub use std::alloc::AllocError as OutOfMemory;
