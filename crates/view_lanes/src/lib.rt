//! The lanes of a drawing: which tasks have one, and in which row of it each bar and each event
//! stands.
//!
//! `specs/Lanes` says where they stand. [`tasks`] finds the tasks, [`push_lanes`] their lanes and
//! the seats of the bars, and [`row_top`] and [`seat_of`] the row of an event and of a file.
#![tactic(auto)]

mod actors;
mod lanes;
mod rows;

pub use actors::tasks;
pub use lanes::{Lane, Seat, push_lanes};
pub use rows::{row_top, seat_of};
