//! The orders in which the steps of tasks can fall, counted by their outcomes without listing them.
//!
//! `specs/Orders.antt` and `specs/Rows.antt` say what an order is and which rows stand for all of
//! them, for tasks of any kind. `specs/Layers.antt` says how they are counted: turn by turn, over
//! the moments that the first turns can lead to, of which those that are alike are met once. The
//! laws in [`laws`] say that this gives the rows.
#![tactic(auto)]

pub mod laws;
mod order;

pub use order::{Counted, Order};
