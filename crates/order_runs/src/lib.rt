//! The orders in which the steps of a script's tasks can fall, in rows: one for each outcome, with
//! the number of the orders that have it and the first of them.
//!
//! A [`Part`] is all orders of a play that begin with the same turns, which may be none. An order
//! is run from the start, by the schedule that its turns make, each time that a turn is added to
//! it. Orders are counted turn by turn: the ways of one length are a layer, from which the next one
//! is made. Ways that lead to moments at which the same can follow are met as one.
#![tactic(auto)]

pub mod laws;
mod part;
mod play;
mod points;
mod rows;
mod ways;

pub use order_outcomes as outcomes;
pub use order_sights as sights;
pub use part::Part;
pub use play::Play;
pub use points::Point;
pub use rows::{MOST_TURNS, Row, Stopped, rows_of};
pub use ways::Way;
