//! The orders in which the steps of a script's tasks can fall, and the outcomes of their runs.
//!
//! `specs/Orders.antt` says what an order of a script is, and `specs/Outcome.antt` what of a run is
//! its outcome: neither the places of entries nor those of events are in it. [`outcome_of`] tells
//! the outcome by the state that a run leaves, and [`made_of`] how much the run has made, which
//! tells whether its last turn has moved its task.
//!
//! `specs/alike/` says when two moments of a run are alike, so that orders that lead to them can be
//! counted as one.
#![tactic(auto)]

mod calls;
pub mod laws;
mod lines;
mod made;
mod outcome;
mod sets;

pub use calls::{follow, is_read, listed_of, place_told, verdict_of};
pub use lines::Kind;
pub use made::{Made, made_of};
pub use order_counts as counts;
pub use outcome::outcome_of;
