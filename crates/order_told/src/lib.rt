//! Whether values of two moments of a script's runs are the same, and whether the journals of an
//! inode told calls the same.
//!
//! [`Same`] compares values, [`same_entries`] the entries that grants report, in any order, and
//! [`same_calls`] what the calls of a journal's events were told. `specs/Told.antt` says what they
//! compare.
#![tactic(auto)]

mod same;
mod told;

pub use same::{Same, same_all};
pub use told::{are_checks_below, same_calls, same_entries};
