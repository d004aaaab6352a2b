//! Appraisal: whether a file may be used, and what fix mode repairs if not. No call allocates
//! memory.
#![tactic(auto)]

mod appraisal;

pub use appraisal::{mend_for, verdict};
