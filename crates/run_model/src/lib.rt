//! Whole runs: what a script sets up, the effect of one turn of a task, which runs are served, and
//! which are shown.
//!
//! The definitions of `specs/` speak of plain lists: a journal for each inode, the measurement
//! list, the appended rules, and for each task its program and the outcomes of its steps. The final
//! state of a run is [`Ended`].
#![tactic(auto)]

mod ended;
mod turn;

pub use call_steps as steps;
pub use ended::{Ended, EndedTask};
pub use policy_cell::RuleEntry;
pub use turn::Turn;
