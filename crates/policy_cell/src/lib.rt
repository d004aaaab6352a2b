//! The rules in force during a run: a policy to which tasks append rules.
#![tactic(auto)]

mod cell;

pub use cell::{PolicyCell, RuleEntry};
pub use grow_list::Pass;
pub use rule_match as matching;
pub use std::alloc::AllocError as OutOfMemory;
