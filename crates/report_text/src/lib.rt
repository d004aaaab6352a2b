//! The report of a run: its list, registers, appended rules, journals and replies, in lines of
//! words separated by one space; and the summary of a generated run.
//!
//! The definitions are in `specs/`. The law in [`law`] says that two runs of one script with equal
//! reports have equal events, entries, rules and replies.
#![tactic(auto)]

mod inodes;
pub mod law;
mod lists;
mod pieces;
mod print;
mod tasks;
mod totals;

pub use lists::{push_entries, push_registers, push_values};
pub use print::{report, report_in_pieces};
pub use report_events::{push_number, push_numbers, push_who};
pub use std::alloc::AllocError as OutOfMemory;
pub use tasks::push_reply;
pub use totals::summary;
