//! What stands in a page besides the inodes: its head, the tiles with the numbers of a report, and
//! the tables of the list, the registers, the rules and the calls.
#![tactic(auto)]

mod calls;
mod entries;
mod frame;
mod tables;

pub use calls::push_calls;
pub use entries::push_entries;
pub use frame::{push_head, push_tiles};
pub use tables::{push_registers, push_rules};
