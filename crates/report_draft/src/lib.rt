//! A report while its lines are read: what has been read so far, which line may come next, and what
//! it adds.
//!
//! A [`Draft`] takes one line after another, by its words. The definitions are in `specs/`: `Draft`
//! says of each [`Stage`] which lines may follow, and what the draft is after each.
#![tactic(auto)]

mod draft;
mod fault;
mod fits;
mod head;
mod inodes;
mod stages;
mod tasks;

pub use draft::{Draft, Stage};
pub use fault::{LineErr, ReadErr};
pub use report_lines::{Inode, InodeHead, Reply, Report, RunEnd, Task};
