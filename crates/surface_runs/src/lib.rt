//! A caller of each public call on events, inodes and carried lists, and on tasks, scripts, buffers
//! and reports, written as a user of one crate would write it.
//!
//! Each function makes one call, under its public name, or several of one type of which none helps
//! another: each only reads, or has a value of its own. Its parameters and its result have the
//! types of the calls, and its `requires` are the conditions that a caller has to know, so its
//! proof is that these are enough. What a call ensures isn't repeated. Types without a call are
//! read field by field and variant by variant.
//!
//! Nothing calls these functions: they no longer compile or are no longer proved if a public name,
//! form or condition changes. If a form isn't the plainest one, a comment quotes the entry of
//! docs/DECISIONS.md that says why.
#![tactic(auto)]

pub mod buffers;
pub mod calls;
pub mod carried;
pub mod events;
pub mod inode;
pub mod scripts;
pub mod tasks;
pub mod texts;
