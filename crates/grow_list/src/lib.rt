//! A list that only grows, kept under any lock, whose callers hold one pass each.
//!
//! A caller that has just taken the lock knows which entries are its own, and that all it saw
//! before is still in the list.
#![tactic(auto)]

mod list;
mod meeting;
mod views;

pub use list::{Grow, Pass};
pub use std::alloc::AllocError as OutOfMemory;
