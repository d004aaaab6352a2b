//! HTML pages of reports: of a run, of one inode, and of two runs side by side.
//!
//! `specs/Section` and `Sections` say what stands of an inode, `Page` and `Pair` what a page has,
//! and `Promises` what has to be true of pages: [`law`] has each of these promises.
#![tactic(auto)]

mod chosen;
pub mod law;
mod page;
mod pair;
mod section;
mod sections;

pub use page::{push_inode_page, push_page};
pub use pair::push_pair;
pub use std::alloc::AllocError as OutOfMemory;
