//! The bytes of a file, kept as pages of 4,096 bytes that may be shared and are copied on write.
#![tactic(auto)]

mod content;
mod filled;
mod page;

pub use content::{Content, MOST_BYTES, PageErr};
pub use page::{PAGE_SIZE, Page};
pub use std::alloc::AllocError as OutOfMemory;
