//! Generates large scripts, each from a number: 64 sealed files, a rule that measures and one that
//! appraises, and 16 tasks that read and write the files.
#![tactic(auto)]

mod draws;
mod text;

pub use std::alloc::AllocError as OutOfMemory;
pub use text::script;
