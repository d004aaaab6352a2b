//! The canonical text of a script, which is read as the same script.
//!
//! `specs/Spelling` of `script_spelling` defines the text line by line, each line by its words.
#![tactic(auto)]

mod call;
mod calls;
mod files;
mod law;
mod named;
mod pushed;
mod script;
mod settings;

pub use law::text_is_read;
pub use script::print;
pub use std::alloc::AllocError as OutOfMemory;
