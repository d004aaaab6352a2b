//! The lines of calls in a script: the table of the calls, reading a line by it, and that the
//! canonical line is read as its call.
//!
//! `specs/Table` has a row for each call: its first word, the forms of the words after it, and the
//! call that they make. `specs/Form` says of each form how a word of it is read and written.
//! `script_print` prints the canonical line.
#![tactic(auto)]

mod arguments;
mod calls;
mod form;
mod paths;
mod table;

pub use calls::call_of;
pub use paths::Paths;
pub use table::{CallWord, call_word_of};
