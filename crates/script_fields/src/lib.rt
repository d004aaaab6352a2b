//! The fields of a script's lines: what the words after the first say in the lines of settings,
//! file systems, files, tasks and endings, and the limits on them.
//!
//! Nothing here depends on the lines before. The lines of calls stand in `call_lines`; what a line
//! adds to the script stands in `script_text`.
#![tactic(auto)]

mod cred;
mod endings;
mod front;
mod settings;
mod sum;
mod supers;
mod words;

pub use cred::cred_in;
pub use endings::{threads_of, turns_of};
pub use front::{Front, content_after, file_in, front_in};
pub use settings::{digest_in, format_of, is_added_name, mode_named};
pub use sum::{is_counted, sum_of};
pub use supers::super_in;
pub use words::{id_after, is_filled, name_of, one, two};
