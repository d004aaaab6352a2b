//! Reading scripts and list texts.
//!
//! A script has settings, file systems, files, rules and tasks, and says how its tasks are run. The
//! grammar is in `specs/`, apart from the reader: how each line changes the script so far, or the
//! first cause for which it is refused.
#![tactic(auto)]

mod blocks;
mod draft;
mod files;
mod head;
mod list;
mod list_head;
mod read;
mod schedule;
mod script;
mod settings;
mod tasks;

pub use blocks::{Calls, FileBlock, TaskBlock};
pub use call_steps::Ending;
pub use files::pop_last;
pub use head::in_order;
pub use list::{ListText, parse_list};
pub use read::parse;
pub use script::Script;
pub use script_fields::{cred_in, sum_of, threads_of, two};
pub use script_words::{Fault, LineCause, ScriptErr};
