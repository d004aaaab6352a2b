//! The lines of a report, as a reader of reports takes them by their words, and the values of
//! reports.
//!
//! What is read keeps ranges of the text ([`Span`]) and not copies: a line of an event costs an
//! [`Event`] beside the text. The definitions are in `specs/`: `Lines` has the forms of lines,
//! whose words are those of `report_words`, and `Report` the value of a report.
#![tactic(auto)]

mod events;
mod lines;
mod replies;
mod report;

pub use events::event_of;
pub use lines::{
    inode_of, is_attr, is_end, is_entry, is_force, is_version, list_of, register_of, rule_of,
    run_of, task_of,
};
pub use replies::reply_of;
pub use report::{Inode, InodeHead, Reply, Report, RunEnd, Task};
pub use report_words::{Event, Span};
