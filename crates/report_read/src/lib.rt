//! Reports read back: the text that `report_text` prints, as a list of reports with their entries,
//! journals and replies.
//!
//! The lines of a text go one by one into a draft (`report_draft`), whose grammar is that of
//! `report_lines`. The definitions are in `specs/`: `Read` says what a text is read as, and
//! `ReadBack` what the reader makes of the text of a run.
#![tactic(auto)]

mod by_line;
pub mod law;

pub use by_line::read;
pub use report_draft::{Inode, InodeHead, ReadErr, Reply, Report, RunEnd, Task};
pub use report_words::{Deed, Event, Grant, Kind, Outcome, Placed, Span, Verdict};
