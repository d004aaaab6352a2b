//! The words of a report's lines, as a reader of reports takes them: the forms of words, and the
//! deeds and outcomes of events.
//!
//! Each function takes the words of a line, or those that are left of them, and gives what they
//! begin with and the words after it. The definitions are in `specs/`: `Forms` has the forms of
//! words, `Deeds` and `Outcomes` what stands before and after the `=` of an event's line.
#![tactic(auto)]

mod acts;
mod deeds;
mod event;
mod forms;
mod outcomes;
mod tables;

pub use deeds::deed_in;
pub use event::{Deed, Event, Grant, Kind, Outcome, Placed, Span, Verdict};
pub use forms::{
    after, after_any, after_digest, after_hex, after_named_digest, after_wide_pcr, counted,
    first_words, is_named_digest, is_whole, number_in, who_in,
};
pub use outcomes::{is_cause, is_set_status, outcome_of};
pub use std::alloc::AllocError as OutOfMemory;
pub use tables::is_among;
