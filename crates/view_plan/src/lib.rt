//! What a page shows of a report: the inodes in their order, the windows of each, and the events to
//! which entries and calls lead.
//!
//! `specs/Order` says which inodes come first, `Plan` which windows are drawn, and so which events
//! have a link, and `Slots` which event added an entry and which was the first of a call.
#![tactic(auto)]

pub mod order;
mod plan;
mod slots;

pub use order::{Grade, count, counted};
pub use plan::{Shown, beyond, first_of, is_drawn, planned, windows_in, windows_of};
pub use slots::{Asked, At, fill};
