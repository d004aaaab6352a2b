//! A journal as a picture sees it: what each event changes, and which places are drawn.
//!
//! `specs/Files` has the counts of open files, `State` what is known of the content, `Walk` both
//! after each event, `Notes` the mark of an event and what it is marked with, `Sentences` what the
//! sentences below a drawing name, `Windows` the places that are drawn, `Frame` columns and rows in
//! whole pixels, `Columns` the drawn places, `Bars` the open files, and `Promises` what has to be
//! true of these: [`law`] has each of the promises. [`Walk`] finds what the strips show,
//! [`windows`] the places, and [`shown_bars`] the open files.
#![tactic(auto)]

mod bars;
mod column;
mod frame;
mod items;
mod kinds;
pub mod law;
mod notes;
mod walk;
mod window;

pub use bars::{Bar, extents, own, shown_bars};
pub use column::{Column, columns};
pub use frame::{Extent, column_of, rows};
pub use items::{Area, Guide, Item, Look, Strip};
pub use kinds::{Collection, Freshness, Mark, Note};
pub use notes::{mark_of, push_notes};
pub use walk::{State, Walk, is_reader, is_write, is_writer};
pub use window::{Window, is_marked, width, windows};
