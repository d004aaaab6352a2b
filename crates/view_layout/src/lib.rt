//! The drawing of a journal, as a list of items: lanes, bars, flags, strips and marks.
//!
//! `specs/Flags` says what stands above the strips, `Drawing` has the items of a drawing, and
//! `Promises` what has to be true of one: [`law`] has each of these promises. [`draft`] finds the
//! parts of a drawing, and [`push_items`] its items in the order of painting.
#![tactic(auto)]

mod drawing;
mod events;
mod flags;
mod items;
pub mod law;
mod scenery;
mod strips;

pub use drawing::{Parts, Sketch, draft, highest, push_items};
pub use flags::Flag;
pub use scenery::end_of;
