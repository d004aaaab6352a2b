//! The journal of one inode, with the state of the inode beside it, and how each event changes that
//! state.
//!
//! The definitions of a journal search it. The state holds the values that they define, updated
//! event by event: open files by kind, marks, metadata, the last write, the open collection, the
//! digest in force and the verdicts in force. Attributes and content aren't part of it: whoever
//! holds those changes them.
//!
//! A journal has one private way to grow: `enter` adds an event and updates the state with it. So
//! the journal is legal, each event on a file is by the caller who counted the file, and the state
//! agrees with the journal.
#![tactic(auto)]

mod beginning;
mod collecting;
mod counts;
mod events;
mod facts;
mod in_force;
mod journal;
mod keys;
mod marks;
mod metadata;
mod showing;
mod state;
mod verdicts;
mod writes;

pub use collecting::{Asked, Collecting, asked_in};
pub use counts::{Counts, Kind, counts_as};
pub use events::counted;
pub use facts::Facts;
pub use in_force::{InForce, Sums, digest_in};
pub use journal::InodeJournal;
pub use keys::{Key, key_of};
pub use marks::{Marks, is_last_drop};
pub use metadata::metadata_after;
pub use state::State;
pub use verdicts::{KeyedVerdict, Verdicts};
pub use writes::Writes;
