//! The journal of an inode: its events and their outcomes.
//!
//! An event is one step of a task on one inode: the step that made it, its deed, and its outcome.
//! The definitions in `specs/` depend on the journal alone. They define the inode's state after the
//! journal (its content, attributes and open files, and the digest and verdicts in force), the
//! outcome of the next deed, and which journals are legal.
#![tactic(auto)]

mod boxed_bytes;
mod boxed_value;
mod deed;
mod ended;
mod image;
mod settings;
mod told;

pub use boxed_bytes::BoxedBytes;
pub use boxed_value::BoxedValue;
pub use deed::{Change, Deed, How, changed};
pub use ended::EndedInode;
pub use hash_algos::Sha256Digest;
pub use ima_templates as templates;
pub use image::{BoxedImage, Image};
pub use inode_meta::{EvmStatus, Mode, Slot};
pub use inode_pages::MOST_BYTES;
pub use label_values as labels;
pub use policy_rules::{Action, Func, Purpose, Rule};
pub use settings::Settings;
pub use std::alloc::AllocError as OutOfMemory;
pub use told::{Event, Grant, Told};
