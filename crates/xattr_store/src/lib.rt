//! Byte strings and the extended attributes of an inode: a list of pairs of name and value.
#![tactic(auto)]

mod attrs;
mod bytes;
mod changes;
mod names;
mod places;

pub use attrs::{Attrs, MAX_VALUE, NoData, SetErr};
pub use bytes::Bytes;
pub use changes::{After, NewValue};
pub use names::{EVM_NAME, IMA_NAME};
pub use std::alloc::AllocError as OutOfMemory;
