//! The text that names callers and their buffers of critical data, read: the rules for the buffers,
//! and of each caller its credentials and its buffers in order.
//!
//! The grammar is in `specs/`, apart from the reader: how each line changes the text so far, or the
//! first cause for which it is refused. A buffer's bytes needn't be laid out yet ([`BufferBytes`]).
#![tactic(auto)]

mod bytes;
mod draft;
mod head;
mod lines;
mod read;
mod text;

pub use bytes::{BufferBytes, VALUE};
pub use read::parse;
pub use std::alloc::AllocError as OutOfMemory;
pub use text::{BufferCaller, BufferText};
