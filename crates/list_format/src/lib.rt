//! The two forms of the measurement list that the kernel shows: the line of
//! `ascii_runtime_measurements` and the record of `binary_runtime_measurements`
//! (Documentation/security/IMA-templates.rst).
#![tactic(auto)]

mod counts;
mod data;
mod line;
mod record;

pub use counts::violations;
pub use line::{append_hex, append_named_digest, ascii};
pub use record::binary;
pub use std::alloc::AllocError as OutOfMemory;
