//! What a buffer of critical data asks of the measurement list: [`wanted`] is the register that a
//! caller's buffers extend, if the policy has them measured, and [`entry_for`] makes a buffer (of
//! `buffer_text`) its entry. A list of buffers begins with [`boot_entry`].
//!
//! `buffer_measure` measures the buffers of all callers by these.
#![tactic(auto)]

mod entries;
mod rules;

pub use entries::{boot_entry, entry_for};
pub use rules::wanted;
pub use std::alloc::AllocError as OutOfMemory;
