//! The plain values that every layer shares: an inode's metadata, a task's credentials, the
//! position of a step, and the small enumerations of IMA and EVM (status, appraisal mode, template,
//! bank, slot), each with its printed word.
#![tactic(auto)]

mod appraisal;
mod identity;
mod measurement;
mod step;

pub use appraisal::{EvmStatus, Mode, Need, Slot};
pub use identity::{Cred, Meta};
pub use measurement::{Bank, DEFAULT_PCR, Field, Template};
pub use std::alloc::AllocError as OutOfMemory;
pub use step::Who;
