//! The table of the kernel's reads: a line for each answered call by which the kernel reads a
//! module or a firmware file, with the place in the measurement list that the call's grant names.
//!
//! What holds of these calls is the law `kernel_reads_soundly` of `run_laws`.
//! [`measured_reads_are_listed`] ties it to the lines of the table.
#![tactic(auto)]

mod calls;
mod law;
mod lines;
mod places;
mod table;

pub use law::measured_reads_are_listed;
pub use std::alloc::AllocError as OutOfMemory;
pub use table::loads;
