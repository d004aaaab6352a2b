//! The value of `security.ima`, read and written as the kernel does, and the definition of the
//! verdict of appraisal. No call allocates memory.
#![tactic(auto)]

mod label;
mod verdict;

pub use label::{Label, MAX_LABEL, collect_algo, read_label, write_label};
pub use verdict::{Cause, Mend, Verdict};
