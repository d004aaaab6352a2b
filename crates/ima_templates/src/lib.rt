//! The entries of the measurement list: the fields that each template shows of a file, the template
//! data and its digest, the condition under which two entries are the same, and the value by which
//! an entry extends registers (Documentation/security/IMA-templates.rst).
#![tactic(auto)]

mod absorb;
mod data;
mod entries;
mod entry;
mod shown;

pub use absorb::Absorb;
pub use entries::{build, restore, violation};
pub use entry::{Entry, Placed};
pub use shown::can_show;
pub use std::alloc::AllocError as OutOfMemory;
