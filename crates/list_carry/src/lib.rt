//! A measurement list that goes from one boot into the next, as the kernel carries it over kexec:
//! [`parse`] reads the text that a boot goes on from, which has the carried form of an earlier
//! boot's list, [`carry_on`] adds the entries of this boot, and [`save`] writes the whole list's
//! carried form (the kernel's `ima_dump_measurement_list`) for the boot after it.
//!
//! The form is defined and read in `carry_form`. Its [`load`] and [`resume`], with their types, are
//! items of this crate too.
#![tactic(auto)]

mod draft;
mod going_on;
mod head;
mod line_cause;
mod lines;
mod parsing;
mod text;
mod writing;

pub use carry_form::{Carried, CarryCause, CarryErr, load, resume};
pub use going_on::carry_on;
pub use line_cause::{CarryFault, CarryLine, CarryTextErr};
pub use parsing::parse;
pub use std::alloc::AllocError as OutOfMemory;
pub use text::CarryText;
pub use writing::save;
