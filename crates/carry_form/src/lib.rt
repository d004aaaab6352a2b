//! The carried form of a measurement list, in which the kernel hands it over from one boot to the
//! next by kexec, and the list that is read from it: [`load`] reads it (the kernel's
//! `ima_restore_measurement_list`), and [`resume`] gives the book that goes on from it.
//!
//! The form is the project's own. Unlike the kernel's it holds no template digests: they are
//! computed again from the template data, so each register is the replay of what was carried.
//! `list_carry` writes it.
#![tactic(auto)]

mod carried;
mod causes;
mod contents;
mod cut;
mod entries;
mod reading;
mod records;

pub use carried::{Carried, resume, start};
pub use causes::{CarryCause, CarryErr};
pub use reading::{HEADER_LENGTH, MARK, VERSION, load};
pub use std::alloc::AllocError as OutOfMemory;
