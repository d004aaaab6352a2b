//! The measurement list that all callers share: an entry isn't added again if the list already has
//! the same one, and each entry that is added extends the registers.
#![tactic(auto)]

mod book;
mod extending;
mod places;

pub use book::Book;
pub use extending::extend;
pub use grow_list::Pass;
pub use pcr_bank as registers;
pub use std::alloc::AllocError as OutOfMemory;
