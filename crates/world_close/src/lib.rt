//! The end of a world: closing its lists yields the run that is shown, its closed lists and its
//! tasks hold exactly the final state of its run, and which tasks rest at the end.
//!
//! The laws are stated in `specs/`, and are lemmas of `proofs/`.
#![tactic(auto)]

mod lists;
mod parts;
mod resting;
mod rows;
mod world_inodes;

pub use lists::{Lists, close_lists};
pub use parts::Parts;
pub use resting::rests;
pub use semaphore_cell as semaphores;
pub use world_model as worlds;
