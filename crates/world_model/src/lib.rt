//! Worlds and their tasks as contracts see them: the constants of a world, which never change while
//! tasks run; the values of worlds and tasks; the invariant between a task and the steps it has
//! made, and how each look and each step keeps it; when a task's next step may be made; and what
//! the turns of all tasks add up to: schedules, rounds, and rounds until none moves.
//!
//! The laws are stated in `specs/`, and are lemmas of `proofs/`.
#![tactic(auto)]

mod hash_state;
mod passes;
mod world_inode;

pub use hash_state::HashState;
pub use inode_cell as inodes;
pub use passes::Passes;
pub use world_inode::WorldInode;
