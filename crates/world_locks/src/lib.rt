//! The lists of a world under locks, and the steps of tasks on them.
//!
//! Each inode is under a lock of its own, as are the measurement list, the semaphores and the
//! rules. A step takes the locks that it needs in the order inode, rules, measurement list: each
//! call that takes a lock requires that none of the same or a later place is held. Only a step that
//! may add to the measurement list takes that list's lock; each other step on an inode takes the
//! inode's lock alone, as a post, a wait and an appended rule take one lock alone. A page of a
//! collection is taken under its inode's lock, and hashed after the lock is released.
#![tactic(auto)]

mod acting;
mod locks;
mod name;
mod order;
mod pages;
mod sharing;
mod tagged;
mod tagged_rules;
mod world_inode;

pub use locks::Locks;
pub use name::Name;
pub use std::alloc::AllocError as OutOfMemory;
pub use task_steps as acts;
