//! One inode. It does in constant time per step what the definitions do by searching its journal.
#![tactic(auto)]

mod cell;
mod checking;
mod closing;
mod counting;
mod ending;
mod facts;
mod granting;
mod judging;
mod listing;
mod setting;
mod writing;

pub use cell::InodeCell;
pub use inode_answers as answers;
pub use inode_answers::{
    Checked, CloseTaken, Counted, Found, Got, Piece, Set, Taken, Wrote, change_on, label_on,
};
pub use inode_events::EndedInode;
pub use std::alloc::AllocError as OutOfMemory;
