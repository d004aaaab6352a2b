//! The drawing of an inode's journal as bytes.
//!
//! `specs/Drawing` has the pieces of each item and of a drawing: [`push_inode`] appends one to a
//! page, and [`svg`] makes a file of it.
#![tactic(auto)]

mod inode;
mod items;
pub mod law;
mod segment;

pub use inode::{push_inode, svg};
