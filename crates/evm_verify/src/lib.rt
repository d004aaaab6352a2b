//! EVM, the extended verification module: an HMAC over the protected attributes and the metadata of
//! an inode (Documentation/ABI/testing/evm), its status and renewal, and the changes that it
//! permits.
#![tactic(auto)]

mod evm;
mod input;
mod names;

pub use evm::Evm;
pub use input::VALUE_LEN;
pub use names::is_protected;
pub use std::alloc::AllocError as OutOfMemory;
