//! The hash algorithms of file measurement: their names and numbers, sets of them, digests, and
//! incremental hashing. The names and numbers are those of the kernel's table of hash algorithms
//! (include/uapi/linux/hash_info.h), as far as IMA's labels and templates use it. Nothing here
//! allocates memory.
#![tactic(auto)]

mod algo;
mod algo_set;
mod digest;
mod running;
mod sha256_digest;

pub use algo::{Algo, by_id, by_name};
pub use algo_set::AlgoSet;
pub use digest::Digest;
pub use running::{Running, digest_of};
pub use sha256_digest::Sha256Digest;
