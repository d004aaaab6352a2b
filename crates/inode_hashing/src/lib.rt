//! The two digests of a collection, by the algorithm that the inode's label names and by SHA-1, and
//! the digest of a content in one call.
#![tactic(auto)]

mod content;
mod hashing;
mod reading;

pub use content::digest_of_content;
pub use hashing::Hashing;
pub use reading::hashed_at;
