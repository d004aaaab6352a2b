//! HMAC-SHA1 (RFC 2104 with the SHA-1 of FIPS 180-4), fed piece by piece.
//!
//! No call allocates memory. EVM computes it over a file's attributes and metadata.
#![tactic(auto)]

mod hmac;

pub use hmac::{HmacSha1, MAC_LEN};
