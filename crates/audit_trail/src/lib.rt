//! The audit trail of a run: what the lines of the families `audit` and `hash` asked for at each
//! check, with the number of the line that decided and the digest of the content there.
//!
//! The definitions read content, attributes and metadata off the journal before each check. The
//! code walks each journal once and carries them along. It hashes a content only if a record or a
//! label needs its digest, and shares pages with the journal.
#![tactic(auto)]

mod asked;
mod attributes;
mod digests;
mod journals;
mod records;
mod site;
mod taken;
mod text;
mod walk;

pub use std::alloc::AllocError as OutOfMemory;
pub use text::trail;
