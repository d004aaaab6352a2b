//! The parts of an inode's calls that need no journal: their results with the outcomes that the
//! events tell, what a state makes of a call, and the changes of attributes with the HMAC that they
//! renew.
#![tactic(auto)]

mod answers;
mod attributes;
mod outcomes;
mod told;
mod values;

pub use answers::{Checked, CloseTaken, Counted, Found, Got, Piece, Set, Taken, Wrote};
pub use attributes::{change_on, label_on, mend_on, rewrite};
pub use outcomes::{
    admits, appraises, counted, creates, found, found_at, is_mend, piece_of, place_of,
    placed_if_measured, wrote,
};
pub use std::alloc::AllocError as OutOfMemory;
pub use told::{
    by_status, counted_told, finished_told, found_told, piece_told, set_outcome, set_told,
    wrote_told,
};
pub use values::{copied, copies, is_no_label, is_too_long, signature_in};
