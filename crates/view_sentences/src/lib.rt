//! What is said below a drawing: a sentence for each violation, refusal and stale read of a
//! journal, with the files that are held there.
//!
//! `specs/Sentences` has the sentences, and `Holders` the files that they name. `Alike` says how
//! two journals compare: where they part, and which events differ.
#![tactic(auto)]

mod alike;
mod holders;
mod named;
mod said;
mod sentences;
mod tales;

pub use alike::{differing, parted};
pub use sentences::push_sentences;
