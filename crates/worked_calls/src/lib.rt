//! A call of a program over streams in memory, as `worked_runs`, `worked_orders` and `worked_views`
//! make it: how its streams behave, what it did, and the line that is printed for a case.
#![tactic(auto)]

mod call;
mod outcome;
mod rows;
mod texts;

pub use call::{Call, NEVER, words_of};
pub use outcome::Outcome;
pub use rows::{all_hold, row};
pub use texts::{cut, ends_of};
