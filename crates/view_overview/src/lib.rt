//! The overview of a journal that isn't drawn whole: its counts and marks over all places, in as
//! many steps as there is room for.
#![tactic(auto)]

mod buckets;
mod overview;

pub use overview::push_overview;
