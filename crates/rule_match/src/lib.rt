//! The matching of rules against accesses, and the decision by first match: in each family of
//! actions the first line of the policy that matches the access decides
//! (Documentation/ABI/testing/ima_policy).
#![tactic(auto)]

mod conditions;
mod deciders;
mod decision;
mod family;
mod group;
mod index;

pub use conditions::matches;
pub use deciders::Deciders;
pub use decision::decide;
pub use family::Family;
pub use index::Index;
pub use policy_rules as policy;
pub use std::alloc::AllocError as OutOfMemory;
