//! The steps of a task's calls: the step that comes next, the effect of its outcome on the call,
//! and the final reply.
//!
//! A [`Plan`] starts from a call and from what the task holds, names the next step, and takes the
//! outcome of that step. The definitions of `specs/` speak of one task only: its calls, the files
//! that it holds and the outcome of each earlier step determine the next one. No call here
//! allocates memory.
#![tactic(auto)]

mod ask;
mod boxed_rule;
mod call;
mod course;
mod due;
mod ending;
mod first;
mod held;
mod next;
mod plan;
mod reply;

pub use ask::Ask;
pub use boxed_rule::BoxedRule;
pub use call::Call;
pub use course::Course;
pub use due::{Due, Next};
pub use ending::{Ending, Turns};
pub use held::{Hand, Handle, Held, Name};
pub use inode_events as events;
pub use next::next_by;
pub use plan::Plan;
pub use reply::Reply;
