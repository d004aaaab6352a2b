//! Runs a script: starts its world and its tasks, gives the tasks their turns, and collects what is
//! left of them.
#![tactic(auto)]

mod appended;
mod laws;
mod running;

pub use laws::{reports_tell_runs, shown_runs_are_sound};
pub use running::run;
pub use script_start::{new_tasks, started};
pub use task_runner::tasks::{Live, Name, Task, Turn, World};
