//! Buffers of critical data: the run that measures the buffers of a text (`buffer_text`) into one
//! list (the kernel's `ima_measure_critical_data`), and its print. The callers run side by side on
//! threads. `buffer_entries` says which buffers are measured, and as which entries; its [`wanted`]
//! is an item of this crate too.
#![tactic(auto)]

mod answer;
mod answers;
mod book;
mod laws;
mod measuring;
mod output;
mod parts;
mod run;
mod workers;

pub use answer::Answer;
pub use answers::Answers;
pub use buffer_entries::wanted;
pub use buffer_text::{BufferBytes, BufferCaller, BufferText, parse};
pub use laws::{print_determines, runs_alone};
pub use measuring::{measure_all, measure_owned};
pub use output::{print, print_in_pieces};
pub use run::BufferRun;
pub use std::alloc::AllocError as OutOfMemory;
