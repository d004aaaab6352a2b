//! The outside of a run: the source of its bytes, the sink for its output, and the gate that can
//! hold up a task.
//!
//! `Source`, `Sink` and `Gate` are the traits through which everything else sees the outside. For a
//! source, contracts see the bytes it has left, if these are known, and its count of faults; for a
//! sink, the bytes it took, if these are known, and its count of faults. `MemSource` and `MemSink`
//! are a source and a sink in memory that fail at chosen calls, for tests. `StdSource` and
//! `StdSink` adapt the process's own streams to the traits: no contract says which bytes come from
//! the system or reach it, so these two are the trusted edge. `read_all`, `write_all` and
//! `write_pieces` are the only loops over a source or a sink.
#![tactic(auto)]

mod memory;
mod outside;
mod pieces;
mod standard;
mod whole;

pub use memory::{MemSink, MemSource};
pub use outside::{Failed, FreeGate, Gate, Sink, Source, Who};
pub use pieces::Pieces;
pub use standard::{StdSink, StdSource};
pub use std::alloc::AllocError as OutOfMemory;
pub use whole::{ReadErr, read_all, write_all, write_pieces};
