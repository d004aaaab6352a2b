// Adapters of the process's own streams to the traits: the trusted edge.
mod sink;
mod source;

pub use sink::StdSink;
pub use source::StdSource;
