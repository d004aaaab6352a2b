// A source and a sink in memory, which fail at chosen calls.
mod sink;
mod source;

pub use sink::MemSink;
pub use source::MemSource;
