// The outside: sources, sinks and gates, in memory and over the system's streams.

ghost use Rattle.std.specs.Prelude.{◌≤◌};

use std::alloc::Global;
use std::io::{Read, Write};

// ---- ima_io

pub fn source_read<S: ima_io::Source>(
    source: &mut S,
    buf: &mut [u8],
) -> Result<usize, ima_io::Failed> {
    ima_io::Source::read(source, buf)
}

pub fn read_all<S: ima_io::Source>(
    alloc: Global,
    source: &mut S,
    limit: usize,
) -> Result<Vec<u8>, ima_io::ReadErr> {
    ima_io::read_all(alloc, source, limit)
}

pub fn sink_write<K: ima_io::Sink>(sink: &mut K, piece: &[u8]) -> Result<usize, ima_io::Failed> {
    ima_io::Sink::write(sink, piece)
}

pub fn write_all<K: ima_io::Sink>(sink: &mut K, piece: &[u8]) -> Result<(), ima_io::Failed> {
    ima_io::write_all(sink, piece)
}

pub fn gate_pass<G: ima_io::Gate>(gate: &G, task: u32, call: u32, step: u32) {
    ima_io::Gate::pass(gate, ima_io::Who { task, call, step })
}

pub fn free_gate() -> ima_io::FreeGate {
    ima_io::FreeGate
}

pub fn mem_source_new(bytes: Vec<u8>, piece: usize, fails: Vec<u64>) -> ima_io::MemSource
    requires { 1 ≤ piece }
{
    ima_io::MemSource::new(bytes, piece, fails)
}

pub fn mem_sink_new(
    alloc: Global,
    room: usize,
    piece: usize,
    fails: Vec<u64>,
) -> Result<ima_io::MemSink, ima_io::OutOfMemory>
    requires { 1 ≤ piece }
{
    ima_io::MemSink::new(alloc, room, piece, fails)
}

pub fn mem_sink_taken(sink: &ima_io::MemSink) -> &[u8] {
    ima_io::MemSink::taken(sink)
}

pub fn std_streams<R: Read, W: Write>(
    reader: R,
    writer: W,
) -> (ima_io::StdSource<R>, ima_io::StdSink<W>) {
    (ima_io::StdSource::new(reader), ima_io::StdSink::new(writer))
}

pub fn read_err(e: ima_io::ReadErr) {
    match e {
        ima_io::ReadErr::Fault | ima_io::ReadErr::TooLong | ima_io::ReadErr::OutOfMemory => {}
    }
}
