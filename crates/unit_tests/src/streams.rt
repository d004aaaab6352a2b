// Tests of what no contract says: that the calls succeed if memory is ample, and how faults of the
// system's streams are reported.
use crate::cases::Cases;
use ima_io::{
    Failed, FreeGate, Gate, MemSink, MemSource, ReadErr, Sink, Source, StdSink, StdSource, Who,
    read_all, write_all,
};
use std::alloc::{AllocError as OutOfMemory, Global};
use std::io;
use std::io::{ErrorKind, Read, Write};

// A source in memory, the limit, and what comes of reading it to its end.
struct SourceRow {
    case: &'static str,
    bytes: &'static [u8],
    // The most bytes that a call gives, at least 1.
    piece: usize,
    // The calls that fail.
    fails: &'static [u64],
    limit: usize,
    got: Result<&'static [u8], ReadErr>,
}

#[rattlefmt::skip]
static SOURCES: [SourceRow; 7] = [
    SourceRow { case: "no bytes", bytes: b"", piece: 1, fails: &[],
        limit: 0, got: Ok(b"") },
    SourceRow { case: "a piece", bytes: b"seven b", piece: 100, fails: &[],
        limit: 7, got: Ok(b"seven b") },
    SourceRow { case: "four pieces", bytes: b"seven b", piece: 2, fails: &[],
        limit: usize::MAX, got: Ok(b"seven b") },
    SourceRow { case: "a byte too many", bytes: b"seven b", piece: 3, fails: &[],
        limit: 6, got: Err(ReadErr::TooLong) },
    SourceRow { case: "no call", bytes: b"seven b", piece: 3, fails: &[0],
        limit: 7, got: Err(ReadErr::Fault) },
    SourceRow { case: "two calls", bytes: b"seven b", piece: 3, fails: &[2],
        limit: 7, got: Err(ReadErr::Fault) },
    SourceRow { case: "a fault that isn't met", bytes: b"seven b", piece: 3, fails: &[4],
        limit: 7, got: Ok(b"seven b") },
];

// The source of this row.
fn source(alloc: Global, row: &SourceRow) -> Result<MemSource, OutOfMemory> {
    let bytes = row.bytes.to_vec(alloc)?;
    let fails = row.fails.to_vec(alloc)?;
    Ok(MemSource::new(bytes, row.piece.max(1), fails))
}

// Whether this came of reading.
fn is_read(got: Result<Vec<u8>, ReadErr>, want: Result<&[u8], ReadErr>) -> bool {
    match (got, want) {
        (Ok(got), Ok(want)) => got.as_slice() == want,
        (Err(got), Err(want)) => got == want,
        _ => false,
    }
}

// Whether the source of this row is read as the row says. It is not if memory runs out.
fn is_row_read(alloc: Global, row: &SourceRow) -> bool {
    match source(alloc, row) {
        Ok(mut source) => is_read(read_all(alloc, &mut source, row.limit), row.got),
        Err(_) => false,
    }
}

// Reads each source to its end.
fn try_sources(alloc: Global, cases: &mut Cases) {
    for source in &SOURCES {
        cases.add("a source", source.case, is_row_read(alloc, source));
    }
}

// A sink in memory, whether a piece of seven bytes goes in whole, and the bytes that the sink took.
struct SinkRow {
    case: &'static str,
    room: usize,
    // The most bytes that a call takes, at least 1.
    piece: usize,
    // The calls that fail.
    fails: &'static [u64],
    got: Result<(), Failed>,
    taken: &'static [u8],
}

#[rattlefmt::skip]
static SINKS: [SinkRow; 5] = [
    SinkRow { case: "just enough room", room: 7, piece: 100, fails: &[],
        got: Ok(()), taken: b"seven b" },
    SinkRow { case: "a fault that isn't met", room: 9, piece: 3, fails: &[3],
        got: Ok(()), taken: b"seven b" },
    SinkRow { case: "a byte too little room", room: 6, piece: 4, fails: &[],
        got: Err(Failed), taken: b"seven " },
    SinkRow { case: "no call", room: 7, piece: 3, fails: &[0],
        got: Err(Failed), taken: b"" },
    SinkRow { case: "two calls", room: 7, piece: 3, fails: &[2],
        got: Err(Failed), taken: b"seven " },
];

// The sink of this row.
fn sink(alloc: Global, row: &SinkRow) -> Result<MemSink, OutOfMemory> {
    let fails = row.fails.to_vec(alloc)?;
    MemSink::new(alloc, row.room, row.piece.max(1), fails)
}

// Whether a piece is written to the sink of this row as the row says. It is not if memory runs out.
fn is_row_written(alloc: Global, row: &SinkRow) -> bool {
    match sink(alloc, row) {
        Ok(mut sink) => write_all(&mut sink, b"seven b") == row.got && sink.taken() == row.taken,
        Err(_) => false,
    }
}

// Writes a piece to each sink.
fn try_sinks(alloc: Global, cases: &mut Cases) {
    for sink in &SINKS {
        cases.add("a sink", sink.case, is_row_written(alloc, sink));
    }
}

// A stream of the system whose every call returns the same: an error, or no bytes.
#[derive(Drop)]
struct Stuck {
    error: bool,
}

impl Read for Stuck {
    fn read(&mut self, _buf: &mut [u8]) -> io::Result<usize> {
        if self.error {
            Err(io::Error::from(ErrorKind::Other))
        } else {
            Ok(0)
        }
    }
}

impl Write for Stuck {
    fn write(&mut self, _buf: &[u8]) -> io::Result<usize> {
        if self.error {
            Err(io::Error::from(ErrorKind::Other))
        } else {
            Ok(0)
        }
    }

    fn flush(&mut self) -> io::Result<()> {
        Ok(())
    }
}

// Whether all bytes of a stream of the system are read.
fn is_stream_read(alloc: Global) -> bool {
    let input: &[u8] = b"seven b";
    is_read(read_all(alloc, &mut StdSource::new(input), 7), Ok(input))
}

// Whether all bytes are written to a stream of the system.
fn is_stream_written(alloc: Global) -> bool {
    write_all(&mut StdSink::new(Vec::new(alloc)), b"seven b").is_ok()
}

// What reading four bytes from a stuck stream gives.
fn stuck_read(error: bool) -> Result<usize, Failed> {
    let mut buf = [0; 4];
    StdSource::new(Stuck { error }).read(&mut buf)
}

// What writing these bytes to a stuck stream gives.
fn stuck_write(error: bool, bytes: &[u8]) -> Result<usize, Failed> {
    StdSink::new(Stuck { error }).write(bytes)
}

// Whether the stream's faults and its end are told to one who reads.
fn reads_are_told() -> bool {
    stuck_read(true) == Err(Failed) && stuck_read(false) == Ok(0)
}

// Whether the stream's faults are told to one who writes, also that nothing is taken of a byte.
fn writes_are_told() -> bool {
    stuck_write(true, b"x") == Err(Failed)
        && stuck_write(false, b"x") == Err(Failed)
        && stuck_write(false, b"") == Ok(0)
}

// Streams of the system are put after the traits, and their faults are told.
fn try_system(alloc: Global, cases: &mut Cases) {
    cases.add("a stream of the system", "read", is_stream_read(alloc));
    cases.add(
        "a stream of the system",
        "written",
        is_stream_written(alloc),
    );
    cases.add("a fault of the system", "read", reads_are_told());
    cases.add("a fault of the system", "written", writes_are_told());
}

/// Tries streams in memory and those of the system.
pub fn try_all(alloc: Global, cases: &mut Cases) {
    FreeGate.pass(Who {
        task: 0,
        call: 0,
        step: 0,
    });
    try_sources(alloc, cases);
    try_sinks(alloc, cases);
    try_system(alloc, cases);
}
