// What a call did.
use crate::call::Call;
use ima_io::{MemSink, MemSource};
use std::alloc::{AllocError as OutOfMemory, Global};

/// A call's exit status and its streams.
pub struct Outcome {
    pub status: u8,
    pub input: MemSource,
    pub out: MemSink,
    pub note: MemSink,
}

// Written out, so that the drop is proved once, and not wherever an outcome is dropped.
impl Drop for Outcome {
    fn drop(self) {
        let Outcome {
            status: _,
            input: _,
            out: _,
            note: _,
        } = self;
    }
}

// The source of the call.
fn source(alloc: Global, call: Call<'_>) -> Result<MemSource, OutOfMemory> {
    let bytes = call.input.to_vec(alloc)?;
    let fails = vec![in alloc; call.read]?;
    Ok(MemSource::new(bytes, call.given.max(1), fails))
}

// A sink that has taken nothing.
fn sink(alloc: Global, room: usize, piece: usize, fail: u64) -> Result<MemSink, OutOfMemory> {
    MemSink::new(alloc, room, piece.max(1), vec![in alloc; fail]?)
}

impl Outcome {
    /// The status 0 and the call's streams before anything was done.
    pub fn before(alloc: Global, call: Call<'_>) -> Result<Outcome, OutOfMemory> {
        let input = source(alloc, call)?;
        let out = sink(alloc, call.room, call.taken, call.write)?;
        let note = sink(alloc, 200, 200, call.tell)?;
        Ok(Outcome {
            status: 0,
            input,
            out,
            note,
        })
    }

    /// The bytes of the output.
    pub fn out(&self) -> &[u8] {
        self.out.taken()
    }

    /// The bytes of the note.
    pub fn note(&self) -> &[u8] {
        self.note.taken()
    }

    /// Whether the outcome has this status, this output and this note.
    pub fn is(&self, wanted: (u8, &[u8], &str)) -> bool {
        self.status == wanted.0 && self.out() == wanted.1 && self.note() == wanted.2.as_bytes()
    }
}
