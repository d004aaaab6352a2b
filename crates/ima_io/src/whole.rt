// Reading a source to its end, and writing pieces completely.
ghost use Rattle.std.specs.Prelude.{◌≡◌, ◌+◌, ◌<◌, ◌≤◌, ◌↔◌, length, IfOk, OnOk, OnErr, IsErrOf, vec_len};
ghost use Rattle.std.specs.Io.KnownBytes.{Appends, Consumes, IsAtEnd, ReadConsumes};
ghost use Rattle.ima_io.specs.Counts.{Rose};
ghost use Rattle.ima_io.specs.Bytes.{Gave, TookPart};
ghost use Rattle.ima_io.specs.declared.whole.ReadErr.TheVariants.{Fault, OutOfMemory};

use crate::outside::{Failed, Sink, Source};
use crate::pieces::Pieces;
use std::alloc::{AllocError as OutOfMemory, Global};

/// Why [`read_all`] didn't read a source to its end. Writing needs no such enum: the only error of
/// [`write_all`] is [`Failed`].
#[derive(Clone, Copy, Debug, PartialEq, Eq)]
pub enum ReadErr {
    /// The source failed.
    Fault,
    /// The source had more bytes than the limit.
    TooLong,
    /// Memory ran out.
    OutOfMemory,
}

impl From<Failed> for ReadErr {
    ghost from_gives = { λ _ e. e ≡ Fault };

    fn from(_failed: Failed) -> ReadErr {
        ReadErr::Fault
    }
}

impl From<OutOfMemory> for ReadErr {
    ghost from_gives = { λ _ e. e ≡ OutOfMemory };

    fn from(_error: OutOfMemory) -> ReadErr {
        ReadErr::OutOfMemory
    }
}

// The most bytes that one call reads.
const CHUNK: usize = 65_536;

// A buffer for one call's bytes.
fn new_chunk(alloc: Global) -> Result<Vec<u8>, OutOfMemory>
    ensures { IfOk result (λ chunk. 0 < vec_len chunk) }
{
    vec![in alloc; 0u8; CHUNK]
}

// Reads once, at most `most` bytes, into the beginning of the chunk.
fn read_some<S: Source>(source: &mut S, chunk: &mut [u8], most: usize) -> Result<usize, Failed>
    requires room { 0 < length chunk.old }
    requires some { 0 < most }
    ensures fits { IfOk result (λ n. n ≤ length chunk.new) }
    ensures few { IfOk result (λ n. n ≤ most) }
    ensures bytes { ReadConsumes (S.left source.old) (S.left source.new) result chunk.new }
    ensures count { S.faults source.old ≤ S.faults source.new }
    ensures cause { OnErr result (Rose (S.faults source.old) (S.faults source.new)) }
{
    let room = most.min(chunk.len());
    source.read(&mut chunk[..room])
}

/// The bytes of the source up to its end.
///
/// `Fault` is returned only if the source's count of faults rose in this call, `TooLong` exactly if
/// the source gave more than `limit` bytes. At most `limit + 1` bytes are requested from it.
pub fn read_all<S: Source>(alloc: Global, source: &mut S, limit: usize) -> Result<Vec<u8>, ReadErr>
    // On `Ok` these are all the bytes, and none is left.
    ensures all { IfOk result
        (λ bytes. Consumes (S.left source.old) (S.left source.new) bytes.items) }
    ensures end { OnOk result (IsAtEnd (S.left source.new)) }
    ensures short { IfOk result (λ bytes. length bytes.items ≤ limit) }

    // For every result: the bytes that the source gave, of which at most `limit + 1` are requested.
    ensures given { Gave (S.left source.old) (S.left source.new) (λ given.
        (length given ≤ limit + 1) × (IsErrOf result ReadErr.TooLong ↔ (limit < length given))
        × IfOk result (λ bytes. bytes.items ≡ given)) }

    ensures count { S.faults source.old ≤ S.faults source.new }
    ensures cause { IsErrOf result ReadErr.Fault
        → Rose (S.faults source.old) (S.faults source.new) }
{
    let mut bytes = Vec::new(alloc);
    let mut chunk = new_chunk(alloc)?;
    loop {
        let most = (limit - bytes.len()).saturating_add(1);
        let n = read_some(source, &mut chunk, most)?;
        if n == 0 {
            return Ok(bytes);
        }
        if n > limit - bytes.len() {
            return Err(ReadErr::TooLong);
        }
        bytes.extend_from_slice(&chunk[..n])?;
    }
}

/// Writes the whole piece. `Failed` is returned only if the sink's count of faults rose in this
/// call; the bytes taken are then a proper prefix of the piece. Allocates no memory.
pub fn write_all<K: Sink>(sink: &mut K, piece: &[u8]) -> Result<(), Failed>
    ensures whole { OnOk result (Appends (K.taken sink.old) (K.taken sink.new) piece.now) }
    ensures part { OnErr result (TookPart (K.taken sink.old) (K.taken sink.new) piece.now) }
    ensures count { K.faults sink.old ≤ K.faults sink.new }
    ensures cause { OnErr result (Rose (K.faults sink.old) (K.faults sink.new)) }
{
    let mut rest = piece;
    while !rest.is_empty() {
        let n = sink.write(rest)?;
        rest = &rest[n..];
    }
    Ok(())
}

/// Writes all pieces, one after another. `Failed` is returned only if the sink's count of faults
/// rose in this call; the bytes taken are then a proper prefix of the concatenated pieces.
/// Allocates no memory.
pub fn write_pieces<K: Sink>(sink: &mut K, pieces: &Pieces) -> Result<(), Failed>
    ensures whole { OnOk result (Appends (K.taken sink.old) (K.taken sink.new) pieces.now) }
    ensures part { OnErr result (TookPart (K.taken sink.old) (K.taken sink.new) pieces.now) }
    ensures count { K.faults sink.old ≤ K.faults sink.new }
    ensures cause { OnErr result (Rose (K.faults sink.old) (K.faults sink.new)) }
{
    for piece in pieces.as_slice() {
        write_all(sink, piece)?;
    }
    Ok(())
}
