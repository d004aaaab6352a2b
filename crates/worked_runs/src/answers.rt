// Calls `serve` with words and streams in memory.
use ima_io::{FreeGate, Gate};
use ima_top::serve;
use std::alloc::{AllocError as OutOfMemory, Global};
use std::sync::Wait;
use std::thread::Threads;
use worked_calls::{Call, Outcome, words_of};

/// The outcome of the call, if each step passes this gate first.
pub fn answer_over<G: Gate + Sync, R: Threads + Wait + Sync>(
    rt: &R,
    alloc: Global,
    call: Call<'_>,
    gate: &G,
) -> Result<Outcome, OutOfMemory> {
    let words = words_of(alloc, call.words)?;
    let mut did = Outcome::before(alloc, call)?;
    let (input, out) = (&mut did.input, &mut did.out);
    did.status = serve(rt, alloc, &words, input, out, &mut did.note, gate);
    Ok(did)
}

/// Whether the call has this outcome. It has none if memory runs out.
pub fn answers<R: Threads + Wait + Sync>(
    rt: &R,
    alloc: Global,
    call: Call<'_>,
    wanted: (u8, &[u8], &str),
) -> bool {
    match answer_over(rt, alloc, call, &FreeGate) {
        Ok(did) => did.is(wanted),
        Err(_) => false,
    }
}
