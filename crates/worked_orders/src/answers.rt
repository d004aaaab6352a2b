// Calls `serve` with words and streams in memory.
use order_top::serve;
use std::alloc::{AllocError as OutOfMemory, Global};
use worked_calls::{Call, Outcome, words_of};

/// The outcome of the call.
pub fn answer_over(alloc: Global, call: Call<'_>) -> Result<Outcome, OutOfMemory> {
    let words = words_of(alloc, call.words)?;
    let mut did = Outcome::before(alloc, call)?;
    let (input, out) = (&mut did.input, &mut did.out);
    did.status = serve(alloc, &words, input, out, &mut did.note);
    Ok(did)
}

/// Whether the call has this outcome. It has none if memory runs out.
pub fn answers(alloc: Global, call: Call<'_>, wanted: (u8, &[u8], &str)) -> bool {
    match answer_over(alloc, call) {
        Ok(did) => did.is(wanted),
        Err(_) => false,
    }
}
