// Calls `serve_view` with words and an input in memory.
use std::alloc::{AllocError as OutOfMemory, Global};
use view_top::serve_view;
use worked_calls::{Call, Outcome, words_of};

/// The outcome of the words, which spaces separate, on this input, if no stream fails.
pub fn answer(alloc: Global, words: &str, input: &[u8]) -> Result<Outcome, OutOfMemory> {
    let list = words_of(alloc, words)?;
    let mut did = Outcome::before(alloc, Call::sound(words, input))?;
    let (report, out) = (&mut did.input, &mut did.out);
    did.status = serve_view(alloc, &list, report, out, &mut did.note);
    Ok(did)
}
