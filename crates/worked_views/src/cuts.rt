// Reports that are cut short.

use crate::answers::answer;
use std::alloc::{AllocError as OutOfMemory, Global};
use view_top::REFUSED;
use worked_calls::ends_of;

/// Whether what is left of the report, wherever it is cut, is refused with its first bad line: the
/// line that isn't whole, or that is missing.
pub fn are_refused(alloc: Global, report: &[u8]) -> Result<bool, OutOfMemory> {
    for end in 0..report.len() {
        if !is_refused(alloc, &report[..end])? {
            return Ok(false);
        }
    }
    Ok(true)
}

// The note that refuses what is left: its last line isn't whole, or is missing.
fn note_of(alloc: Global, cut: &[u8]) -> Result<String, OutOfMemory> {
    let line = ends_of(cut).saturating_add(1);
    format!(in alloc; "line {line}: bad-line\n")
}

fn is_refused(alloc: Global, cut: &[u8]) -> Result<bool, OutOfMemory> {
    let note = note_of(alloc, cut)?;
    Ok(answer(alloc, "page", cut)?.is((REFUSED, b"", note.as_str())))
}
