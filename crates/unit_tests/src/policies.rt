// Bytes that aren't UTF-8, which no case of `worked_runs` can have.

use policy_text::parse;
use std::alloc::Global;

// How many rules the text has, or none if it is refused.
fn count_of(alloc: Global, text: &[u8]) -> Option<usize> {
    if text.len() >= 1_000_000 {
        return None;
    }
    match parse(alloc, text) {
        Ok(policy) => Some(policy.rules().len()),
        Err(_) => None,
    }
}

/// Whether a comment may have any bytes.
pub fn is_read(alloc: Global) -> bool {
    count_of(alloc, b"#\xff\x80\nmeasure") == Some(1)
}
