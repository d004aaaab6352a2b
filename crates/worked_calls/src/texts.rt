// Texts that are cut in two, and the lines of bytes.

/// What stands before the mark and what stands after it; the whole text and nothing, if the mark
/// isn't there.
pub fn cut<'a>(text: &'a str, mark: &str) -> (&'a str, &'a str) {
    text.split_once(mark).unwrap_or((text, ""))
}

/// How many lines end in these bytes.
pub fn ends_of(bytes: &[u8]) -> u64 {
    let mut count = 0u64;
    for byte in bytes {
        if *byte == b'\n' {
            count = count.saturating_add(1);
        }
    }
    count
}
