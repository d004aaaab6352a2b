/// The answer to a buffer that a caller hands in to be measured, with an index in the list, counted
/// from 0.
#[derive(Clone, Copy)]
pub enum Answer {
    /// No rule wants it measured.
    Skipped,
    /// Its entry was added at this index, as the last one.
    Added(u64),
    /// The same entry is already at this index, and nothing was added.
    Already(u64),
}
