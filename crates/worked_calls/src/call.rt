// What a program is called with.
use std::alloc::{AllocError as OutOfMemory, Global};

/// A call: its words, which spaces separate, its input, and how its streams behave. A call of a
/// stream that fails has its number, from 0 on.
#[derive(Clone, Copy)]
pub struct Call<'a> {
    pub words: &'a str,
    pub input: &'a [u8],
    /// The most bytes that a call of the source gives.
    pub given: usize,
    /// The call of the source that fails.
    pub read: u64,
    /// The output's room.
    pub room: usize,
    /// The most bytes that a call of the output takes.
    pub taken: usize,
    /// The call of the output that fails.
    pub write: u64,
    /// The call of the note that fails.
    pub tell: u64,
}

/// The number of no call.
pub const NEVER: u64 = u64::MAX;

impl<'a> Call<'a> {
    /// A call over streams with room, of which no call fails.
    pub fn sound(words: &'a str, input: &'a [u8]) -> Call<'a> {
        Call {
            words,
            input,
            given: 4096,
            read: NEVER,
            room: 2_000_000,
            taken: 4096,
            write: NEVER,
            tell: NEVER,
        }
    }
}

/// The words, which spaces separate.
pub fn words_of(alloc: Global, words: &str) -> Result<Vec<String>, OutOfMemory> {
    let mut list = Vec::new(alloc);
    for word in words.split_whitespace() {
        list.push(String::from_str(alloc, word)?)?;
    }
    Ok(list)
}
