//! The bytes of a buffer.

ghost use Rattle.std.specs.Prelude.{◌≡◌, Some, IfOk};
ghost use Rattle.script_text.specs.Limits.{most_value};
ghost use Rattle.script_text.specs.script_lines.Value.{value_of};

use script_words::{LineErr, value_of};
use std::alloc::{AllocError as OutOfMemory, Global};
use std::marker::Model;
use xattr_store::Bytes;

/// The most bytes of a buffer.
pub const VALUE: usize = 4_096;

// A word is kept in place of its bytes if they are at least so many times as long.
const FAR_LONGER: usize = 64;

// The bytes themselves, or the word of a text that stands for them.
#[derive(Drop)]
enum Held {
    Bytes(Bytes),
    Word(Bytes),
}

/// The bytes of a buffer, which needn't be laid out yet. Contracts see the list of bytes. The
/// invariant: a word that stands for bytes gives some.
#[derive(Drop)]
pub struct BufferBytes {
    held: Held,
}

impl Model for BufferBytes {
    ghost use Rattle.std.specs.Prelude.{◌≡◌, ℕ, List, true};
    ghost use Rattle.buffer_text.specs.Bytes.{bytes_held, gives_bytes};

    ghost Value = { List ℕ };

    ghost view = { λ b. bytes_held b.held };

    ghost invariant = { λ b. gives_bytes b.held ≡ true };
}

impl BufferBytes {
    /// These bytes.
    pub fn new(bytes: Bytes) -> BufferBytes
        ensures { result ≡ bytes }
    {
        BufferBytes {
            held: Held::Bytes(bytes),
        }
    }

    /// The bytes that the word of a text gives. If they are far longer than the word, as those of
    /// `fill:` can be, the word is kept in their place.
    pub fn of_word(alloc: Global, word: &[u8], bytes: Bytes) -> Result<BufferBytes, OutOfMemory>
        requires { value_of 0 most_value word.now ≡ Some bytes }
        ensures { IfOk result (λ b. b ≡ bytes) }
    {
        if word.len() <= bytes.as_slice().len() / FAR_LONGER {
            let word = Bytes::from_slice(alloc, word)?;
            Ok(BufferBytes {
                held: Held::Word(word),
            })
        } else {
            Ok(BufferBytes::new(bytes))
        }
    }

    /// The bytes, laid out one after another.
    pub fn laid(self, alloc: Global) -> Result<Bytes, OutOfMemory>
        ensures { IfOk result (λ bytes. bytes ≡ self) }
    {
        match self.held {
            Held::Bytes(bytes) => Ok(bytes),
            Held::Word(word) => match value_of(alloc, word.as_slice(), 0, VALUE) {
                Ok(bytes) => Ok(bytes),
                Err(LineErr::OutOfMemory) => Err(OutOfMemory),
                // The word was read before.
                Err(LineErr::Refused(_)) => unreachable!(),
            },
        }
    }

    /// A copy with equal bytes, in its own memory.
    pub fn copy(&self, alloc: Global) -> Result<BufferBytes, OutOfMemory>
        ensures { IfOk result (λ copy. copy ≡ self.now) }
    {
        let held = match &self.held {
            Held::Bytes(bytes) => Held::Bytes(Bytes::from_slice(alloc, bytes.as_slice())?),
            Held::Word(word) => Held::Word(Bytes::from_slice(alloc, word.as_slice())?),
        };
        Ok(BufferBytes { held })
    }
}
