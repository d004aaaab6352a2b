ghost use Rattle.std.specs.Prelude.{◌≡◌, ℕ, List, IfOk};

use std::alloc::{AllocError as OutOfMemory, Global};
use std::marker::Model;

/// A byte string that owns its memory: a path, a name or the value of an attribute. Contracts see
/// its list of bytes.
pub struct Bytes {
    bytes: Vec<u8>,
}

// Written out, so that the drop is proved here once, and not again in each crate above.
impl Drop for Bytes {
    fn drop(self) {
        let Bytes { bytes: _ } = self;
    }
}

impl Model for Bytes {
    ghost Value = { List ℕ };

    ghost view = { λ b. b.bytes.items };
}

impl Bytes {
    /// A string with a copy of the bytes `b`.
    pub fn from_slice(alloc: Global, b: &[u8]) -> Result<Bytes, OutOfMemory>
        ensures bytes { IfOk result (λ copy. copy ≡ b.now) }
    {
        let mut bytes = Vec::with_capacity(alloc, b.len())?;
        bytes.extend_from_slice(b)?;
        Ok(Bytes { bytes })
    }

    /// A string that takes ownership of the vector's bytes.
    pub fn from_vec(bytes: Vec<u8>) -> Bytes
        ensures bytes { result ≡ bytes.items }
    {
        Bytes { bytes }
    }

    /// The string's bytes as a vector, without a copy.
    pub fn into_vec(self) -> Vec<u8>
        ensures bytes { result.items ≡ self }
    {
        let Bytes { bytes } = self;
        bytes
    }

    /// The bytes, borrowed.
    pub fn as_slice(&self) -> &[u8]
        ensures bytes { result.now ≡ self.now }
    {
        self.bytes.as_slice()
    }
}
