ghost use Rattle.std.specs.Prelude.{◌≡◌, IfOk};

use std::alloc::{AllocError as OutOfMemory, Global};
use std::marker::Model;
use xattr_store::Bytes;

/// Bytes in memory of their own, so that they don't enlarge the deeds and calls that have none.
/// Contracts see the bytes.
pub struct BoxedBytes {
    bytes: Box<Bytes>,
}

// Written out, so that the drop is proved here once, and not again in each crate above.
impl Drop for BoxedBytes {
    fn drop(self) {
        let BoxedBytes { bytes: _ } = self;
    }
}

impl Model for BoxedBytes {
    ghost use Rattle.std.specs.Prelude.{ℕ, List};

    ghost Value = { List ℕ };

    ghost view = { λ b. b.bytes.value };
}

impl BoxedBytes {
    /// Moves the bytes to memory of their own.
    pub fn new(alloc: Global, bytes: Bytes) -> Result<BoxedBytes, OutOfMemory>
        ensures bytes { IfOk result (λ b. b ≡ bytes) }
    {
        let bytes = Box::new(alloc, bytes)?;
        Ok(BoxedBytes { bytes })
    }

    /// Copies the bytes to memory of their own.
    pub fn from_slice(alloc: Global, b: &[u8]) -> Result<BoxedBytes, OutOfMemory>
        ensures bytes { IfOk result (λ copy. copy ≡ b.now) }
    {
        let bytes = Bytes::from_slice(alloc, b)?;
        let copy = BoxedBytes::new(alloc, bytes)?;
        Ok(copy)
    }

    /// The bytes, borrowed.
    pub fn as_slice(&self) -> &[u8]
        ensures bytes { result.now ≡ self.now }
    {
        self.bytes.as_slice()
    }
}
