// Bytes against hexadecimal digits.

use std::alloc::Global;

/// Whether the bytes have these digits. They don't if memory runs out.
pub fn is_hex(alloc: Global, got: &[u8], digits: &str) -> bool {
    match hex::encode(alloc, got) {
        Ok(text) => text.as_bytes() == digits.as_bytes(),
        Err(_) => false,
    }
}
