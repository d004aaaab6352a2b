//! Which attributes count, and the total length of the values that do.

ghost use Rattle.std.specs.Prelude.{◌≡◌, ◌+◌};
ghost use Rattle.script_fields.specs.Limits.{is_counted, within_sum};

use xattr_store::{EVM_NAME, IMA_NAME};

// The limit on the total length of all values that count.
const BYTES: usize = 33_554_432;

/// The sum with the length of one more value, if it is within its limit.
pub fn sum_of(sum: usize, len: usize) -> Option<usize>
    ensures { result ≡ within_sum (sum + len) }
{
    match sum.checked_add(len) {
        Some(sum) if sum <= BYTES => Some(sum),
        _ => None,
    }
}

/// Whether an attribute counts: the label and the HMAC count neither among a file's attributes nor
/// in the sum.
pub fn is_counted(name: &[u8]) -> bool
    ensures { result ≡ is_counted name.now }
{
    !(name == IMA_NAME || name == EVM_NAME)
}
