ghost use Rattle.std.specs.Prelude.{◌≡◌};
ghost use Rattle.script_words.specs.Forms.{descriptor_of, id_of, ino_of, mode_of, offset_of, place_among, portion_of, small_of};

use inode_pages::MOST_BYTES;
use text_forms::short_number_of;

/// The number of a descriptor, in decimal, at most 255.
pub fn descriptor_of(text: &[u8]) -> Option<u8>
    ensures { result ≡ descriptor_of text.now }
{
    let number = short_number_of(text, 10, 255)?;
    Some(number as u8)
}

/// The number of a map, a run or a semaphore, in decimal, at most 63.
pub fn small_of(text: &[u8]) -> Option<u8>
    ensures { result ≡ small_of text.now }
{
    let number = short_number_of(text, 10, 63)?;
    Some(number as u8)
}

/// The number of a user or a group, or a generation, in decimal, below 2^32.
pub fn id_of(text: &[u8]) -> Option<u32>
    ensures { result ≡ id_of text.now }
{
    let number = short_number_of(text, 10, u64::from(u32::MAX))?;
    Some(number as u32)
}

/// The number of an inode, in decimal, below 2^64.
pub fn ino_of(text: &[u8]) -> Option<u64>
    ensures { result ≡ ino_of text.now }
{
    short_number_of(text, 10, u64::MAX)
}

/// An offset or a length in bytes, in decimal, below 2^32.
pub fn offset_of(text: &[u8]) -> Option<u64>
    ensures { result ≡ offset_of text.now }
{
    short_number_of(text, 10, u64::from(u32::MAX))
}

/// The length in bytes of one read, in decimal, 1 to [`MOST_BYTES`].
pub fn portion_of(text: &[u8]) -> Option<u64>
    ensures { result ≡ portion_of text.now }
{
    match short_number_of(text, 10, MOST_BYTES) {
        Some(0) => None,
        number => number,
    }
}

/// A mode of 1 to 6 octal digits, at most 0o177777.
pub fn mode_of(text: &[u8]) -> Option<u16>
    ensures { result ≡ mode_of text.now }
{
    let mode = short_number_of(text, 8, u64::from(u16::MAX))?;
    Some(mode as u16)
}

/// A decimal number below `count`, of any number of digits.
pub fn place_among(count: usize, text: &[u8]) -> Option<usize>
    ensures { result ≡ place_among count text.now }
{
    if count == 0 {
        return None;
    }
    let number = short_number_of(text, 10, count as u64 - 1)?;
    Some(number as usize)
}
