// Bytes taken from the front.

ghost use Rattle.std.specs.Prelude.{◌≡◌, ◌==◌, length, option_map, position, IfSome};
ghost use Rattle.std.specs.List.{before_first};
ghost use Rattle.carry_form.specs.Cut.{cut_at, from_first, sized_in};

use byteorder::{ByteOrder, LittleEndian};

// The first `count` bytes and those after them, if there are as many.
pub(crate) fn cut_at(count: usize, bytes: &[u8]) -> Option<(&[u8], &[u8])>
    ensures parts { option_map (λ p. (p.0.now, p.1.now)) result ≡ cut_at count bytes.now }
    ensures first { IfSome result (λ p. length p.0.now ≡ count) }
{
    if bytes.len() < count {
        return None;
    }
    Some(bytes.split_at(count))
}

// The bytes that stand after their length in 4 bytes, little-endian, and the bytes after them.
pub(crate) fn sized_in(bytes: &[u8]) -> Option<(&[u8], &[u8])>
    ensures { option_map (λ p. (p.0.now, p.1.now)) result ≡ sized_in bytes.now }
{
    let (number, rest) = cut_at(4, bytes)?;
    cut_at(LittleEndian::read_u32(number) as usize, rest)
}

// The bytes before the first that equals `byte`, and that byte and those after it.
pub(crate) fn split_at_first(byte: u8, bytes: &[u8]) -> (&[u8], &[u8])
    ensures before { result.0.now ≡ before_first (λ b. b == byte) bytes.now }
    ensures after { result.1.now ≡ from_first (λ b. b == byte) bytes.now }
{
    bytes.split_at(place_of(byte, bytes).unwrap_or(bytes.len()))
}

fn place_of(byte: u8, bytes: &[u8]) -> Option<usize>
    ensures { result ≡ position (λ b. b == byte) bytes.now }
{
    bytes.iter().position(|b| *b == byte)
}
