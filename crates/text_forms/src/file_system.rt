ghost use Rattle.std.specs.Prelude.{◌≡◌, Some};
ghost use Rattle.text_forms.specs.FileSystems.{magic_of, magic_text, uuid_of, uuid_text, without_0x};

use crate::numbers::number_of;
use std::fmt::{self, Display};
use uuid::Uuid;

/// Parses the magic number of a file system (`s_magic`): an optional `0x` or `0X`, then 1 to 16
/// hexadecimal digits in either case.
pub fn magic_of(text: &[u8]) -> Option<u64>
    ensures { result ≡ magic_of text.now }
{
    let digits = without_0x(text);
    if digits.len() <= 16 {
        number_of(digits, 16, u64::MAX)
    } else {
        None
    }
}

fn without_0x(text: &[u8]) -> &[u8]
    ensures { result.now ≡ without_0x text.now }
{
    match text {
        [b'0', b'x' | b'X', digits @ ..] => digits,
        _ => text,
    }
}

/// Parses the UUID of a file system, most significant byte first, in the hyphenated form of RFC
/// 9562 and in either case.
pub fn uuid_of(text: &[u8]) -> Option<u128>
    ensures { result ≡ uuid_of text.now }
{
    if text.len() != 36 {
        return None;
    }
    match Uuid::try_parse_ascii(text) {
        Ok(uuid) => Some(uuid.as_u128()),
        Err(_) => None,
    }
}

/// A magic number, displayed as `0x` and lower-case digits without leading zeros.
#[derive(Clone, Copy)]
pub struct Magic(pub u64);

impl Display for Magic {
    ghost output = { λ m. Some (magic_text m.0) };

    fn fmt<W: fmt::Write>(&self, f: &mut fmt::Formatter<W>) -> fmt::Result {
        write!(f, "0x{:x}", self.0)
    }
}

/// The UUID of a file system, displayed in the hyphenated form in lower case.
#[derive(Clone, Copy)]
pub struct FsUuid(pub u128);

impl Display for FsUuid {
    ghost output = { λ u. Some (uuid_text u.0) };

    fn fmt<W: fmt::Write>(&self, f: &mut fmt::Formatter<W>) -> fmt::Result {
        Display::fmt(&Uuid::from_u128(self.0), f)
    }
}
