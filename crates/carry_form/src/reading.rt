// Reading a carried form.

ghost use Rattle.std.specs.Prelude.{◌≡◌, IfOk};
ghost use Rattle.carry_form.specs.Form.{IsCarried, carried_form};
ghost use Rattle.carry_form.specs.Reading.{Loads, count_in, has_header, load_of};

use crate::carried::Carried;
use crate::causes::{CarryCause, CarryErr};
use crate::records::records_in;
use byteorder::{ByteOrder, LittleEndian};
use std::alloc::Global;

/// The length of the header in bytes.
pub const HEADER_LENGTH: usize = 24;

/// The first bytes of each carried form.
pub const MARK: [u8; 4] = [b'I', b'M', b'A', b'L'];

/// The version of the form that is written and read.
pub const VERSION: u32 = 1;

/// Reads the carried form of a list. The bytes are refused exactly if they aren't the carried form
/// of a list, with the first cause that holds.
pub fn load(alloc: Global, b: &[u8]) -> Result<Carried, CarryErr>
    ensures list { Loads result (load_of b.now) }
    ensures carried { IfOk result IsCarried }
    ensures saves { IfOk result (λ list. carried_form list ≡ b.now) }
{
    let count = count_in(b)?;
    let Some(list) = records_in(alloc, count, &b[HEADER_LENGTH..])? else {
        return Err(CarryErr::Refused(CarryCause::Record));
    };
    Carried::of_entries(alloc, list)
}

// The number of records, if the header is right.
fn count_in(b: &[u8]) -> Result<u64, CarryCause>
    ensures { result ≡ count_in b.now }
{
    if !has_header(b) {
        return Err(CarryCause::Header);
    }
    let stated = LittleEndian::read_u64(&b[16..]);
    let length = b.len() as u64;
    if length < stated {
        return Err(CarryCause::Short);
    }
    if stated < length {
        return Err(CarryCause::Trailing);
    }
    Ok(LittleEndian::read_u64(&b[8..]))
}

// Whether the bytes begin with a header of this version that states at least one record.
fn has_header(b: &[u8]) -> bool
    ensures { result ≡ has_header b.now }
{
    if b.len() < HEADER_LENGTH {
        return false;
    }
    let mark = &b[..4];
    if mark != MARK.as_slice() {
        return false;
    }
    LittleEndian::read_u32(&b[4..]) == VERSION && LittleEndian::read_u64(&b[8..]) != 0
}
