// The parts of a binary record.

ghost use Rattle.std.specs.Prelude.{◌≡◌, ◌++◌, ◌^◌, ◌<◌, length, take, OnOk, OnErr};
ghost use Rattle.std.specs.Vec.{vec_len};
ghost use Rattle.byteorder.specs.Endian.{little_bytes};
ghost use Rattle.ima_templates.specs.Data.{sized};

use byteorder::{ByteOrder, LittleEndian};
use std::alloc::AllocError as OutOfMemory;

// Appends the number of bytes, and then the bytes.
pub(crate) fn append_sized(out: &mut Vec<u8>, bytes: &[u8]) -> Result<(), OutOfMemory>
    requires { length bytes.now < 2 ^ 32 }
    ensures ok { OnOk result (out.new.items ≡ out.old.items ++ sized bytes.now) }
    ensures kept { take (vec_len out.old) out.new.items ≡ out.old.items }
{
    append_number(out, bytes.len())?;
    out.extend_from_slice(bytes)?;
    Ok(())
}

// Appends a number in 4 bytes, little-endian.
pub(crate) fn append_number(out: &mut Vec<u8>, n: usize) -> Result<(), OutOfMemory>
    requires { n < 2 ^ 32 }
    ensures ok { OnOk result (out.new.items ≡ out.old.items ++ little_bytes 4 n) }
    ensures err { OnErr result (out.new.items ≡ out.old.items) }
{
    let mut bytes = [0; 4];
    LittleEndian::write_u32(&mut bytes, n as u32);
    out.extend_from_slice(&bytes)
}
