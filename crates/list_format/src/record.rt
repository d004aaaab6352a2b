// The record of an entry in the binary form.

ghost use Rattle.std.specs.Prelude.{◌≡◌, ◌++◌, take, OnOk, OnErr};
ghost use Rattle.std.specs.Vec.{vec_len};
ghost use Rattle.ima_templates.specs.Data.{sized};
ghost use Rattle.list_format.specs.Record.{binary_record, shown_data};

use crate::data::{append_number, append_sized};
use ima_templates::{Absorb, Entry};
use inode_meta::{Bank, Template};
use std::alloc::AllocError as OutOfMemory;

/// Appends the record of an entry, with numbers in 4 bytes, little-endian: its register, the 20
/// bytes of the SHA-1 template digest, the length of the template's name and the name. Under `ima`
/// the 20 bytes of the digest follow, the length of the file's name and that name; under the other
/// templates the length of the template data and the template data. On an error `out` doesn't
/// change.
pub fn binary(e: &Entry, out: &mut Vec<u8>) -> Result<(), OutOfMemory>
    ensures ok { OnOk result (out.new.items ≡ out.old.items ++ binary_record e.now) }
    ensures err { OnErr result (out.new.items ≡ out.old.items) }
{
    let length = out.len();
    let appended = append_record(e, out);
    if appended.is_err() {
        out.truncate(length);
    }
    appended
}

fn append_record(e: &Entry, out: &mut Vec<u8>) -> Result<(), OutOfMemory>
    ensures ok { OnOk result (out.new.items ≡ out.old.items ++ binary_record e.now) }
    ensures kept { take (vec_len out.old) out.new.items ≡ out.old.items }
{
    append_number(out, e.pcr as usize)?;
    out.extend_from_slice(e.sum(Bank::Sha1).as_slice())?;
    append_sized(out, e.template.word().as_bytes())?;
    append_data(e, out)
}

// Appends the part of the record that shows the fields.
fn append_data(e: &Entry, out: &mut Vec<u8>) -> Result<(), OutOfMemory>
    ensures ok { OnOk result (out.new.items ≡ out.old.items ++ shown_data e.now.template e.now) }
    ensures kept { take (vec_len out.old) out.new.items ≡ out.old.items }
{
    match e.template {
        Template::Ima => append_ima(e, out),
        _ => {
            append_number(out, e.data_length()?)?;
            e.absorb_data(out)
        }
    }
}

// Appends the digest, and the name after its length.
fn append_ima(e: &Entry, out: &mut Vec<u8>) -> Result<(), OutOfMemory>
    ensures ok { OnOk result
        (out.new.items ≡ out.old.items ++ e.now.digest.bytes ++ sized e.now.name) }
    ensures kept { take (vec_len out.old) out.new.items ≡ out.old.items }
{
    out.extend_from_slice(e.digest.as_slice())?;
    append_sized(out, e.name.as_slice())
}
