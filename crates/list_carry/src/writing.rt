// Writing a carried form.

ghost use Rattle.std.specs.Prelude.{◌≡◌, [], ◌∷◌, ◌++◌, ◌<◌, ◌^◌, take, IfOk, OnErr, OnOk};
ghost use Rattle.std.specs.Vec.{vec_len};
ghost use Rattle.byteorder.specs.Endian.{little_bytes};
ghost use Rattle.ima_templates.specs.Data.{sized, template_data};
ghost use Rattle.carry_form.specs.Form.{IsCarried, carried_form, flag, form_length, header, record_head, record_of, records_of, template_number};
ghost use Rattle.carry_form.specs.Reading.{load_of};

use byteorder::{ByteOrder, LittleEndian};
use carry_form::{HEADER_LENGTH, MARK, VERSION};
use ima_templates::Entry;
use inode_meta::Template;
use std::alloc::AllocError as OutOfMemory;

// A record has this many bytes beside the template data.
const RECORD_LENGTH: u64 = 10;

/// Appends the carried form of a list that isn't empty and has no two same entries. [`crate::load`]
/// reads the list from it again. On an error `out` doesn't change.
pub fn save(list: &[Entry], out: &mut Vec<u8>) -> Result<(), OutOfMemory>
    requires { IsCarried list.now }
    ensures ok { OnOk result (out.new.items ≡ out.old.items ++ carried_form list.now) }
    ensures loads { OnOk result (load_of (carried_form list.now) ≡ Ok list.now) }
    ensures err { OnErr result (out.new.items ≡ out.old.items) }
{
    let length = out.len();
    let appended = append_form(list, out);
    if appended.is_err() {
        out.truncate(length);
    }
    appended
}

fn append_form(list: &[Entry], out: &mut Vec<u8>) -> Result<(), OutOfMemory>
    ensures ok { OnOk result (out.new.items ≡ out.old.items ++ carried_form list.now) }
    ensures small { OnOk result (form_length list.now < 2 ^ 64) }
    ensures kept { take (vec_len out.old) out.new.items ≡ out.old.items }
{
    let whole = form_length(list)?;
    out.reserve(whole as usize)?;
    append_header(list.len() as u64, whole, out)?;
    append_records(list, out)
}

// The length of the list's carried form in bytes.
fn form_length(list: &[Entry]) -> Result<u64, OutOfMemory>
    ensures { IfOk result (λ n. n ≡ form_length list.now) }
{
    let mut total = HEADER_LENGTH as u64;
    for e in list {
        let more = RECORD_LENGTH + e.data_length()? as u64;
        total = total.checked_add(more).ok_or(OutOfMemory)?;
    }
    Ok(total)
}

// Appends the header of a form with this number of records and this length.
fn append_header(count: u64, whole: u64, out: &mut Vec<u8>) -> Result<(), OutOfMemory>
    ensures ok { OnOk result (out.new.items ≡ out.old.items ++ header count whole) }
    ensures kept { take (vec_len out.old) out.new.items ≡ out.old.items }
{
    out.extend_from_slice(&MARK)?;
    append_u32(VERSION, out)?;
    append_u64(count, out)?;
    append_u64(whole, out)
}

fn append_records(list: &[Entry], out: &mut Vec<u8>) -> Result<(), OutOfMemory>
    ensures ok { OnOk result (out.new.items ≡ out.old.items ++ records_of list.now) }
    ensures kept { take (vec_len out.old) out.new.items ≡ out.old.items }
{
    for e in list {
        append_record(e, out)?;
    }
    Ok(())
}

#[tactic(auto, unfolding(carry_form::specs::Form::record_of))]
fn append_record(e: &Entry, out: &mut Vec<u8>) -> Result<(), OutOfMemory>
    ensures ok { OnOk result (out.new.items ≡ out.old.items ++ record_of e.now) }
    ensures kept { take (vec_len out.old) out.new.items ≡ out.old.items }
{
    append_record_head(e, out)?;
    append_data(e, out)
}

// Appends whether the entry is a violation, its register and its template.
fn append_record_head(e: &Entry, out: &mut Vec<u8>) -> Result<(), OutOfMemory>
    ensures ok { OnOk result (out.new.items ≡ out.old.items ++ record_head e.now) }
    ensures kept { take (vec_len out.old) out.new.items ≡ out.old.items }
{
    append_byte(flag(e.violation), out)?;
    append_u32(u32::from(e.pcr), out)?;
    append_byte(template_number(e.template), out)
}

// Appends the template data after their length.
fn append_data(e: &Entry, out: &mut Vec<u8>) -> Result<(), OutOfMemory>
    ensures ok { OnOk result (out.new.items ≡ out.old.items ++ sized (template_data e.now)) }
    ensures kept { take (vec_len out.old) out.new.items ≡ out.old.items }
{
    append_u32(e.data_length()? as u32, out)?;
    e.absorb_data(out)?;
    Ok(())
}

// Appends a byte.
fn append_byte(n: u8, out: &mut Vec<u8>) -> Result<(), OutOfMemory>
    ensures ok { OnOk result (out.new.items ≡ out.old.items ++ n ∷ []) }
    ensures err { OnErr result (out.new.items ≡ out.old.items) }
{
    out.extend_from_slice(&[n])
}

// Appends a number in 4 bytes, little-endian.
fn append_u32(n: u32, out: &mut Vec<u8>) -> Result<(), OutOfMemory>
    ensures ok { OnOk result (out.new.items ≡ out.old.items ++ little_bytes 4 n) }
    ensures err { OnErr result (out.new.items ≡ out.old.items) }
{
    let mut bytes = [0; 4];
    LittleEndian::write_u32(&mut bytes, n);
    out.extend_from_slice(&bytes)
}

// Appends a number in 8 bytes, little-endian.
fn append_u64(n: u64, out: &mut Vec<u8>) -> Result<(), OutOfMemory>
    ensures ok { OnOk result (out.new.items ≡ out.old.items ++ little_bytes 8 n) }
    ensures err { OnErr result (out.new.items ≡ out.old.items) }
{
    let mut bytes = [0; 8];
    LittleEndian::write_u64(&mut bytes, n);
    out.extend_from_slice(&bytes)
}

// The byte of a record that says whether the entry is a violation.
fn flag(violation: bool) -> u8
    ensures { result ≡ flag violation }
{
    if violation { 1 } else { 0 }
}

// The number by which a record names the template.
fn template_number(template: Template) -> u8
    ensures { result ≡ template_number template }
{
    match template {
        Template::Ima => 0,
        Template::ImaNg => 1,
        Template::ImaSig => 2,
        Template::ImaBuf => 3,
    }
}
