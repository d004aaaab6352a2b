// The line of an entry in the ASCII form.

ghost use Rattle.std.specs.Prelude.{◌≡◌, ◌∷◌, ◌++◌, ◌<◌, ◌≤◌, codes, length, take, OnOk, OnErr};
ghost use Rattle.std.specs.Vec.{vec_len};
ghost use Rattle.hash_algos.specs.Algo.{algo_name};
ghost use Rattle.hex.specs.Hex.{encode_lower};
ghost use Rattle.list_format.specs.Line.{ascii_line, field_text, fields_text, line_head, pcr_text};

use hash_algos::Digest;
use ima_templates::Entry;
use inode_meta::{Bank, Field};
use std::alloc::AllocError as OutOfMemory;

/// Appends the line of an entry: its register, right-aligned in a width of 2, the SHA-1 template
/// digest in hexadecimal, the template's name, and each field after a space. An empty field still
/// has its space. On an error `out` doesn't change.
pub fn ascii(e: &Entry, out: &mut Vec<u8>) -> Result<(), OutOfMemory>
    ensures ok { OnOk result (out.new.items ≡ out.old.items ++ ascii_line e.now) }
    ensures err { OnErr result (out.new.items ≡ out.old.items) }
{
    let length = out.len();
    let appended = append_line(e, out);
    if appended.is_err() {
        out.truncate(length);
    }
    appended
}

fn append_line(e: &Entry, out: &mut Vec<u8>) -> Result<(), OutOfMemory>
    ensures ok { OnOk result (out.new.items ≡ out.old.items ++ ascii_line e.now) }
    ensures kept { take (vec_len out.old) out.new.items ≡ out.old.items }
{
    append_head(e, out)?;
    append_fields(e, out)?;
    out.extend_from_slice(b"\n")?;
    Ok(())
}

// Appends the register, the template digest and the template's name.
fn append_head(e: &Entry, out: &mut Vec<u8>) -> Result<(), OutOfMemory>
    ensures ok { OnOk result (out.new.items ≡ out.old.items ++ line_head e.now) }
    ensures kept { take (vec_len out.old) out.new.items ≡ out.old.items }
{
    out.extend_from_slice(&pcr_digits(e.pcr))?;
    append_hex(out, b' ', e.sum(Bank::Sha1).as_slice())?;
    append_name(e.template.word().as_bytes(), out)
}

// Appends the fields, each after a space.
fn append_fields(e: &Entry, out: &mut Vec<u8>) -> Result<(), OutOfMemory>
    ensures ok { OnOk result (out.new.items ≡ out.old.items ++ fields_text e.now) }
    ensures kept { take (vec_len out.old) out.new.items ≡ out.old.items }
{
    for field in e.template.fields() {
        append_field(*field, e, out)?;
    }
    Ok(())
}

// Appends a space and the field.
fn append_field(field: Field, e: &Entry, out: &mut Vec<u8>) -> Result<(), OutOfMemory>
    ensures ok { OnOk result (out.new.items ≡ out.old.items ++ 32 ∷ field_text field e.now) }
    ensures kept { take (vec_len out.old) out.new.items ≡ out.old.items }
{
    match field {
        Field::Digest => append_hex(out, b' ', e.digest.as_slice()),
        Field::DigestNg => append_named_digest(&e.digest, out),
        Field::Name | Field::NameNg => append_name(e.name.as_slice(), out),
        Field::Sig | Field::Buf => append_hex(out, b' ', e.sig.as_slice()),
    }
}

// Appends a space and the name.
fn append_name(name: &[u8], out: &mut Vec<u8>) -> Result<(), OutOfMemory>
    ensures ok { OnOk result (out.new.items ≡ out.old.items ++ 32 ∷ name.now) }
    ensures kept { take (vec_len out.old) out.new.items ≡ out.old.items }
{
    out.extend_from_slice(b" ")?;
    out.extend_from_slice(name)
}

/// Appends a space, the algorithm's name, a colon and the digest in hexadecimal.
pub fn append_named_digest(digest: &Digest, out: &mut Vec<u8>) -> Result<(), OutOfMemory>
    ensures ok { OnOk result (out.new.items
        ≡ out.old.items ++ 32 ∷ algo_name digest.now.algo ++ 58 ∷ encode_lower digest.now.bytes) }
    ensures kept { take (vec_len out.old) out.new.items ≡ out.old.items }
{
    append_name(digest.algo().name().as_bytes(), out)?;
    append_hex(out, b':', digest.as_slice())
}

/// Appends the byte `before`, and then the bytes in lower-case hexadecimal. On an error `out`
/// doesn't change.
pub fn append_hex(out: &mut Vec<u8>, before: u8, bytes: &[u8]) -> Result<(), OutOfMemory>
    ensures ok { OnOk result (out.new.items ≡ out.old.items ++ before ∷ encode_lower bytes.now) }
    ensures err { OnErr result (out.new.items ≡ out.old.items) }
{
    let start = out.len() + 1;
    let Some(end) = start.checked_add(2 * bytes.len()) else {
        return Err(OutOfMemory);
    };
    out.resize(end, before)?;
    hex::encode_to_slice(bytes, &mut out[start..]).unwrap();
    Ok(())
}

// A register's number in decimal, right-aligned in a width of 2.
fn pcr_digits(pcr: u8) -> [u8; 2]
    requires { pcr < 24 }
    ensures { result ≡ pcr_text pcr }
{
    let tens = if pcr < 10 { b' ' } else { b'0' + pcr / 10 };
    [tens, b'0' + pcr % 10]
}
