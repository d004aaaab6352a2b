// Writing the fields of a template, one after another.

ghost use Rattle.std.specs.Prelude.{◌≡◌, ◌+◌, ◌^◌, ◌<◌, ◌≤◌, ◌++◌, length, replicate, IfOk, OnOk};
ghost use Rattle.byteorder.specs.Endian.{little_bytes};
ghost use Rattle.hash_algos.specs.Digest.{digest_of};
ghost use Rattle.hash_algos.specs.Hash.{hash};
ghost use Rattle.ima_templates.specs.Data.{HasLengths, content, data_by, field_data, has_length, n_length};

use crate::absorb::{Absorb, Count};
use byteorder::{ByteOrder, LittleEndian};
use hash_algos::{Algo, Digest, Running};
use inode_meta::{Field, Template};
use std::alloc::AllocError as OutOfMemory;

// The field `n` is padded to this length with zeros.
const NAME_LENGTH: usize = 256;

static ZEROS: [u8; NAME_LENGTH] = [0; NAME_LENGTH];

/// Writes the template data with these contents of the fields.
pub(crate) fn absorb_data<S: Absorb>(
    to: &mut S,
    template: Template,
    digest: &Digest,
    name: &[u8],
    sig: &[u8],
) -> Result<(), OutOfMemory>
    requires { HasLengths digest.now name.now sig.now }
    ensures ok { OnOk result (S.absorbs to.old to.new
        (data_by template digest.now name.now sig.now)) }
    ensures kept { S.keeps to.old to.new }
{
    for field in template.fields() {
        absorb_field(to, *field, digest, name, sig)?;
    }
    Ok(())
}

// Writes a field of the template data, after its length if the field has one.
fn absorb_field<S: Absorb>(
    to: &mut S,
    field: Field,
    digest: &Digest,
    name: &[u8],
    sig: &[u8],
) -> Result<(), OutOfMemory>
    requires { HasLengths digest.now name.now sig.now }
    ensures ok { OnOk result (S.absorbs to.old to.new
        (field_data field digest.now name.now sig.now)) }
    ensures kept { S.keeps to.old to.new }
{
    if has_length(field) {
        let mut count = Count { bytes: 0 };
        absorb_content(&mut count, field, digest, name, sig)?;
        absorb_number(to, count.bytes)?;
        absorb_content(to, field, digest, name, sig)?;
        Ok(())
    } else {
        absorb_content(to, field, digest, name, sig)
    }
}

// Whether the template data has the field's length before the field.
fn has_length(field: Field) -> bool
    ensures { result ≡ has_length field }
{
    match field {
        Field::Digest | Field::Name => false,
        Field::DigestNg | Field::NameNg | Field::Sig | Field::Buf => true,
    }
}

// Writes the content of a field, without its length.
fn absorb_content<S: Absorb>(
    to: &mut S,
    field: Field,
    digest: &Digest,
    name: &[u8],
    sig: &[u8],
) -> Result<(), OutOfMemory>
    ensures ok { OnOk result (S.absorbs to.old to.new (content field digest.now name.now sig.now)) }
    ensures kept { S.keeps to.old to.new }
{
    match field {
        Field::Digest => to.absorb(digest.as_slice()),
        Field::Name => absorb_both(to, name, zeros(NAME_LENGTH.saturating_sub(name.len()))),
        Field::DigestNg => {
            absorb_both(to, digest.algo().name().as_bytes(), b":")?;
            absorb_both(to, b"\0", digest.as_slice())
        }
        Field::NameNg => absorb_both(to, name, b"\0"),
        Field::Sig | Field::Buf => to.absorb(sig),
    }
}

// Writes the first piece and then the second.
fn absorb_both<S: Absorb>(to: &mut S, first: &[u8], second: &[u8]) -> Result<(), OutOfMemory>
    ensures ok { OnOk result (S.absorbs to.old to.new (first.now ++ second.now)) }
    ensures kept { S.keeps to.old to.new }
{
    to.absorb(first)?;
    to.absorb(second)
}

// Writes a number in 4 bytes, little-endian.
fn absorb_number<S: Absorb>(to: &mut S, number: usize) -> Result<(), OutOfMemory>
    requires { number < 2 ^ 32 }
    ensures ok { OnOk result (S.absorbs to.old to.new (little_bytes 4 number)) }
    ensures kept { S.keeps to.old to.new }
{
    let mut bytes = [0; 4];
    LittleEndian::write_u32(&mut bytes, number as u32);
    to.absorb(&bytes)
}

// A slice of `count` zeros.
fn zeros(count: usize) -> &'static [u8]
    requires { count ≤ n_length }
    ensures { result.now ≡ replicate count 0 }
{
    &ZEROS[..count]
}

/// The template digests, by SHA-1 and SHA-256, for these contents of the fields.
pub(crate) fn sums(
    template: Template,
    digest: &Digest,
    name: &[u8],
    sig: &[u8],
) -> Result<([u8; 20], [u8; 32]), OutOfMemory>
    requires { HasLengths digest.now name.now sig.now }
    ensures sha1 { IfOk result (λ s. s.0
        ≡ hash Algo.Sha1 (data_by template digest.now name.now sig.now)) }
    ensures sha256 { IfOk result (λ s. s.1
        ≡ hash Algo.Sha256 (data_by template digest.now name.now sig.now)) }
{
    let mut sha1 = [0; 20];
    let mut sha256 = [0; 32];
    sha1.copy_from_slice(sum(Algo::Sha1, template, digest, name, sig)?.as_slice());
    sha256.copy_from_slice(sum(Algo::Sha256, template, digest, name, sig)?.as_slice());
    Ok((sha1, sha256))
}

// The hash of the template data with these contents of the fields.
fn sum(
    algo: Algo,
    template: Template,
    digest: &Digest,
    name: &[u8],
    sig: &[u8],
) -> Result<Digest, OutOfMemory>
    requires { HasLengths digest.now name.now sig.now }
    ensures { IfOk result (λ d. d ≡ digest_of algo (data_by template digest.now name.now sig.now)) }
{
    let mut running = Running::new(algo);
    absorb_data(&mut running, template, digest, name, sig)?;
    Ok(running.finish())
}
