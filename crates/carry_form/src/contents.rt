// The contents of the fields of template data.

ghost use Rattle.std.specs.Prelude.{◌≡◌, option_copied, option_map};
ghost use Rattle.std.specs.List.{list_all};
ghost use Rattle.carry_form.specs.Contents.{contents_in, digest_after, digest_by, digest_in, head_in, ima_in, is_zero, last_in, name_in, named_in, ng_in, padded_in, shown, third_in};

use crate::cut::{cut_at, sized_in, split_at_first};
use hash_algos::{Algo, Digest, by_name};
use inode_meta::Template;

// The field `n` has this many bytes.
const PADDED_LENGTH: usize = 256;

/// The contents of an entry's fields.
#[derive(Clone, Copy)]
pub(crate) struct Contents<'a> {
    /// The field `d` or `d-ng`.
    pub(crate) digest: Digest,
    /// The field `n` or `n-ng`, without the zero bytes after the name.
    pub(crate) name: &'a [u8],
    /// The field `sig` or `buf`, or nothing.
    pub(crate) sig: &'a [u8],
}

/// The contents of the fields whose template data these bytes are. Whether the name and the length
/// of `sig` are those of an entry isn't looked at.
pub(crate) fn contents_in(template: Template, bytes: &[u8]) -> Option<Contents<'_>>
    ensures { option_map shown result ≡ contents_in template bytes.now }
{
    match template {
        Template::Ima => ima_in(bytes),
        Template::ImaNg | Template::ImaSig | Template::ImaBuf => ng_in(template, bytes),
    }
}

// The contents of `d` and `n`.
fn ima_in(bytes: &[u8]) -> Option<Contents<'_>>
    ensures { option_map shown result ≡ ima_in bytes.now }
{
    let (sha1, padded) = cut_at(20, bytes)?;
    let digest = digest_by(Algo::Sha1, sha1)?;
    let name = padded_in(padded)?;
    Some(Contents {
        digest,
        name,
        sig: &[],
    })
}

// The contents of `d-ng`, `n-ng` and the third field, if the template has one.
fn ng_in(template: Template, bytes: &[u8]) -> Option<Contents<'_>>
    ensures { option_map shown result ≡ ng_in template bytes.now }
{
    let Some(head) = head_in(bytes) else {
        return None;
    };
    let sig = third_in(template, head.sig)?;
    Some(Contents {
        digest: head.digest,
        name: head.name,
        sig,
    })
}

// The contents of `d-ng` and `n-ng`, and as `sig` the bytes after them.
fn head_in(bytes: &[u8]) -> Option<Contents<'_>>
    ensures { option_map shown result ≡ head_in bytes.now }
{
    let (field, rest) = sized_in(bytes)?;
    named_in(digest_in(field)?, rest)
}

// The digest with the content of `n-ng`, and as `sig` the bytes after it.
fn named_in(digest: Digest, bytes: &[u8]) -> Option<Contents<'_>>
    ensures { option_map shown result ≡ named_in digest bytes.now }
{
    let (field, rest) = sized_in(bytes)?;
    let name = name_in(field)?;
    Some(Contents {
        digest,
        name,
        sig: rest,
    })
}

// The content of the third field, if the template has one; otherwise there may be no bytes.
fn third_in(template: Template, bytes: &[u8]) -> Option<&[u8]>
    ensures { option_copied result ≡ third_in template bytes.now }
{
    match template {
        Template::Ima | Template::ImaNg => { if bytes.is_empty() { Some(&[]) } else { None } }
        Template::ImaSig | Template::ImaBuf => last_in(bytes),
    }
}

// The content of the last field, after its length.
fn last_in(bytes: &[u8]) -> Option<&[u8]>
    ensures { option_copied result ≡ last_in bytes.now }
{
    let (field, rest) = sized_in(bytes)?;
    if rest.is_empty() { Some(field) } else { None }
}

// The digest whose field `d-ng` these bytes are.
fn digest_in(field: &[u8]) -> Option<Digest>
    ensures { result ≡ digest_in field.now }
{
    let (name, rest) = split_at_first(b':', field);
    let algo = by_name(name)?;
    digest_after(algo, rest)
}

// The digest after a colon and a zero byte.
fn digest_after(algo: Algo, bytes: &[u8]) -> Option<Digest>
    ensures { result ≡ digest_after algo bytes.now }
{
    match bytes {
        [_, 0, digest @ ..] => digest_by(algo, digest),
        _ => None,
    }
}

fn digest_by(algo: Algo, bytes: &[u8]) -> Option<Digest>
    ensures { result ≡ digest_by algo bytes.now }
{
    Digest::from_slice(algo, bytes)
}

// The name whose field `n-ng` these bytes are: one zero byte stands after the name.
fn name_in(field: &[u8]) -> Option<&[u8]>
    ensures { option_copied result ≡ name_in field.now }
{
    let (name, rest) = split_at_first(0, field);
    if rest.len() == 1 { Some(name) } else { None }
}

// The name whose field `n` these bytes are: the name is padded with zeros.
fn padded_in(field: &[u8]) -> Option<&[u8]>
    ensures { option_copied result ≡ padded_in field.now }
{
    let (name, rest) = split_at_first(0, field);
    if field.len() == PADDED_LENGTH && is_zero(rest) {
        Some(name)
    } else {
        None
    }
}

/// Whether all bytes are zero.
pub(crate) fn is_zero(bytes: &[u8]) -> bool
    ensures { result ≡ list_all is_zero bytes.now }
{
    bytes.iter().all(|b| *b == 0)
}
