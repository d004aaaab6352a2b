// Entries of files and buffers whose content is `abc`, or whose digest is zeros.

use hash_algos::{Algo, Digest};
use ima_templates::{Entry, build, can_show, violation};
use inode_meta::Template;
use std::alloc::{AllocError as OutOfMemory, Global};

const ABC_SHA1: &[u8] =
    b"\xa9\x99\x3e\x36\x47\x06\x81\x6a\xba\x3e\x25\x71\x78\x50\xc2\x6c\x9c\xd0\xd8\x9d";

const ABC_SHA256: &[u8] =
    b"\xba\x78\x16\xbf\x8f\x01\xcf\xea\x41\x41\x40\xde\x5d\xae\x22\x23\xb0\x03\x61\xa3\x96\x17\x7a\x9c\xb4\x10\xff\x61\xf2\x00\x15\xad";

// The digest of `abc`, or zeros if there is no content.
fn digest(algo: Algo, content: &[u8], abc: &[u8]) -> Digest {
    if content.is_empty() {
        return Digest::zeros(algo);
    }
    Digest::from_slice(algo, abc).unwrap_or(Digest::zeros(algo))
}

/// The entry of a file or buffer whose content is `abc`, or whose digest is zeros; none, if there
/// is no such entry.
pub fn entry(
    alloc: Global,
    pcr: u8,
    template: Template,
    content: &[u8],
    path: &[u8],
    sig: &[u8],
) -> Result<Option<Entry>, OutOfMemory> {
    let file = digest(Algo::Sha256, content, ABC_SHA256);
    let sha1 = digest(Algo::Sha1, content, ABC_SHA1);
    let fits = pcr < 24 && sha1.algo() == Algo::Sha1 && sig.len() <= 4096;
    if !fits || !can_show(template, path) {
        return Ok(None);
    }
    Ok(Some(build(alloc, pcr, template, &file, &sha1, path, sig)?))
}

/// The violation of `/a`; none, if the template has none.
pub fn violation_of_a(alloc: Global, template: Template) -> Result<Option<Entry>, OutOfMemory> {
    if template == Template::ImaBuf || !can_show(template, b"/a") {
        return Ok(None);
    }
    Ok(Some(violation(alloc, template, Algo::Sha256, b"/a")?))
}
