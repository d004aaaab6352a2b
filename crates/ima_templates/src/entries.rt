// The construction of entries for measurements and violations.

ghost use Rattle.std.specs.Prelude.{◌≡◌, ◌≢◌, ◌<◌, ◌≤◌, IfOk, length};
ghost use Rattle.ima_templates.specs.Entries.{entry_of, violation_of};
ghost use Rattle.ima_templates.specs.EntryValue.{all_fields};
ghost use Rattle.ima_templates.specs.IsEntry.{IsEntry};
ghost use Rattle.ima_templates.specs.Path.{IsMeasuredPath};
ghost use Rattle.xattr_store.specs.Attrs.{most_value};

use crate::entry::Entry;
use crate::shown::{shown_digest, shown_name, shown_sig};
use hash_algos::{Algo, Digest};
use inode_meta::{DEFAULT_PCR, Template};
use std::alloc::{AllocError as OutOfMemory, Global};
use xattr_store::Bytes;

/// The entry of a file or buffer in this register: `file` is the digest by the collection's
/// algorithm, `sha1` the SHA-1 digest, and `sig` the signature in `security.ima` or, under
/// `ima-buf`, the buffer. The entry shows the parts that its template has fields for.
pub fn build(
    alloc: Global,
    pcr: u8,
    template: Template,
    file: &Digest,
    sha1: &Digest,
    path: &[u8],
    sig: &[u8],
) -> Result<Entry, OutOfMemory>
    requires pcr { pcr < 24 }
    requires sha1 { sha1.now.algo ≡ Algo.Sha1 }
    requires path { IsMeasuredPath template path.now }
    requires sig { length sig.now ≤ most_value }
    ensures { IfOk result (λ e. e ≡ entry_of pcr template file.now sha1.now path.now sig.now) }
{
    let digest = shown_digest(template, file, sha1);
    let name = Bytes::from_slice(alloc, shown_name(template, path))?;
    let sig = Bytes::from_slice(alloc, shown_sig(template, sig))?;
    Entry::of_fields(pcr, template, digest, name, sig)
}

/// The violation of a file, under the default template and with zeros for a digest by the default
/// algorithm. It always extends the default register, whatever a rule says.
pub fn violation(
    alloc: Global,
    template: Template,
    default: Algo,
    path: &[u8],
) -> Result<Entry, OutOfMemory>
    requires template { template ≢ Template.ImaBuf }
    requires path { IsMeasuredPath template path.now }
    ensures { IfOk result (λ e. e ≡ violation_of template default path.now) }
{
    let zeros = Digest::zeros(default);
    Ok(Entry {
        pcr: DEFAULT_PCR,
        template,
        digest: shown_digest(template, &zeros, &Digest::zeros(Algo::Sha1)),
        name: Bytes::from_slice(alloc, shown_name(template, path))?,
        sig: Bytes::from_slice(alloc, &[])?,
        violation: true,
        sha1: [0; 20],
        sha256: [0; 32],
    })
}

/// The entry with these fields, such as one that an earlier boot added to its list. Unlike
/// [`build`] and [`violation`], which take a path, it takes the name as the entry shows it, so
/// every entry can be made.
pub fn restore(
    pcr: u8,
    template: Template,
    digest: Digest,
    name: Bytes,
    sig: Bytes,
    violation: bool,
) -> Result<Entry, OutOfMemory>
    requires { IsEntry (all_fields pcr template digest name sig violation) }
    ensures { IfOk result (λ e. e ≡ all_fields pcr template digest name sig violation) }
{
    if !violation {
        return Entry::of_fields(pcr, template, digest, name, sig);
    }
    Ok(Entry {
        pcr,
        template,
        digest,
        name,
        sig,
        violation: true,
        sha1: [0; 20],
        sha256: [0; 32],
    })
}
