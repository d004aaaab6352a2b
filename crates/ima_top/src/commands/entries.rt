// The entries that a boot measures: the boot aggregate, and then files.
ghost use Rattle.std.specs.Prelude.{◌≡◌, ◌∷◌, IfOk, IsTrue, map};
ghost use Rattle.std.specs.List.{All};
ghost use Rattle.text_forms.specs.Paths.{is_path};
ghost use Rattle.ima_top.specs.commands.Entries.{boot_entry, file_entry};

use hash_algos::{Algo, Digest, digest_of};
use ima_templates::{Entry, build};
use inode_meta::{DEFAULT_PCR, Template};
use std::alloc::{AllocError as OutOfMemory, Global};
use xattr_store::Bytes;

/// The entry of the boot aggregate with this digest, and then those of the files. The template can
/// show each path.
pub fn entries_of(
    alloc: Global,
    boot: &Digest,
    files: &[(Bytes, Bytes)],
) -> Result<Vec<Entry>, OutOfMemory>
    requires { All (λ f. IsTrue (is_path f.0)) files.now }
    ensures { IfOk result (λ entries. entries.items
        ≡ boot_entry boot.now ∷ map file_entry files.now) }
{
    let mut entries = Vec::new(alloc);
    entries.push(boot_entry(alloc, boot)?)?;
    for file in files {
        entries.push(file_entry(alloc, file)?)?;
    }
    Ok(entries)
}

fn boot_entry(alloc: Global, boot: &Digest) -> Result<Entry, OutOfMemory>
    ensures { IfOk result (λ e. e ≡ boot_entry boot.now) }
{
    build(
        alloc,
        DEFAULT_PCR,
        Template::ImaNg,
        boot,
        &Digest::zeros(Algo::Sha1),
        b"boot_aggregate",
        &[],
    )
}

fn file_entry(alloc: Global, file: &(Bytes, Bytes)) -> Result<Entry, OutOfMemory>
    requires { IsTrue (is_path file.now.0) }
    ensures { IfOk result (λ e. e ≡ file_entry file.now) }
{
    let content = file.1.as_slice();
    let sha256 = digest_of(Algo::Sha256, content);
    let sha1 = digest_of(Algo::Sha1, content);
    build(
        alloc,
        DEFAULT_PCR,
        Template::ImaNg,
        &sha256,
        &sha1,
        file.0.as_slice(),
        &[],
    )
}
