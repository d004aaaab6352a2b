// The entries of a run of buffers.

ghost use Rattle.std.specs.Prelude.{◌≡◌, ◌<◌, true, IfOk};
ghost use Rattle.buffer_entries.specs.Entries.{boot_entry, entry_for};
ghost use Rattle.buffer_text.specs.Forms.{is_buffer};

use buffer_text::BufferBytes;
use hash_algos::{Algo, Digest, digest_of};
use ima_templates::{Entry, build, restore};
use inode_meta::{DEFAULT_PCR, Template};
use std::alloc::{AllocError as OutOfMemory, Global};
use xattr_store::Bytes;

/// The first entry of the list: a boot aggregate of zeros by this algorithm.
pub fn boot_entry(alloc: Global, hash: Algo) -> Result<Entry, OutOfMemory>
    ensures { IfOk result (λ e. e ≡ boot_entry hash) }
{
    let boot = Digest::zeros(hash);
    let sha1 = Digest::zeros(Algo::Sha1);
    build(
        alloc,
        DEFAULT_PCR,
        Template::ImaNg,
        &boot,
        &sha1,
        b"boot_aggregate",
        &[],
    )
}

/// The entry of a buffer in this register, with its digest by this algorithm. The buffer's name and
/// bytes become those of the entry, without a copy. If they aren't laid out yet, they are here.
pub fn entry_for(
    alloc: Global,
    hash: Algo,
    pcr: u8,
    line: (Bytes, BufferBytes),
) -> Result<Entry, OutOfMemory>
    requires pcr { pcr < 24 }
    requires line { is_buffer line ≡ true }
    ensures { IfOk result (λ e. e ≡ entry_for hash pcr line) }
{
    let (name, value) = line;
    let value = value.laid(alloc)?;
    let digest = digest_of(hash, value.as_slice());
    prove!(digest.as_slice().len() == digest.algo().size());
    restore(pcr, Template::ImaBuf, digest, name, value, false)
}
