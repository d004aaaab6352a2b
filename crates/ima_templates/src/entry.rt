// An entry of the measurement list.

ghost use Rattle.std.specs.Prelude.{◌≡◌, ◌↔◌, ◌^◌, ◌<◌, IfOk, IsTrue, OnOk, length};
ghost use Rattle.ima_templates.specs.Data.{template_data};

use crate::absorb::{Absorb, Count};
use crate::data::{absorb_data, sums};
use hash_algos::{Algo, Digest};
use inode_meta::{Bank, Template};
use std::alloc::AllocError as OutOfMemory;
use std::marker::Model;
use xattr_store::Bytes;

/// An entry of the measurement list. Its invariant: the register is below 24; the digest has as
/// many bytes as its algorithm, which is SHA-1 under `ima`; the name has 1 to 1,024 bytes from 0x21
/// to 0x7e, and under `ima` at most 255; `sig` has at most 4,096 bytes, and none under `ima` and
/// `ima-ng`; a violation has register 10, a digest of zeros, no `sig`, and a template other than
/// `ima-buf`. Contracts see the record of its public fields. The other fields are its template
/// digests, which are computed once, when the entry is made.
#[derive(Drop)]
pub struct Entry {
    /// The register that the entry extends.
    pub pcr: u8,
    /// The template, which determines the fields that the entry shows.
    pub template: Template,
    /// The field `d` or `d-ng`: the digest of the file or buffer.
    pub digest: Digest,
    /// The field `n` or `n-ng` without its terminating zero byte: the path, or the buffer's name.
    pub name: Bytes,
    /// The field `sig`, which is the signature in `security.ima`, or under `ima-buf` the field
    /// `buf`.
    pub sig: Bytes,
    /// Whether the entry records that a file was measured while it could change. A violation's
    /// template digest is shown as zeros, and registers are extended by 0xff bytes instead.
    pub violation: bool,
    pub(crate) sha1: [u8; 20],
    pub(crate) sha256: [u8; 32],
}

impl Model for Entry {
    ghost use Rattle.ima_templates.specs.EntryValue.{EntryValue};

    ghost Value = { EntryValue };

    ghost use Rattle.ima_templates.specs.IsEntry.{fields_of};
    ghost use Rattle.ima_templates.specs.FieldsAgree.{FieldsAgree};

    ghost view = { fields_of };

    ghost invariant = { FieldsAgree };
}

/// The outcome of adding an entry, with an index in the list, counted from 0.
#[derive(Clone, Copy)]
pub enum Placed {
    /// The entry was added at this index, as the last one.
    Added(u64),
    /// The same entry is already at this index, and nothing was added.
    Already(u64),
}

impl Entry {
    ghost use Rattle.inode_meta.specs.declared.measurement.Bank.TheVariants.{Sha1, Sha256};
    ghost use Rattle.ima_templates.specs.Digests.{extension, template_digest};
    ghost use Rattle.ima_templates.specs.EntryValue.{fields};
    ghost use Rattle.ima_templates.specs.IsEntry.{IsEntry};
    ghost use Rattle.ima_templates.specs.Same.{same, same_data, SameFields};

    /// An entry with these fields that isn't a violation, with its template digests.
    pub(crate) fn of_fields(
        pcr: u8,
        template: Template,
        digest: Digest,
        name: Bytes,
        sig: Bytes,
    ) -> Result<Entry, OutOfMemory>
        requires { IsEntry (fields pcr template digest name sig) }
        ensures { IfOk result (λ e. e ≡ fields pcr template digest name sig) }
    {
        let (sha1, sha256) = sums(template, &digest, name.as_slice(), sig.as_slice())?;
        Ok(Entry {
            pcr,
            template,
            digest,
            name,
            sig,
            violation: false,
            sha1,
            sha256,
        })
    }

    /// The template digest: the bank's hash of the template data, or zeros for a violation.
    pub fn sum(&self, bank: Bank) -> Digest
        ensures digest { result ≡ template_digest self.now bank }
        ensures entry { IsEntry self.now }
    {
        match bank {
            Bank::Sha1 => Digest::from_slice(Algo::Sha1, &self.sha1).unwrap(),
            Bank::Sha256 => Digest::from_slice(Algo::Sha256, &self.sha256).unwrap(),
        }
    }

    /// The values by which the entry extends its register in the SHA-1 bank and in the SHA-256
    /// bank: the bank's template digest, or 0xff bytes for a violation.
    pub fn extension(&self) -> ([u8; 20], [u8; 32])
        ensures sha1 { result.0 ≡ extension self.now Sha1 }
        ensures sha256 { result.1 ≡ extension self.now Sha256 }
    {
        if self.violation {
            ([0xff; 20], [0xff; 32])
        } else {
            (self.sha1, self.sha256)
        }
    }

    /// Writes the template data to `to`.
    pub fn absorb_data<S: Absorb>(&self, to: &mut S) -> Result<(), OutOfMemory>
        ensures ok { OnOk result (S.absorbs to.old to.new (template_data self.now)) }
        ensures kept { S.keeps to.old to.new }
        ensures fits { length (template_data self.now) < 2 ^ 32 }
    {
        absorb_data(
            to,
            self.template,
            &self.digest,
            self.name.as_slice(),
            self.sig.as_slice(),
        )
    }

    /// The length of the template data in bytes.
    pub fn data_length(&self) -> Result<usize, OutOfMemory>
        ensures exact { IfOk result (λ n. n ≡ length (template_data self.now)) }
        ensures fits { IfOk result (λ n. n < 2 ^ 32) }
    {
        let mut count = Count { bytes: 0 };
        self.absorb_data(&mut count)?;
        Ok(count.bytes)
    }

    /// Whether the list would treat the two as one entry, and so not add the second: they have the
    /// same register, the same template and the same template data, and neither is a violation.
    #[tactic(auto, unfolding(crate::specs::Same::same))]
    pub fn same(&self, other: &Entry) -> bool
        ensures { result ≡ same self.now other.now }
    {
        !self.violation && !other.violation && self.pcr == other.pcr && self.has_same_data(other)
    }

    // Whether the two have the same template and the same template data. Different fields never
    // give the same template data, so only the fields are compared.
    fn has_same_data(&self, other: &Entry) -> bool
        ensures { result ≡ same_data self.now other.now }
    {
        self.template == other.template && self.has_same_fields(other)
    }

    fn has_same_fields(&self, other: &Entry) -> bool
        ensures { IsTrue result ↔ SameFields self.now other.now }
    {
        self.digest == other.digest
            && self.name.as_slice() == other.name.as_slice()
            && self.sig.as_slice() == other.sig.as_slice()
    }
}
