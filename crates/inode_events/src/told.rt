use crate::deed::Deed;
use crate::image::BoxedImage;
use evm_verify::Evm;
use hash_algos::Sha256Digest;
use ima_templates::Placed;
use inode_meta::{EvmStatus, Who};
use label_values::Verdict;

/// The outcome of a take or finish after which a digest is in force.
#[derive(Clone, Copy)]
pub struct Grant {
    /// The outcome of adding the entry to the measurement list, if the action measures.
    pub placed: Option<Placed>,
    /// The verdict, if the action appraises and the mode isn't off.
    pub verdict: Option<Verdict>,
    /// Whether the mode admits the file.
    pub admitted: bool,
    /// Whether fix mode repaired the inode's attributes: it wrote the label and the HMAC, or the
    /// HMAC only.
    pub labelled: bool,
}

/// The outcome of a step.
#[derive(Drop)]
pub enum Told {
    /// Of a birth: the inode as its script describes it.
    Image(BoxedImage),
    /// Of a count: the file is counted.
    Held,
    /// Of a count, or of a change of attributes or metadata: the file is absent.
    NotFound,
    /// Of a count: the file can't be open for writing and executed at the same time.
    TextBusy,
    /// Of a check: there is no violation.
    Quiet,
    /// Of a check: a file to be measured has writers. The violation is at this index of the list.
    OpenWriters(u64),
    /// Of a check: a writer opens a file that has readers and was measured (time of measure, time
    /// of use). The violation is at this index of the list.
    ToMToU(u64),
    /// Of a take: a collection begins.
    Begun,
    /// Of a take or finish: a digest is in force.
    Grant(Grant),
    /// Of a chunk: there is more to hash.
    More,
    /// Of a chunk: it was the last one.
    Last,
    /// Of a read: the number of bytes, and their SHA-256 digest.
    Read { n: u32, digest: Sha256Digest },
    /// Of a write, truncation, change, post or wait: it was done.
    Done,
    /// Of a write or truncation: the file would exceed its maximum size.
    TooBig,
    /// Of a change of attributes: `security.evm` can't be changed by a call.
    EvmName,
    /// Of a change of `security.ima`: the task doesn't have `CAP_SYS_ADMIN`.
    NotAdmin,
    /// Of a change of attributes: the value has more than 4,096 bytes.
    TooLong,
    /// Of a change of `security.ima`: the value isn't a label.
    Invalid,
    /// Of a removal: there is no such attribute.
    NoData,
    /// Of a change that EVM forbids: the EVM status of the inode.
    Status(EvmStatus),
    /// Of a close: the file is dropped.
    Dropped,
    /// Of a close: the label is written, and the file is dropped.
    LabelledDropped,
    /// Of a step without an event, so it is in no journal.
    Nothing,
}

/// One event of a journal.
#[derive(Drop)]
pub struct Event {
    /// The step that made the event; all zeros for the birth.
    pub who: Who,
    /// The action of the step.
    pub deed: Deed,
    /// The outcome of the step.
    pub told: Told,
}
