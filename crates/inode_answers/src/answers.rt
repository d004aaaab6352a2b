// The results of the calls on an inode.
use hash_algos::{Algo, Sha256Digest};
use inode_events::Grant;
use inode_meta::EvmStatus;
use policy_rules::Action;

/// The result of counting a file.
#[derive(Clone, Copy)]
pub enum Counted {
    /// The file is counted, and named by this place of the journal.
    Held(u64),
    /// The file is absent, and the open doesn't create it.
    NotFound,
    /// A writer meets an execution, or an execution a writer.
    TextBusy,
}

/// The result of a change of attributes or metadata.
#[derive(Clone, Copy)]
pub enum Set {
    /// The change was made.
    Done,
    /// A collection is open, so nothing was done.
    Blocked,
    /// The file is absent.
    NotFound,
    /// The name is `security.evm`, which no call may change.
    EvmName,
    /// The name is `security.ima`, which only the administrator may change.
    NotAdmin,
    /// The value has more than 4,096 bytes.
    TooLong,
    /// The value isn't a label.
    Invalid,
    /// The attribute that is to be removed is absent.
    NoData,
    /// EVM forbids the change, because of this status of the inode.
    Status(EvmStatus),
}

/// The result of a write or truncation.
#[derive(Clone, Copy)]
pub enum Wrote {
    /// The content was changed.
    Done,
    /// The file would end above the size limit.
    TooBig,
}

/// The result of taking a piece into a collection.
#[derive(Clone, Copy)]
pub enum Piece {
    /// The content goes on after this piece.
    More,
    /// The content ends with this piece.
    Last,
}

/// The result of a take.
#[derive(Clone, Copy)]
pub enum Taken {
    /// No digest was in force: a collection by this algorithm begins.
    Begun(Algo),
    /// A digest was in force, and decided this grant.
    Answer(Grant),
    /// A collection is open, so nothing was done.
    Blocked,
}

/// The result of a writer's close.
#[derive(Clone, Copy)]
pub enum CloseTaken {
    /// A collection by this algorithm begins, for the label.
    Begun(Algo),
    /// The file is dropped.
    Dropped,
    /// A collection is open, so nothing was done.
    Blocked,
}

/// The violation that a check found, if any.
#[derive(Clone, Copy)]
pub enum Found {
    /// No violation.
    Quiet,
    /// The file is to be measured while it has writers. The violation is at this place of the
    /// measurement list.
    OpenWriters(u64),
    /// A writer opens a measured file that has readers. The violation is at this place of the
    /// measurement list.
    ToMToU(u64),
}

/// The result of a check.
#[derive(Drop)]
pub struct Checked {
    /// The rules' action for the access.
    pub action: Action,
    /// The violation that the check found, if any.
    pub found: Found,
}

/// The result of a read.
#[derive(Drop)]
pub struct Got {
    /// The number of bytes that were read.
    pub n: u32,
    /// The SHA-256 of those bytes.
    pub digest: Sha256Digest,
}
