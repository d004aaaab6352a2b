ghost use Rattle.std.specs.Prelude.{◌≡◌};
ghost use Rattle.call_steps.specs.Steps.{reply_of};

use inode_events::labels::Cause;
use inode_events::{EvmStatus, Sha256Digest, Told};

/// The reply to a call.
#[derive(Clone, Copy, PartialEq, Eq)]
pub enum Reply {
    /// The call was done.
    Done,
    /// This number of bytes was read; `digest` is their SHA-256.
    Bytes { n: u32, digest: Sha256Digest },
    /// The file is absent (`ENOENT`).
    NotFound,
    /// The descriptor, map or run isn't there, has the wrong mode, or would be made although it
    /// exists (`EBADF`).
    BadFile,
    /// A writer meets an execution, or an execution a writer (`ETXTBSY`).
    TextBusy,
    /// The file would end above the limit (`EFBIG`).
    TooBig,
    /// The attribute's value is above 4,096 bytes (`E2BIG`).
    TooLong,
    /// There is no such attribute to remove (`ENODATA`).
    NoData,
    /// A value of `security.ima` that isn't a label (`EINVAL`).
    Invalid,
    /// The attribute is `security.evm` (`EPERM`).
    EvmName,
    /// The right to administer is needed (`EPERM`).
    NotAdmin,
    /// EVM forbids the change (`EPERM`), because of this status of the inode.
    Status(EvmStatus),
    /// Appraisal refuses the file (`EACCES`), for this cause.
    Denied(Cause),
}

impl Reply {
    /// The reply for the outcome of a call's only event.
    pub fn of(told: &Told) -> Reply
        ensures { result ≡ reply_of told.now }
    {
        match told {
            Told::Read { n, digest } => Reply::Bytes {
                n: *n,
                digest: *digest,
            },
            Told::NotFound => Reply::NotFound,
            Told::TextBusy => Reply::TextBusy,
            Told::TooBig => Reply::TooBig,
            Told::TooLong => Reply::TooLong,
            Told::NoData => Reply::NoData,
            Told::Invalid => Reply::Invalid,
            Told::EvmName => Reply::EvmName,
            Told::NotAdmin => Reply::NotAdmin,
            Told::Status(status) => Reply::Status(*status),
            _ => Reply::Done,
        }
    }
}
