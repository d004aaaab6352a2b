ghost use Rattle.std.specs.Prelude.{◌≡◌};
ghost use Rattle.inode_events.specs.State.{changed};

use crate::boxed_bytes::BoxedBytes;
use crate::boxed_value::BoxedValue;
use inode_meta::Meta;
use policy_rules::{Action, Func};

/// How a file is opened, which determines the counts that it raises.
#[derive(Clone, Copy, PartialEq, Eq)]
pub enum How {
    /// Opened for reading only, and counted as a reader. With `create`, an absent file is created.
    Read { create: bool },
    /// Opened for writing, and with `read` for reading too. Counted as a writer but not as a
    /// reader.
    Write { read: bool, create: bool },
    /// Executed, and counted as a reader and as an execution.
    Exec,
}

/// A change of an inode's metadata.
#[derive(Clone, Copy)]
pub enum Change {
    /// A new mode, as `chmod` sets it.
    Mode(u16),
    /// A new owner and group, as `chown` sets them.
    Owner { uid: u32, gid: u32 },
}

/// The metadata with a new mode, or a new owner and group.
pub fn changed(change: Change, meta: Meta) -> Meta
    ensures { result ≡ changed change meta }
{
    match change {
        Change::Mode(mode) => Meta { mode, ..meta },
        Change::Owner { uid, gid } => Meta { uid, gid, ..meta },
    }
}

/// The action of a step. A `file` is an open file of the inode, identified by the index of its
/// `Count` in the journal.
#[derive(Drop)]
pub enum Deed {
    /// The inode is created as its script describes it: the first event of each journal.
    Birth,
    /// An open or an exec counts its file.
    Count {
        how: How,
    },
    /// The policy is consulted for an access by the hook `func`, and the rules give the action.
    /// `rules` is the number of rules in force at this decision.
    Check {
        file: u64,
        func: Func,
        action: Action,
        rules: u64,
    },
    /// The digest in force is requested. If none is in force, a collection begins.
    Take {
        file: u64,
    },
    /// The collection of a take hashes its next 4,096 bytes.
    Chunk {
        file: u64,
    },
    /// The collection of a take ends, and its digest comes into force.
    Finish {
        file: u64,
    },
    /// At most `len` bytes are read, from the offset `from` on.
    Read {
        file: u64,
        from: u64,
        len: u64,
    },
    /// Bytes are written, from the offset `from` on.
    Write {
        file: u64,
        from: u64,
        bytes: BoxedBytes,
    },
    /// The content is truncated to `len` bytes, or extended by zeros.
    Trunc {
        file: u64,
        len: u64,
    },
    /// An extended attribute is set, or removed if there is no value. `admin` is whether the task
    /// has `CAP_SYS_ADMIN`.
    SetAttr {
        name: BoxedBytes,
        value: BoxedValue,
        admin: bool,
    },
    /// The mode or the owner is changed.
    SetMeta {
        change: Change,
    },
    /// A file that isn't open for writing is closed.
    Close {
        file: u64,
    },
    /// A writer's close begins. The last writer collects the content if a label is due; any other
    /// writer is dropped.
    CloseTake {
        file: u64,
    },
    /// The collection of a close hashes its next 4,096 bytes.
    CloseChunk {
        file: u64,
    },
    /// The collection of a close ends: the label is written if its writer is still the last one,
    /// and the writer is dropped.
    CloseFinish {
        file: u64,
    },
    /// A semaphore is incremented. The event is in the journal of the semaphores, not in an
    /// inode's.
    Post(u8),
    /// A semaphore is decremented. The event is in the journal of the semaphores, not in an
    /// inode's.
    Wait(u8),
}
