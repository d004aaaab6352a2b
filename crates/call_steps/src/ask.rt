use inode_events::{Func, Slot};

/// The next step of a call: the event to make, or none. The event's other fields come from the
/// call, from the file that it uses, from the task's credentials and from the rules.
#[derive(Clone, Copy, PartialEq, Eq)]
pub enum Ask {
    /// Count a file, for an open or an execution.
    Count,
    /// Ask the rules about an access.
    Check { func: Func, mask: u8 },
    /// Ask for the digest in force, for the check in this slot.
    Take { slot: Slot },
    /// Take the next piece into the collection of a take.
    Chunk,
    /// End the collection of a take.
    Finish,
    /// Read at most `len` bytes, starting at the byte `from`.
    Read { from: u64, len: u64 },
    /// Write the bytes that the call gives.
    Write,
    /// Set the length of the content, adding zeros if it was shorter.
    Trunc { len: u64 },
    /// Set or remove the attribute that the call names.
    SetAttr,
    /// Change the mode, or the owner and group.
    SetMeta,
    /// Drop a file that isn't open for writing.
    Close,
    /// Begin the close of a file that is open for writing.
    CloseTake,
    /// Take the next piece into the collection of a close.
    CloseChunk,
    /// End the collection of a close, and drop the file.
    CloseFinish,
    /// No event on an inode.
    Plain,
}
