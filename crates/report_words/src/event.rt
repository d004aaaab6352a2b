// Events as a reader of a report keeps them.

use inode_meta::Who;

/// A line of the text, without its newline: the index of its first byte, and its length.
#[derive(Clone, Copy)]
pub struct Span {
    pub at: u32,
    pub len: u32,
}

/// How a count opens its file.
#[derive(Clone, Copy)]
pub enum Kind {
    /// `r`, a reader.
    Read,
    /// `w`, a writer.
    Write,
    /// `rw`, a writer, which may read too.
    ReadWrite,
    /// `x`, a reader and an execution.
    Exec,
}

/// The deed of an event line. A `file` is the place of the count that opened the file. The words
/// that aren't kept are in the line.
#[derive(Clone, Copy)]
pub enum Deed {
    Birth,
    Count { kind: Kind, create: bool },
    Check(u32),
    Take(u32),
    Chunk(u32),
    Finish(u32),
    Read { file: u32, from: u32, len: u32 },
    Write { file: u32, from: u32, len: u32 },
    Trunc { file: u32, len: u32 },
    SetAttr,
    RemoveAttr,
    SetMeta,
    Close(u32),
    CloseTake(u32),
    CloseChunk(u32),
    CloseFinish(u32),
}

/// What a grant says of the measurement list.
#[derive(Clone, Copy)]
pub enum Placed {
    /// Nothing: it names no entry.
    NotMeasured,
    Added,
    Already,
}

/// The verdict of a grant. The cause of a denial is in the line.
#[derive(Clone, Copy)]
pub enum Verdict {
    /// The line has none.
    NotAppraised,
    Pass,
    Deny,
}

/// A grant.
#[derive(Clone, Copy)]
pub struct Grant {
    /// The place of the entry that it names, or 0 if it names none.
    pub entry: u32,
    pub placed: Placed,
    pub verdict: Verdict,
    pub admitted: bool,
    pub labelled: bool,
}

/// The outcome of an event line. The status of an attribute's change is in the line.
#[derive(Clone, Copy)]
pub enum Outcome {
    /// Of a birth, whose line has no outcome.
    Born,
    Held,
    NotFound,
    TextBusy,
    Quiet,
    OpenWriters(u32),
    ToMToU(u32),
    Begun,
    Granted(Grant),
    More,
    Last,
    /// The number of bytes that were read.
    Bytes(u32),
    Done,
    TooBig,
    EvmName,
    NotAdmin,
    TooLong,
    Invalid,
    NoData,
    Status,
    Dropped,
    LabelledDropped,
}

/// An event, with its line.
#[derive(Clone, Copy)]
pub struct Event {
    pub line: Span,
    /// All zeros for a birth.
    pub who: Who,
    pub deed: Deed,
    pub outcome: Outcome,
}

// A report has an event in about 60 bytes of its text, so their size is most of what it takes.
const _: () = prove!(size_of::<Event>() == 48);
