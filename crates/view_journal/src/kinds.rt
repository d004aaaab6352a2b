// The kinds of what a picture shows.

/// What a journal says of the content.
#[derive(Clone, Copy)]
pub enum Freshness {
    /// No digest has been finished yet.
    NotHashed,
    /// The last finished digest is that of the content.
    AsHashed,
    /// Since what the last finished digest describes, a write or a truncation was done.
    Written,
}

/// A collection in progress.
#[derive(Clone, Copy)]
pub struct Collection {
    /// How many pieces of 4,096 bytes it took.
    pub pieces: u64,
    /// Whether the last piece is among them.
    pub complete: bool,
    /// Whether what it took was written to or cut off since.
    pub hit: bool,
}

/// What an event is marked with, beside its mark.
#[derive(Clone, Copy)]
pub enum Note {
    /// Time of measure, time of use: the entry of the violation.
    ToMToU(u32),
    /// Open writers: the entry of the violation.
    OpenWriters(u32),
    Denied,
    Labelled,
    Added(u32),
    Already(u32),
    Passed,
}

/// The mark of an event.
#[derive(Clone, Copy)]
pub enum Mark {
    Birth,
    Opened,
    /// A count whose file isn't held.
    NotOpened,
    Checked,
    Violated,
    Begun,
    Chunk,
    Granted,
    Refused,
    Read,
    Write,
    Trunc,
    SetAttr,
    SetMeta,
    /// A write, a truncation or a change that wasn't done.
    NotDone,
    Closed,
    /// The end of a close's collection, which drops the file.
    Finished,
}
