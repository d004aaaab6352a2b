use crate::told::Event;
use hash_algos::Digest;
use std::marker::Model;
use xattr_store::{Attrs, Bytes};

/// An inode at the end of a run: its journal, and the state that follows from the journal.
/// Contracts see the record of its fields, with the journal as a list.
#[derive(Drop)]
pub struct EndedInode {
    /// The path of the inode, by which scripts name it.
    pub path: Bytes,
    /// The events of the inode, oldest first.
    pub journal: Vec<Event>,
    /// The digest in force, if there is one, by the algorithm that was chosen for it.
    pub force: Option<Digest>,
    /// The extended attributes, in byte order of their names.
    pub attrs: Attrs,
    /// The number of files that are open for writing.
    pub writers: u64,
    /// The number of files that are open for reading only, including the executions.
    pub readers: u64,
    /// The number of executions.
    pub execs: u64,
}

impl Model for EndedInode {
    ghost use Rattle.inode_events.specs.EndedInode.{EndedInodeValue};

    ghost Value = { EndedInodeValue };

    ghost view = { λ e. record {
      path = e.path;
      journal = e.journal.items;
      force = e.force;
      attrs = e.attrs;
      writers = e.writers;
      readers = e.readers;
      execs = e.execs;
    } };
}
