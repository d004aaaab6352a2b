ghost use Rattle.std.specs.Prelude.{◌≡◌};
ghost use Rattle.call_steps.specs.Steps.{check, course_of, how_of, purpose_of, purpose_of_open, take};

use crate::ask::Ask;
use crate::call::Call;
use inode_events::{How, Purpose};

/// The course of a call's steps. A call that makes a check goes on by the check's answer.
#[derive(Clone, Copy)]
pub enum Course {
    /// Open a file, and truncate it if `trunc` is set.
    Open { how: How, trunc: bool },
    /// Map a file for execution.
    Mmap,
    /// Execute a file.
    Exec,
    /// Read a module into the kernel.
    Module,
    /// Read a firmware file into the kernel.
    Firmware,
    /// Make no check.
    Other,
}

impl Course {
    /// The course that a call takes.
    pub fn of(call: &Call) -> Course
        ensures { result ≡ course_of call.now }
    {
        match call {
            Call::Open { how, trunc, .. } => Course::Open {
                how: *how,
                trunc: *trunc,
            },
            Call::Mmap { .. } => Course::Mmap,
            Call::Exec { .. } => Course::Exec,
            Call::Module { .. } => Course::Module,
            Call::Firmware { .. } => Course::Firmware,
            _ => Course::Other,
        }
    }

    /// How the call's file is counted.
    pub fn how(self) -> How
        ensures { result ≡ how_of self }
    {
        match self {
            Course::Open { how, .. } => how,
            _ => How::Exec,
        }
    }

    fn purpose(self) -> Purpose
        ensures { result ≡ purpose_of self }
    {
        match self {
            Course::Open { how, .. } => purpose_of_open(how),
            Course::Mmap => Purpose::Map,
            Course::Exec => Purpose::Exec,
            Course::Module => Purpose::Module,
            Course::Firmware => Purpose::Firmware,
            Course::Other => Purpose::Read,
        }
    }

    /// The step that checks the call's access.
    pub fn check(self) -> Ask
        ensures { result ≡ check self }
    {
        let purpose = self.purpose();
        Ask::Check {
            func: purpose.func(),
            mask: purpose.mask(),
        }
    }

    /// The take that follows the check, in the slot of the check's function.
    pub fn take(self) -> Ask
        ensures { result ≡ take self }
    {
        Ask::Take {
            slot: self.purpose().func().slot(),
        }
    }
}

fn purpose_of_open(how: How) -> Purpose
    ensures { result ≡ purpose_of_open how }
{
    match how {
        How::Write { read: true, .. } => Purpose::ReadWrite,
        How::Write { read: false, .. } => Purpose::Write,
        _ => Purpose::Read,
    }
}
