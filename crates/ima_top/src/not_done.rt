// The reasons why a command was not done.
ghost use Rattle.std.specs.Prelude.{◌≡◌};
ghost use Rattle.ima_top.specs.declared.not_done.NotDone.TheVariants as not_done;
ghost use Rattle.ima_top.specs.NotDone.{not_done_of_read, not_done_status, not_done_line};

use crate::commands::USAGE_LINE;
use crate::status::{OUT_OF_MEMORY, READ_FAULT, REFUSED, STUCK, TOO_LONG, USAGE, WRITE_FAULT};
use ima_io::{Failed, ReadErr};
use std::alloc::{AllocError as OutOfMemory, AllocFailed};

/// Why a command was not done: one variant for each status but `DONE`. A command itself returns
/// only `Refused` and `OutOfMemory`. The other variants are those of the call around it, and
/// replace `ReadErr` and `Failed`, which say only that reading or writing failed.
#[derive(Debug, Drop)]
pub enum NotDone {
    /// The words don't name a command.
    Usage,
    /// The input isn't in the command's grammar. The line names the first fault.
    Refused(Vec<u8>),
    /// The output was written, but the run that it reports is stuck.
    Stuck,
    /// The source failed.
    ReadFault,
    /// The sink of the output failed.
    WriteFault,
    /// The input is longer than an input may be.
    TooLong,
    /// Memory ran out.
    OutOfMemory,
}

impl From<OutOfMemory> for NotDone {
    ghost from_gives = { λ _ why. why ≡ not_done.OutOfMemory };

    fn from(_error: OutOfMemory) -> NotDone {
        NotDone::OutOfMemory
    }
}

impl From<ReadErr> for NotDone {
    ghost from_gives = { λ error why. why ≡ not_done_of_read error };

    fn from(error: ReadErr) -> NotDone {
        match error {
            ReadErr::Fault => NotDone::ReadFault,
            ReadErr::TooLong => NotDone::TooLong,
            ReadErr::OutOfMemory => NotDone::OutOfMemory,
        }
    }
}

impl From<Failed> for NotDone {
    ghost from_gives = { λ _ why. why ≡ not_done.WriteFault };

    fn from(_failed: Failed) -> NotDone {
        NotDone::WriteFault
    }
}

impl NotDone {
    /// The exit status of the program, from 1 to 7.
    pub fn status(&self) -> u8
        ensures { result ≡ not_done_status self.now }
    {
        match self {
            NotDone::Usage => USAGE,
            NotDone::Refused(_) => REFUSED,
            NotDone::Stuck => STUCK,
            NotDone::ReadFault => READ_FAULT,
            NotDone::WriteFault => WRITE_FAULT,
            NotDone::TooLong => TOO_LONG,
            NotDone::OutOfMemory => OUT_OF_MEMORY,
        }
    }

    /// The line for the note, which ends in a newline.
    pub fn line(&self) -> &[u8]
        ensures { result.now ≡ not_done_line self.now }
    {
        match self {
            NotDone::Usage => USAGE_LINE,
            NotDone::Refused(line) => line.as_slice(),
            NotDone::Stuck => b"stuck\n",
            NotDone::ReadFault => b"read fault\n",
            NotDone::WriteFault => b"write fault\n",
            NotDone::TooLong => b"input too long\n",
            NotDone::OutOfMemory => b"out of memory\n",
        }
    }
}
