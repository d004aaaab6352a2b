// The reasons why no rows were written.
ghost use Rattle.std.specs.Prelude.{◌≡◌};
ghost use Rattle.order_top.specs.NotDone.{not_done_line, not_done_of_read, not_done_status};
ghost use Rattle.order_top.specs.declared.not_done.NotDone.TheVariants as not_done;

use crate::status::{OUT_OF_MEMORY, READ_FAULT, REFUSED, TOO_LONG, TOO_MANY, USAGE, WRITE_FAULT};
use ima_io::{Failed, ReadErr};
use std::alloc::AllocError as OutOfMemory;

/// Why no rows were written: one variant for each status but `DONE`.
#[derive(Debug, Drop)]
pub enum NotDone {
    /// The words are neither none, nor a number, nor a number and first turns.
    Usage,
    /// The input isn't a script. The line names the first fault.
    Refused(Vec<u8>),
    /// There are more moments than may be met, more turns than a schedule may have, or more orders
    /// than 128 bits can count. The line says how many moments may be met.
    TooMany(Vec<u8>),
    /// The source failed.
    ReadFault,
    /// The sink of the output failed.
    WriteFault,
    /// The input is longer than an input may be.
    TooLong,
    /// Memory ran out.
    OutOfMemory,
}

impl From<OutOfMemory> for NotDone {
    ghost from_gives = { λ _ why. why ≡ not_done.OutOfMemory };

    fn from(_error: OutOfMemory) -> NotDone {
        NotDone::OutOfMemory
    }
}

impl From<ReadErr> for NotDone {
    ghost from_gives = { λ error why. why ≡ not_done_of_read error };

    fn from(error: ReadErr) -> NotDone {
        match error {
            ReadErr::Fault => NotDone::ReadFault,
            ReadErr::TooLong => NotDone::TooLong,
            ReadErr::OutOfMemory => NotDone::OutOfMemory,
        }
    }
}

impl From<Failed> for NotDone {
    ghost from_gives = { λ _ why. why ≡ not_done.WriteFault };

    fn from(_failed: Failed) -> NotDone {
        NotDone::WriteFault
    }
}

impl NotDone {
    /// The exit status of the program, from 1 to 7.
    pub fn status(&self) -> u8
        ensures { result ≡ not_done_status self.now }
    {
        match self {
            NotDone::Usage => USAGE,
            NotDone::Refused(_) => REFUSED,
            NotDone::TooMany(_) => TOO_MANY,
            NotDone::ReadFault => READ_FAULT,
            NotDone::WriteFault => WRITE_FAULT,
            NotDone::TooLong => TOO_LONG,
            NotDone::OutOfMemory => OUT_OF_MEMORY,
        }
    }

    /// The line for the note, which ends in a newline.
    pub fn line(&self) -> &[u8]
        ensures { result.now ≡ not_done_line self.now }
    {
        match self {
            NotDone::Usage => b"usage: imakern_orders [N [FIRST]]\n",
            NotDone::Refused(line) | NotDone::TooMany(line) => line.as_slice(),
            NotDone::ReadFault => b"read fault\n",
            NotDone::WriteFault => b"write fault\n",
            NotDone::TooLong => b"input too long\n",
            NotDone::OutOfMemory => b"out of memory\n",
        }
    }
}
