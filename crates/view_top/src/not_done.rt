// The reasons why no page was written.

ghost use Rattle.std.specs.Prelude.{◌≡◌};
ghost use Rattle.view_top.specs.declared.not_done.NotDone.TheVariants as not_done;
ghost use Rattle.view_top.specs.NotDone.{not_done_of_read, not_done_status, not_done_line};

use crate::status::{NO_PLACE, OUT_OF_MEMORY, READ_FAULT, REFUSED, TOO_LONG, USAGE, WRITE_FAULT};
use ima_io::{Failed, ReadErr};
use std::alloc::AllocError as OutOfMemory;

/// Why no page was written, or not the whole of it: one variant for each status but `DONE`.
#[derive(Debug, Drop)]
pub enum NotDone {
    /// The words ask for nothing that the program has.
    Usage,
    /// The input isn't as many reports as the words ask for. The line names the first bad line.
    Refused(Vec<u8>),
    /// The report has no such inode, or its journal has no such places.
    NoPlace,
    /// The source failed.
    ReadFault,
    /// The sink of the page failed.
    WriteFault,
    /// The input is longer than an input may be.
    TooLong,
    /// Memory ran out.
    OutOfMemory,
}

impl From<OutOfMemory> for NotDone {
    ghost from_gives = { λ _ why. why ≡ not_done.OutOfMemory };

    fn from(_error: OutOfMemory) -> NotDone {
        NotDone::OutOfMemory
    }
}

impl From<ReadErr> for NotDone {
    ghost from_gives = { λ error why. why ≡ not_done_of_read error };

    fn from(error: ReadErr) -> NotDone {
        match error {
            ReadErr::Fault => NotDone::ReadFault,
            ReadErr::TooLong => NotDone::TooLong,
            ReadErr::OutOfMemory => NotDone::OutOfMemory,
        }
    }
}

impl From<Failed> for NotDone {
    ghost from_gives = { λ _ why. why ≡ not_done.WriteFault };

    fn from(_failed: Failed) -> NotDone {
        NotDone::WriteFault
    }
}

impl NotDone {
    /// The exit status of the program, from 1 to 7.
    pub fn status(&self) -> u8
        ensures { result ≡ not_done_status self.now }
    {
        match self {
            NotDone::Usage => USAGE,
            NotDone::Refused(_) => REFUSED,
            NotDone::NoPlace => NO_PLACE,
            NotDone::ReadFault => READ_FAULT,
            NotDone::WriteFault => WRITE_FAULT,
            NotDone::TooLong => TOO_LONG,
            NotDone::OutOfMemory => OUT_OF_MEMORY,
        }
    }

    /// The line for the note, which ends in a newline.
    pub fn line(&self) -> &[u8]
        ensures { result.now ≡ not_done_line self.now }
    {
        match self {
            NotDone::Usage => b"usage: imakern_view page | pair | inode I [A B] | svg I [A B]\n",
            NotDone::Refused(line) => line.as_slice(),
            NotDone::NoPlace => b"no such place\n",
            NotDone::ReadFault => b"read fault\n",
            NotDone::WriteFault => b"write fault\n",
            NotDone::TooLong => b"input too long\n",
            NotDone::OutOfMemory => b"out of memory\n",
        }
    }
}
