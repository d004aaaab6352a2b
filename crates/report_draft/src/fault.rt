// Why a text isn't read.

ghost use Rattle.std.specs.Prelude.{◌≡◌};
ghost use Rattle.report_draft.specs.declared.fault.LineErr.TheVariants as line;
ghost use Rattle.report_draft.specs.Makes.{err_at};

use std::alloc::{AllocError as OutOfMemory, AllocFailed};

/// Why reading a text failed.
#[derive(Clone, Copy, Debug, PartialEq, Eq)]
pub enum ReadErr {
    /// The text isn't of as many reports as were asked for. The number of the first bad line,
    /// counted from 1; bytes after the last newline are one more line.
    Refused(u32),
    /// Memory ran out.
    OutOfMemory,
}

/// Why reading a line failed.
#[derive(Clone, Copy, Debug, PartialEq, Eq)]
pub enum LineErr {
    /// No report has this line after the lines before it.
    Refused,
    /// Memory ran out.
    OutOfMemory,
}

impl LineErr {
    /// The error of a text whose line of this number has this error.
    pub fn at(self, line: u32) -> ReadErr
        ensures { result ≡ err_at line self }
    {
        match self {
            LineErr::Refused => ReadErr::Refused(line),
            LineErr::OutOfMemory => ReadErr::OutOfMemory,
        }
    }
}

impl From<OutOfMemory> for LineErr {
    ghost from_gives = { λ _ e. e ≡ line.OutOfMemory };

    fn from(_e: OutOfMemory) -> LineErr {
        LineErr::OutOfMemory
    }
}

impl<T: Drop> From<AllocFailed<T>> for LineErr {
    ghost from_gives = { λ _ e. e ≡ line.OutOfMemory };

    fn from(_e: AllocFailed<T>) -> LineErr {
        LineErr::OutOfMemory
    }
}
