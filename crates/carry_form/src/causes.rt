// The causes for which bytes aren't the carried form of a list.

ghost use Rattle.std.specs.Prelude.{◌≡◌};
ghost use Rattle.carry_form.specs.declared.causes.CarryErr.TheVariants as err;
ghost use Rattle.carry_form.specs.Reading.{cause_word};

use std::alloc::AllocError as OutOfMemory;

/// Why bytes are refused. If several causes hold, the first in this order is reported.
#[derive(Clone, Copy, Debug, PartialEq, Eq)]
pub enum CarryCause {
    /// There are fewer than 24 bytes, another mark or version, or no records.
    Header,
    /// There are fewer bytes than the header states.
    Short,
    /// There are more bytes than the header states.
    Trailing,
    /// The bytes after the header aren't the records of as many valid entries as the header states.
    Record,
    /// Two of the entries are the same.
    Twice,
}

impl CarryCause {
    /// The word of the cause.
    pub fn word(self) -> &'static str
        ensures { result.now ≡ cause_word self }
    {
        match self {
            CarryCause::Header => "header",
            CarryCause::Short => "short",
            CarryCause::Trailing => "trailing",
            CarryCause::Record => "record",
            CarryCause::Twice => "twice",
        }
    }
}

/// Why reading a carried form failed.
#[derive(Clone, Copy, Debug, PartialEq, Eq)]
pub enum CarryErr {
    /// The bytes aren't the carried form of a list.
    Refused(CarryCause),
    /// Memory ran out.
    OutOfMemory,
}

impl From<CarryCause> for CarryErr {
    ghost from_gives = { λ cause e. e ≡ err.Refused cause };

    fn from(cause: CarryCause) -> CarryErr {
        CarryErr::Refused(cause)
    }
}

impl From<OutOfMemory> for CarryErr {
    ghost from_gives = { λ _ e. e ≡ err.OutOfMemory };

    fn from(_e: OutOfMemory) -> CarryErr {
        CarryErr::OutOfMemory
    }
}
