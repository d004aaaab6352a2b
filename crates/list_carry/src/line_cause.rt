// The causes for which a line of a carry text is refused.

ghost use Rattle.std.specs.Prelude.{◌≡◌, Some};
ghost use Rattle.list_carry.specs.Grammar.{line_text};

use carry_form::CarryCause;
use script_words::{Fault, LineCause, LineErr, ScriptErr};
use std::fmt::{self, Display};

/// Why a line of a carry text is refused: for a cause that other texts have too, or, if none of
/// those holds, since its value isn't the carried form of a list.
#[derive(Clone, Copy, Debug, PartialEq, Eq)]
pub enum CarryLine {
    /// The line isn't in the grammar.
    Line(LineCause),
    /// The value of the line `carried` is refused by [`crate::load`].
    Carried(CarryCause),
}

impl Display for CarryLine {
    ghost output = { λ c. Some (line_text c) };

    fn fmt<W: fmt::Write>(&self, f: &mut fmt::Formatter<W>) -> fmt::Result {
        match self {
            CarryLine::Line(cause) => write!(f, "{cause}"),
            CarryLine::Carried(cause) => write!(f, "bad-carried {}", cause.word()),
        }
    }
}

/// The first bad line of a carry text, and why it is refused.
pub type CarryFault = Fault<CarryLine>;

/// Why reading a carry text failed.
pub type CarryTextErr = ScriptErr<CarryLine>;

/// Why reading a line of a carry text failed.
pub(crate) type CarryLineErr = LineErr<CarryLine>;
