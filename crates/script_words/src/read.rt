ghost use Rattle.std.specs.Prelude.{◌≡◌, ◌-◌, ◌<◌, ◌^◌, length};
ghost use Rattle.script_words.specs.Gives.{Gives, LineMakes};
ghost use Rattle.script_words.specs.Read.{text_by};

use crate::fault::{Fault, LineErr, ScriptErr};
use crate::line::{cut, is_skipped};
use std::alloc::Global;

/// A state that is built line by line.
pub trait Grammar: Drop {
    ghost use Rattle.std.specs.Prelude.{ℕ, Bool, List, Result};

    /// Why a line is refused.
    type Cause: Drop;

    /// The state after a line that isn't skipped, or the first cause for which it is refused.
    ghost step: { Self → List ℕ → Result Self Self.Cause };

    /// Whether the text may end in this state.
    ghost ends: { Self → Bool };

    /// Why a text is refused that may not end where it ends.
    ghost no_end: { Self.Cause };

    /// Takes one more line, which is neither empty nor a comment. A state that refused a line must
    /// not be used any further.
    fn add_line(&mut self, alloc: Global, line: &[u8]) -> Result<(), LineErr<Self::Cause>>
        ensures { LineMakes result (step self.old line.now) self.new };

    /// Whether the text may end here.
    fn may_end(&self) -> bool
        ensures { result ≡ ends self.now };

    /// The cause for a text that may not end where it ends.
    fn no_end() -> Self::Cause
        ensures { result ≡ no_end };
}

/// The state that a text makes of `start`, or its first bad line with the first cause that holds of
/// it.
///
/// Each line ends in a newline. A text that doesn't end in one, or that may not end after its last
/// line, is refused at the number of its newlines plus one.
pub fn read_text<T: Grammar>(alloc: Global, start: T, text: &[u8]) -> Result<T, ScriptErr<T::Cause>>
    requires { length text.now < 2 ^ 32 - 1 }
    ensures { Gives result (text_by T.no_end T.step T.ends start text.now) }
{
    let mut state = start;
    let mut number = 1u32;
    let mut rest = text;
    while let Some((line, after)) = cut(rest, b'\n') {
        if !is_skipped(line) {
            match state.add_line(alloc, line) {
                Ok(()) => {}
                Err(err) => return Err(err.at(number)),
            }
        }
        number += 1;
        rest = after;
    }
    if state.may_end() && rest.is_empty() {
        Ok(state)
    } else {
        Err(ScriptErr::Refused(Fault {
            line: number,
            cause: T::no_end(),
        }))
    }
}
