ghost use Rattle.std.specs.Prelude.{◌≡◌, Some};
ghost use Rattle.script_words.specs.declared.fault.LineErr.TheVariants as line;
ghost use Rattle.script_words.specs.declared.fault.ScriptErr.TheVariants.{OutOfMemory};
ghost use Rattle.script_words.specs.Causes.{cause_text, cause_word};
ghost use Rattle.script_words.specs.Gives.{err_at};

use policy_text::RuleCause;
use std::alloc::{AllocError as OutOfMemory, AllocFailed};
use std::fmt::{self, Display};

/// Why a line is refused. If several causes hold of a line, the first in this order is reported.
#[derive(Clone, Copy, Debug, PartialEq, Eq)]
pub enum LineCause {
    /// The first word is none of the grammar's.
    BadWord,
    /// A line of this kind can't follow the lines before it.
    OutOfPlace,
    /// The line has the wrong number of words, or a word of the wrong form.
    BadField,
    /// There is no such path, file system or task.
    Unknown,
    /// A path, or a name within a file's block, occurs a second time.
    Twice,
    /// The text after the first word isn't a rule.
    BadRule(RuleCause),
    /// A count exceeds its limit at this line.
    TooMany,
    /// The total length of the values up to this line exceeds its limit.
    TooLarge,
    /// There are bytes after the last newline, or no line ends the text.
    NoEnd,
    /// The list of EVM's names was locked by an earlier line.
    Locked,
}

impl LineCause {
    /// The word of the cause. A rule's own cause has a word of its own, which is printed after it.
    pub fn word(self) -> &'static str
        ensures { result.now ≡ cause_word self }
    {
        match self {
            LineCause::BadWord => "bad-word",
            LineCause::OutOfPlace => "out-of-place",
            LineCause::BadField => "bad-field",
            LineCause::Unknown => "unknown",
            LineCause::Twice => "twice",
            LineCause::BadRule(_) => "bad-rule",
            LineCause::TooMany => "too-many",
            LineCause::TooLarge => "too-large",
            LineCause::NoEnd => "no-end",
            LineCause::Locked => "locked",
        }
    }
}

impl Display for LineCause {
    ghost output = { λ c. Some (cause_text c) };

    fn fmt<W: fmt::Write>(&self, f: &mut fmt::Formatter<W>) -> fmt::Result {
        match self {
            LineCause::BadRule(cause) => write!(f, "bad-rule {}", cause.word()),
            cause => f.write_str(cause.word()),
        }
    }
}

/// The first bad line of a text, and why it is refused. The cause is of the grammar's own kind;
/// most grammars have no other causes than [`LineCause`].
#[derive(Clone, Copy, Debug, PartialEq, Eq)]
pub struct Fault<C = LineCause> {
    /// The number of the line, counted from 1; skipped lines count too.
    pub line: u32,
    /// Why the line is refused.
    pub cause: C,
}

/// Why reading a text failed.
#[derive(Clone, Copy, Debug, PartialEq, Eq)]
pub enum ScriptErr<C = LineCause> {
    /// The text isn't in the grammar.
    Refused(Fault<C>),
    /// Memory ran out.
    OutOfMemory,
}

impl<C> From<OutOfMemory> for ScriptErr<C> {
    ghost from_gives = { λ _ e. e ≡ OutOfMemory };

    fn from(_e: OutOfMemory) -> ScriptErr<C> {
        ScriptErr::OutOfMemory
    }
}

/// Why reading a line failed, before the line's number is known.
#[derive(Clone, Copy, Debug, PartialEq, Eq)]
pub enum LineErr<C = LineCause> {
    /// The line isn't in the grammar.
    Refused(C),
    /// Memory ran out.
    OutOfMemory,
}

impl<C> LineErr<C> {
    /// The error of a text whose line of this number has this error.
    pub fn at(self, line: u32) -> ScriptErr<C>
        ensures { result ≡ err_at line self }
    {
        match self {
            LineErr::Refused(cause) => ScriptErr::Refused(Fault { line, cause }),
            LineErr::OutOfMemory => ScriptErr::OutOfMemory,
        }
    }
}

impl From<LineCause> for LineErr {
    ghost from_gives = { λ cause e. e ≡ line.Refused cause };

    fn from(cause: LineCause) -> LineErr {
        LineErr::Refused(cause)
    }
}

impl<C> From<OutOfMemory> for LineErr<C> {
    ghost from_gives = { λ _ e. e ≡ line.OutOfMemory };

    fn from(_e: OutOfMemory) -> LineErr<C> {
        LineErr::OutOfMemory
    }
}

impl<T: Drop, C> From<AllocFailed<T>> for LineErr<C> {
    ghost from_gives = { λ _ e. e ≡ line.OutOfMemory };

    fn from(_e: AllocFailed<T>) -> LineErr<C> {
        LineErr::OutOfMemory
    }
}
