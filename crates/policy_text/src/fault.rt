ghost use Rattle.std.specs.Prelude.{◌≡◌};
ghost use Rattle.policy_text.specs.declared.fault.LineErr.TheVariants as line;
ghost use Rattle.policy_text.specs.declared.fault.PolicyErr.TheVariants.{OutOfMemory};
ghost use Rattle.policy_text.specs.Gives.{err_at};
ghost use Rattle.policy_text.specs.Spelling.{cause_word};

use std::alloc::{AllocError as OutOfMemory, AllocFailed};

/// Why a line isn't a rule. The tokens of a line are checked from left to right, and the first bad
/// token gives the cause.
#[derive(Clone, Copy, Debug, PartialEq, Eq)]
pub enum RuleCause {
    /// The first token is none of the eight actions.
    BadAction,
    /// The token doesn't begin with a key; for an id key, its sign is a part of that beginning.
    BadKey,
    /// The line already has this key. An id key counts as one key, whatever sign follows it.
    Twice,
    /// The value doesn't have the form that its key requires.
    BadValue,
    /// Rules with the line's action can't have the key.
    NotForAction,
    /// The kernel knows the key or the value, but it isn't supported here.
    Unsupported,
    /// The line is a rule, but the policy already has 1,024.
    TooMany,
}

impl RuleCause {
    /// The word of the cause in messages, for example `twice`.
    pub fn word(self) -> &'static str
        ensures { result.now ≡ cause_word self }
    {
        match self {
            RuleCause::BadAction => "bad-action",
            RuleCause::BadKey => "bad-key",
            RuleCause::Twice => "twice",
            RuleCause::BadValue => "bad-value",
            RuleCause::NotForAction => "not-for-action",
            RuleCause::Unsupported => "unsupported",
            RuleCause::TooMany => "too-many",
        }
    }
}

/// The first bad line of a text, and its cause.
#[derive(Clone, Copy, Debug, PartialEq, Eq)]
pub struct Fault {
    /// The number of the line, counted from 1, including blank lines and comments.
    pub line: u32,
    /// Why the line isn't a rule.
    pub cause: RuleCause,
}

/// Why a text gave no policy.
#[derive(Clone, Copy, Debug, PartialEq, Eq)]
pub enum PolicyErr {
    /// The text doesn't conform to the grammar.
    Refused(Fault),
    /// Memory ran out.
    OutOfMemory,
}

impl From<OutOfMemory> for PolicyErr {
    ghost from_gives = { λ _ e. e ≡ OutOfMemory };

    fn from(_e: OutOfMemory) -> PolicyErr {
        PolicyErr::OutOfMemory
    }
}

impl<T: Drop> From<AllocFailed<T>> for PolicyErr {
    ghost from_gives = { λ _ e. e ≡ OutOfMemory };

    fn from(_e: AllocFailed<T>) -> PolicyErr {
        PolicyErr::OutOfMemory
    }
}

/// Why a line gave no rule, before the line's number is known.
#[derive(Clone, Copy)]
pub enum LineErr {
    /// The line doesn't conform to the grammar.
    Refused(RuleCause),
    /// Memory ran out.
    OutOfMemory,
}

impl LineErr {
    /// The error of the text whose line number `line` has this error.
    pub fn at(self, line: u32) -> PolicyErr
        ensures { result ≡ err_at line self }
    {
        match self {
            LineErr::Refused(cause) => PolicyErr::Refused(Fault { line, cause }),
            LineErr::OutOfMemory => PolicyErr::OutOfMemory,
        }
    }
}

impl From<RuleCause> for LineErr {
    ghost from_gives = { λ cause e. e ≡ line.Refused cause };

    fn from(cause: RuleCause) -> LineErr {
        LineErr::Refused(cause)
    }
}

impl From<OutOfMemory> for LineErr {
    ghost from_gives = { λ _ e. e ≡ line.OutOfMemory };

    fn from(_e: OutOfMemory) -> LineErr {
        LineErr::OutOfMemory
    }
}
