ghost use Rattle.std.specs.Prelude.{◌≡◌};
ghost use Rattle.rule_match.specs.Decision.{is_of, is_done};

use policy_rules::Act;

/// A family of actions: to do a thing with an access, and not to do it.
#[derive(Clone, Copy, PartialEq, Eq)]
pub enum Family {
    /// The actions `measure` and `dont_measure`.
    Measuring,
    /// The actions `appraise` and `dont_appraise`.
    Appraising,
    /// The actions `audit` and `dont_audit`.
    Auditing,
    /// The actions `hash` and `dont_hash`.
    Hashing,
}

impl Family {
    /// Whether the action belongs to the family.
    pub fn has(self, act: Act) -> bool
        ensures { result ≡ is_of self act }
    {
        match act {
            Act::Measure | Act::DontMeasure => self == Family::Measuring,
            Act::Appraise | Act::DontAppraise => self == Family::Appraising,
            Act::Audit | Act::DontAudit => self == Family::Auditing,
            Act::Hash | Act::DontHash => self == Family::Hashing,
        }
    }
}

/// Whether the action requires something to be done: it isn't one of the `dont_` actions.
pub fn is_done(act: Act) -> bool
    ensures { result ≡ is_done act }
{
    match act {
        Act::Measure | Act::Appraise | Act::Audit | Act::Hash => true,
        Act::DontMeasure | Act::DontAppraise | Act::DontAudit | Act::DontHash => false,
    }
}
