ghost use Rattle.std.specs.Prelude.{◌≡◌, Option};
ghost use Rattle.std.specs.Option.{option_copied};
ghost use Rattle.policy_rules.specs.RuleValue.{RuleValue};
ghost use Rattle.rule_match.specs.Decision.{action_of};
ghost use Rattle.rule_match.specs.Deciders.{after_line, carried_at, decided_with, is_complete};

use crate::conditions::matches;
use crate::family::{Family, is_done};
use policy_rules::meta::DEFAULT_PCR;
use policy_rules::{Access, Act, Action, Rule};

/// For each family, the index of the line that decides on an access, counted from 0, if one was
/// found.
#[derive(Clone, Copy)]
pub struct Deciders {
    /// The line that decides between `measure` and `dont_measure`.
    pub measuring: Option<usize>,
    /// The line that decides between `appraise` and `dont_appraise`.
    pub appraising: Option<usize>,
    /// The line that decides between `audit` and `dont_audit`.
    pub auditing: Option<usize>,
    /// The line that decides between `hash` and `dont_hash`.
    pub hashing: Option<usize>,
}

impl Deciders {
    /// The state before the first line: no family is decided.
    pub fn none() -> Deciders
        ensures { result
            ≡ record { measuring = None; appraising = None; auditing = None; hashing = None } }
    {
        Deciders {
            measuring: None,
            appraising: None,
            auditing: None,
            hashing: None,
        }
    }

    /// The state after one more line: if its rule matches, it decides its family unless an earlier
    /// line already does.
    pub fn with(self, line: usize, rule: &Rule, a: &Access) -> Deciders
        ensures { result ≡ after_line a.now line rule.now self }
    {
        if !matches(rule, a) {
            return self;
        }
        Deciders {
            measuring: decided(self.measuring, Family::Measuring, rule.act, line),
            appraising: decided(self.appraising, Family::Appraising, rule.act, line),
            auditing: decided(self.auditing, Family::Auditing, rule.act, line),
            hashing: decided(self.hashing, Family::Hashing, rule.act, line),
        }
    }

    /// Whether all four families are decided, so that no later line matters.
    pub fn is_complete(self) -> bool
        ensures { result ≡ is_complete self }
    {
        self.measuring.is_some()
            && self.appraising.is_some()
            && self.auditing.is_some()
            && self.hashing.is_some()
    }

    /// The action that the deciding rules require.
    pub fn action(self, rules: &[Rule]) -> Action
        ensures { result ≡ action_of
            (carried_at rules.now self.measuring) (carried_at rules.now self.appraising)
            (carried_at rules.now self.auditing) (carried_at rules.now self.hashing) }
    {
        let measured = with_measure(Action::none(), carried_out(rules, self.measuring));
        let mut action = with_appraise(measured, carried_out(rules, self.appraising));
        action.audit = carried_out(rules, self.auditing).is_some();
        action.hash = carried_out(rules, self.hashing).is_some();
        action
    }
}

// Adds the measurement that the rule requires to an action without one.
fn with_measure(action: Action, rule: Option<&Rule>) -> Action
    ensures { (appraise audit hash : Option RuleValue) → action ≡ action_of None appraise audit hash
        → result ≡ action_of (option_copied rule.entry) appraise audit hash }
{
    match rule {
        Some(rule) => {
            let mut with = action;
            with.measure = true;
            with.pcr = rule.pcr.unwrap_or(DEFAULT_PCR);
            with.template = rule.template;
            with
        }
        None => action,
    }
}

// Adds the appraisal that the rule requires to an action without one.
fn with_appraise(action: Action, rule: Option<&Rule>) -> Action
    ensures { (measure audit hash : Option RuleValue) → action ≡ action_of measure None audit hash
        → result ≡ action_of measure (option_copied rule.entry) audit hash }
{
    match rule {
        Some(rule) => {
            let mut with = action;
            with.appraise = true;
            with.need = rule.need;
            with.algos = rule.algos;
            with
        }
        None => action,
    }
}

// The line that decides the family, if its rule matches with the action `act`: the earlier one if
// there is one, else this one if `act` is of the family.
fn decided(earlier: Option<usize>, family: Family, act: Act, line: usize) -> Option<usize>
    ensures { result ≡ decided_with earlier family act line }
{
    if family.has(act) {
        earlier.or(Some(line))
    } else {
        earlier
    }
}

// The rule at the index `place`, if it requires something to be done.
fn carried_out(rules: &[Rule], place: Option<usize>) -> Option<&Rule>
    ensures { option_copied result ≡ carried_at rules.now place }
{
    match rules.get(place?) {
        Some(rule) if is_done(rule.act) => Some(rule),
        _ => None,
    }
}
