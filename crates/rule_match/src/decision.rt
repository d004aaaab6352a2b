ghost use Rattle.std.specs.Prelude.{◌≡◌};
ghost use Rattle.rule_match.specs.Decision.{decide_of};

use crate::deciders::Deciders;
use policy_rules::{Access, Action, Policy};

/// The action that the policy requires for the access. In each family of actions (`measure` and
/// `dont_measure`, and so on) the first line that matches decides. A family without a matching line
/// requires nothing, and no family affects another; in the kernel, a matching `appraise` line also
/// cancels what an earlier `hash` line required.
///
/// The search ends as soon as all four families are decided.
pub fn decide(p: &Policy, a: &Access) -> Action
    ensures { result ≡ decide_of p.now a.now }
{
    let rules = p.rules();
    let mut found = Deciders::none();
    for line in 0..rules.len() {
        found = found.with(line, &rules[line], a);
        if found.is_complete() {
            return found.action(rules);
        }
    }
    found.action(rules)
}
