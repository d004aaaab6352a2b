ghost use Rattle.std.specs.Prelude.{◌≡◌};
ghost use Rattle.std.specs.List.{list_all};
ghost use Rattle.policy_rules.specs.Key.{row};
ghost use Rattle.rule_match.specs.Conditions.{rule_matches};

use policy_rules::{Access, Key, Rule};

/// Whether the rule matches the access: all its conditions hold. Options always hold, and so does
/// the condition of a key that the rule doesn't have.
///
/// `euid` and `egid` only compare the effective IDs. For a task that may set its IDs the kernel
/// also looks at the real and the saved ones.
pub fn matches(r: &Rule, a: &Access) -> bool
    ensures { result ≡ rule_matches r.now a.now }
{
    all_hold(&Key::ALL, r, a)
}

fn all_hold(keys: &[Key], r: &Rule, a: &Access) -> bool
    ensures { result ≡ list_all (λ k. (row k).holds r.now a.now) keys.now }
{
    keys.iter().all(|key| key.holds(r, a))
}
