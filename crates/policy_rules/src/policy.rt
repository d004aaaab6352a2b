ghost use Rattle.std.specs.Prelude.{◌≡◌, ◌<◌, ◌≤◌, [], ◌∷◌, ◌++◌, length, IfOk, OnOk, OnErr};
ghost use Rattle.policy_rules.specs.Limits.{most_rules};

use crate::rule::Rule;
use std::alloc::{AllocError as OutOfMemory, Global};
use std::marker::Model;

/// The most rules that a policy may have.
pub const RULES: usize = 1024;

const _: () = prove!(RULES == 1024);

/// A policy: at most 1,024 rules, in order. Contracts see the list of its rules.
pub struct Policy {
    rules: Vec<Rule>,
}

// Written out, so that the drop is proved here once, and not again in each crate above.
impl Drop for Policy {
    fn drop(self) {
        let Policy { rules: _ } = self;
    }
}

impl Model for Policy {
    ghost use Rattle.std.specs.Prelude.{List, ◌≤◌, length};
    ghost use Rattle.policy_rules.specs.Limits.{most_rules};
    ghost use Rattle.policy_rules.specs.RuleValue.{RuleValue};

    ghost Value = { List RuleValue };

    ghost view = { λ p. p.rules.items };

    ghost invariant = { λ p. length p.rules.items ≤ most_rules };
}

impl Policy {
    /// The empty policy, without any rule.
    pub fn new(alloc: Global) -> Policy
        ensures { result ≡ [] }
    {
        Policy {
            rules: Vec::new(alloc),
        }
    }

    /// The rules, in the order of their lines.
    pub fn rules(&self) -> &[Rule]
        ensures rules { result.now ≡ self.now }
        ensures limit { length self.now ≤ most_rules }
    {
        self.rules.as_slice()
    }

    /// Appends a rule to the policy, which has fewer than 1,024.
    pub fn push(&mut self, rule: Rule) -> Result<(), OutOfMemory>
        requires { length self.old < most_rules }
        ensures ok { OnOk result (self.new ≡ self.old ++ rule ∷ []) }
        ensures err { OnErr result (self.new ≡ self.old) }
    {
        self.rules.push(rule)?;
        Ok(())
    }

    /// The vector of the rules, without a copy.
    pub fn into_rules(self) -> Vec<Rule>
        ensures rules { result.items ≡ self }
        ensures limit { length self ≤ most_rules }
    {
        let Policy { rules } = self;
        rules
    }

    /// A copy with equal rules, in its own memory.
    pub fn copy(&self) -> Result<Policy, OutOfMemory>
        ensures { IfOk result (λ copy. copy ≡ self.now) }
    {
        let rules = copy_rules(*self.rules.allocator(), &self.rules)?;
        Ok(Policy { rules })
    }
}

// Copies of the rules, each in its own memory.
fn copy_rules(alloc: Global, rules: &[Rule]) -> Result<Vec<Rule>, OutOfMemory>
    ensures { IfOk result (λ copy. copy.items ≡ rules.now) }
{
    let mut copy = Vec::with_capacity(alloc, rules.len())?;
    for rule in rules {
        copy.push_reserved(rule.copy(alloc)?);
    }
    Ok(copy)
}
