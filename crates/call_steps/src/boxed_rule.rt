ghost use Rattle.std.specs.Prelude.{◌≡◌, IfOk};

use inode_events::Rule;
use std::alloc::{AllocError as OutOfMemory, Global};
use std::marker::Model;

/// A rule on the heap, so that calls which append none stay small. Contracts see the rule.
pub struct BoxedRule {
    rule: Box<Rule>,
}

// Written out, so that the drop is proved here once, and not again in each crate above.
impl Drop for BoxedRule {
    fn drop(self) {
        let BoxedRule { rule: _ } = self;
    }
}

impl Model for BoxedRule {
    ghost use Rattle.inode_events.specs.policy.RuleValue.{RuleValue};

    ghost Value = { RuleValue };

    ghost view = { λ b. b.rule.value };
}

impl BoxedRule {
    /// Moves a rule to the heap.
    pub fn new(alloc: Global, rule: Rule) -> Result<BoxedRule, OutOfMemory>
        ensures { IfOk result (λ b. b ≡ rule) }
    {
        let rule = Box::new(alloc, rule)?;
        Ok(BoxedRule { rule })
    }

    /// Borrows the rule from the heap.
    pub fn get(&self) -> &Rule
        ensures { result.now ≡ self.now }
    {
        &*self.rule
    }
}
