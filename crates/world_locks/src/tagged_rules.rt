//! The rules and their spare passes, with the invariant that they belong to the constants that `N`
//! names.

ghost use Rattle.std.specs.Prelude.{◌≡◌, IfOk, OnErr};
ghost use Rattle.policy_cell.specs.Policy.{LooksAt, in_force};
ghost use Rattle.world_close.specs.worlds.World.{AreRulesOf};
ghost use Rattle.world_locks.specs.Tagged.{AppendMet, RulesKeep, appended_in};

use crate::name::Name;
use grow_list::Pass;
use inode_events::Told;
use inode_meta::Who;
use policy_cell::matching::Index;
use policy_cell::{PolicyCell, RuleEntry};
use policy_rules::Rule;
use std::alloc::{AllocError as OutOfMemory, Global};
use std::marker::{Model, PhantomData};
use task_steps::StepResult;

/// The rules and their spare passes, with the invariant that they belong to the constants that `N`
/// names.
pub struct TaggedRules<N: Name> {
    pub(crate) rules: PolicyCell,
    spares: Vec<Pass<RuleEntry>>,
    of: PhantomData<N>,
}

// Written out, so that the drop is proved here once, and not again in each crate above.
impl<N: Name> Drop for TaggedRules<N> {
    fn drop(self) {
        let TaggedRules {
            rules: _,
            spares: _,
            of: _,
        } = self;
    }
}

impl<N: Name> Model for TaggedRules<N> {
    ghost use Rattle.policy_cell.specs.Policy.{PolicyValue};
    ghost use Rattle.world_locks.specs.Tagged.{RulesKeep};

    ghost Value = { PolicyValue };

    ghost view = { λ r. r.rules };

    ghost invariant = { λ r. RulesKeep N.consts r.rules r.spares.items };
}

impl<N: Name> TaggedRules<N> {
    /// Wraps the rules of these constants, and their spare passes.
    pub fn new(rules: PolicyCell, spares: Vec<Pass<RuleEntry>>) -> TaggedRules<N>
        requires { RulesKeep N.consts rules spares.items }
        ensures { result ≡ rules }
    {
        TaggedRules {
            rules,
            spares,
            of: PhantomData,
        }
    }

    /// Returns the rules and their spare passes.
    pub fn open(self) -> (PolicyCell, Vec<Pass<RuleEntry>>)
        ensures kept { RulesKeep N.consts result.0 result.1.items }
        ensures value { result.0 ≡ self }
    {
        let TaggedRules {
            rules,
            spares,
            of: _,
        } = self;
        (rules, spares)
    }

    /// Appends a copy of the rule to those in force.
    pub fn append(
        &mut self,
        alloc: Global,
        pass: &mut Pass<RuleEntry>,
        who: Who,
        rule: &Rule,
    ) -> Result<StepResult, OutOfMemory>
        requires name { pass.old.name ≡ N.consts.rules }
        requires number { pass.old.number ≡ who.task }
        ensures met { IfOk result (λ a. AppendMet pass.old pass.new
            (record { who = who; rule = rule.now }) a) }
        ensures err { OnErr result (pass.new ≡ pass.old) }
    {
        let place = self.rules.appended();
        appended_at(place, self.rules.append(alloc, pass, who, rule))
    }

    /// The rules in force, initial and appended.
    pub fn in_force(&self) -> &Index
        ensures kept { AreRulesOf N.consts self.now }
        ensures index { result.now ≡ in_force self.now }
    {
        self.rules.rules()
    }

    /// Lets one pass and then another look at all rules in force.
    pub fn look_by_both(&mut self, first: &mut Pass<RuleEntry>, second: &mut Pass<RuleEntry>)
        requires first { first.old.name ≡ N.consts.rules }
        requires second { second.old.name ≡ N.consts.rules }
        ensures first { LooksAt self.old self.new first.old first.new }
        ensures second { LooksAt self.old self.new second.old second.new }
    {
        self.rules.look_by_both(first, second);
    }
}

// The answer to a rule that was to be appended at this place.
fn appended_at(place: u64, appended: Result<u64, OutOfMemory>) -> Result<StepResult, OutOfMemory>
    ensures { result ≡ appended_in place appended }
{
    match appended {
        Ok(_) => Ok(StepResult {
            place,
            told: Told::Done,
            action: None,
        }),
        Err(err) => Err(err),
    }
}
