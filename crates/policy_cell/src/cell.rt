ghost use Rattle.std.specs.Prelude.{◌≡◌, ℕ, ◌+◌, ◌<◌, ◌≤◌, [], ◌∷◌, ◌++◌, length, All, IfOk, OnOk, OnErr, count_by, slice_get};
ghost use mathlib.Core.List.{IsPrefix};
ghost use Rattle.grow_list.specs.Entries.{has_place};
ghost use Rattle.grow_list.specs.Shown.{IsSameList, HasItsOwn, HasEach, fresh};
ghost use Rattle.policy_cell.specs.Policy.{LooksAt, in_force};

use grow_list::{Grow, Pass};
use inode_meta::Who;
use rule_match::Index;
use rule_match::policy::{Policy, Rule};
use std::alloc::{AllocError as OutOfMemory, Global};
use std::marker::Model;

/// A rule that a step appended to the policy.
#[derive(Drop)]
pub struct RuleEntry {
    /// The step that appended the rule.
    pub who: Who,
    /// The appended rule.
    pub rule: Rule,
}

/// The rules in force: the initial ones, followed by those that the callers have appended.
/// Contracts see the initial rules, and the growing list of the appended ones. It has no length
/// limit of its own.
pub struct PolicyCell {
    index: Index,
    base: usize,
    appended: Grow<RuleEntry>,
}

// Written out, so that the drop is proved here once, and not again in each crate above.
impl Drop for PolicyCell {
    fn drop(self) {
        let PolicyCell {
            index: _,
            base: _,
            appended: _,
        } = self;
    }
}

impl Model for PolicyCell {
    ghost use Rattle.policy_cell.specs.Policy.{PolicyValue};

    ghost Value = { PolicyValue };

    ghost use Rattle.policy_cell.specs.PolicyFields.{IsPolicy, policy_of};

    ghost view = { policy_of };

    ghost invariant = { IsPolicy };
}

impl PolicyCell {
    /// The initial policy, without appended rules, and a pass for each of its callers, in the order
    /// of their numbers.
    pub fn start(
        alloc: Global,
        rules: Policy,
        callers: u32,
    ) -> Result<(PolicyCell, Vec<Pass<RuleEntry>>), OutOfMemory>
        requires { 1 ≤ callers }
        ensures base { IfOk result (λ r. r.0.base ≡ rules) }
        ensures list { IfOk result (λ r. (r.0.appended.list ≡ []) × (r.0.appended.numbers ≡ [])) }
        ensures callers { IfOk result (λ r. r.0.appended.callers ≡ callers) }
        ensures count { IfOk result (λ r. length r.1.items ≡ callers) }
        ensures passes { IfOk result (λ r. (k : ℕ) → k < callers
            → slice_get r.1.items k ≡ Some (fresh r.0.appended.name k)) }
        ensures each { IfOk result (λ r. HasEach r.0.appended r.1.items) }
    {
        let index = Index::start(alloc, rules)?;
        let base = index.rules().len();
        let (appended, passes) = Grow::start(alloc, callers)?;
        let cell = PolicyCell {
            index,
            base,
            appended,
        };
        Ok((cell, passes))
    }

    /// Appends a copy of the rule by a pass of this policy, and returns its index among all rules
    /// in force, counted from 0. If memory runs out, neither the policy nor the pass changes.
    pub fn append(
        &mut self,
        alloc: Global,
        pass: &mut Pass<RuleEntry>,
        who: Who,
        rule: &Rule,
    ) -> Result<u64, OutOfMemory>
        requires { pass.old.name ≡ self.old.appended.name }

        ensures place { IfOk result (λ place. place ≡ length (in_force self.old)) }
        ensures list { OnOk result (self.new.appended.list
            ≡ self.old.appended.list ++ record { who = who; rule = rule.now } ∷ []) }
        ensures numbers { OnOk result (self.new.appended.numbers
            ≡ self.old.appended.numbers ++ pass.old.number ∷ []) }
        ensures kept { (self.new.base ≡ self.old.base)
            × (self.new.appended.name ≡ self.old.appended.name)
            × (self.new.appended.callers ≡ self.old.appended.callers) }

        ensures before { OnOk result (IsPrefix pass.old.seen self.old.appended.list) }
        ensures seen { OnOk result (pass.new.seen ≡ self.new.appended.list) }
        ensures mine { OnOk result (pass.new.mine
            ≡ pass.old.mine
            ++ (length self.old.appended.list, record { who = who; rule = rule.now }) ∷ []) }
        ensures own { OnOk result (HasItsOwn self.new.appended pass.new) }
        ensures placed { OnOk result
            (All (λ x. x.0 < length self.new.appended.list) pass.new.mine) }
        ensures number { OnOk result (pass.new.number < self.new.appended.callers) }
        ensures even { OnOk result
            (length self.new.appended.numbers ≡ length self.new.appended.list) }
        ensures same_pass { (pass.new.name ≡ pass.old.name) × (pass.new.number ≡ pass.old.number) }

        ensures err { OnErr result
            (IsSameList self.old.appended self.new.appended × (pass.new ≡ pass.old)) }
    {
        let place = self.index.rules().len() as u64;
        let copy = append_indexed(alloc, &mut self.index, &mut self.appended, rule)?;
        self.appended.push(pass, RuleEntry { who, rule: copy });
        Ok(place)
    }

    /// Shows the appended rules to a pass of this policy.
    pub fn look(&mut self, pass: &mut Pass<RuleEntry>)
        requires { pass.old.name ≡ self.old.appended.name }

        ensures base { self.new.base ≡ self.old.base }
        ensures list { IsSameList self.old.appended self.new.appended }

        ensures before { IsPrefix pass.old.seen self.old.appended.list }
        ensures seen { pass.new.seen ≡ self.new.appended.list }
        ensures mine { pass.new.mine ≡ pass.old.mine }
        ensures own { HasItsOwn self.new.appended pass.new }
        ensures placed { All (λ x. x.0 < length self.new.appended.list) pass.new.mine }
        ensures number { pass.new.number < self.new.appended.callers }
        ensures even { length self.new.appended.numbers ≡ length self.new.appended.list }
        ensures same_pass { (pass.new.name ≡ pass.old.name) × (pass.new.number ≡ pass.old.number) }
    {
        self.appended.look(pass);
    }

    /// Shows the appended rules to one pass of this policy, and then to another.
    pub fn look_by_both(&mut self, first: &mut Pass<RuleEntry>, second: &mut Pass<RuleEntry>)
        requires first { first.old.name ≡ self.old.appended.name }
        requires second { second.old.name ≡ self.old.appended.name }
        ensures first { LooksAt self.old self.new first.old first.new }
        ensures second { LooksAt self.old self.new second.old second.new }
    {
        self.look(first);
        self.look(second);
    }

    /// The number of appended rules.
    pub fn appended(&self) -> u64
        ensures { result ≡ length self.now.appended.list }
    {
        self.appended.len()
    }

    /// The rules in force, initial and appended.
    pub fn rules(&self) -> &Index
        ensures { result.now ≡ in_force self.now }
    {
        &self.index
    }

    /// Hands over the appended rules and takes back the passes. The contract for the passes is that
    /// of [`Grow::close`].
    pub fn close(self, passes: Vec<Pass<RuleEntry>>) -> Vec<RuleEntry>
        requires { HasEach self.appended passes.items }
        ensures list { result.items ≡ self.appended.list }
        ensures seen { All (λ p. IsPrefix p.seen self.appended.list) passes.items }
        ensures own { All (λ p. HasItsOwn self.appended p) passes.items }
        ensures places { (k : ℕ) → k < length self.appended.list
            → count_by (λ p. has_place k p.mine) passes.items ≡ 1 }
    {
        let PolicyCell {
            index: _,
            base: _,
            appended,
        } = self;
        appended.close(passes)
    }
}

// Appends the rule to the index, and returns another copy of it for the list of appended rules,
// which has room for it then. If memory runs out, both keep their rules.
fn append_indexed(
    alloc: Global,
    index: &mut Index,
    appended: &mut Grow<RuleEntry>,
    rule: &Rule,
) -> Result<Rule, OutOfMemory>
    ensures copy { IfOk result (λ copy. copy ≡ rule.now) }
    ensures index { OnOk result (index.new ≡ index.old ++ rule.now ∷ []) }
    ensures room { OnOk result (1 ≤ appended.new.spare) }
    ensures list { IsSameList appended.old appended.new }
    ensures err { OnErr result (index.new ≡ index.old) }
{
    let copy = rule.copy(alloc)?;
    appended.reserve(1)?;
    index.append(rule)?;
    Ok(copy)
}
