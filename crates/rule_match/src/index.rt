ghost use Rattle.std.specs.Prelude.{◌≡◌, [], ◌∷◌, ◌++◌, IfOk, OnOk, OnErr, drop, length, if◌then◌else◌};
ghost use Rattle.rule_match.specs.Deciders.{AreDeciders};
ghost use Rattle.rule_match.specs.Decision.{decide_of, place_of_first};
ghost use Rattle.rule_match.specs.Group.{same_group};
ghost use Rattle.rule_match.specs.Groups.{StandsAt, lines_from};
ghost use Rattle.rule_match.specs.LineTable.{lines_at};
ghost use Rattle.rule_match.specs.declared.group.Group.{Group as AnyGroup};

use crate::deciders::Deciders;
use crate::family::Family;
use crate::group::{Candidates, Group};
use policy_rules::{Access, Action, Func, Policy, Rule};
use std::alloc::{AllocError as OutOfMemory, Global};
use std::collections::HashMap;
use std::marker::Model;

/// A list of rules with an index of those that can match an access. Contracts see the list. It has
/// no length limit of its own.
///
/// Rules are grouped by their `func=` and, within that, by their `fsmagic=`. The index keeps the
/// lines of each group, so that a decision visits the rules of at most four groups in the order of
/// their lines, and stops at the line by which all four families are decided.
pub struct Index {
    rules: Vec<Rule>,
    lines: HashMap<Group, Vec<usize>>,
}

// Written out, so that the drop is proved here once, and not again in each crate above.
impl Drop for Index {
    fn drop(self) {
        let Index { rules: _, lines: _ } = self;
    }
}

impl Model for Index {
    ghost use Rattle.std.specs.Prelude.{List};
    ghost use Rattle.policy_rules.specs.RuleValue.{RuleValue};

    ghost Value = { List RuleValue };

    ghost use Rattle.rule_match.specs.Indexed.{IsIndexed};

    ghost view = { λ i. i.rules.items };

    ghost invariant = { IsIndexed };
}

impl Index {
    /// An index of the policy's rules, of which it takes ownership.
    pub fn start(alloc: Global, p: Policy) -> Result<Index, OutOfMemory>
        ensures { IfOk result (λ index. index ≡ p) }
    {
        let mut index = Index {
            rules: Vec::new(alloc),
            lines: HashMap::new(alloc),
        };
        for rule in p.into_rules() {
            index.push(rule)?;
        }
        Ok(index)
    }

    /// The rules, in the order of their lines.
    pub fn rules(&self) -> &[Rule]
        ensures rules { result.now ≡ self.now }
    {
        self.rules.as_slice()
    }

    /// Appends a copy of the rule. If memory runs out, the index doesn't change.
    pub fn append(&mut self, r: &Rule) -> Result<(), OutOfMemory>
        ensures ok { OnOk result (self.new ≡ self.old ++ r.now ∷ []) }
        ensures err { OnErr result (self.new ≡ self.old) }
    {
        let copy = r.copy(*self.rules.allocator())?;
        self.push(copy)
    }

    fn push(&mut self, rule: Rule) -> Result<(), OutOfMemory>
        ensures ok { OnOk result (self.new ≡ self.old ++ rule ∷ []) }
        ensures err { OnErr result (self.new ≡ self.old) }
    {
        self.rules.reserve(1)?;
        let alloc = *self.rules.allocator();
        add_line(alloc, &mut self.lines, Group::of(&rule), self.rules.len())?;
        self.rules.push_reserved(rule);
        Ok(())
    }

    /// The action that the rules require for the access, by first match: the result of
    /// [`crate::decide`] over the same rules. Rules of other functions aren't visited.
    pub fn decide(&self, a: &Access) -> Action
        ensures { result ≡ decide_of self.now a.now }
    {
        self.deciders(a).action(&self.rules)
    }

    /// The index of the line that decides for the family, counted from 0: the first line of the
    /// family that matches.
    pub fn decider(&self, family: Family, a: &Access) -> Option<usize>
        ensures { result ≡ place_of_first family self.now a.now }
    {
        let found = self.deciders(a);
        match family {
            Family::Measuring => found.measuring,
            Family::Appraising => found.appraising,
            Family::Auditing => found.auditing,
            Family::Hashing => found.hashing,
        }
    }

    /// For each family, the index of the line that decides, as [`Index::decider`] gives it for one.
    pub fn deciders(&self, a: &Access) -> Deciders
        ensures { AreDeciders a.now self.now result }
    {
        let from = Candidates {
            both: self.lines_of(Some(a.func), Some(a.place.magic)),
            func: self.lines_of(Some(a.func), None),
            magic: self.lines_of(None, Some(a.place.magic)),
            neither: self.lines_of(None, None),
        };
        walk(&self.rules, from, a)
    }

    fn lines_of(&self, func: Option<Func>, magic: Option<u64>) -> &[usize]
        ensures { result.now ≡ lines_from (record { func = func; magic = magic }) 0 self.now }
    {
        match self.lines.get(&Group { func, magic }) {
            Some(lines) => lines.as_slice(),
            None => &[],
        }
    }
}

// Adds a line to those of its rule's group.
fn add_line(
    alloc: Global,
    lines: &mut HashMap<Group, Vec<usize>>,
    group: Group,
    line: usize,
) -> Result<(), OutOfMemory>
    ensures ok { OnOk result ((g : AnyGroup) → lines_at lines.new g
        ≡ lines_at lines.old g ++ (if same_group group g then line ∷ [] else [])) }
    ensures err { OnErr result ((g : AnyGroup) → lines_at lines.new g ≡ lines_at lines.old g) }
{
    if let Some(of_group) = lines.get_mut(&group) {
        return match of_group.push(line) {
            Ok(()) => Ok(()),
            Err(_) => Err(OutOfMemory),
        };
    }
    let mut of_group = Vec::new(alloc);
    of_group.push(line)?;
    lines.insert(group, of_group)?;
    Ok(())
}

// Walks over the candidates, from the first line on, until all four families are decided, and
// returns the lines that decide.
fn walk(rules: &[Rule], from: Candidates<'_>, a: &Access) -> Deciders
    requires { StandsAt 0 rules.now a.now from }
    ensures { AreDeciders a.now rules.now result }
{
    let mut candidates = from;
    let mut found = Deciders::none();
    while let Some(line) = candidates.earliest() {
        found = found.with(line, &rules[line], a);
        if found.is_complete() {
            return found;
        }
        candidates = candidates.after(line);
    }
    found
}
