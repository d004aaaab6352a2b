// Rules, their texts, and which of them decide; and the rules that tasks append.

ghost use Rattle.std.specs.Prelude.{◌≡◌, ◌-◌, ◌<◌, ◌≤◌, ◌^◌, length};
ghost use Rattle.grow_list.specs.Shown.{HasEach};
ghost use Rattle.policy_text.specs.rules.Limits.{most_rules};

use std::alloc::Global;

pub type RulePass = grow_list::Pass<policy_cell::RuleEntry>;

// ---- policy_text

pub fn rule_fields(rule: &policy_text::Rule) {
    let _: policy_text::Act = rule.act;
    let _: Option<policy_text::Func> = rule.func;
    let _: Option<policy_text::MaskTest> = rule.mask;
    let _: Option<u64> = rule.fsmagic;
    let _: Option<u128> = rule.fsuuid;
    let _: Option<xattr_store::Bytes> = rule.fsname;
    let _: Option<policy_text::IdTest> = rule.uid;
    let _: Option<policy_text::IdTest> = rule.euid;
    let _: Option<policy_text::IdTest> = rule.fowner;
    let _: Option<policy_text::IdTest> = rule.gid;
    let _: Option<policy_text::IdTest> = rule.egid;
    let _: Option<policy_text::IdTest> = rule.fgroup;
    let _: inode_meta::Need = rule.need;
    let _: bool = rule.blacklist;
    let _: Option<hash_algos::AlgoSet> = rule.algos;
    let _: bool = rule.directio;
    let _: Option<u8> = rule.pcr;
    let _: Option<inode_meta::Template> = rule.template;
}

pub fn rule_parts(
    act: policy_text::Act,
    func: policy_text::Func,
    mask: policy_text::MaskTest,
    id: policy_text::IdTest,
) {
    match act {
        policy_text::Act::Measure
        | policy_text::Act::DontMeasure
        | policy_text::Act::Appraise
        | policy_text::Act::DontAppraise
        | policy_text::Act::Audit
        | policy_text::Act::DontAudit
        | policy_text::Act::Hash
        | policy_text::Act::DontHash => {}
    }
    match func {
        policy_text::Func::BprmCheck
        | policy_text::Func::MmapCheck
        | policy_text::Func::FileCheck
        | policy_text::Func::CredsCheck
        | policy_text::Func::ModuleCheck
        | policy_text::Func::FirmwareCheck
        | policy_text::Func::KexecKernelCheck
        | policy_text::Func::KexecInitramfsCheck
        | policy_text::Func::KexecCmdline
        | policy_text::Func::KeyCheck
        | policy_text::Func::CriticalData
        | policy_text::Func::SetxattrCheck
        | policy_text::Func::PolicyCheck
        | policy_text::Func::MmapCheckReqprot => {}
    }
    let _mask: (bool, u8) = (mask.exact, mask.bits);
    match id {
        policy_text::IdTest::Is(_)
        | policy_text::IdTest::Above(_)
        | policy_text::IdTest::Below(_) => {}
    }
}

pub fn records(
    place: &policy_text::Super,
    access: &policy_text::Access<'_>,
    action: &policy_text::Action,
    entry: &policy_cell::RuleEntry,
) {
    let _: u64 = place.magic;
    let _: u128 = place.uuid;
    let _: bool = place.versions;
    let _: xattr_store::Bytes = place.name;
    let _: policy_text::Func = access.func;
    let _: u8 = access.mask;
    let _: u32 = access.owner;
    let _: u32 = access.group;
    let _: &inode_meta::Cred = access.cred;
    let _: &policy_text::Super = access.place;
    let _: bool = action.measure;
    let _: u8 = action.pcr;
    let _: Option<inode_meta::Template> = action.template;
    let _: bool = action.appraise;
    let _: inode_meta::Need = action.need;
    let _: Option<hash_algos::AlgoSet> = action.algos;
    let _: bool = action.audit;
    let _: bool = action.hash;
    let _: inode_meta::Who = entry.who;
    let _: policy_text::Rule = entry.rule;
}

pub fn errors(e: policy_text::PolicyErr, fault: policy_text::Fault) {
    let _: u32 = fault.line;
    match e {
        policy_text::PolicyErr::Refused(_) | policy_text::PolicyErr::OutOfMemory => {}
    }
    match fault.cause {
        policy_text::RuleCause::BadAction
        | policy_text::RuleCause::BadKey
        | policy_text::RuleCause::Twice
        | policy_text::RuleCause::BadValue
        | policy_text::RuleCause::NotForAction
        | policy_text::RuleCause::Unsupported
        | policy_text::RuleCause::TooMany => {}
    }
}

pub fn parse(alloc: Global, b: &[u8]) -> Result<policy_text::Policy, policy_text::PolicyErr>
    requires { length b.now < 2 ^ 32 - 1 }
{
    policy_text::parse(alloc, b)
}

pub fn print(alloc: Global, p: &policy_text::Policy) -> Result<Vec<u8>, policy_text::OutOfMemory> {
    policy_text::print(alloc, p)
}

// "A later call takes the allocator only if no vector at hand has it"
pub fn rule_copy(
    rule: &policy_text::Rule,
    alloc: Global,
) -> Result<policy_text::Rule, policy_text::OutOfMemory> {
    policy_text::Rule::copy(rule, alloc)
}

// "In a line that is read alone (`parse_rule`) a newline is a byte like any other"
pub fn parse_rule(alloc: Global, line: &[u8]) -> Result<policy_text::Rule, policy_text::PolicyErr> {
    policy_text::parse_rule(alloc, line)
}

pub fn print_rule(
    alloc: Global,
    r: &policy_text::Rule,
    out: &mut Vec<u8>,
) -> Result<(), policy_text::OutOfMemory> {
    policy_text::print_rule(alloc, r, out)
}

// "`Attrs::new`, `Content::new` and `Policy::new` take the allocator although they take no memory"
pub fn policy_new(alloc: Global) -> policy_text::Policy {
    policy_text::Policy::new(alloc)
}

pub fn policy_rules(p: &policy_text::Policy) -> &[policy_text::Rule] {
    policy_text::Policy::rules(p)
}

pub fn policy_push(
    p: &mut policy_text::Policy,
    r: policy_text::Rule,
) -> Result<(), policy_text::OutOfMemory>
    requires { length p.old < most_rules }
{
    policy_text::Policy::push(p, r)
}

// ---- rule_match

pub fn decide(p: &policy_text::Policy, a: &policy_text::Access<'_>) -> policy_text::Action {
    rule_match::decide(p, a)
}

pub fn index_start(
    alloc: Global,
    p: policy_text::Policy,
) -> Result<rule_match::Index, rule_match::OutOfMemory> {
    rule_match::Index::start(alloc, p)
}

pub fn index_read<'a>(
    index: &'a rule_match::Index,
    a: &policy_text::Access<'_>,
) -> (&'a [policy_text::Rule], policy_text::Action) {
    (
        rule_match::Index::rules(index),
        rule_match::Index::decide(index, a),
    )
}

pub fn index_deciders(
    index: &rule_match::Index,
    family: rule_match::Family,
    a: &policy_text::Access<'_>,
) -> (Option<usize>, rule_match::Deciders) {
    (
        rule_match::Index::decider(index, family, a),
        rule_match::Index::deciders(index, a),
    )
}

pub fn index_append(
    index: &mut rule_match::Index,
    r: &policy_text::Rule,
) -> Result<(), rule_match::OutOfMemory> {
    rule_match::Index::append(index, r)
}

// ---- policy_cell

pub fn rules_start(
    alloc: Global,
    rules: policy_text::Policy,
    callers: u32,
) -> Result<(policy_cell::PolicyCell, Vec<RulePass>), policy_cell::OutOfMemory>
    requires { 1 ≤ callers }
{
    policy_cell::PolicyCell::start(alloc, rules, callers)
}

pub fn rules_append(
    cell: &mut policy_cell::PolicyCell,
    alloc: Global,
    pass: &mut RulePass,
    who: inode_meta::Who,
    rule: &policy_text::Rule,
) -> Result<u64, policy_cell::OutOfMemory>
    requires { pass.old.name ≡ cell.old.appended.name }
{
    policy_cell::PolicyCell::append(cell, alloc, pass, who, rule)
}

pub fn rules_look(cell: &mut policy_cell::PolicyCell, pass: &mut RulePass)
    requires { pass.old.name ≡ cell.old.appended.name }
{
    policy_cell::PolicyCell::look(cell, pass)
}

pub fn rules_look_by_both(
    cell: &mut policy_cell::PolicyCell,
    first: &mut RulePass,
    second: &mut RulePass,
)
    requires first { first.old.name ≡ cell.old.appended.name }
    requires second { second.old.name ≡ cell.old.appended.name }
{
    policy_cell::PolicyCell::look_by_both(cell, first, second)
}

pub fn rules_in_force(cell: &policy_cell::PolicyCell) -> &rule_match::Index {
    policy_cell::PolicyCell::rules(cell)
}

pub fn rules_close(
    cell: policy_cell::PolicyCell,
    passes: Vec<RulePass>,
) -> Vec<policy_cell::RuleEntry>
    requires { HasEach cell.appended passes.items }
{
    policy_cell::PolicyCell::close(cell, passes)
}
