// Which lines of the policy ask for a record of a check.

ghost use Rattle.std.specs.Prelude.{◌≡◌, map, slice_get, take};
ghost use Rattle.script_scene.specs.Scene.{program_of};
ghost use Rattle.world_model.specs.model.matching.Decision.{is_done, place_of_first};
ghost use Rattle.world_model.specs.model.matching.declared.family.Family.{Family as AnyFamily};
ghost use Rattle.world_model.specs.model.matching.declared.family.Family.TheVariants.{Auditing, Hashing};
ghost use Rattle.world_model.specs.model.policy.declared.access.Access.{Access as AnyAccess};
ghost use Rattle.audit_trail.specs.Asked.{asker_by, asker_of, asking_line, asks, line_for, mask_of};
ghost use Rattle.audit_trail.specs.Sites.{programs_in};

use crate::site::Context;
use inode_meta::{Cred, Meta, Who};
use policy_text::{Access, Act, Func, Rule, Super};
use rule_match::Index;
use run_model::steps::{Ask, Call, Course};
use script_text::TaskBlock;

// The access mask of a call that makes a check.
fn mask_of(call: &Call) -> u8
    ensures { result ≡ mask_of call.now }
{
    match Course::of(call).check() {
        Ask::Check { mask, .. } => mask,
        _ => unreachable!(),
    }
}

// The credentials of the task, and the access mask of its call of this number.
fn asker_by(task: &TaskBlock, call: u32) -> Option<(Cred, u8)>
    ensures { result ≡ asker_by (program_of task.now) (slice_get task.now.calls call) }
{
    match task.calls.as_slice().get(call as usize) {
        Some(call) => Some((task.cred, mask_of(call))),
        None => None,
    }
}

// The credentials of the step's task, and the access mask of the step's call.
fn asker(tasks: &[TaskBlock], who: Who) -> Option<(Cred, u8)>
    ensures { result ≡ asker_of (map program_of tasks.now) who }
{
    match tasks.get(who.task as usize) {
        Some(task) => asker_by(task, who.call),
        None => None,
    }
}

// Whether the action asks for something: it isn't one of the `dont_` actions.
fn is_done(act: Act) -> bool
    ensures { result ≡ is_done act }
{
    match act {
        Act::Measure | Act::Appraise | Act::Audit | Act::Hash => true,
        Act::DontMeasure | Act::DontAppraise | Act::DontAudit | Act::DontHash => false,
    }
}

// Whether the rule on this line asks for something.
fn asks(rules: &[Rule], line: usize) -> bool
    ensures { result ≡ asks (slice_get rules.now line) }
{
    match rules.get(line) {
        Some(rule) => is_done(rule.act),
        None => false,
    }
}

// The line that decides for a family, if it is one of the first `count` lines and asks for
// something.
fn asking_line(rules: &[Rule], count: u64, decider: Option<usize>) -> Option<usize>
    ensures { (f : AnyFamily) (a : AnyAccess) → decider ≡ place_of_first f rules.now a
        → result ≡ asking_line f (take count rules.now) a }
{
    let Some(line) = decider else {
        return None;
    };
    if line as u64 >= count {
        return None;
    }
    if asks(rules, line) { Some(line) } else { None }
}

// The lines of the families `audit` and `hash` that ask for something of the access.
fn asking_lines(rules: &Index, count: u64, access: &Access<'_>) -> (Option<usize>, Option<usize>)
    ensures audit { result.0 ≡ asking_line Auditing (take count rules.now) access.now }
    ensures hash { result.1 ≡ asking_line Hashing (take count rules.now) access.now }
{
    let found = rules.deciders(access);
    let audit = asking_line(rules.rules(), count, found.auditing);
    let hash = asking_line(rules.rules(), count, found.hashing);
    (audit, hash)
}

// The same lines for the access that a check makes, to an inode with this metadata on this file
// system. `count` is the number of rules that the check names.
fn lines_by(
    rules: &Index,
    count: u64,
    system: &Super,
    meta: &Meta,
    func: Func,
    asker: Option<(Cred, u8)>,
) -> (Option<usize>, Option<usize>)
    ensures audit { result.0 ≡ line_for Auditing (take count rules.now) system.now meta.now func
        asker }
    ensures hash { result.1 ≡ line_for Hashing (take count rules.now) system.now meta.now func
        asker }
{
    let Some((cred, mask)) = asker else {
        return (None, None);
    };
    let access = Access {
        func,
        mask,
        cred: &cred,
        owner: meta.uid,
        group: meta.gid,
        place: system,
    };
    asking_lines(rules, count, &access)
}

// The lines of the families `audit` and `hash` that ask for a record of the check of this step.
pub fn lines_for(
    context: &Context<'_>,
    system: &Super,
    meta: &Meta,
    who: Who,
    func: Func,
    count: u64,
) -> (Option<usize>, Option<usize>)
    ensures audit { result.0 ≡ line_for Auditing (take count context.now.rules.now)
        system.now meta.now func (asker_of (programs_in context.now) who) }
    ensures hash { result.1 ≡ line_for Hashing (take count context.now.rules.now)
        system.now meta.now func (asker_of (programs_in context.now) who) }
{
    let asker = asker(context.tasks, who);
    lines_by(context.rules, count, system, meta, func, asker)
}
