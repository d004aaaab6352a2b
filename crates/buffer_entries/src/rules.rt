//! The register that a caller's buffers extend, by the rules for critical data.

ghost use Rattle.std.specs.Prelude.{◌≡◌, ◌<◌, IfSome, find};
ghost use Rattle.std.specs.Option.{option_copied};
ghost use Rattle.policy_text.specs.rules.RuleValue.{if_there};
ghost use Rattle.policy_text.specs.rules.Tests.{id_holds};
ghost use Rattle.buffer_entries.specs.Wanted.{asks_of_a_file, decides, ids_hold, is_critical, is_measuring, register_of, wanted};

use inode_meta::{Cred, DEFAULT_PCR};
use policy_text::{Act, Func, IdTest, Policy, Rule};

/// The register that the buffers of a caller with these credentials extend, or `None` if they
/// aren't measured. The first line of the family `measure` decides whose function is CRITICAL_DATA,
/// which has no condition that only a file can meet, and whose conditions on IDs hold. Its template
/// has no effect: buffers are always shown under `ima-buf`.
///
/// The kernel also looks at the label of the data (`label=`), which no rule here can name.
pub fn wanted(p: &Policy, cred: &Cred) -> Option<u8>
    ensures register { result ≡ wanted p.now cred.now }
    ensures exists { IfSome result (λ pcr. pcr < 24) }
{
    match decider(p.rules(), cred) {
        Some(rule) => register_of(rule),
        None => None,
    }
}

// The first line that decides on the caller's buffers.
fn decider<'a>(rules: &'a [Rule], cred: &Cred) -> Option<&'a Rule>
    ensures { option_copied result ≡ find (decides cred.now) rules.now }
{
    rules.iter().find(|rule| decides(rule, cred))
}

// Whether the line decides on the caller's buffers, unless an earlier line does.
fn decides(rule: &Rule, cred: &Cred) -> bool
    ensures { result ≡ decides cred.now rule.now }
{
    is_measuring(rule.act)
        && is_critical(rule.func)
        && !asks_of_a_file(rule)
        && ids_hold(rule, cred)
}

fn is_measuring(act: Act) -> bool
    ensures { result ≡ is_measuring act }
{
    match act {
        Act::Measure | Act::DontMeasure => true,
        _ => false,
    }
}

fn is_critical(func: Option<Func>) -> bool
    ensures { result ≡ is_critical func }
{
    match func {
        Some(Func::CriticalData) => true,
        _ => false,
    }
}

// Whether the line has a condition that no buffer can meet.
fn asks_of_a_file(rule: &Rule) -> bool
    ensures { result ≡ asks_of_a_file rule.now }
{
    rule.mask.is_some()
        || rule.fsmagic.is_some()
        || rule.fsuuid.is_some()
        || rule.fsname.is_some()
        || rule.fowner.is_some()
        || rule.fgroup.is_some()
}

fn ids_hold(rule: &Rule, cred: &Cred) -> bool
    ensures { result ≡ ids_hold cred.now rule.now }
{
    id_holds(rule.uid, cred.uid)
        && id_holds(rule.euid, cred.euid)
        && id_holds(rule.gid, cred.gid)
        && id_holds(rule.egid, cred.egid)
}

fn id_holds(test: Option<IdTest>, id: u32) -> bool
    ensures { result ≡ if_there (λ t. id_holds t id) test }
{
    test.is_none_or(|t| t.holds(id))
}

// The register of the line that decides.
fn register_of(rule: &Rule) -> Option<u8>
    ensures register { result ≡ register_of rule.now }
    ensures exists { IfSome result (λ pcr. pcr < 24) }
{
    match rule.act {
        Act::Measure => Some(rule.pcr.unwrap_or(DEFAULT_PCR)),
        _ => None,
    }
}
