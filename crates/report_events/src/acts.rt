// The actions of a check, and the number of rules that it saw.

ghost use Rattle.std.specs.Prelude.{◌≡◌, ◌++◌, OnOk};
ghost use Rattle.policy_rules.specs.RuleValue.{is_any};
ghost use Rattle.report_events.specs.Texts.{acts_text, appraise_text, flag_text, measure_text, rules_text};

use crate::push::push_number;
use inode_meta::{Need, Template};
use policy_rules::Action;
use std::alloc::AllocError as OutOfMemory;

// Prints the number of rules that the check saw, if the run can append rules.
pub fn push_rules(out: &mut Vec<u8>, grows: bool, rules: u64) -> Result<(), OutOfMemory>
    ensures { OnOk result (out.new.items ≡ out.old.items ++ rules_text grows rules) }
{
    if grows {
        out.extend_from_slice(b" rules ")?;
        push_number(out, rules)
    } else {
        Ok(())
    }
}

// Prints the actions of a check, with the template that a measurement uses, or a dash if there are
// none.
pub fn push_acts(out: &mut Vec<u8>, default: Template, action: &Action) -> Result<(), OutOfMemory>
    ensures { OnOk result (out.new.items ≡ out.old.items ++ acts_text default action.now) }
{
    let a = *action;
    if !(a.measure || a.appraise || a.audit || a.hash) {
        return out.extend_from_slice(b" -");
    }
    push_measure(out, a.measure, a.pcr, a.template.unwrap_or(default))?;
    push_appraise(out, a.appraise, a.need)?;
    push_flag(out, b" audit", a.audit)?;
    push_flag(out, b" hash", a.hash)
}

fn push_measure(
    out: &mut Vec<u8>,
    measure: bool,
    pcr: u8,
    template: Template,
) -> Result<(), OutOfMemory>
    ensures { OnOk result (out.new.items ≡ out.old.items ++ measure_text measure pcr template) }
{
    if !measure {
        return Ok(());
    }
    out.extend_from_slice(b" measure ")?;
    push_number(out, u64::from(pcr))?;
    out.extend_from_slice(b" ")?;
    out.extend_from_slice(template.word().as_bytes())
}

fn push_appraise(out: &mut Vec<u8>, appraise: bool, need: Need) -> Result<(), OutOfMemory>
    ensures { OnOk result (out.new.items ≡ out.old.items ++ appraise_text appraise (is_any need)) }
{
    match (appraise, need) {
        (true, Need::Any) => out.extend_from_slice(b" appraise"),
        (true, Need::Signature) => out.extend_from_slice(b" appraise-sig"),
        (false, _) => Ok(()),
    }
}

// Prints the text if the flag is set.
pub fn push_flag(out: &mut Vec<u8>, text: &[u8], flag: bool) -> Result<(), OutOfMemory>
    ensures { OnOk result (out.new.items ≡ out.old.items ++ flag_text text.now flag) }
{
    if flag {
        out.extend_from_slice(text)
    } else {
        Ok(())
    }
}
