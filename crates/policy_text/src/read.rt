//! Parsing policies and single rules.

ghost use Rattle.std.specs.Prelude.{◌≡◌, ◌-◌, ◌<◌, ◌^◌, length};
ghost use Rattle.text_forms.specs.Lines.{at_line};
ghost use Rattle.policy_text.specs.Gives.{Gives, LineGives};
ghost use Rattle.policy_text.specs.Grammar.{fault_at, policy_of, rule_of, with_line};

use crate::fault::{LineErr, PolicyErr, RuleCause};
use crate::line::{is_skipped, rule_of};
use policy_rules::{Policy, RULES, Rule};
use std::alloc::Global;

/// Parses the rules of a text. Blank lines and comments are skipped, and the last line may lack its
/// newline.
///
/// `Refused` is returned exactly if the text doesn't conform to the grammar, with the first bad
/// line and its cause.
pub fn parse(alloc: Global, text: &[u8]) -> Result<Policy, PolicyErr>
    requires { length text.now < 2 ^ 32 - 1 }
    ensures { Gives result (policy_of text.now) }
{
    let mut policy = Policy::new(alloc);
    for (i, line) in text.split(|b| *b == b'\n').enumerate() {
        match with_line(alloc, policy, line) {
            Ok(longer) => policy = longer,
            Err(err) => return Err(err.at(i as u32 + 1)),
        }
    }
    Ok(policy)
}

/// Parses the only rule of a line, in which a newline is an ordinary byte.
///
/// `Refused`, with line 1, is returned exactly if the line isn't a rule, with the cause of its
/// first bad token; a blank line or a comment is a `BadAction`.
pub fn parse_rule(alloc: Global, line: &[u8]) -> Result<Rule, PolicyErr>
    ensures { Gives result (at_line fault_at 1 (rule_of line.now)) }
{
    match rule_of(alloc, line) {
        Ok(rule) => Ok(rule),
        Err(err) => Err(err.at(1)),
    }
}

// The policy with the rule of one more line.
fn with_line(alloc: Global, mut policy: Policy, line: &[u8]) -> Result<Policy, LineErr>
    ensures { LineGives result (with_line policy line.now) }
{
    if is_skipped(line) {
        return Ok(policy);
    }
    let rule = rule_of(alloc, line)?;
    if policy.rules().len() >= RULES {
        return Err(LineErr::Refused(RuleCause::TooMany));
    }
    policy.push(rule)?;
    Ok(policy)
}
