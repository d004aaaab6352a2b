ghost use Rattle.std.specs.Option.{option_copied};
ghost use Rattle.script_words.specs.Forms.{rule_of};
ghost use Rattle.script_words.specs.Gives.{LineGives};

use crate::fault::{LineCause, LineErr};
use policy_text::{PolicyErr, Rule, parse_rule};
use std::alloc::Global;

/// The rule in the text after the first space, by the grammar of policies. Without a space the line
/// is refused.
pub fn rule_of(alloc: Global, text: Option<&[u8]>) -> Result<Rule, LineErr>
    ensures { LineGives result (rule_of (option_copied text.entry)) }
{
    let text = text.ok_or(LineCause::BadField)?;
    match parse_rule(alloc, text) {
        Ok(rule) => Ok(rule),
        Err(PolicyErr::Refused(fault)) => Err(LineErr::Refused(LineCause::BadRule(fault.cause))),
        Err(PolicyErr::OutOfMemory) => Err(LineErr::OutOfMemory),
    }
}
