// The command `policy`: the rules of a policy as canonical text.
ghost use Rattle.std.specs.Prelude.{◌≡◌, ◌≤◌, length, IfOk};
ghost use Rattle.ima_top.specs.Answered.{Answers};
ghost use Rattle.ima_top.specs.Limits.{most_input};
ghost use Rattle.ima_top.specs.commands.Policy.{fault_line, policy_refusal, IsPolicyOutput};

use crate::not_done::NotDone;
use policy_text::{Fault, PolicyErr, parse, print};
use std::alloc::{AllocError as OutOfMemory, Global};

/// The canonical text of the policy, or the line that names its first fault.
#[tactic(auto, unfolding(crate::specs::commands::Policy::policy_refusal, crate::specs::commands::Policy::IsPolicyOutput))]
pub fn answer(alloc: Global, input: &[u8]) -> Result<Vec<u8>, NotDone>
    requires { length input.now ≤ most_input }
    ensures { Answers result (policy_refusal input.now)
        (λ output. IsPolicyOutput input.now output.items) }
{
    match parse(alloc, input) {
        Ok(policy) => Ok(print(alloc, &policy)?),
        Err(PolicyErr::Refused(fault)) => Err(NotDone::Refused(fault_line(alloc, fault)?)),
        Err(PolicyErr::OutOfMemory) => Err(NotDone::OutOfMemory),
    }
}

fn fault_line(alloc: Global, fault: Fault) -> Result<Vec<u8>, OutOfMemory>
    ensures { IfOk result (λ line. line.items ≡ fault_line fault) }
{
    let line = format!(in alloc; "line {}: {}\n", fault.line, fault.cause.word())?;
    Ok(line.into_bytes())
}
