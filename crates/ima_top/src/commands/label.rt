// The command `label`: the values that a seal would write on the files of a script.
ghost use Rattle.std.specs.Prelude.{◌≡◌, ◌≤◌, length};
ghost use Rattle.ima_top.specs.Answered.{Answers};
ghost use Rattle.ima_top.specs.Limits.{most_input};
ghost use Rattle.ima_top.specs.commands.Label.{label_refusal, IsLabelOutput};

use crate::commands::ran::script;
use crate::not_done::NotDone;
use label_text::label_text;
use std::alloc::Global;

/// The lines of the script's files, or the line that names the script's first fault.
#[tactic(auto, unfolding(crate::specs::commands::Label::label_refusal, crate::specs::commands::Label::IsLabelOutput, crate::specs::commands::Ran::script_refusal))]
pub fn answer(alloc: Global, input: &[u8]) -> Result<Vec<u8>, NotDone>
    requires { length input.now ≤ most_input }
    ensures { Answers result (label_refusal input.now)
        (λ output. IsLabelOutput input.now output.items) }
{
    let script = script(alloc, input)?;
    let text = label_text(alloc, &script)?;
    Ok(text)
}
