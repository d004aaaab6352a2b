ghost use Rattle.std.specs.Prelude.{◌≡◌};
ghost use Rattle.task_steps.specs.Acting.{step_result_in};
ghost use Rattle.task_steps.specs.Checking.{checked_in};
ghost use Rattle.task_steps.specs.Turning.{turn_result_of};

use inode_events::Told;
use policy_rules::Action;
use std::alloc::AllocError as OutOfMemory;

/// The answer to a step.
#[derive(Drop)]
pub struct StepResult {
    /// The index of the step's event in its journal, or of its rule among the appended ones.
    pub place: u64,
    /// The outcome of the step.
    pub told: Told,
    /// The action, if the step was a check.
    pub action: Option<Action>,
}

/// How a turn ended.
#[derive(Drop)]
pub enum TurnResult {
    /// The program had no call left.
    Over,
    /// The step can't be made now.
    Blocked,
    /// The step was made, with this answer.
    Told(StepResult),
}

/// The answer to a deed, with the place of its event. `None` means that it is blocked.
pub fn told_at(
    place: u64,
    told: Result<Option<Told>, OutOfMemory>,
) -> Result<Option<StepResult>, OutOfMemory>
    ensures { result ≡ step_result_in place told }
{
    match told {
        Ok(Some(told)) => Ok(Some(StepResult {
            place,
            told,
            action: None,
        })),
        Ok(None) => Ok(None),
        Err(err) => Err(err),
    }
}

/// The answer to a check, with its action and the place of its event.
pub fn checked_at(
    place: u64,
    told: Result<(Told, Action), OutOfMemory>,
) -> Result<Option<StepResult>, OutOfMemory>
    ensures { result ≡ checked_in place told }
{
    match told {
        Ok((told, action)) => Ok(Some(StepResult {
            place,
            told,
            action: Some(action),
        })),
        Err(err) => Err(err),
    }
}

/// How the turn ended; a step that was blocked has no answer.
pub fn turn_result_of(
    answered: Result<Option<StepResult>, OutOfMemory>,
) -> Result<TurnResult, OutOfMemory>
    ensures { result ≡ turn_result_of answered }
{
    match answered {
        Ok(Some(answered)) => Ok(TurnResult::Told(answered)),
        Ok(None) => Ok(TurnResult::Blocked),
        Err(err) => Err(err),
    }
}
