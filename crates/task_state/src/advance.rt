//! The effect of an outcome on the call in progress.

ghost use Rattle.std.specs.Prelude.{◌≡◌, ◌+◌, ◌<◌, ◌^◌, option_to_list, vec_capacity, vec_len};
ghost use Rattle.std.specs.Option.{option_copied};
ghost use Rattle.run_model.specs.steps.CallState.{CallState, file_after, handle_made, is_done, moved};
ghost use Rattle.run_model.specs.steps.Steps.{given, next};
ghost use Rattle.task_state.specs.Advancing.{after_advance, handles_after_answer};
ghost use Rattle.task_state.specs.Value.{progress_in};

use crate::handles::{name_ended, name_made, remove};
use crate::progress::Progress;
use inode_meta::Mode;
use rule_match::policy::Action;
use run_model::steps::events::Told;
use run_model::steps::{Ask, Call, Course, Handle, Name, Next, Reply, next_by};

/// The answer to a call, with its effect on the task's names.
#[derive(Clone, Copy)]
pub struct Answer {
    /// The reply to the call.
    pub reply: Reply,
    /// The name that the call ends if it was done.
    pub ended: Option<Name>,
    /// The handle that the call makes if it was done.
    pub made: Option<Handle>,
}

/// The effect of a step's outcome on its call.
#[derive(Clone, Copy)]
pub enum Advance {
    /// The call makes another step.
    On(Progress),
    /// The call is answered.
    Over(Answer),
}

// The file that the steps act on. A count names it by the place of its event.
fn file_after(ask: Ask, place: u64, earlier: u64) -> u64
    ensures { result ≡ file_after ask place earlier }
{
    match ask {
        Ask::Count => place,
        _ => earlier,
    }
}

fn handle_made(name: Option<Name>, progress: Progress) -> Option<Handle>
    ensures { option_to_list result ≡ handle_made name (progress_in progress) }
{
    match name {
        Some(name) => Some(Handle {
            name,
            inode: progress.inode,
            file: progress.file,
            how: progress.how,
        }),
        None => None,
    }
}

/// The effect of a step's outcome on its call; for a check, `action` is its action. `place` is the
/// place of the step's event.
pub fn advance_by(
    call: &Call,
    progress: Progress,
    mode: Mode,
    told: &Told,
    place: u64,
    action: Option<&Action>,
) -> Advance
    requires { progress.step + 1 < 2 ^ 32 }
    ensures { (m : CallState)
        → after_advance m result ≡ moved call.now m (progress_in progress) place
        (next mode call.now progress.due told.now (given (option_copied action.entry))) }
{
    let due = progress.due;
    match next_by(mode, Course::of(call), due.ask, due.reply, told, action) {
        Next::On(later) => Advance::On(Progress {
            due: later,
            step: progress.step + 1,
            inode: progress.inode,
            file: file_after(due.ask, place, progress.file),
            how: progress.how,
        }),
        Next::Over(reply) => Advance::Over(Answer {
            reply,
            ended: name_ended(call),
            made: handle_made(name_made(call), progress),
        }),
    }
}

// Whether the call was done, rather than refused.
fn is_done(reply: Reply) -> bool
    ensures { result ≡ is_done reply }
{
    matches!(reply, Reply::Done | Reply::Bytes { .. })
}

/// Updates the names after an answered call. If it was done, it ends a name or makes one.
pub fn apply_answer(handles: &mut Vec<Handle>, answer: &Answer)
    requires { vec_len handles.old < vec_capacity handles.old }
    ensures { handles.new.items ≡ handles_after_answer answer.now handles.old.items }
{
    if !is_done(answer.reply) {
        return;
    }
    if let Some(name) = answer.ended {
        remove(name, handles);
    }
    if let Some(handle) = answer.made {
        handles.push_reserved(handle);
    }
}
