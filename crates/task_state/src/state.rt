ghost use Rattle.std.specs.Prelude.{◌≡◌, ℕ, ◌+◌, ◌≤◌, ◌<◌, ◌^◌, ◌++◌, if◌then◌else◌, option_map, slice_get, unwrap_or, vec_capacity, vec_len, length, IfOk, OnOk, OnSome};
ghost use Rattle.std.specs.Option.{option_copied};
ghost use Rattle.run_model.specs.steps.Handles.{handle_of};
ghost use Rattle.run_model.specs.steps.CallState.{progress_of};
ghost use Rattle.run_model.specs.steps.Steps.{given};
ghost use Rattle.run_model.specs.events.Checks.{no_action};
ghost use Rattle.run_model.specs.Ended.{is_done};
ghost use Rattle.run_model.specs.History.{call_at, resume, start, step_at, who_at};
ghost use Rattle.task_state.specs.Advancing.{position_after};
ghost use Rattle.task_state.specs.Steps.{step_in};
ghost use Rattle.run_model.specs.EndedValue.{appends};
ghost use Rattle.std.specs.List.{list_any};
ghost use Rattle.task_state.specs.Value.{IsSameTask, awaited_by, due_at, is_over, progress_in, step_of};

use crate::advance::{Advance, advance_by, apply_answer};
use crate::handles::handle_of;
use crate::progress::{Progress, begun};
use crate::step::{Step, step_by};
use inode_meta::{Cred, Mode, Who};
use rule_match::policy::Action;
use run_model::EndedTask;
use run_model::steps::events::Told;
use run_model::steps::{Ask, Call, Handle, Name, Reply};
use std::alloc::{AllocError as OutOfMemory, Global};
use std::marker::Model;

/// A task's state. Contracts see its program, its position and replies, the action of
/// its last check, and the number of further steps for which it has room.
pub struct TaskState {
    cred: Cred,
    calls: Vec<Call>,
    at: u32,
    progress: Option<Progress>,
    handles: Vec<Handle>,
    replies: Vec<Reply>,
    checked: Action,
}

// Written out, so that the drop is proved here once, and not again in each crate above.
impl Drop for TaskState {
    fn drop(self) {
        let TaskState {
            cred: _,
            calls: _,
            at: _,
            progress: _,
            handles: _,
            replies: _,
            checked: _,
        } = self;
    }
}

impl Model for TaskState {
    ghost use Rattle.task_state.specs.Value.{TaskValue};

    ghost Value = { TaskValue };

    ghost use Rattle.task_state.specs.Fields.{IsTaskState, task_of};

    ghost view = { task_of };

    ghost invariant = { IsTaskState };
}

impl TaskState {
    /// A task before its first call. A program of more than 4,294,967,295 calls is refused as if
    /// memory had run out.
    pub fn new(alloc: Global, cred: Cred, calls: Vec<Call>) -> Result<TaskState, OutOfMemory>
        ensures program { IfOk result (λ t. t.program ≡ record {
          cred = cred;
          calls = calls.items;
        }) }
        ensures position { IfOk result (λ t. t.position ≡ start) }
        ensures checked { IfOk result (λ t. t.checked ≡ no_action) }
    {
        if calls.len() > u32::MAX as usize {
            return Err(OutOfMemory);
        }
        // One reply for each call, and the one for which `reserve` makes room after the last.
        let replies = Vec::with_capacity(alloc, calls.len() + 1)?;
        Ok(TaskState {
            cred,
            calls,
            at: 0,
            progress: None,
            handles: Vec::new(alloc),
            replies,
            checked: Action::none(),
        })
    }

    /// The user and group IDs, and the right to administer.
    pub fn cred(&self) -> &Cred
        ensures { result.now ≡ self.now.program.cred }
    {
        &self.cred
    }

    /// The calls of the program.
    pub fn calls(&self) -> &[Call]
        ensures { result.now ≡ self.now.program.calls }
    {
        self.calls.as_slice()
    }

    /// The number of the present or next call.
    pub fn at(&self) -> u32
        ensures { result ≡ self.now.position.call_state.at }
    {
        self.at
    }

    /// The progress of the present call. `None` before its first step.
    pub fn progress(&self) -> Option<Progress>
        ensures { option_map progress_in result ≡ self.now.position.call_state.progress }
    {
        self.progress
    }

    /// The files that the task holds, by name.
    pub fn handles(&self) -> &[Handle]
        ensures { result.now ≡ self.now.position.call_state.handles }
    {
        self.handles.as_slice()
    }

    /// The replies so far.
    pub fn replies(&self) -> &[Reply]
        ensures { result.now ≡ self.now.position.replies }
    {
        self.replies.as_slice()
    }

    /// Whether all calls are answered.
    pub fn is_done(&self) -> bool
        ensures { result ≡ is_done self.now.program self.now.position }
    {
        self.replies.len() == self.calls.len()
    }

    /// The action of the task's last check.
    pub fn checked(&self) -> Action
        ensures { result ≡ self.now.checked }
    {
        self.checked
    }

    /// The semaphore that the first unanswered call waits for. `None` if that call isn't a wait, or
    /// all calls are answered.
    pub fn awaited(&self) -> Option<u8>
        ensures { result ≡ awaited_by
            (slice_get self.now.program.calls (length self.now.position.replies)) }
    {
        match self.calls.get(self.replies.len()) {
            Some(Call::Wait { sem }) => Some(*sem),
            _ => None,
        }
    }

    /// Whether any call of the program appends a rule.
    pub fn appends(&self) -> bool
        ensures { result ≡ list_any appends self.now.program.calls }
    {
        self.calls
            .iter()
            .any(|call| matches!(call, Call::AddRule { .. }))
    }

    // The progress of the call, or of its start if it hasn't begun.
    fn progress_of(&self, call: &Call) -> Progress
        ensures progress { progress_in result
            ≡ progress_of self.now.program.cred.admin call.now self.now.position.call_state }
        ensures step { result.step ≡ step_of self.now.position.call_state.progress }
    {
        match self.progress {
            Some(progress) => progress,
            None => begun(self.cred.admin, self.handles.as_slice(), call),
        }
    }

    /// What the next step asks for. `None` exactly if the program is over.
    pub fn due(&self) -> Option<Ask>
        ensures { result ≡ due_at self.now.program self.now.position.call_state }
    {
        match self.calls.get(self.at as usize) {
            Some(call) => Some(self.progress_of(call).due.ask),
            None => None,
        }
    }

    /// The next step. `None` exactly if the program is over.
    pub fn next(&self) -> Option<Step<'_>>
        ensures { option_map step_in result
            ≡ step_at self.now.program self.now.position.call_state }
    {
        match self.calls.get(self.at as usize) {
            Some(call) => Some(step_by(self.cred.admin, call, self.progress_of(call))),
            None => None,
        }
    }

    /// Whether the program has no further step.
    pub fn is_over(&self) -> bool
        ensures { result ≡ is_over self.now.program self.now.position.call_state }
    {
        match self.calls.get(self.at as usize) {
            Some(_) => false,
            None => true,
        }
    }

    // The number of the next step within its call.
    fn step_number(&self) -> u32
        ensures { result ≡ step_of self.now.position.call_state.progress }
    {
        match &self.progress {
            Some(progress) => progress.step,
            None => 0,
        }
    }

    /// The task, call and step number of the next step, for the task with this number.
    #[tactic(auto, using(crate::proofs::Numbers::number_is))]
    pub fn who(&self, task: u32) -> Who
        ensures { result ≡ who_at task self.now.program self.now.position.call_state }
    {
        let step = match self.calls.get(self.at as usize) {
            Some(_) => self.step_number(),
            None => 0,
        };
        Who {
            task,
            call: self.at,
            step,
        }
    }

    /// The handle with this name, if the task has one.
    pub fn handle_of(&self, name: Name) -> Option<Handle>
        ensures { result ≡ handle_of name self.now.position.call_state.handles }
    {
        handle_of(name, self.handles.as_slice())
    }

    /// Makes room for the next step. A call of more than 4,294,967,295 steps is refused as if
    /// memory had run out. The task is unchanged, even if memory runs out.
    pub fn reserve(&mut self) -> Result<(), OutOfMemory>
        ensures room { OnOk result (1 ≤ self.new.spare) }
        ensures same { IsSameTask self.old self.new }
    {
        let step = match self.progress {
            Some(progress) => progress.step,
            None => 0,
        };
        if step == u32::MAX {
            return Err(OutOfMemory);
        }
        self.replies.reserve(1)?;
        self.handles.reserve(1)
    }

    /// Takes the outcome of the due step, and for a check its action, in room that was reserved.
    /// `place` is the place of the step's event or rule. The last step of a call gives the reply. A
    /// task whose program is over is unchanged.
    pub fn resume(&mut self, mode: Mode, told: &Told, place: u64, action: Option<&Action>)
        requires { 1 ≤ self.old.spare }
        ensures program { self.new.program ≡ self.old.program }
        ensures position { (rules : ℕ)
            → self.new.position ≡ resume mode self.old.program self.old.position
            (record {
              place = place;
              told = told.now;
              action = given (option_copied action.entry);
              rules = rules;
            }) }
        ensures checked { self.new.checked
            ≡ unwrap_or (option_copied action.entry) self.old.checked }
    {
        let advance = self.advance(mode, told, place, action);
        self.checked = latest(action, self.checked);
        match advance {
            Some(Advance::On(progress)) => self.progress = Some(progress),
            Some(Advance::Over(answer)) => {
                self.at += 1;
                self.progress = None;
                apply_answer(&mut self.handles, &answer);
                self.replies.push_reserved(answer.reply);
            }
            None => {}
        }
    }

    // The effect of the due step's outcome on its call. `None` if the program is over.
    fn advance(
        &self,
        mode: Mode,
        told: &Told,
        place: u64,
        action: Option<&Action>,
    ) -> Option<Advance>
        requires { 1 ≤ self.now.spare }
        ensures due { OnSome result
            (self.now.position.call_state.at < length self.now.program.calls) }
        ensures position { (rules : ℕ) → position_after self.now.position result
            ≡ resume mode self.now.program self.now.position (record {
              place = place;
              told = told.now;
              action = given (option_copied action.entry);
              rules = rules;
            }) }
    {
        match self.calls.get(self.at as usize) {
            Some(call) => Some(advance_by(call, self.progress_of(call), mode, told, place, action)),
            None => None,
        }
    }

    /// Turns the task into its record for the end of a run.
    pub fn end(self) -> EndedTask
        ensures done { result.done ≡ is_done self.program self.position }
        ensures replies { result.replies ≡ self.position.replies }
    {
        let done = self.is_done();
        let TaskState {
            cred: _,
            calls: _,
            at: _,
            progress: _,
            handles: _,
            replies,
            checked: _,
        } = self;
        EndedTask { done, replies }
    }
}

// The action of the last check, this step included.
fn latest(action: Option<&Action>, earlier: Action) -> Action
    ensures { result ≡ unwrap_or (option_copied action.entry) earlier }
{
    match action {
        Some(action) => *action,
        None => earlier,
    }
}
