//! Rules, the blocks of tasks, and the ending line.

ghost use Rattle.std.specs.Prelude.{◌≡◌, ◌≤◌, length, map, OnOk};
ghost use Rattle.std.specs.Option.{option_copied};
ghost use Rattle.script_words.specs.Gives.{LineMakes};
ghost use Rattle.script_text.specs.Draft.{change_last};
ghost use Rattle.script_text.specs.Tasks.{appends, call_bytes, ended, has_room, task_with, value_length, with_call, with_call_line, with_cred, with_rounds, with_rule, with_task, with_threads};

use crate::blocks::{Calls, TaskBlock};
use crate::draft::Draft;
use crate::files::pop_last;
use call_lines::{CallWord, call_of};
use call_steps::{Call, Ending};
use inode_meta::Cred;
use policy_text::RULES;
use script_fields::{cred_in, sum_of, threads_of};
use script_words::{LineCause, LineErr, rule_of};
use std::alloc::{AllocError as OutOfMemory, Global};
use xattr_store::Bytes;

// The most tasks of a script, and the most calls of all tasks.
const TASKS: usize = 64;

const CALLS: usize = 32_768;

impl Draft {
    // Whether there is room for one more rule, of the script or of a task.
    fn has_room(&self) -> bool
        ensures { result ≡ has_room self.now }
    {
        self.appended < RULES - self.rules.rules().len()
    }

    /// Reads the line `rule TEXT`, which adds a rule.
    #[tactic(auto, unfolding(crate::specs::Tasks::with_rule))]
    pub fn with_rule(&mut self, alloc: Global, text: Option<&[u8]>) -> Result<(), LineErr>
        ensures { LineMakes result (with_rule (option_copied text.entry) self.old) self.new }
    {
        let rule = rule_of(alloc, text)?;
        if !self.has_room() {
            return Err(LineErr::Refused(LineCause::TooMany));
        }
        self.rules.push(rule)?;
        Ok(())
    }

    /// Reads the line `task uid=NUM euid=NUM gid=NUM egid=NUM`, optionally followed by `admin`.
    #[tactic(auto, unfolding(crate::specs::Tasks::with_task))]
    pub fn with_task(&mut self, alloc: Global, fields: &[&[u8]]) -> Result<(), LineErr>
        ensures { LineMakes result (with_task (map (λ w. w.now) fields.now) self.old) self.new }
    {
        let cred = cred_in(fields).ok_or(LineCause::BadField)?;
        self.with_cred(alloc, cred)
    }

    #[tactic(auto, unfolding(crate::specs::Tasks::with_cred))]
    fn with_cred(&mut self, alloc: Global, cred: Cred) -> Result<(), LineErr>
        ensures { LineMakes result (with_cred cred self.old) self.new }
    {
        if self.tasks.len() >= TASKS {
            return Err(LineErr::Refused(LineCause::TooMany));
        }
        let calls = Calls::from_vec(Vec::new(alloc));
        self.tasks.push(TaskBlock { cred, calls })?;
        Ok(())
    }

    /// Reads the line of a call, in the block of the last task.
    #[tactic(auto, unfolding(crate::specs::Tasks::with_call_line))]
    pub fn with_call_line(
        &mut self,
        alloc: Global,
        word: CallWord,
        text: Option<&[u8]>,
        fields: &[&[u8]],
    ) -> Result<(), LineErr>
        ensures { LineMakes result
            (with_call_line word (option_copied text.entry) (map (λ w. w.now) fields.now) self.old)
            self.new }
    {
        let call = call_of(alloc, word, text, fields, &self.paths)?;
        self.with_call(call)
    }

    #[tactic(auto, unfolding(crate::specs::Tasks::with_call))]
    fn with_call(&mut self, call: Call) -> Result<(), LineErr>
        ensures { LineMakes result (with_call call self.old) self.new }
    {
        if self.calls >= CALLS {
            return Err(LineErr::Refused(LineCause::TooMany));
        }
        let appends = appends(&call);
        if appends && !self.has_room() {
            return Err(LineErr::Refused(LineCause::TooMany));
        }
        let Some(sum) = sum_of(self.sum, call_bytes(&call)) else {
            return Err(LineErr::Refused(LineCause::TooLarge));
        };
        call_on_last(&mut self.tasks, call)?;
        self.calls += 1;
        if appends {
            self.appended += 1;
        }
        self.sum = sum;
        Ok(())
    }

    /// Sets how the tasks are run.
    pub fn end_with(&mut self, ending: Ending)
        ensures { self.new ≡ ended ending self.old }
    {
        self.ending = ending;
    }

    /// Reads the line `rounds`, which ends the script.
    #[tactic(auto, unfolding(crate::specs::Tasks::with_rounds))]
    pub fn with_rounds(&mut self, fields: &[&[u8]]) -> Result<(), LineErr>
        ensures { LineMakes result (with_rounds (map (λ w. w.now) fields.now) self.old) self.new }
    {
        if !fields.is_empty() {
            return Err(LineErr::Refused(LineCause::BadField));
        }
        self.end_with(Ending::Rounds);
        Ok(())
    }

    /// Reads the line `threads NUM`, which ends the script.
    #[tactic(auto, unfolding(crate::specs::Tasks::with_threads))]
    pub fn with_threads(&mut self, fields: &[&[u8]]) -> Result<(), LineErr>
        ensures { LineMakes result (with_threads (map (λ w. w.now) fields.now) self.old) self.new }
    {
        let [number] = fields else {
            return Err(LineErr::Refused(LineCause::BadField));
        };
        let threads = threads_of(number).ok_or(LineCause::BadField)?;
        self.end_with(Ending::Threads(threads));
        Ok(())
    }
}

// Appends a call to those of the last task.
#[tactic(auto, unfolding(crate::specs::Draft::change_last))]
fn call_on_last(tasks: &mut Vec<TaskBlock>, call: Call) -> Result<(), OutOfMemory>
    ensures ok { OnOk result (tasks.new.items ≡ change_last (task_with call) tasks.old.items) }
    ensures few { length tasks.new.items ≤ length tasks.old.items }
{
    match pop_last(tasks) {
        Some(TaskBlock { cred, calls }) => {
            let calls = calls.with(call)?;
            tasks.push(TaskBlock { cred, calls })?;
            Ok(())
        }
        None => Ok(()),
    }
}

fn value_length(value: &Option<Bytes>) -> usize
    ensures { result ≡ value_length value.now }
{
    match value {
        Some(bytes) => bytes.as_slice().len(),
        None => 0,
    }
}

// The number of bytes of a call that count in the sum.
fn call_bytes(call: &Call) -> usize
    ensures { result ≡ call_bytes call.now }
{
    match call {
        Call::Write { bytes, .. } => bytes.as_slice().len(),
        Call::SetAttr { value, .. } => value_length(value.get()),
        _ => 0,
    }
}

fn appends(call: &Call) -> bool
    ensures { result ≡ appends call.now }
{
    match call {
        Call::AddRule { .. } => true,
        _ => false,
    }
}
