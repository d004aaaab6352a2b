// The lines of tasks, and the end of a report.

ghost use Rattle.std.specs.Prelude.{◌≡◌, map, OnOk};
ghost use Rattle.report_draft.specs.Draft as spec;
ghost use Rattle.report_draft.specs.Makes.{Makes};

use crate::draft::{Draft, Stage};
use crate::fault::LineErr;
use crate::stages::next_stage;
use report_lines::{Reply, Report, Span, Task, is_end, reply_of, task_of};
use std::alloc::{AllocError as OutOfMemory, Global};
use std::mem;

impl Draft {
    /// The replies of the task that is being read have been read.
    pub(crate) fn close_task(&mut self, alloc: Global, done: bool) -> Result<(), OutOfMemory>
        ensures { OnOk result (self.new ≡ spec.task_closed done self.old) }
    {
        let replies = mem::replace(&mut self.replies, Vec::new(alloc));
        self.tasks.push(Task { done, replies })?;
        self.stage = Stage::Inodes;
        Ok(())
    }

    pub(crate) fn with_task(&mut self, words: &[&[u8]]) -> Result<(), LineErr>
        ensures { Makes result (spec.with_task (map (λ w. w.now) words.now) self.old) self.new }
    {
        let Some((number, done)) = task_of(words) else {
            return Err(LineErr::Refused);
        };
        if number as usize != self.tasks.len() {
            return Err(LineErr::Refused);
        }
        self.stage = Stage::Replies(done);
        Ok(())
    }

    pub(crate) fn with_reply(&mut self, line: Span, words: &[&[u8]]) -> Result<(), LineErr>
        ensures { Makes result (spec.with_reply line (map (λ w. w.now) words.now) self.old)
            self.new }
    {
        let Some((call, ok)) = reply_of(words) else {
            return Err(LineErr::Refused);
        };
        if call as usize != self.replies.len() {
            return Err(LineErr::Refused);
        }
        self.replies.push(Reply { line, ok })?;
        Ok(())
    }

    // The report that has been read. Its parts are taken out of the draft.
    fn take_report(&mut self, alloc: Global) -> Report
        ensures report { result ≡ spec.report_of self.old }
        ensures rest { self.new ≡ spec.emptied self.old }
    {
        Report {
            run: self.run,
            violations: self.violations,
            entries: mem::replace(&mut self.entries, Vec::new(alloc)),
            registers: mem::replace(&mut self.registers, Vec::new(alloc)),
            rules: mem::replace(&mut self.rules, Vec::new(alloc)),
            inodes: mem::replace(&mut self.inodes, Vec::new(alloc)),
            tasks: mem::replace(&mut self.tasks, Vec::new(alloc)),
        }
    }

    pub(crate) fn with_end(&mut self, alloc: Global, words: &[&[u8]]) -> Result<(), LineErr>
        ensures { Makes result (spec.with_end (map (λ w. w.now) words.now) self.old) self.new }
    {
        if !is_end(words) {
            return Err(LineErr::Refused);
        }
        let report = self.take_report(alloc);
        self.done.push(report)?;
        self.stage = next_stage(self.more);
        self.more = self.more.saturating_sub(1);
        Ok(())
    }
}
