// Reports while their lines are read.

ghost use Rattle.std.specs.Prelude.{◌≡◌, map, OnOk};
ghost use Rattle.report_draft.specs.Draft as spec;
ghost use Rattle.report_draft.specs.Makes.{Makes};

use crate::fault::LineErr;
use crate::stages::{begins, begins_with_number};
use report_lines::{Event, Inode, InodeHead, Reply, Report, RunEnd, Span, Task};
use std::alloc::{AllocError as OutOfMemory, Global};
use std::marker::Model;

/// What the next line of a text may be.
#[derive(Clone, Copy)]
pub enum Stage {
    Version,
    Run,
    List,
    /// So many entries are left.
    Entries(u32),
    /// A register above the last one, the appended rules, an inode, a task, or the end.
    Registers(Option<u32>),
    /// The line of SHA-256 for this register.
    Second(u32),
    /// So many rules are left, after the one of this place.
    Rules(u32, Option<u32>),
    /// An inode, a task, or the end.
    Inodes,
    Force,
    Attrs,
    /// So many attributes are left.
    Names(u32),
    Journal,
    /// So many events are left.
    Events(u32),
    /// A reply, another task, or the end. Whether the task is done.
    Replies(bool),
    Over,
}

/// Reports while their lines are read.
#[derive(Drop)]
pub struct Draft {
    pub stage: Stage,
    pub run: RunEnd,
    pub violations: u32,
    pub entries: Vec<Span>,
    pub registers: Vec<Span>,
    pub rules: Vec<Span>,
    pub inodes: Vec<Inode>,
    pub tasks: Vec<Task>,
    /// The inode that is being read.
    pub head: InodeHead,
    pub attrs: Vec<Span>,
    pub events: Vec<Event>,
    /// The replies of the task that is being read.
    pub replies: Vec<Reply>,
    /// The reports that have been read.
    pub done: Vec<Report>,
    /// How many reports are wanted after the one that is being read.
    pub more: u32,
}

impl Model for Draft {
    ghost use Rattle.report_draft.specs.Draft as spec;

    ghost Value = { spec.Draft };

    ghost use Rattle.report_draft.specs.DraftInside.{draft_value};

    ghost view = { draft_value };
}

// The line of an event but the first has at least so many bytes.
const SHORTEST: usize = 22;

const NO_SPAN: Span = Span { at: 0, len: 0 };

const NO_HEAD: InodeHead = InodeHead {
    line: NO_SPAN,
    force: NO_SPAN,
    writers: 0,
    readers: 0,
    execs: 0,
};

impl Draft {
    /// The draft before the first line.
    pub fn new(alloc: Global, more: u32) -> Draft
        ensures { result ≡ spec.start more }
    {
        Draft {
            stage: Stage::Version,
            run: RunEnd::Done,
            violations: 0,
            entries: Vec::new(alloc),
            registers: Vec::new(alloc),
            rules: Vec::new(alloc),
            inodes: Vec::new(alloc),
            tasks: Vec::new(alloc),
            head: NO_HEAD,
            attrs: Vec::new(alloc),
            events: Vec::new(alloc),
            replies: Vec::new(alloc),
            done: Vec::new(alloc),
            more,
        }
    }

    /// Makes room for the journal whose events come next, as many of them as so many bytes can
    /// have, so that it isn't moved while it grows.
    pub fn make_room(&mut self, bytes: usize) -> Result<(), OutOfMemory>
        ensures { OnOk result (self.new ≡ self.old) }
    {
        match self.stage {
            Stage::Events(left) if self.events.is_empty() => {
                let most = bytes / SHORTEST + 1;
                self.events.reserve_exact(most.min(left as usize))
            }
            _ => Ok(()),
        }
    }

    /// Whether the reports that are wanted have been read.
    pub fn is_over(&self) -> bool
        ensures { result ≡ spec.is_over self.now }
    {
        match self.stage {
            Stage::Over => true,
            _ => false,
        }
    }

    /// The reports that have been read.
    pub fn finish(self) -> Vec<Report>
        ensures { result.items ≡ self.done }
    {
        self.done
    }

    /// Takes one more line, by its words. A draft that refused a line must not be used any further.
    #[tactic(auto, unfolding(crate::specs::Draft::with_words))]
    pub fn with_words(&mut self, alloc: Global, line: Span, words: &[&[u8]]) -> Result<(), LineErr>
        ensures { Makes result
            (spec.with_words self.old.stage line (map (λ w. w.now) words.now) self.old) self.new }
    {
        match self.stage {
            Stage::Version => self.with_version(words),
            Stage::Run => self.with_run(words),
            Stage::List => self.with_list(words),
            Stage::Entries(left) => self.with_entry(left, line, words),
            Stage::Registers(last) => self.with_registers(alloc, last, line, words),
            Stage::Second(pcr) => self.with_sha256(pcr, line, words),
            Stage::Rules(left, last) => self.with_rule(left, last, line, words),
            Stage::Inodes => self.with_block(alloc, line, words),
            Stage::Force => self.with_force(line, words),
            Stage::Attrs => self.with_attrs(words),
            Stage::Names(left) => self.with_name(left, line, words),
            Stage::Journal => self.with_journal(alloc, words),
            Stage::Events(left) => self.with_event(alloc, left, line, words),
            Stage::Replies(done) => self.with_replies(alloc, done, line, words),
            Stage::Over => Err(LineErr::Refused),
        }
    }

    // After the inodes: a task, or the end.
    fn with_last(&mut self, alloc: Global, words: &[&[u8]]) -> Result<(), LineErr>
        ensures { Makes result (spec.with_last (map (λ w. w.now) words.now) self.old) self.new }
    {
        if begins(b"task", words) {
            self.with_task(words)
        } else {
            self.with_end(alloc, words)
        }
    }

    // A block of an inode, a task, or the end.
    fn with_block(&mut self, alloc: Global, line: Span, words: &[&[u8]]) -> Result<(), LineErr>
        ensures { Makes result (spec.with_block line (map (λ w. w.now) words.now) self.old)
            self.new }
    {
        if begins(b"inode", words) {
            self.with_inode(line, words)
        } else {
            self.with_last(alloc, words)
        }
    }

    // A register, the appended rules, or a block.
    fn with_registers(
        &mut self,
        alloc: Global,
        last: Option<u32>,
        line: Span,
        words: &[&[u8]],
    ) -> Result<(), LineErr>
        ensures { Makes result (spec.with_registers last line (map (λ w. w.now) words.now) self.old)
            self.new }
    {
        if begins(b"pcr", words) {
            self.with_sha1(last, line, words)
        } else if begins(b"appended", words) {
            self.with_appended(words)
        } else {
            self.with_block(alloc, line, words)
        }
    }

    // A reply, or what comes after the task.
    fn with_replies(
        &mut self,
        alloc: Global,
        done: bool,
        line: Span,
        words: &[&[u8]],
    ) -> Result<(), LineErr>
        ensures { Makes result (spec.with_replies done line (map (λ w. w.now) words.now) self.old)
            self.new }
    {
        if begins_with_number(words) {
            self.with_reply(line, words)
        } else {
            self.close_task(alloc, done)?;
            self.with_last(alloc, words)
        }
    }
}
