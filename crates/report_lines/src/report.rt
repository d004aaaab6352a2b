// Reports.

use report_words::{Event, Span};
use std::marker::Model;

/// How a run ended.
#[derive(Clone, Copy)]
pub enum RunEnd {
    Done,
    Unfinished,
    Stuck,
}

/// What stands before the journal of an inode: its line with the number and the path, the line of
/// its digest in force, and its counts at the end of the run.
#[derive(Clone, Copy)]
pub struct InodeHead {
    pub line: Span,
    pub force: Span,
    pub writers: u32,
    pub readers: u32,
    pub execs: u32,
}

/// An inode with its journal.
#[derive(Drop)]
pub struct Inode {
    pub head: InodeHead,
    /// The lines of the attributes.
    pub attrs: Vec<Span>,
    pub events: Vec<Event>,
}

impl Model for Inode {
    ghost use Rattle.report_lines.specs.Report.{InodeValue};

    ghost Value = { InodeValue };

    ghost view = { λ i. record {
      head = i.head;
      attrs = i.attrs.items;
      events = i.events.items;
    } };
}

/// The reply to a call, whose number is the index of the reply in its task.
#[derive(Clone, Copy)]
pub struct Reply {
    pub line: Span,
    /// Whether it begins with `ok`.
    pub ok: bool,
}

/// A task with the replies to its answered calls.
#[derive(Drop)]
pub struct Task {
    pub done: bool,
    pub replies: Vec<Reply>,
}

impl Model for Task {
    ghost use Rattle.report_lines.specs.Report.{TaskValue};

    ghost Value = { TaskValue };

    ghost view = { λ t. record { done = t.done; replies = t.replies.items } };
}

/// A report.
#[derive(Drop)]
pub struct Report {
    pub run: RunEnd,
    pub violations: u32,
    /// The lines of the measurement list.
    pub entries: Vec<Span>,
    /// The lines of the registers, that of SHA-1 before that of SHA-256.
    pub registers: Vec<Span>,
    /// The lines of the appended rules.
    pub rules: Vec<Span>,
    pub inodes: Vec<Inode>,
    pub tasks: Vec<Task>,
}

impl Model for Report {
    ghost use Rattle.report_lines.specs.Report.{ReportValue};

    ghost Value = { ReportValue };

    ghost view = { λ r. record {
      run = r.run;
      violations = r.violations;
      entries = r.entries.items;
      registers = r.registers.items;
      rules = r.rules.items;
      inodes = r.inodes.items;
      tasks = r.tasks.items;
    } };
}
