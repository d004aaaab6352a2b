//! A script while its lines are read.

ghost use Rattle.std.specs.Prelude.{◌≡◌};
ghost use Rattle.script_text.specs.Draft.{start};
ghost use Rattle.script_text.specs.Forms.{IsScript};
ghost use Rattle.script_text.specs.Heads.{is_over, stands};

use crate::blocks::{FileBlock, TaskBlock};
use crate::head::{Head, in_order};
use crate::script::Script;
use call_lines::Paths;
use call_steps::Ending;
use hash_algos::{Algo, Digest};
use inode_meta::{Mode, Template};
use policy_text::{Policy, Super};
use std::alloc::Global;
use std::marker::Model;
use xattr_store::Bytes;

// The ranks of the blocks of files and of tasks, in which attributes and calls follow.
const FILES: u8 = 10;

const TASKS: u8 = 12;

// The rank of an ending line.
const OVER: u8 = 13;

/// A script so far, with the state that its next line depends on.
#[derive(Drop)]
pub struct Draft {
    pub hash: Algo,
    pub template: Template,
    pub boot: Digest,
    pub mode: Mode,
    pub key: Option<Bytes>,
    pub added: Vec<Bytes>,
    pub locked: bool,
    pub format: u8,
    pub supers: Vec<Super>,
    pub files: Vec<FileBlock>,
    pub rules: Policy,
    pub tasks: Vec<TaskBlock>,
    pub ending: Ending,
    /// The rank of the last line.
    pub at: u8,
    /// Whether the last file is present and has no `seal` line yet.
    pub unsealed: bool,
    /// How many of the last file's attribute lines count towards the limit.
    pub counted: usize,
    /// The number of calls of all tasks.
    pub calls: usize,
    /// The number of rules that the tasks append.
    pub appended: usize,
    /// The total length of the values that count towards the limit.
    pub sum: usize,
    /// The paths of the files, in order.
    pub paths: Paths,
}

impl Model for Draft {
    ghost use Rattle.script_text.specs.Draft as spec;

    ghost Value = { spec.Draft };

    ghost use Rattle.script_text.specs.DraftInside.{draft_value};

    ghost view = { draft_value };

    ghost use Rattle.std.specs.Prelude.{◌≤◌, length};

    ghost invariant = { λ d. (length d.supers.items ≤ 16) × (length d.tasks.items ≤ 64) };
}

impl Draft {
    /// The script before its first line.
    pub fn new(alloc: Global) -> Draft
        ensures { result ≡ start }
    {
        Draft {
            hash: Algo::Sha256,
            template: Template::ImaNg,
            boot: Digest::zeros(Algo::Sha256),
            mode: Mode::Off,
            key: None,
            added: Vec::new(alloc),
            locked: false,
            format: 1,
            supers: Vec::new(alloc),
            files: Vec::new(alloc),
            rules: Policy::new(alloc),
            tasks: Vec::new(alloc),
            ending: Ending::Rounds,
            at: 0,
            unsealed: false,
            counted: 0,
            calls: 0,
            appended: 0,
            sum: 0,
            paths: Paths::new(alloc),
        }
    }

    /// Whether a line of this kind can follow the lines before it.
    pub fn stands(&self, head: Head) -> bool
        ensures { result ≡ stands head self.now }
    {
        match head {
            Head::Imakern => self.at == 0,
            Head::Attr | Head::Seal => self.at == FILES && self.unsealed,
            Head::Call(_) => self.at == TASKS,
            _ => in_order(head.rank(), head.repeats(), self.at),
        }
    }

    /// Whether an ending line has been read.
    pub fn is_over(&self) -> bool
        ensures { result ≡ is_over self.now }
    {
        self.at == OVER
    }

    /// The script, once its text has ended.
    pub fn finish(self) -> Script
        requires { IsScript self.script }
        ensures { result ≡ self.script }
    {
        Script {
            hash: self.hash,
            template: self.template,
            boot: self.boot,
            mode: self.mode,
            key: self.key,
            added: self.added,
            locked: self.locked,
            format: self.format,
            supers: self.supers,
            files: self.files,
            rules: self.rules,
            tasks: self.tasks,
            ending: self.ending,
        }
    }
}
