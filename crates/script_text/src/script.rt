ghost use Rattle.script_text.specs.Forms.{IsScript};

use crate::blocks::{FileBlock, TaskBlock};
use call_steps::Ending;
use hash_algos::{Algo, Digest};
use inode_meta::{Mode, Template};
use policy_text::{Policy, Super};
use std::marker::Model;
use xattr_store::Bytes;

/// A script: settings, file systems, files, rules, tasks, and how the tasks are run.
///
/// Contracts see a record of these fields. The invariant `IsScript` covers the form of each part,
/// the lengths and the limits, and that the `place` and `versions` of each image are those of its
/// file system.
#[derive(Drop)]
pub struct Script {
    /// The default algorithm of labels and entries (`hash`).
    pub hash: Algo,
    /// The template of an entry whose rule names none (`template`).
    pub template: Template,
    /// The digest of the first entry (`boot`): of SHA-1 under the template `ima`, else of `hash`.
    pub boot: Digest,
    /// The appraisal mode (`appraise`).
    pub mode: Mode,
    /// EVM's key of 1 to 128 bytes, if there is one (`evm`). The kernel pads its own with zeros to
    /// 128 bytes before the HMAC.
    pub key: Option<Bytes>,
    /// The names that EVM protects besides the five, in the order of their lines (`evm_xattrs`).
    pub added: Vec<Bytes>,
    /// Whether the list of names is locked (`evm_xattrs .`).
    pub locked: bool,
    /// The format of the HMAC's message, 1 or 2 (`evm_format`).
    pub format: u8,
    /// The file systems, in the order of their lines (`fs`).
    pub supers: Vec<Super>,
    /// The files, in the order of their blocks (`file` and `absent`).
    pub files: Vec<FileBlock>,
    /// The rules in force as the run begins (`rule`).
    pub rules: Policy,
    /// The tasks, in the order of their blocks (`task`).
    pub tasks: Vec<TaskBlock>,
    /// How the tasks are run: by a schedule, in rounds or on threads.
    pub ending: Ending,
}

impl Model for Script {
    ghost use Rattle.script_text.specs.ScriptValue.{ScriptValue};

    ghost Value = { ScriptValue };

    ghost use Rattle.script_text.specs.ScriptInside.{script_value};
    ghost use Rattle.script_text.specs.Forms.{IsScript};

    ghost view = { script_value };

    ghost invariant = { λ s. IsScript (script_value s) };
}

impl Script {
    /// The invariant of every script.
    pub fn keeps(&self)
        ensures { IsScript self.now }
    {
        let _ = &self.format;
    }
}
