ghost use Rattle.std.specs.Prelude.{◌≡◌, IfOk, IsTrue};
ghost use Rattle.policy_rules.specs.RuleValue.{is_named_template};

use evm_verify::Evm;
use hash_algos::Algo;
use inode_meta::{Mode, Template};
use std::alloc::AllocError as OutOfMemory;

/// The settings of a script that apply to all inodes.
#[derive(Drop)]
pub struct Settings {
    /// The algorithm of a collection if the label names none (the boot parameter `ima_hash=`).
    pub hash: Algo,
    /// The template of an entry if the rule names none (the boot parameter `ima_template=`). It is
    /// never `ima-buf`, which is for buffers only.
    pub template: Template,
    /// The appraisal mode (the boot parameter `ima_appraise=`).
    pub mode: Mode,
    /// EVM, with its key, protected names and format.
    pub evm: Evm,
    ghost for_files: { IsTrue (is_named_template template) },
}

impl Settings {
    /// A copy with equal settings, in its own memory.
    pub fn copy(&self) -> Result<Settings, OutOfMemory>
        ensures { IfOk result (λ copy. copy ≡ self.now) }
    {
        Ok(Settings {
            hash: self.hash,
            template: self.template,
            mode: self.mode,
            evm: self.evm.copy()?,
        })
    }
}
