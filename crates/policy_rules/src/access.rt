ghost use Rattle.std.specs.Prelude.{◌≡◌};
ghost use Rattle.policy_rules.specs.Accesses.{func_of_purpose, mask_of_purpose};
ghost use Rattle.policy_rules.specs.ActionValue.{no_action};

use crate::rule::Func;
use hash_algos::AlgoSet;
use inode_meta::{Cred, DEFAULT_PCR, Need, Template};
use std::marker::Model;
use xattr_store::Bytes;

/// A file system, by the properties that a rule can test.
#[derive(Drop)]
pub struct Super {
    /// Its magic number (`s_magic`).
    pub magic: u64,
    /// Its UUID, most significant byte first.
    pub uuid: u128,
    /// The name of its type, for example `ext4`.
    pub name: Bytes,
    /// Whether it keeps a change counter for each inode (`i_version`).
    pub versions: bool,
}

/// The execute bit of an access mask, as the kernel numbers it.
pub const MAY_EXEC: u8 = 1;

/// The write bit of an access mask.
pub const MAY_WRITE: u8 = 2;

/// The read bit of an access mask.
pub const MAY_READ: u8 = 4;

/// The append bit of an access mask.
pub const MAY_APPEND: u8 = 8;

const _: () = prove!(MAY_APPEND == 8);

/// What a task wants to do with a file when the policy is consulted. It determines the hook and the
/// access mask; [`Func::slot`] gives the slot of the verdict.
#[derive(Clone, Copy)]
pub enum Purpose {
    /// The file is opened for reading only.
    Read,
    /// The file is opened for writing only.
    Write,
    /// The file is opened for reading and writing.
    ReadWrite,
    /// The file is mapped for execution.
    Map,
    /// The file is executed.
    Exec,
    /// The kernel reads the file as a module.
    Module,
    /// The kernel reads the file as firmware.
    Firmware,
}

impl Purpose {
    /// The hook that consults the policy for this purpose.
    pub fn func(self) -> Func
        ensures { result ≡ func_of_purpose self }
    {
        match self {
            Purpose::Read | Purpose::Write | Purpose::ReadWrite => Func::FileCheck,
            Purpose::Map => Func::MmapCheck,
            Purpose::Exec => Func::BprmCheck,
            Purpose::Module => Func::ModuleCheck,
            Purpose::Firmware => Func::FirmwareCheck,
        }
    }

    /// The access mask for this purpose.
    pub fn mask(self) -> u8
        ensures { result ≡ mask_of_purpose self }
    {
        match self {
            Purpose::Read | Purpose::Module | Purpose::Firmware => MAY_READ,
            Purpose::Write => MAY_WRITE,
            Purpose::ReadWrite => MAY_READ | MAY_WRITE,
            Purpose::Map | Purpose::Exec => MAY_EXEC,
        }
    }
}

/// An access to a file, against which rules are matched.
#[derive(Drop)]
pub struct Access<'a> {
    /// The hook that consults the policy.
    pub func: Func,
    /// The requested access, as bits: [`MAY_EXEC`], [`MAY_WRITE`], [`MAY_READ`], [`MAY_APPEND`].
    pub mask: u8,
    /// The credentials of the accessing task.
    pub cred: &'a Cred,
    /// The inode's owner at the time of the check.
    pub owner: u32,
    /// The inode's group at the time of the check.
    pub group: u32,
    /// The file system that the inode is on.
    pub place: &'a Super,
}

/// What a policy requires for an access, in each family of rules.
///
/// The register is below 24. If the access isn't measured, the register is 10, the default, and
/// there is no template. If it isn't appraised, any kind of label will do and no algorithms are
/// given. Contracts see a record of these fields, and the invariant is `IsAction`.
#[derive(Clone, Copy)]
pub struct Action {
    /// Whether the file is measured: an entry is added to the measurement list.
    pub measure: bool,
    /// The register that the entry extends.
    pub pcr: u8,
    /// Whether the file is appraised.
    pub appraise: bool,
    /// Whether the access is audited.
    pub audit: bool,
    /// Whether the file's digest is collected for use outside of IMA.
    pub hash: bool,
    /// The template of the entry, if the rule names one.
    pub template: Option<Template>,
    /// The kind of label that appraisal requires.
    pub need: Need,
    /// The algorithms that the file's digest may have, if the rule lists them.
    pub algos: Option<AlgoSet>,
}

impl Model for Action {
    ghost use Rattle.policy_rules.specs.ActionValue.{ActionValue, IsAction};

    ghost Value = { ActionValue };

    ghost use Rattle.policy_rules.specs.ActionInside.{action_value, action_inside};

    ghost view = { action_value };

    ghost invariant = { λ a. IsAction (action_value a) };

    ghost inverse = { action_inside };
}

impl Action {
    /// The action if no rule requires anything.
    pub fn none() -> Action
        ensures { result ≡ no_action }
    {
        Action {
            measure: false,
            pcr: DEFAULT_PCR,
            appraise: false,
            audit: false,
            hash: false,
            template: None,
            need: Need::Any,
            algos: None,
        }
    }
}
