ghost use Rattle.std.specs.Prelude.{◌≡◌, IfOk};
ghost use Rattle.policy_rules.specs.Accesses.{slot_of};
ghost use Rattle.policy_rules.specs.Tests.{id_holds, mask_holds};

use hash_algos::AlgoSet;
use inode_meta::{Need, Slot, Template};
use std::alloc::{AllocError as OutOfMemory, Global};
use std::marker::Model;
use xattr_store::Bytes;

/// What a rule does with the accesses that it matches. The eight actions form four families of two:
/// to do a thing, and not to do it.
#[derive(Clone, Copy, PartialEq, Eq)]
pub enum Act {
    /// `measure`: add an entry to the measurement list.
    Measure,
    /// `dont_measure`: don't measure, whatever later rules say.
    DontMeasure,
    /// `appraise`: require a label that fits the file.
    Appraise,
    /// `dont_appraise`: don't appraise, whatever later rules say.
    DontAppraise,
    /// `audit`: audit the access.
    Audit,
    /// `dont_audit`: don't audit, whatever later rules say.
    DontAudit,
    /// `hash`: collect the file's digest only.
    Hash,
    /// `dont_hash`: don't collect the digest for `hash`, whatever later rules say.
    DontHash,
}

/// The hook that consults the policy (the kernel's `enum ima_hooks`), by its main name.
#[derive(Clone, Copy, PartialEq, Eq)]
pub enum Func {
    /// `BPRM_CHECK`: a file is executed.
    BprmCheck,
    /// `MMAP_CHECK`, also named `FILE_MMAP`: a file is mapped for execution.
    MmapCheck,
    /// `FILE_CHECK`, also named `PATH_CHECK`: a file is opened.
    FileCheck,
    /// `CREDS_CHECK`: a file is executed, matched against the new credentials.
    CredsCheck,
    /// `MODULE_CHECK`: a kernel module is loaded.
    ModuleCheck,
    /// `FIRMWARE_CHECK`: firmware is loaded.
    FirmwareCheck,
    /// `KEXEC_KERNEL_CHECK`: a kernel image is loaded for kexec.
    KexecKernelCheck,
    /// `KEXEC_INITRAMFS_CHECK`: an initramfs is loaded for kexec.
    KexecInitramfsCheck,
    /// `KEXEC_CMDLINE`: the command line of a kernel loaded for kexec.
    KexecCmdline,
    /// `KEY_CHECK`: a key is loaded onto a keyring.
    KeyCheck,
    /// `CRITICAL_DATA`: a buffer of kernel data that is critical for integrity.
    CriticalData,
    /// `SETXATTR_CHECK`: a digest is written to `security.ima`.
    SetxattrCheck,
    /// `POLICY_CHECK`: a policy file is loaded.
    PolicyCheck,
    /// `MMAP_CHECK_REQPROT`: a file is mapped and execution is requested.
    MmapCheckReqprot,
}

impl Func {
    /// The slot of the kernel's inode cache that has the hook's verdict: a function without a slot
    /// of its own shares the one of opened files.
    pub fn slot(self) -> Slot
        ensures { result ≡ slot_of self }
    {
        match self {
            Func::BprmCheck => Slot::Bprm,
            Func::MmapCheck => Slot::Mmap,
            _ => Slot::File,
        }
    }
}

/// The test of an access mask by a rule.
#[derive(Clone, Copy)]
pub struct MaskTest {
    /// Whether the mask must equal these bits (`mask=M`) or only contain them (`mask=^M`).
    pub exact: bool,
    /// One of `MAY_EXEC` 1, `MAY_WRITE` 2, `MAY_READ` 4 and `MAY_APPEND` 8.
    pub bits: u8,
}

impl MaskTest {
    /// Whether an access mask passes the test.
    pub fn holds(self, mask: u8) -> bool
        ensures { result ≡ mask_holds self mask }
    {
        if self.exact {
            mask == self.bits
        } else {
            mask & self.bits == self.bits
        }
    }
}

/// The test of a user or group ID by a rule.
#[derive(Clone, Copy)]
pub enum IdTest {
    /// `=`: the ID equals this number.
    Is(u32),
    /// `>`: the ID is above this number.
    Above(u32),
    /// `<`: the ID is below this number.
    Below(u32),
}

impl IdTest {
    /// Whether an ID passes the test.
    pub fn holds(self, id: u32) -> bool
        ensures { result ≡ id_holds self id }
    {
        match self {
            IdTest::Is(number) => id == number,
            IdTest::Above(number) => id > number,
            IdTest::Below(number) => id < number,
        }
    }
}

/// A rule: one action, the conditions under which it applies, and its options. A condition that is
/// `None` holds for every access.
///
/// Every rule can be written as a line, which is its invariant `IsRule`. Contracts see it as a
/// record of these fields.
#[derive(Drop)]
pub struct Rule {
    /// What the rule does with the accesses that it matches.
    pub act: Act,
    /// `func=`: the hook that consults the policy.
    pub func: Option<Func>,
    /// `mask=`: the test of the access mask.
    pub mask: Option<MaskTest>,
    /// `fsmagic=`: the magic number of the inode's file system.
    pub fsmagic: Option<u64>,
    /// `fsuuid=`: the UUID of the inode's file system, most significant byte first.
    pub fsuuid: Option<u128>,
    /// `fsname=`: the name of the file system's type, of 1 to 255 bytes from 0x21 to 0x7e.
    pub fsname: Option<Bytes>,
    /// `uid`: the test of the task's real user ID.
    pub uid: Option<IdTest>,
    /// `euid`: the test of the task's effective user ID.
    pub euid: Option<IdTest>,
    /// `gid`: the test of the task's real group ID.
    pub gid: Option<IdTest>,
    /// `egid`: the test of the task's effective group ID.
    pub egid: Option<IdTest>,
    /// `fowner`: the test of the inode's owner.
    pub fowner: Option<IdTest>,
    /// `fgroup`: the test of the inode's group.
    pub fgroup: Option<IdTest>,
    /// `appraise_type=imasig`: the label must be a signature. `Any` unless the action is
    /// `appraise`.
    pub need: Need,
    /// `appraise_flag=check_blacklist`, which has no effect. False unless the action is `appraise`.
    pub blacklist: bool,
    /// `appraise_algos=`: the algorithms that the file's digest may have, at least one. `None`
    /// unless the action is `appraise`.
    pub algos: Option<AlgoSet>,
    /// `permit_directio`, which has no effect.
    pub directio: bool,
    /// `pcr=`: the register to extend, below 24. `None` unless the action is `measure`.
    pub pcr: Option<u8>,
    /// `template=`: the template of the entry, which is never `ImaBuf`. `None` unless the action is
    /// `measure`.
    pub template: Option<Template>,
}

impl Model for Rule {
    ghost use Rattle.policy_rules.specs.RuleValue.{RuleValue, IsRule};

    ghost Value = { RuleValue };

    ghost use Rattle.policy_rules.specs.RuleInside.{rule_value, rule_inside};

    ghost view = { rule_value };

    ghost invariant = { λ r. IsRule (rule_value r) };

    ghost inverse = { rule_inside };
}

impl Rule {
    /// A copy with equal fields, in its own memory.
    pub fn copy(&self, alloc: Global) -> Result<Rule, OutOfMemory>
        ensures { IfOk result (λ copy. copy ≡ self.now) }
    {
        let fsname = match &self.fsname {
            Some(name) => Some(Bytes::from_slice(alloc, name.as_slice())?),
            None => None,
        };
        Ok(Rule {
            act: self.act,
            func: self.func,
            mask: self.mask,
            fsmagic: self.fsmagic,
            fsuuid: self.fsuuid,
            fsname,
            uid: self.uid,
            euid: self.euid,
            gid: self.gid,
            egid: self.egid,
            fowner: self.fowner,
            fgroup: self.fgroup,
            need: self.need,
            blacklist: self.blacklist,
            algos: self.algos,
            directio: self.directio,
            pcr: self.pcr,
            template: self.template,
        })
    }
}
