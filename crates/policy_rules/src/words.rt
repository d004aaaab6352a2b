ghost use Rattle.std.specs.Prelude.{◌≡◌};
ghost use Rattle.policy_rules.specs.ValueTexts.{act_word, func_word, mask_bits_word};

use crate::rule::{Act, Func};

impl Act {
    /// The word with which a line of the action begins.
    pub fn word(self) -> &'static str
        ensures { result.now ≡ act_word self }
    {
        match self {
            Act::Measure => "measure",
            Act::DontMeasure => "dont_measure",
            Act::Appraise => "appraise",
            Act::DontAppraise => "dont_appraise",
            Act::Audit => "audit",
            Act::DontAudit => "dont_audit",
            Act::Hash => "hash",
            Act::DontHash => "dont_hash",
        }
    }
}

impl Func {
    /// The main name of the hook, such as `FILE_CHECK`.
    pub fn word(self) -> &'static str
        ensures { result.now ≡ func_word self }
    {
        match self {
            Func::BprmCheck => "BPRM_CHECK",
            Func::MmapCheck => "MMAP_CHECK",
            Func::FileCheck => "FILE_CHECK",
            Func::CredsCheck => "CREDS_CHECK",
            Func::ModuleCheck => "MODULE_CHECK",
            Func::FirmwareCheck => "FIRMWARE_CHECK",
            Func::KexecKernelCheck => "KEXEC_KERNEL_CHECK",
            Func::KexecInitramfsCheck => "KEXEC_INITRAMFS_CHECK",
            Func::KexecCmdline => "KEXEC_CMDLINE",
            Func::KeyCheck => "KEY_CHECK",
            Func::CriticalData => "CRITICAL_DATA",
            Func::SetxattrCheck => "SETXATTR_CHECK",
            Func::PolicyCheck => "POLICY_CHECK",
            Func::MmapCheckReqprot => "MMAP_CHECK_REQPROT",
        }
    }
}

/// The name of one bit of an access mask, such as `MAY_READ`.
pub fn mask_bits_word(bits: u8) -> &'static str
    ensures { result.now ≡ mask_bits_word bits }
{
    match bits {
        1 => "MAY_EXEC",
        2 => "MAY_WRITE",
        4 => "MAY_READ",
        _ => "MAY_APPEND",
    }
}
