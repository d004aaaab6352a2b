ghost use Rattle.std.specs.Prelude.{◌≡◌};
ghost use Rattle.inode_meta.specs.Words.{evm_status_word, mode_word};

/// The EVM status of an inode: the result of comparing `security.evm` with its protected attributes
/// and metadata (the kernel's `enum integrity_status`).
#[derive(Clone, Copy, PartialEq, Eq)]
pub enum EvmStatus {
    /// `security.evm` is the HMAC of the inode as it is.
    Pass,
    /// The inode has no protected attribute.
    NoXattrs,
    /// There are protected attributes and no `security.evm`.
    NoLabel,
    /// `security.evm` is present, but it is the HMAC in neither form.
    Fail,
    /// `security.evm` is the HMAC in the older form: the five names only, and no UUID.
    Old,
    /// EVM has no key, so nothing can be checked.
    Unknown,
}

impl EvmStatus {
    /// The word that reports and replies print.
    pub fn word(self) -> &'static str
        ensures { result.now ≡ evm_status_word self }
    {
        match self {
            EvmStatus::Pass => "pass",
            EvmStatus::NoXattrs => "no-xattrs",
            EvmStatus::NoLabel => "no-label",
            EvmStatus::Fail => "fail",
            EvmStatus::Old => "old",
            EvmStatus::Unknown => "unknown",
        }
    }
}

/// The kind of label that an `appraise` rule requires.
#[derive(Clone, Copy, PartialEq, Eq)]
pub enum Need {
    /// A digest or a signature will do.
    Any,
    /// A signature is required (`appraise_type=imasig`).
    Signature,
}

/// The appraisal mode (the kernel's boot parameter `ima_appraise=`).
#[derive(Clone, Copy, PartialEq, Eq)]
pub enum Mode {
    /// A file is admitted exactly if its verdict is Pass.
    Enforce,
    /// Every file is admitted; verdicts are only reported.
    Log,
    /// Every file is admitted, and labels are repaired.
    Fix,
    /// Appraisal is off, and no verdict is computed.
    Off,
}

impl Mode {
    /// The word by which a setting names the mode.
    pub fn word(self) -> &'static str
        ensures { result.now ≡ mode_word self }
    {
        match self {
            Mode::Enforce => "enforce",
            Mode::Log => "log",
            Mode::Fix => "fix",
            Mode::Off => "off",
        }
    }
}

/// A slot of cached verdicts: like the kernel's inode cache, an inode keeps one verdict for each.
#[derive(Clone, Copy, PartialEq, Eq)]
pub enum Slot {
    /// Opened files, and every function without a slot of its own.
    File,
    /// Files mapped for execution.
    Mmap,
    /// Executed files.
    Bprm,
}
