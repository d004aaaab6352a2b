ghost use Rattle.std.specs.Prelude.{◌≡◌};
ghost use Rattle.label_values.specs.Verdicts.{cause_word};

/// Why a file is denied, in the order in which the cases of the verdict first name the causes. The
/// words are those of the kernel's audit records.
#[derive(Clone, Copy, PartialEq, Eq)]
pub enum Cause {
    /// `appraise_algos=` doesn't list the algorithm by which the file was hashed.
    DeniedHashAlgorithm,
    /// A signature is required and there is none.
    SignatureRequired,
    /// The file has no label.
    MissingHash,
    /// A protected attribute or its HMAC is missing.
    MissingHmac,
    /// The HMAC in `security.evm` doesn't match.
    InvalidHmac,
    /// The label is a signature, which is never verified here.
    UnsupportedSignature,
    /// The label has an unknown type.
    UnknownData,
    /// The label's digest isn't that of the file.
    InvalidHash,
}

impl Cause {
    /// The word that reports and replies print.
    pub fn word(self) -> &'static str
        ensures { result.now ≡ cause_word self }
    {
        match self {
            Cause::DeniedHashAlgorithm => "denied-hash-algorithm",
            Cause::SignatureRequired => "IMA-signature-required",
            Cause::MissingHash => "missing-hash",
            Cause::MissingHmac => "missing-HMAC",
            Cause::InvalidHmac => "invalid-HMAC",
            Cause::UnsupportedSignature => "unsupported-signature",
            Cause::UnknownData => "unknown-ima-data",
            Cause::InvalidHash => "invalid-hash",
        }
    }
}

/// The result of appraisal: whether a file may be used.
#[derive(Clone, Copy, PartialEq, Eq)]
pub enum Verdict {
    /// Label, HMAC and file agree, or the rule asks nothing of the file.
    Pass,
    /// The file is denied, for the first fault found.
    Deny(Cause),
}

/// The attributes that appraisal in fix mode writes.
#[derive(Clone, Copy)]
pub enum Mend {
    /// Nothing is written.
    Nothing,
    /// Only the HMAC is written: the label doesn't change.
    Hmac,
    /// The label of the file's digest is written, and the HMAC.
    Label,
}
