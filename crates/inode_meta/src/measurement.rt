ghost use Rattle.std.specs.Prelude.{◌≡◌};
ghost use Rattle.inode_meta.specs.Fields.{template_fields};
ghost use Rattle.inode_meta.specs.Words.{bank_word, template_word};

/// The register that measurements extend if no rule names another (the kernel's
/// `CONFIG_IMA_MEASURE_PCR_IDX`). Violations always extend it.
pub const DEFAULT_PCR: u8 = 10;

const _: () = prove!(DEFAULT_PCR == 10);

/// The template of an entry of the measurement list (Documentation/security/IMA-templates.rst).
#[derive(Clone, Copy, PartialEq, Eq)]
pub enum Template {
    /// The fields `d` and `n`.
    Ima,
    /// The fields `d-ng` and `n-ng`.
    ImaNg,
    /// The fields `d-ng`, `n-ng` and `sig`.
    ImaSig,
    /// The fields `d-ng`, `n-ng` and `buf`. Only buffers of critical data use it: no rule, action,
    /// setting or script can name it.
    ImaBuf,
}

impl Template {
    /// The template's name as measurement lists print it.
    pub fn word(self) -> &'static str
        ensures { result.now ≡ template_word self }
    {
        match self {
            Template::Ima => "ima",
            Template::ImaNg => "ima-ng",
            Template::ImaSig => "ima-sig",
            Template::ImaBuf => "ima-buf",
        }
    }

    /// The template's fields, in the order in which the template data has them.
    pub fn fields(self) -> &'static [Field]
        ensures { result.now ≡ template_fields self }
    {
        match self {
            Template::Ima => &[Field::Digest, Field::Name],
            Template::ImaNg => &[Field::DigestNg, Field::NameNg],
            Template::ImaSig => &[Field::DigestNg, Field::NameNg, Field::Sig],
            Template::ImaBuf => &[Field::DigestNg, Field::NameNg, Field::Buf],
        }
    }
}

/// A field of a template, by its name in the documentation.
#[derive(Clone, Copy)]
pub enum Field {
    /// `d`: the SHA-1 digest, whatever algorithm the file was collected with.
    Digest,
    /// `n`: the name, in a field of 256 bytes.
    Name,
    /// `d-ng`: the digest, after its algorithm's name.
    DigestNg,
    /// `n-ng`: the name and a terminating zero byte.
    NameNg,
    /// `sig`: the signature from `security.ima`.
    Sig,
    /// `buf`: the measured buffer itself.
    Buf,
}

/// A bank of platform configuration registers, named after its hash.
#[derive(Clone, Copy)]
pub enum Bank {
    /// The SHA-1 bank, with registers of 20 bytes.
    Sha1,
    /// The SHA-256 bank, with registers of 32 bytes.
    Sha256,
}

impl Bank {
    /// The name of the bank's hash.
    pub fn word(self) -> &'static str
        ensures { result.now ≡ bank_word self }
    {
        match self {
            Bank::Sha1 => "sha1",
            Bank::Sha256 => "sha256",
        }
    }
}
