ghost use Rattle.std.specs.Prelude.{◌≡◌, IfSome, IsTrue};
ghost use Rattle.std.specs.Option.{option_map};
ghost use Rattle.policy_rules.specs.RuleValue.{has_algos, is_id, is_mask_bit, is_named_template};
ghost use Rattle.policy_rules.specs.Values.{act_of, algos_of, func_of, id_number_of, id_of, is_unsupported_template, is_unsupported_type, mask_bits_of, mask_of, template_of};

use crate::rule::{Act, Func, IdTest, MaskTest};
use hash_algos::{AlgoSet, by_name};
use inode_meta::Template;
use text_forms::{look_up, number_of};

// The actions by their names.
const ACTS: [(&[u8], Act); 8] = [
    (b"measure", Act::Measure),
    (b"dont_measure", Act::DontMeasure),
    (b"appraise", Act::Appraise),
    (b"dont_appraise", Act::DontAppraise),
    (b"audit", Act::Audit),
    (b"dont_audit", Act::DontAudit),
    (b"hash", Act::Hash),
    (b"dont_hash", Act::DontHash),
];

// The hooks by their main names and their aliases.
const FUNCS: [(&[u8], Func); 16] = [
    (b"BPRM_CHECK", Func::BprmCheck),
    (b"MMAP_CHECK", Func::MmapCheck),
    (b"FILE_MMAP", Func::MmapCheck),
    (b"FILE_CHECK", Func::FileCheck),
    (b"PATH_CHECK", Func::FileCheck),
    (b"CREDS_CHECK", Func::CredsCheck),
    (b"MODULE_CHECK", Func::ModuleCheck),
    (b"FIRMWARE_CHECK", Func::FirmwareCheck),
    (b"KEXEC_KERNEL_CHECK", Func::KexecKernelCheck),
    (b"KEXEC_INITRAMFS_CHECK", Func::KexecInitramfsCheck),
    (b"KEXEC_CMDLINE", Func::KexecCmdline),
    (b"KEY_CHECK", Func::KeyCheck),
    (b"CRITICAL_DATA", Func::CriticalData),
    (b"SETXATTR_CHECK", Func::SetxattrCheck),
    (b"POLICY_CHECK", Func::PolicyCheck),
    (b"MMAP_CHECK_REQPROT", Func::MmapCheckReqprot),
];

// The bits of an access mask by their names.
const MASK_BITS: [(&[u8], u8); 4] = [
    (b"MAY_EXEC", 1),
    (b"MAY_WRITE", 2),
    (b"MAY_READ", 4),
    (b"MAY_APPEND", 8),
];

// The templates that a rule can name.
const TEMPLATES: [(&[u8], Template); 3] = [
    (b"ima", Template::Ima),
    (b"ima-ng", Template::ImaNg),
    (b"ima-sig", Template::ImaSig),
];

/// The action with this name, such as `dont_measure`.
pub fn act_of(word: &[u8]) -> Option<Act>
    ensures { result ≡ act_of word.now }
{
    look_up(&ACTS, word)
}

/// The hook with this name, which may be its main name or an alias.
pub fn func_of(word: &[u8]) -> Option<Func>
    ensures { result ≡ func_of word.now }
{
    look_up(&FUNCS, word)
}

fn mask_bits_of(word: &[u8]) -> Option<u8>
    ensures value { result ≡ mask_bits_of word.now }
    ensures bit { IfSome result (λ bits. IsTrue (is_mask_bit bits)) }
{
    look_up(&MASK_BITS, word)
}

/// Parses the test of an access mask: the name of a bit, optionally after `^`.
pub fn mask_of(text: &[u8]) -> Option<MaskTest>
    ensures value { result ≡ mask_of text.now }
    ensures bit { IfSome result (λ mask. IsTrue (is_mask_bit mask.bits)) }
{
    match text {
        [b'^', word @ ..] => {
            let bits = mask_bits_of(word)?;
            Some(MaskTest { exact: false, bits })
        }
        _ => {
            let bits = mask_bits_of(text)?;
            Some(MaskTest { exact: true, bits })
        }
    }
}

/// Parses the test of a user or group ID: a sign and a number below 2^32 in decimal, with any
/// leading zeros.
pub fn id_of(text: &[u8]) -> Option<IdTest>
    ensures value { result ≡ id_of text.now }
    ensures id { IfSome result (λ test. IsTrue (is_id test)) }
{
    let [sign, digits @ ..] = text else {
        return None;
    };
    let number = id_number_of(digits)?;
    match *sign {
        b'=' => Some(IdTest::Is(number)),
        b'>' => Some(IdTest::Above(number)),
        b'<' => Some(IdTest::Below(number)),
        _ => None,
    }
}

fn id_number_of(digits: &[u8]) -> Option<u32>
    ensures { result ≡ id_number_of digits.now }
{
    let number = number_of(digits, 10, u64::from(u32::MAX))?;
    Some(number as u32)
}

/// Parses a list of algorithm names separated by commas, at least one.
pub fn algos_of(text: &[u8]) -> Option<AlgoSet>
    ensures value { result ≡ algos_of text.now }
    ensures filled { IfSome result (λ s. IsTrue (has_algos s)) }
{
    let mut algos = AlgoSet::new();
    for name in text.split(|b| *b == b',') {
        algos.add(by_name(name)?);
    }
    Some(algos)
}

/// The template with this name, among those that a rule can name.
pub fn template_of(word: &[u8]) -> Option<Template>
    ensures value { result ≡ template_of word.now }
    ensures named { IfSome result (λ t. IsTrue (is_named_template t)) }
{
    look_up(&TEMPLATES, word)
}

/// Whether the word is a kind of label that the kernel knows but that isn't supported here.
pub fn is_unsupported_type(word: &[u8]) -> bool
    ensures { result ≡ is_unsupported_type word.now }
{
    word == b"imasig|modsig".as_slice() || word == b"sigv3".as_slice()
}

/// Whether the word is a template that the kernel knows but that isn't supported here.
pub fn is_unsupported_template(word: &[u8]) -> bool
    ensures { result ≡ is_unsupported_template word.now }
{
    word == b"ima-ngv2".as_slice()
        || word == b"ima-sigv2".as_slice()
        || word == b"ima-modsig".as_slice()
        || word == b"evm-sig".as_slice()
}
