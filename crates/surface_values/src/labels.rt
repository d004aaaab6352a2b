// Labels, EVM and verdicts.

use std::alloc::Global;

// ---- label_values

pub fn types(
    cause: label_values::Cause,
    label: label_values::Label,
    verdict: label_values::Verdict,
) {
    match cause {
        label_values::Cause::DeniedHashAlgorithm
        | label_values::Cause::SignatureRequired
        | label_values::Cause::MissingHash
        | label_values::Cause::MissingHmac
        | label_values::Cause::InvalidHmac
        | label_values::Cause::UnsupportedSignature
        | label_values::Cause::UnknownData
        | label_values::Cause::InvalidHash => {}
    }
    match label {
        label_values::Label::Missing
        | label_values::Label::Sum { algo: _, from: _ }
        | label_values::Label::Signature
        | label_values::Label::Unknown => {}
    }
    match verdict {
        label_values::Verdict::Pass | label_values::Verdict::Deny(_) => {}
    }
}

pub fn cause_word(cause: label_values::Cause) -> &'static str {
    label_values::Cause::word(cause)
}

pub fn read_label(value: Option<&[u8]>, default: hash_algos::Algo) -> label_values::Label {
    label_values::read_label(value, default)
}

pub fn collect_algo(value: Option<&[u8]>, default: hash_algos::Algo) -> hash_algos::Algo {
    label_values::collect_algo(value, default)
}

pub fn write_label(d: &hash_algos::Digest, out: &mut [u8; 66]) -> usize {
    label_values::write_label(d, out)
}

// ---- evm_verify

// "`verdict` takes a digest of any algorithm, and `Evm::new` any names and format"
pub fn evm_new(
    alloc: Global,
    key: Option<&[u8]>,
    added: &[xattr_store::Bytes],
    format: u8,
) -> Result<evm_verify::Evm, evm_verify::OutOfMemory> {
    evm_verify::Evm::new(alloc, key, added, format)
}

pub fn evm_copy(evm: &evm_verify::Evm) -> Result<evm_verify::Evm, evm_verify::OutOfMemory> {
    evm_verify::Evm::copy(evm)
}

pub fn evm_read(
    evm: &evm_verify::Evm,
    name: &[u8],
    attrs: &xattr_store::Attrs,
    meta: &inode_meta::Meta,
) -> (inode_meta::EvmStatus, bool) {
    (
        evm_verify::Evm::status(evm, attrs, meta),
        evm_verify::Evm::protects(evm, name),
    )
}

pub fn evm_renew(
    evm: &evm_verify::Evm,
    attrs: &mut xattr_store::Attrs,
    meta: &inode_meta::Meta,
) -> Result<(), evm_verify::OutOfMemory> {
    evm_verify::Evm::renew(evm, attrs, meta)
}

pub fn evm_may(
    evm: &evm_verify::Evm,
    name: &[u8],
    attrs: &xattr_store::Attrs,
    meta: &inode_meta::Meta,
    new: bool,
) -> [Result<(), inode_meta::EvmStatus>; 2] {
    [
        evm_verify::Evm::may_change(evm, name, attrs, meta, new),
        evm_verify::Evm::may_set_meta(evm, attrs, meta),
    ]
}

// ---- ima_appraise

// "`verdict` takes a digest of any algorithm, and `Evm::new` any names and format"
pub fn verdict_of(
    need: inode_meta::Need,
    algos: Option<hash_algos::AlgoSet>,
    label: Option<&[u8]>,
    status: inode_meta::EvmStatus,
    file: &hash_algos::Digest,
    default: hash_algos::Algo,
    size: u64,
    new: bool,
) -> label_values::Verdict {
    ima_appraise::verdict(need, algos, label, status, file, default, size, new)
}
