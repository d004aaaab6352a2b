ghost use Rattle.std.specs.List.{starts_with};
ghost use Rattle.std.specs.Option.{option_copied};
ghost use Rattle.std.specs.Prelude.{◌≡◌, Some, drop, nat_eq};
ghost use Rattle.label_values.specs.Verdicts.{by_algorithm, judge, judge_labelled, judge_summed, judge_unlabelled, mend_for};

use hash_algos::{Algo, AlgoSet, Digest};
use inode_meta::{EvmStatus, Need};
use label_values::{Cause, Label, Mend, Verdict, read_label};

// The verdict if nothing else is wrong: the algorithm may still be denied.
fn by_algorithm(algos: Option<AlgoSet>, algo: Algo) -> Verdict
    ensures { result ≡ by_algorithm algos algo }
{
    match algos {
        Some(allowed) if !allowed.has(algo) => Verdict::Deny(Cause::DeniedHashAlgorithm),
        _ => Verdict::Pass,
    }
}

// The verdict on a file without a label.
fn unlabelled(need: Need, algos: Option<AlgoSet>, algo: Algo, size: u64, new: bool) -> Verdict
    ensures { result ≡ judge_unlabelled need algos algo size new }
{
    match need {
        Need::Any if new => by_algorithm(algos, algo),
        Need::Signature if new && size == 0 => by_algorithm(algos, algo),
        Need::Signature => Verdict::Deny(Cause::SignatureRequired),
        Need::Any => Verdict::Deny(Cause::MissingHash),
    }
}

// Whether the bytes of the label from the offset `from` on begin with the whole digest.
fn has_digest(bytes: &[u8], from: usize, file: &Digest) -> bool
    ensures { result ≡ starts_with nat_eq (drop from bytes.now) file.now.bytes }
{
    bytes[from.min(bytes.len())..].starts_with(file.as_slice())
}

// The verdict on a file whose label is a digest, which may or may not match.
fn summed(need: Need, algos: Option<AlgoSet>, fits: bool, algo: Algo) -> Verdict
    ensures { result ≡ judge_summed need algos fits algo }
{
    if need == Need::Signature {
        Verdict::Deny(Cause::SignatureRequired)
    } else if !fits {
        Verdict::Deny(Cause::InvalidHash)
    } else {
        by_algorithm(algos, algo)
    }
}

// The verdict on a file with a label.
fn labelled(
    need: Need,
    algos: Option<AlgoSet>,
    kind: Label,
    bytes: &[u8],
    status: EvmStatus,
    file: &Digest,
) -> Verdict
    ensures { result ≡ judge_labelled need algos kind (Some bytes.now) status file.now }
{
    match status {
        EvmStatus::NoXattrs | EvmStatus::NoLabel => Verdict::Deny(Cause::MissingHmac),
        EvmStatus::Fail | EvmStatus::Old => Verdict::Deny(Cause::InvalidHmac),
        EvmStatus::Pass | EvmStatus::Unknown => match kind {
            Label::Signature => Verdict::Deny(Cause::UnsupportedSignature),
            Label::Unknown => Verdict::Deny(Cause::UnknownData),
            Label::Sum { from, .. } => {
                summed(need, algos, has_digest(bytes, from, file), file.algo())
            }
            Label::Missing => summed(need, algos, false, file.algo()),
        },
    }
}

/// The verdict on a file whose digest is `file`, by the algorithm that `collect_algo` gives for the
/// label. It depends on the kind of label that the rule needs, the algorithms that the rule allows,
/// the value of `security.ima`, the EVM status, the script's default algorithm, the file's size in
/// bytes, and whether the file is new.
pub fn verdict(
    need: Need,
    algos: Option<AlgoSet>,
    label: Option<&[u8]>,
    status: EvmStatus,
    file: &Digest,
    default: Algo,
    size: u64,
    new: bool,
) -> Verdict
    ensures { result ≡ judge need algos
        (option_copied label.entry) status file.now default size new }
{
    let Some(bytes) = label else {
        return unlabelled(need, algos, file.algo(), size, new);
    };
    match read_label(label, default) {
        Label::Missing => unlabelled(need, algos, file.algo(), size, new),
        kind => labelled(need, algos, kind, bytes, status, file),
    }
}

/// The attributes that fix mode writes on the verdict `found`, where `sound` is the verdict under a
/// right HMAC and `kind` is the parsed label. It writes nothing on a verdict Pass, on a denied
/// algorithm, and over a signature. If the HMAC has the older form, it writes only the HMAC, and
/// only if nothing else was wrong. Otherwise it writes the label and the HMAC. A cached verdict may
/// differ from one that [`verdict`] computes again.
pub fn mend_for(found: Verdict, sound: Verdict, status: EvmStatus, kind: Label) -> Mend
    ensures { result ≡ mend_for found sound status kind }
{
    match found {
        Verdict::Pass | Verdict::Deny(Cause::DeniedHashAlgorithm) => Mend::Nothing,
        Verdict::Deny(_) if status == EvmStatus::Old => match sound {
            Verdict::Pass => Mend::Hmac,
            Verdict::Deny(_) => Mend::Nothing,
        },
        Verdict::Deny(_) => match kind {
            Label::Signature => Mend::Nothing,
            _ => Mend::Label,
        },
    }
}
