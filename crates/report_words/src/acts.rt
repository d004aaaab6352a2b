// The words of a check: its file, its function, the number of rules, and its acts.

ghost use Rattle.std.specs.Prelude.{◌≡◌, map, option_map};
ghost use Rattle.report_words.specs.Deeds as spec;
ghost use Rattle.report_words.specs.Forms.{after_by};

use crate::event::Deed;
use crate::forms::{after, after_pcr, number_in, without};
use crate::tables::{after_one_of, is_among};

// The names of templates, the first words of acts, and the names of functions.
const TEMPLATES: [&[u8]; 4] = [b"ima", b"ima-ng", b"ima-sig", b"ima-buf"];

const ACTS: [&[u8]; 5] = [b"measure", b"appraise", b"appraise-sig", b"audit", b"hash"];

const APPRAISALS: [&[u8]; 2] = [b"appraise", b"appraise-sig"];

const FUNCS: [&[u8]; 14] = [
    b"BPRM_CHECK",
    b"MMAP_CHECK",
    b"FILE_CHECK",
    b"CREDS_CHECK",
    b"MODULE_CHECK",
    b"FIRMWARE_CHECK",
    b"KEXEC_KERNEL_CHECK",
    b"KEXEC_INITRAMFS_CHECK",
    b"KEXEC_CMDLINE",
    b"KEY_CHECK",
    b"CRITICAL_DATA",
    b"SETXATTR_CHECK",
    b"POLICY_CHECK",
    b"MMAP_CHECK_REQPROT",
];

fn after_template<'w>(words: &'w [&'w [u8]]) -> Option<&'w [&'w [u8]]>
    ensures { option_map (λ r. map (λ w. w.now) r.now) result
        ≡ after_by spec.is_template (map (λ w. w.now) words.now) }
{
    after_one_of(&TEMPLATES, words)
}

fn after_func<'w>(words: &'w [&'w [u8]]) -> Option<&'w [&'w [u8]]>
    ensures { option_map (λ r. map (λ w. w.now) r.now) result
        ≡ after_by spec.is_func (map (λ w. w.now) words.now) }
{
    after_one_of(&FUNCS, words)
}

// The words after `rules N`, if it is there.
fn ruled<'w>(words: &'w [&'w [u8]]) -> Option<&'w [&'w [u8]]>
    ensures { option_map (λ r. map (λ w. w.now) r.now) result
        ≡ spec.ruled (map (λ w. w.now) words.now) }
{
    match after(b"rules", words) {
        Some(rest) => {
            let (_, rest) = number_in(rest)?;
            Some(rest)
        }
        None => Some(words),
    }
}

// The words after `measure PCR TEMPLATE`, if it is there.
fn measured<'w>(words: &'w [&'w [u8]]) -> Option<&'w [&'w [u8]]>
    ensures { option_map (λ r. map (λ w. w.now) r.now) result
        ≡ spec.measured (map (λ w. w.now) words.now) }
{
    match after(b"measure", words) {
        Some(rest) => {
            let template = after_pcr(rest)?;
            after_template(template)
        }
        None => Some(words),
    }
}

// The words after `appraise` or `appraise-sig`, if one of them is there.
fn appraised<'w>(words: &'w [&'w [u8]]) -> &'w [&'w [u8]]
    ensures { map (λ w. w.now) result.now ≡ spec.appraised (map (λ w. w.now) words.now) }
{
    match words {
        [] => words,
        [first, rest @ ..] => if is_among(&APPRAISALS, first) {
            rest
        } else {
            words
        },
    }
}

fn some_acts<'w>(words: &'w [&'w [u8]]) -> Option<&'w [&'w [u8]]>
    ensures { option_map (λ r. map (λ w. w.now) r.now) result
        ≡ spec.some_acts (map (λ w. w.now) words.now) }
{
    if begins_with_act(words) {
        all_acts(words)
    } else {
        None
    }
}

fn all_acts<'w>(words: &'w [&'w [u8]]) -> Option<&'w [&'w [u8]]>
    ensures { option_map (λ r. map (λ w. w.now) r.now) result
        ≡ spec.all_acts (map (λ w. w.now) words.now) }
{
    let rest = measured(words)?;
    Some(without(b"hash", without(b"audit", appraised(rest))))
}

fn begins_with_act(words: &[&[u8]]) -> bool
    ensures { result ≡ spec.begins_with_act (map (λ w. w.now) words.now) }
{
    match words {
        [] => false,
        [first, ..] => is_among(&ACTS, first),
    }
}

// The words after a dash, or after at least one act.
fn acts_in<'w>(words: &'w [&'w [u8]]) -> Option<&'w [&'w [u8]]>
    ensures { option_map (λ r. map (λ w. w.now) r.now) result
        ≡ spec.acts_in (map (λ w. w.now) words.now) }
{
    match after(b"-", words) {
        Some(rest) => Some(rest),
        None => some_acts(words),
    }
}

/// The deed of a check, after its first word.
pub(crate) fn check_in<'w>(words: &'w [&'w [u8]]) -> Option<(Deed, &'w [&'w [u8]])>
    ensures { option_map (λ p. (p.0, map (λ w. w.now) p.1.now)) result
        ≡ spec.check_in (map (λ w. w.now) words.now) }
{
    let (file, rest) = number_in(words)?;
    let rest = after_func(rest)?;
    let rest = ruled(rest)?;
    let rest = acts_in(rest)?;
    Some((Deed::Check(file), rest))
}
