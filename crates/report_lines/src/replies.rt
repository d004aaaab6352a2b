// The lines of replies, by their words.

ghost use Rattle.std.specs.Prelude.{◌≡◌, map};
ghost use Rattle.report_words.specs.Forms.{only_by};
ghost use Rattle.report_lines.specs.Lines as spec;
ghost use Rattle.report_words.specs.Outcomes.{is_cause};

use report_words::{after, after_digest, is_among, is_cause, is_set_status, is_whole, number_in};

const ERRORS: [&[u8]; 7] = [
    b"EBADF", b"ENOENT", b"ETXTBSY", b"EFBIG", b"E2BIG", b"EINVAL", b"ENODATA",
];

// The words after `EPERM` that are no status.
const PERMISSIONS: [&[u8]; 2] = [b"evm-attribute", b"admin"];

// `ok` stands alone, or before the number of bytes read and their SHA-256.
fn is_read_reply(words: &[&[u8]]) -> bool
    ensures { result ≡ spec.is_read_reply (map (λ w. w.now) words.now) }
{
    match words {
        [] => true,
        [_, ..] => is_bytes(words),
    }
}

fn is_bytes(words: &[&[u8]]) -> bool
    ensures { result ≡ spec.is_bytes (map (λ w. w.now) words.now) }
{
    match number_in(words) {
        Some((_, rest)) => is_whole(after_digest(32, rest)),
        None => false,
    }
}

fn is_error(words: &[&[u8]]) -> bool
    ensures { result ≡ only_by spec.is_error (map (λ w. w.now) words.now) }
{
    match words {
        [word] => is_among(&ERRORS, word),
        _ => false,
    }
}

fn is_permission(word: &[u8]) -> bool
    ensures { result ≡ spec.is_permission word.now }
{
    is_among(&PERMISSIONS, word) || is_set_status(word)
}

fn is_one_permission(words: &[&[u8]]) -> bool
    ensures { result ≡ only_by spec.is_permission (map (λ w. w.now) words.now) }
{
    match words {
        [word] => is_permission(word),
        _ => false,
    }
}

fn is_denial(words: &[&[u8]]) -> bool
    ensures { result ≡ only_by is_cause (map (λ w. w.now) words.now) }
{
    match words {
        [word] => is_cause(word),
        _ => false,
    }
}

// A reply that isn't `ok`.
fn is_refusal(words: &[&[u8]]) -> bool
    ensures { result ≡ spec.is_refusal (map (λ w. w.now) words.now) }
{
    match after(b"EPERM", words) {
        Some(rest) => is_one_permission(rest),
        None => is_other_refusal(words),
    }
}

fn is_other_refusal(words: &[&[u8]]) -> bool
    ensures { result ≡ spec.is_other_refusal (map (λ w. w.now) words.now) }
{
    match after(b"EACCES", words) {
        Some(rest) => is_denial(rest),
        None => is_error(words),
    }
}

// A reply: whether it is `ok`.
fn reply_by(words: &[&[u8]]) -> Option<bool>
    ensures { result ≡ spec.reply_by (map (λ w. w.now) words.now) }
{
    match after(b"ok", words) {
        Some(rest) => if is_read_reply(rest) {
            Some(true)
        } else {
            None
        },
        None => if is_refusal(words) { Some(false) } else { None },
    }
}

/// `CALL REPLY`: the number of the call, and whether the reply is `ok`.
#[tactic(auto, unfolding(crate::specs::Lines::reply_of))]
pub fn reply_of(words: &[&[u8]]) -> Option<(u32, bool)>
    ensures { result ≡ spec.reply_of (map (λ w. w.now) words.now) }
{
    let (number, rest) = number_in(words)?;
    let ok = reply_by(rest)?;
    Some((number, ok))
}
