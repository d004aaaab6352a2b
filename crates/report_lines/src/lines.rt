// The lines of a report but those of events and replies, by their words.

ghost use Rattle.std.specs.Prelude.{◌≡◌, map, option_map};
ghost use Rattle.report_words.specs.Forms.{after_by};
ghost use Rattle.report_lines.specs.Lines as spec;

use crate::report::{InodeHead, RunEnd};
use inode_meta::Template;
use report_words::{
    Span, after, after_any, after_digest, after_hex, after_named_digest, after_wide_pcr, counted,
    is_named_digest, is_whole, number_in, who_in,
};
use text_forms::look_up;

const ENDS: [(&[u8], RunEnd); 3] = [
    (b"done", RunEnd::Done),
    (b"unfinished", RunEnd::Unfinished),
    (b"stuck", RunEnd::Stuck),
];

const TEMPLATES: [(&[u8], Template); 4] = [
    (b"ima", Template::Ima),
    (b"ima-ng", Template::ImaNg),
    (b"ima-sig", Template::ImaSig),
    (b"ima-buf", Template::ImaBuf),
];

const TASK_ENDS: [(&[u8], bool); 2] = [(b"done", true), (b"unfinished", false)];

/// `imakern report 1`.
pub fn is_version(words: &[&[u8]]) -> bool
    ensures { result ≡ spec.is_version (map (λ w. w.now) words.now) }
{
    is_whole(after_version(words))
}

fn after_version<'w>(words: &'w [&'w [u8]]) -> Option<&'w [&'w [u8]]>
    ensures { option_map (λ r. map (λ w. w.now) r.now) result
        ≡ spec.after_version (map (λ w. w.now) words.now) }
{
    let rest = after(b"imakern", words)?;
    let rest = after(b"report", rest)?;
    after(b"1", rest)
}

fn end_of(words: &[&[u8]]) -> Option<RunEnd>
    ensures { result ≡ spec.end_of (map (λ w. w.now) words.now) }
{
    match words {
        [word] => look_up(&ENDS, word),
        _ => None,
    }
}

/// `run ENDING`.
pub fn run_of(words: &[&[u8]]) -> Option<RunEnd>
    ensures { result ≡ spec.run_of (map (λ w. w.now) words.now) }
{
    let rest = after(b"run", words)?;
    end_of(rest)
}

/// `list N violations V`.
pub fn list_of(words: &[&[u8]]) -> Option<(u32, u32)>
    ensures { result ≡ spec.list_of (map (λ w. w.now) words.now) }
{
    let (count, rest) = named_number(b"list", words)?;
    let violations = counted(b"violations", rest)?;
    Some((count, violations))
}

// The words after a register's number, which is right-aligned in a width of 2.
fn after_padded_pcr<'w>(words: &'w [&'w [u8]]) -> Option<&'w [&'w [u8]]>
    ensures { option_map (λ r. map (λ w. w.now) r.now) result
        ≡ spec.after_padded_pcr (map (λ w. w.now) words.now) }
{
    if first_is_filled(words) {
        after_wide_pcr(2, words)
    } else {
        let rest = after_any(words)?;
        after_wide_pcr(1, rest)
    }
}

// Whether there is a first word, and it isn't empty.
fn first_is_filled(words: &[&[u8]]) -> bool
    ensures { result ≡ spec.first_is_filled (map (λ w. w.now) words.now) }
{
    match words {
        [] => false,
        [first, ..] => !first.is_empty(),
    }
}

fn template_of(word: &[u8]) -> Option<Template>
    ensures { result ≡ spec.template_of word.now }
{
    look_up(&TEMPLATES, word)
}

fn template_in<'w>(words: &'w [&'w [u8]]) -> Option<(Template, &'w [&'w [u8]])>
    ensures { option_map (λ p. (p.0, map (λ w. w.now) p.1.now)) result
        ≡ spec.template_in (map (λ w. w.now) words.now) }
{
    match words {
        [] => None,
        [first, rest @ ..] => {
            let template = template_of(first)?;
            Some((template, rest))
        }
    }
}

// The words after a digest with its algorithm, and a name.
fn after_ng<'w>(words: &'w [&'w [u8]]) -> Option<&'w [&'w [u8]]>
    ensures { option_map (λ r. map (λ w. w.now) r.now) result
        ≡ spec.after_ng (map (λ w. w.now) words.now) }
{
    let rest = after_named_digest(words)?;
    after_any(rest)
}

fn after_fields<'w>(template: Template, words: &'w [&'w [u8]]) -> Option<&'w [&'w [u8]]>
    ensures { option_map (λ r. map (λ w. w.now) r.now) result
        ≡ spec.after_fields template (map (λ w. w.now) words.now) }
{
    match template {
        Template::Ima => {
            let rest = after_hex(words)?;
            after_any(rest)
        }
        Template::ImaNg => after_ng(words),
        Template::ImaSig | Template::ImaBuf => {
            let rest = after_ng(words)?;
            after_hex(rest)
        }
    }
}

fn after_entry<'w>(words: &'w [&'w [u8]]) -> Option<&'w [&'w [u8]]>
    ensures { option_map (λ r. map (λ w. w.now) r.now) result
        ≡ spec.after_entry (map (λ w. w.now) words.now) }
{
    let rest = after_padded_pcr(words)?;
    let rest = after_digest(20, rest)?;
    let (template, rest) = template_in(rest)?;
    after_fields(template, rest)
}

/// The line of an entry.
#[tactic(auto, unfolding(crate::specs::Lines::is_entry))]
pub fn is_entry(words: &[&[u8]]) -> bool
    ensures { result ≡ spec.is_entry (map (λ w. w.now) words.now) }
{
    is_whole(after_entry(words))
}

/// `pcr BANK P HEX`, with a digest of so many bytes: the register.
pub fn register_of(bank: &[u8], size: usize, words: &[&[u8]]) -> Option<u32>
    ensures { result ≡ spec.register_of bank.now size (map (λ w. w.now) words.now) }
{
    let rest = after(b"pcr", words)?;
    let (pcr, rest) = named_number(bank, rest)?;
    if is_whole(after_digest(size, rest)) {
        Some(pcr)
    } else {
        None
    }
}

/// `rule PLACE TASK.CALL.STEP TEXT`: the place.
pub fn rule_of(words: &[&[u8]]) -> Option<u32>
    ensures { result ≡ spec.rule_of (map (λ w. w.now) words.now) }
{
    let (place, rest) = named_number(b"rule", words)?;
    let (_, rest) = who_in(rest)?;
    if first_is_filled(rest) {
        Some(place)
    } else {
        None
    }
}

// `WORD N`, and the words after it.
fn named_number<'w>(word: &[u8], words: &'w [&'w [u8]]) -> Option<(u32, &'w [&'w [u8]])>
    ensures { option_map (λ p. (p.0, map (λ w. w.now) p.1.now)) result
        ≡ spec.named_number word.now (map (λ w. w.now) words.now) }
{
    let rest = after(word, words)?;
    number_in(rest)
}

fn head_with(line: Span, words: &[&[u8]]) -> Option<InodeHead>
    ensures { result ≡ spec.head_with line (map (λ w. w.now) words.now) }
{
    let (writers, rest) = named_number(b"writers", words)?;
    let (readers, rest) = named_number(b"readers", rest)?;
    let execs = counted(b"execs", rest)?;
    Some(InodeHead {
        line,
        force: line,
        writers,
        readers,
        execs,
    })
}

/// `inode I PATH writers W readers R execs X`: the number, and the head until the line of its
/// digest in force is read.
#[tactic(auto, unfolding(crate::specs::Lines::inode_of))]
pub fn inode_of(line: Span, words: &[&[u8]]) -> Option<(u32, InodeHead)>
    ensures { result ≡ spec.inode_of line (map (λ w. w.now) words.now) }
{
    let (number, rest) = named_number(b"inode", words)?;
    let rest = after_any(rest)?;
    let head = head_with(line, rest)?;
    Some((number, head))
}

fn after_force_word<'w>(words: &'w [&'w [u8]]) -> Option<&'w [&'w [u8]]>
    ensures { option_map (λ r. map (λ w. w.now) r.now) result
        ≡ after_by spec.is_force_word (map (λ w. w.now) words.now) }
{
    match words {
        [] => None,
        [first, rest @ ..] => if is_force_word(first) {
            Some(rest)
        } else {
            None
        },
    }
}

fn is_force_word(word: &[u8]) -> bool
    ensures { result ≡ spec.is_force_word word.now }
{
    word == b"none".as_slice() || is_named_digest(word)
}

/// `force ALGO:HEX` or `force none`.
pub fn is_force(words: &[&[u8]]) -> bool
    ensures { result ≡ spec.is_force (map (λ w. w.now) words.now) }
{
    match after(b"force", words) {
        Some(rest) => is_whole(after_force_word(rest)),
        None => false,
    }
}

fn after_name<'w>(words: &'w [&'w [u8]]) -> Option<&'w [&'w [u8]]>
    ensures { option_map (λ r. map (λ w. w.now) r.now) result
        ≡ spec.after_name (map (λ w. w.now) words.now) }
{
    if first_is_filled(words) {
        after_any(words)
    } else {
        None
    }
}

/// `NAME HEX`.
pub fn is_attr(words: &[&[u8]]) -> bool
    ensures { result ≡ spec.is_attr (map (λ w. w.now) words.now) }
{
    match after_name(words) {
        Some(rest) => is_whole(after_hex(rest)),
        None => false,
    }
}

fn done_of(words: &[&[u8]]) -> Option<bool>
    ensures { result ≡ spec.done_of (map (λ w. w.now) words.now) }
{
    match words {
        [word] => look_up(&TASK_ENDS, word),
        _ => None,
    }
}

/// `task T done` or `task T unfinished`.
pub fn task_of(words: &[&[u8]]) -> Option<(u32, bool)>
    ensures { result ≡ spec.task_of (map (λ w. w.now) words.now) }
{
    let (number, rest) = named_number(b"task", words)?;
    let done = done_of(rest)?;
    Some((number, done))
}

/// `end`.
pub fn is_end(words: &[&[u8]]) -> bool
    ensures { result ≡ spec.is_end (map (λ w. w.now) words.now) }
{
    is_whole(after(b"end", words))
}
