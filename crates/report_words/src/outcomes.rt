// The outcomes of event lines, by the deed: the words after `=`, all of them.

ghost use Rattle.std.specs.Prelude.{◌≡◌, map, option_map};
ghost use Rattle.report_words.specs.Forms.{after_by, only_by};
ghost use Rattle.report_words.specs.Outcomes as spec;

use crate::event::{Deed, Grant, Kind, Outcome, Placed, Verdict};
use crate::forms::{after, counted, last_number, number_in};
use crate::tables::{after_one_of, is_among};
use text_forms::look_up;

const COUNTS: [(&[u8], Outcome); 3] = [
    (b"held", Outcome::Held),
    (b"notfound", Outcome::NotFound),
    (b"textbusy", Outcome::TextBusy),
];

const QUIET: [(&[u8], Outcome); 1] = [(b"quiet", Outcome::Quiet)];

const BEGUN: [(&[u8], Outcome); 1] = [(b"begun", Outcome::Begun)];

const CHUNKS: [(&[u8], Outcome); 2] = [(b"more", Outcome::More), (b"last", Outcome::Last)];

const WRITES: [(&[u8], Outcome); 2] = [(b"done", Outcome::Done), (b"toobig", Outcome::TooBig)];

const SETS: [(&[u8], Outcome); 6] = [
    (b"done", Outcome::Done),
    (b"notfound", Outcome::NotFound),
    (b"evmname", Outcome::EvmName),
    (b"notadmin", Outcome::NotAdmin),
    (b"toolong", Outcome::TooLong),
    (b"invalid", Outcome::Invalid),
];

const REMOVALS: [(&[u8], Outcome); 5] = [
    (b"done", Outcome::Done),
    (b"notfound", Outcome::NotFound),
    (b"evmname", Outcome::EvmName),
    (b"notadmin", Outcome::NotAdmin),
    (b"nodata", Outcome::NoData),
];

const METAS: [(&[u8], Outcome); 2] = [(b"done", Outcome::Done), (b"notfound", Outcome::NotFound)];

const DROPPED: [(&[u8], Outcome); 1] = [(b"dropped", Outcome::Dropped)];

const TAKEN_OR_DROPPED: [(&[u8], Outcome); 2] = [
    (b"begun", Outcome::Begun),
    (b"dropped", Outcome::Dropped),
];

const LABELLED: [(&[u8], Outcome); 1] = [(b"dropped", Outcome::LabelledDropped)];

// The causes of denials, and the statuses that forbid a change.
const CAUSES: [&[u8]; 8] = [
    b"denied-hash-algorithm",
    b"IMA-signature-required",
    b"missing-hash",
    b"missing-HMAC",
    b"invalid-HMAC",
    b"unsupported-signature",
    b"unknown-ima-data",
    b"invalid-hash",
];

const STATUSES: [&[u8]; 3] = [b"no-label", b"fail", b"old"];

const SET_STATUSES: [&[u8]; 4] = [b"no-xattrs", b"no-label", b"fail", b"old"];

/// The outcome of the deed that all the words are.
#[tactic(auto, unfolding(crate::specs::Outcomes::outcome_of))]
pub fn outcome_of(deed: Deed, words: &[&[u8]]) -> Option<Outcome>
    ensures { result ≡ spec.outcome_of deed (map (λ w. w.now) words.now) }
{
    match deed {
        Deed::Birth => None,
        Deed::Count { kind, create } => count_outcome(kind, create, words),
        Deed::Check(_) => check_outcome(words),
        Deed::Take(_) => take_outcome(words),
        Deed::Chunk(_) => chunk_outcome(words),
        Deed::Finish(_) => finish_outcome(words),
        Deed::Read { .. } => read_outcome(words),
        Deed::Write { .. } => write_outcome(words),
        Deed::Trunc { .. } => write_outcome(words),
        Deed::SetAttr => set_outcome(words),
        Deed::RemoveAttr => removal_outcome(words),
        Deed::SetMeta => meta_outcome(words),
        Deed::Close(_) => close_outcome(words),
        Deed::CloseTake(_) => close_take_outcome(words),
        Deed::CloseChunk(_) => chunk_outcome(words),
        Deed::CloseFinish(_) => close_finish_outcome(words),
    }
}

// The outcome of the table whose word the words are.
fn one_of(table: &[(&[u8], Outcome)], words: &[&[u8]]) -> Option<Outcome>
    ensures { result ≡ spec.one_of (map (λ e. (e.0.now, e.1)) table.now)
        (map (λ w. w.now) words.now) }
{
    match words {
        [word] => look_up(table, word),
        _ => None,
    }
}

/// Whether the word is the cause of a denial.
pub fn is_cause(word: &[u8]) -> bool
    ensures { result ≡ spec.is_cause word.now }
{
    is_among(&CAUSES, word)
}

/// Whether the word is a status that forbids to set an attribute.
pub fn is_set_status(word: &[u8]) -> bool
    ensures { result ≡ spec.is_set_status word.now }
{
    is_among(&SET_STATUSES, word)
}

// Whether a count of this kind can have the outcome.
fn may_count(kind: Kind, create: bool, outcome: Outcome) -> bool
    ensures { result ≡ spec.may_count kind create outcome }
{
    match outcome {
        Outcome::NotFound => !create,
        Outcome::TextBusy => is_write_or_exec(kind),
        _ => true,
    }
}

fn is_write_or_exec(kind: Kind) -> bool
    ensures { result ≡ spec.is_write_or_exec kind }
{
    match kind {
        Kind::Read => false,
        Kind::Write | Kind::ReadWrite | Kind::Exec => true,
    }
}

fn count_outcome(kind: Kind, create: bool, words: &[&[u8]]) -> Option<Outcome>
    ensures { result ≡ spec.count_outcome kind create (map (λ w. w.now) words.now) }
{
    let outcome = one_of(&COUNTS, words)?;
    if may_count(kind, create, outcome) {
        Some(outcome)
    } else {
        None
    }
}

fn violation(words: &[&[u8]]) -> Option<Outcome>
    ensures { result ≡ spec.violation (map (λ w. w.now) words.now) }
{
    match after(b"open-writers", words) {
        Some(rest) => {
            let place = last_number(rest)?;
            Some(Outcome::OpenWriters(place))
        }
        None => tomtou(words),
    }
}

fn tomtou(words: &[&[u8]]) -> Option<Outcome>
    ensures { result ≡ spec.tomtou (map (λ w. w.now) words.now) }
{
    let place = counted(b"tomtou", words)?;
    Some(Outcome::ToMToU(place))
}

fn check_outcome(words: &[&[u8]]) -> Option<Outcome>
    ensures { result ≡ spec.check_outcome (map (λ w. w.now) words.now) }
{
    match one_of(&QUIET, words) {
        Some(outcome) => Some(outcome),
        None => violation(words),
    }
}

// `added P` or `already P`, if one of them is there, with P, else 0.
fn placed_in<'w>(words: &'w [&'w [u8]]) -> Option<(Placed, u32, &'w [&'w [u8]])>
    ensures { option_map (λ p. (p.0, p.1, map (λ w. w.now) p.2.now)) result
        ≡ spec.placed_in (map (λ w. w.now) words.now) }
{
    match after(b"added", words) {
        Some(rest) => place_in(Placed::Added, rest),
        None => already_in(words),
    }
}

fn already_in<'w>(words: &'w [&'w [u8]]) -> Option<(Placed, u32, &'w [&'w [u8]])>
    ensures { option_map (λ p. (p.0, p.1, map (λ w. w.now) p.2.now)) result
        ≡ spec.already_in (map (λ w. w.now) words.now) }
{
    match after(b"already", words) {
        Some(rest) => place_in(Placed::Already, rest),
        None => Some((Placed::NotMeasured, 0, words)),
    }
}

// The place of an entry, of which this is said.
fn place_in<'w>(placed: Placed, words: &'w [&'w [u8]]) -> Option<(Placed, u32, &'w [&'w [u8]])>
    ensures { option_map (λ p. (p.0, p.1, map (λ w. w.now) p.2.now)) result
        ≡ spec.place_in placed (map (λ w. w.now) words.now) }
{
    let (entry, rest) = number_in(words)?;
    Some((placed, entry, rest))
}

// `pass` or `deny CAUSE`, if one of them is there.
fn verdict_in<'w>(words: &'w [&'w [u8]]) -> Option<(Verdict, &'w [&'w [u8]])>
    ensures { option_map (λ p. (p.0, map (λ w. w.now) p.1.now)) result
        ≡ spec.verdict_in (map (λ w. w.now) words.now) }
{
    match after(b"pass", words) {
        Some(rest) => Some((Verdict::Pass, rest)),
        None => denied_in(words),
    }
}

fn denied_in<'w>(words: &'w [&'w [u8]]) -> Option<(Verdict, &'w [&'w [u8]])>
    ensures { option_map (λ p. (p.0, map (λ w. w.now) p.1.now)) result
        ≡ spec.denied_in (map (λ w. w.now) words.now) }
{
    match after(b"deny", words) {
        Some(rest) => {
            let rest = after_cause(rest)?;
            Some((Verdict::Deny, rest))
        }
        None => Some((Verdict::NotAppraised, words)),
    }
}

fn after_cause<'w>(words: &'w [&'w [u8]]) -> Option<&'w [&'w [u8]]>
    ensures { option_map (λ r. map (λ w. w.now) r.now) result
        ≡ after_by spec.is_cause (map (λ w. w.now) words.now) }
{
    after_one_of(&CAUSES, words)
}

// `admitted` or `refused`.
fn admitted_in<'w>(words: &'w [&'w [u8]]) -> Option<(bool, &'w [&'w [u8]])>
    ensures { option_map (λ p. (p.0, map (λ w. w.now) p.1.now)) result
        ≡ spec.admitted_in (map (λ w. w.now) words.now) }
{
    match after(b"admitted", words) {
        Some(rest) => Some((true, rest)),
        None => {
            let rest = after(b"refused", words)?;
            Some((false, rest))
        }
    }
}

// Whether the words are `labelled`, or else none.
fn labelled_of(words: &[&[u8]]) -> Option<bool>
    ensures { result ≡ spec.labelled_of (map (λ w. w.now) words.now) }
{
    match words {
        [] => Some(false),
        [word] => if *word == b"labelled".as_slice() {
            Some(true)
        } else {
            None
        },
        _ => None,
    }
}

fn grant_of(words: &[&[u8]]) -> Option<Grant>
    ensures { result ≡ spec.grant_of (map (λ w. w.now) words.now) }
{
    let (placed, entry, rest) = placed_in(words)?;
    let (verdict, rest) = verdict_in(rest)?;
    let (admitted, rest) = admitted_in(rest)?;
    let labelled = labelled_of(rest)?;
    Some(Grant {
        entry,
        placed,
        verdict,
        admitted,
        labelled,
    })
}

fn finish_outcome(words: &[&[u8]]) -> Option<Outcome>
    ensures { result ≡ spec.finish_outcome (map (λ w. w.now) words.now) }
{
    let grant = grant_of(words)?;
    Some(Outcome::Granted(grant))
}

fn take_outcome(words: &[&[u8]]) -> Option<Outcome>
    ensures { result ≡ spec.take_outcome (map (λ w. w.now) words.now) }
{
    match one_of(&BEGUN, words) {
        Some(outcome) => Some(outcome),
        None => finish_outcome(words),
    }
}

fn chunk_outcome(words: &[&[u8]]) -> Option<Outcome>
    ensures { result ≡ spec.chunk_outcome (map (λ w. w.now) words.now) }
{
    one_of(&CHUNKS, words)
}

fn read_outcome(words: &[&[u8]]) -> Option<Outcome>
    ensures { result ≡ spec.read_outcome (map (λ w. w.now) words.now) }
{
    let count = last_number(words)?;
    Some(Outcome::Bytes(count))
}

fn write_outcome(words: &[&[u8]]) -> Option<Outcome>
    ensures { result ≡ spec.write_outcome (map (λ w. w.now) words.now) }
{
    one_of(&WRITES, words)
}

// Whether the words are one status that forbids a removal or a change of metadata.
fn is_one_status(words: &[&[u8]]) -> bool
    ensures { result ≡ only_by spec.is_status (map (λ w. w.now) words.now) }
{
    match words {
        [word] => is_among(&STATUSES, word),
        _ => false,
    }
}

fn is_one_set_status(words: &[&[u8]]) -> bool
    ensures { result ≡ only_by spec.is_set_status (map (λ w. w.now) words.now) }
{
    match words {
        [word] => is_set_status(word),
        _ => false,
    }
}

fn set_outcome(words: &[&[u8]]) -> Option<Outcome>
    ensures { result ≡ spec.set_outcome (map (λ w. w.now) words.now) }
{
    match after(b"status", words) {
        Some(rest) => is_one_set_status(rest).then_some(Outcome::Status),
        None => one_of(&SETS, words),
    }
}

fn removal_outcome(words: &[&[u8]]) -> Option<Outcome>
    ensures { result ≡ spec.removal_outcome (map (λ w. w.now) words.now) }
{
    match after(b"status", words) {
        Some(rest) => is_one_status(rest).then_some(Outcome::Status),
        None => one_of(&REMOVALS, words),
    }
}

fn meta_outcome(words: &[&[u8]]) -> Option<Outcome>
    ensures { result ≡ spec.meta_outcome (map (λ w. w.now) words.now) }
{
    match after(b"status", words) {
        Some(rest) => is_one_status(rest).then_some(Outcome::Status),
        None => one_of(&METAS, words),
    }
}

fn close_outcome(words: &[&[u8]]) -> Option<Outcome>
    ensures { result ≡ spec.close_outcome (map (λ w. w.now) words.now) }
{
    one_of(&DROPPED, words)
}

fn close_take_outcome(words: &[&[u8]]) -> Option<Outcome>
    ensures { result ≡ spec.close_take_outcome (map (λ w. w.now) words.now) }
{
    one_of(&TAKEN_OR_DROPPED, words)
}

fn close_finish_outcome(words: &[&[u8]]) -> Option<Outcome>
    ensures { result ≡ spec.close_finish_outcome (map (λ w. w.now) words.now) }
{
    match after(b"labelled", words) {
        Some(rest) => one_of(&LABELLED, rest),
        None => close_outcome(words),
    }
}
