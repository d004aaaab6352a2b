// How the journals of an inode compare in two runs of one script.

ghost use Rattle.std.specs.Prelude.{◌≡◌, ◌+◌, ◌<◌, [], ◌∷◌, length, drop, slice_get, slice_index, MatchOption, IfOk};
ghost use Rattle.view_sentences.specs.Alike as spec;

use crate::holders::add_if;
use report_read::{Deed, Event, Outcome};
use std::alloc::{AllocError as OutOfMemory, Global};
use view_journal::Window;
use view_page::text_at;

fn is_digit(byte: u8) -> bool
    ensures { result ≡ spec.is_digit byte }
{
    48 <= byte && byte <= 57
}

// The index of the first byte from here on that isn't a digit.
fn next_letter(bytes: &[u8], from: usize) -> Option<usize>
    ensures { MatchOption result (spec.letters (drop from bytes.now) ≡ [])
        (λ k. (k < length bytes.now) × (spec.letters (drop from bytes.now)
        ≡ slice_index bytes.now k ∷ spec.letters (drop (k + 1) bytes.now))) }
{
    for k in from..bytes.len() {
        if !is_digit(bytes[k]) {
            return Some(k);
        }
    }
    None
}

// The texts are the same without their digits.
fn same_letters(a: &[u8], b: &[u8]) -> bool
    ensures { result ≡ spec.same_letters a.now b.now }
{
    let mut next = 0;
    for byte in a {
        if !is_digit(*byte) {
            let Some(k) = next_letter(b, next) else {
                return false;
            };
            if b[k] != *byte {
                return false;
            }
            next = k + 1;
        }
    }
    next_letter(b, next).is_none()
}

/// The place of the count of a deed's file.
pub fn file_of(deed: Deed) -> Option<u32>
    ensures { result ≡ spec.file_of deed }
{
    match deed {
        Deed::Check(file) => Some(file),
        Deed::Take(file) => Some(file),
        Deed::Chunk(file) => Some(file),
        Deed::Finish(file) => Some(file),
        Deed::Read { file, .. } => Some(file),
        Deed::Write { file, .. } => Some(file),
        Deed::Trunc { file, .. } => Some(file),
        Deed::Close(file) => Some(file),
        Deed::CloseTake(file) => Some(file),
        Deed::CloseChunk(file) => Some(file),
        Deed::CloseFinish(file) => Some(file),
        _ => None,
    }
}

fn from_of(deed: Deed) -> u32
    ensures { result ≡ spec.from_of deed }
{
    match deed {
        Deed::Read { from, .. } => from,
        Deed::Write { from, .. } => from,
        _ => 0,
    }
}

fn len_of(deed: Deed) -> u32
    ensures { result ≡ spec.len_of deed }
{
    match deed {
        Deed::Read { len, .. } => len,
        Deed::Write { len, .. } => len,
        Deed::Trunc { len, .. } => len,
        _ => 0,
    }
}

fn bytes_read(outcome: Outcome) -> u32
    ensures { result ≡ spec.bytes_read outcome }
{
    match outcome {
        Outcome::Bytes(n) => n,
        _ => 0,
    }
}

fn same_who(event: Event, other: Event) -> bool
    ensures { result ≡ spec.same_who event other }
{
    event.who.task == other.who.task
        && (event.who.call == other.who.call && event.who.step == other.who.step)
}

/// The event that opened the file.
pub fn opener(journal: &[Event], file: Option<u32>) -> Option<Event>
    ensures { result ≡ spec.opener journal.now file }
{
    match file {
        Some(file) => journal.get(file as usize).copied(),
        None => None,
    }
}

fn same_opener(event: Option<Event>, other: Option<Event>) -> bool
    ensures { result ≡ spec.same_opener event other }
{
    match (event, other) {
        (None, None) => true,
        (Some(event), Some(other)) => same_who(event, other),
        _ => false,
    }
}

fn same_numbers(event: Event, other: Event) -> bool
    ensures { result ≡ spec.same_numbers event other }
{
    from_of(event.deed) == from_of(other.deed)
        && (len_of(event.deed) == len_of(other.deed)
            && bytes_read(event.outcome) == bytes_read(other.outcome))
}

// The events are told alike, but for places.
fn alike(text: &[u8], mine: &[Event], other: &[Event], event: Event, found: Event) -> bool
    ensures { result ≡ spec.alike text.now mine.now other.now event found }
{
    same_who(event, found)
        && (same_opener(
            opener(mine, file_of(event.deed)),
            opener(other, file_of(found.deed)),
        ) && (same_numbers(event, found)
            && same_letters(text_at(text, event.line), text_at(text, found.line))))
}

// The other run lacks the event, or tells it otherwise.
fn differs(text: &[u8], mine: &[Event], other: &[Event], event: Event) -> bool
    ensures { result ≡ spec.differs text.now mine.now other.now event }
{
    for found in other {
        if alike(text, mine, other, event, *found) {
            return false;
        }
    }
    true
}

fn alike_at(
    text: &[u8],
    mine: &[Event],
    other: &[Event],
    event: Event,
    found: Option<Event>,
) -> bool
    ensures { result ≡ spec.alike_at text.now mine.now other.now event found }
{
    match found {
        Some(found) => alike(text, mine, other, event, found),
        None => false,
    }
}

fn is_alike(text: &[u8], mine: &[Event], other: &[Event], place: usize, event: Event) -> bool
    ensures { result ≡ spec.alike_at text.now mine.now other.now event
        (slice_get other.now place) }
{
    alike_at(text, mine, other, event, other.get(place).copied())
}

/// The first place at which the journals aren't told alike, if there is one.
pub fn parted(text: &[u8], mine: &[Event], other: &[Event]) -> Option<usize>
    ensures { result ≡ spec.parted text.now mine.now other.now }
{
    for (place, event) in mine.iter().enumerate() {
        if !is_alike(text, mine, other, place, *event) {
            return Some(place);
        }
    }
    if mine.len() < other.len() {
        Some(mine.len())
    } else {
        None
    }
}

/// The place is in one of the windows.
pub fn is_drawn(windows: &[Window], place: u32) -> bool
    ensures { result ≡ spec.is_drawn windows.now place }
{
    for window in windows {
        if window.first <= place && place <= window.last {
            return true;
        }
    }
    false
}

fn is_differing(
    text: &[u8],
    mine: &[Event],
    other: &[Event],
    windows: &[Window],
    place: u32,
    event: Event,
) -> bool
    ensures { result
        ≡ spec.is_differing text.now mine.now other.now windows.now place event }
{
    is_drawn(windows, place) && differs(text, mine, other, event)
}

/// The drawn places whose events the other run lacks or tells otherwise.
pub fn differing(
    alloc: Global,
    text: &[u8],
    mine: &[Event],
    other: &[Event],
    windows: &[Window],
) -> Result<Vec<u32>, OutOfMemory>
    requires { length mine.now < 4294967296 }
    ensures { IfOk result
        (λ v. v.items ≡ spec.differing text.now mine.now other.now windows.now) }
{
    let mut places = Vec::new(alloc);
    for (place, event) in mine.iter().enumerate() {
        let place = place as u32;
        let differs = is_differing(text, mine, other, windows, place, *event);
        add_if(differs, &mut places, place)?;
    }
    Ok(places)
}
