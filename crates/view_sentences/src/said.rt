// What the sentence of an event says.

ghost use Rattle.std.specs.Prelude.{◌≡◌, ◌≤◌, ◌<◌, length, reverse, if◌then◌else◌, OnOk};
ghost use Rattle.view_page.specs.Parts.{Pushed};
ghost use Rattle.view_sentences.specs.Sentences as spec;

use crate::alike::{file_of, opener};
use crate::named::{push_holders_at, use_of};
use report_read::{Event, Grant, Outcome, Verdict};
use std::alloc::{AllocError as OutOfMemory, Global};
use view_journal::is_write;
use view_page::{Part, Told, after_word, cut, push_parts};

fn push_entry(
    out: &mut Vec<u8>,
    text: &[u8],
    entry: u32,
    violation: Told,
) -> Result<(), OutOfMemory>
    ensures { OnOk result
        (Pushed text.now out.old.items out.new.items (spec.entry_is entry violation)) }
{
    let parts = [
        Part::Told(Told::EntryIs),
        Part::Number(u64::from(entry)),
        Part::Told(violation),
    ];
    push_parts(out, text, &parts)
}

fn push_opened(
    out: &mut Vec<u8>,
    text: &[u8],
    event: Event,
    before: Told,
    used: Told,
    after: Told,
) -> Result<(), OutOfMemory>
    ensures { OnOk result
        (Pushed text.now out.old.items out.new.items (spec.opened event before used after)) }
{
    let parts = [
        Part::Told(Told::Task),
        Part::Number(u64::from(event.who.task)),
        Part::Told(before),
        Part::Told(used),
        Part::Told(after),
    ];
    push_parts(out, text, &parts)
}

fn push_tomtou(
    alloc: Global,
    out: &mut Vec<u8>,
    text: &[u8],
    journal: &[Event],
    place: usize,
    event: Event,
    entry: u32,
) -> Result<(), OutOfMemory>
    requires within { place ≤ length journal.now }
    requires few { length journal.now < 4294967296 }
    ensures { OnOk result (Pushed text.now out.old.items out.new.items
        (spec.tomtou journal.now place event entry)) }
{
    let used = use_of(opener(journal, file_of(event.deed)));
    push_opened(out, text, event, Told::OpenedFor, used, Told::Measured)?;
    push_holders_at(alloc, out, text, journal, place, event)?;
    push_entry(out, text, entry, Told::ToMToU)
}

fn push_open_writers(
    alloc: Global,
    out: &mut Vec<u8>,
    text: &[u8],
    journal: &[Event],
    place: usize,
    event: Event,
    entry: u32,
) -> Result<(), OutOfMemory>
    requires within { place ≤ length journal.now }
    requires few { length journal.now < 4294967296 }
    ensures { OnOk result (Pushed text.now out.old.items out.new.items
        (spec.open_writers journal.now place event entry)) }
{
    let used = use_of(opener(journal, file_of(event.deed)));
    push_opened(out, text, event, Told::OpenedToMeasure, used, Told::HeldBy)?;
    push_holders_at(alloc, out, text, journal, place, event)?;
    push_entry(out, text, entry, Told::OpenWriters)
}

// What wasn't admitted, opened or done.
fn push_refused(out: &mut Vec<u8>, text: &[u8], event: Event) -> Result<(), OutOfMemory>
    ensures { OnOk result
        (Pushed text.now out.old.items out.new.items (spec.refused text.now event)) }
{
    let parts = [
        Part::Told(Told::Task),
        Part::Number(u64::from(event.who.task)),
        Part::Told(Told::Call),
        Part::Number(u64::from(event.who.call)),
        Part::Told(Told::WasTold),
        Part::Text(cut(160, after_word(text, after_word(text, event.line)))),
        Part::Told(Told::CodeEnd),
    ];
    push_parts(out, text, &parts)
}

fn push_labelled(out: &mut Vec<u8>, text: &[u8], event: Event) -> Result<(), OutOfMemory>
    ensures { OnOk result (Pushed text.now out.old.items out.new.items (spec.labelled event)) }
{
    let parts = [
        Part::Told(Told::Labelled),
        Part::Number(u64::from(event.who.call)),
        Part::Told(Told::OfTask),
        Part::Number(u64::from(event.who.task)),
    ];
    push_parts(out, text, &parts)
}

fn later(written: bool, place: u32, last: Option<u32>) -> Option<u32>
    ensures { result ≡ (if written then Some place else last) }
{
    if written { Some(place) } else { last }
}

// The place of the last write of these events.
fn last_write(journal: &[Event]) -> Option<u32>
    requires { length journal.now < 4294967296 }
    ensures { result ≡ spec.last_write (reverse journal.now) }
{
    let mut last = None;
    for (place, event) in journal.iter().enumerate() {
        last = later(is_write(event.deed, event.outcome), place as u32, last);
    }
    last
}

fn push_writer_at(
    out: &mut Vec<u8>,
    text: &[u8],
    place: u32,
    event: Option<Event>,
) -> Result<(), OutOfMemory>
    ensures { OnOk result
        (Pushed text.now out.old.items out.new.items (spec.writer_at place event)) }
{
    let Some(event) = event else {
        return push_parts(out, text, &[]);
    };
    let parts = [
        Part::Told(Told::Writer),
        Part::Number(u64::from(event.who.task)),
        Part::Told(Told::Wrote),
        Part::Number(u64::from(place)),
    ];
    push_parts(out, text, &parts)
}

fn push_writer(
    out: &mut Vec<u8>,
    text: &[u8],
    journal: &[Event],
    place: Option<u32>,
) -> Result<(), OutOfMemory>
    ensures { OnOk result
        (Pushed text.now out.old.items out.new.items (spec.writer journal.now place)) }
{
    match place {
        Some(place) => push_writer_at(out, text, place, journal.get(place as usize).copied()),
        None => push_parts(out, text, &[]),
    }
}

fn push_not_as_hashed(out: &mut Vec<u8>, text: &[u8], event: Event) -> Result<(), OutOfMemory>
    ensures { OnOk result (Pushed text.now out.old.items out.new.items (spec.not_as_hashed event)) }
{
    let parts = [
        Part::Told(Told::Task),
        Part::Number(u64::from(event.who.task)),
        Part::Told(Told::NotAsHashed),
    ];
    push_parts(out, text, &parts)
}

fn push_stale(
    out: &mut Vec<u8>,
    text: &[u8],
    journal: &[Event],
    place: usize,
    event: Event,
) -> Result<(), OutOfMemory>
    requires within { place ≤ length journal.now }
    requires few { length journal.now < 4294967296 }
    ensures { OnOk result
        (Pushed text.now out.old.items out.new.items (spec.stale journal.now place event)) }
{
    push_not_as_hashed(out, text, event)?;
    push_writer(out, text, journal, last_write(&journal[..place]))
}

/// The verdict is a denial.
pub fn is_denied(verdict: Verdict) -> bool
    ensures { result ≡ spec.is_denied verdict }
{
    match verdict {
        Verdict::Deny => true,
        Verdict::Pass | Verdict::NotAppraised => false,
    }
}

fn push_granted(
    out: &mut Vec<u8>,
    text: &[u8],
    event: Event,
    grant: Grant,
) -> Result<(), OutOfMemory>
    ensures { OnOk result
        (Pushed text.now out.old.items out.new.items (spec.granted text.now event grant)) }
{
    if is_denied(grant.verdict) {
        push_refused(out, text, event)
    } else {
        push_labelled(out, text, event)
    }
}

/// Appends what is said of an event.
pub fn push_said(
    alloc: Global,
    out: &mut Vec<u8>,
    text: &[u8],
    journal: &[Event],
    place: usize,
    event: Event,
) -> Result<(), OutOfMemory>
    requires within { place ≤ length journal.now }
    requires few { length journal.now < 4294967296 }
    ensures { OnOk result (Pushed text.now out.old.items out.new.items
        (spec.said text.now journal.now place event event.outcome)) }
{
    match event.outcome {
        Outcome::ToMToU(entry) => push_tomtou(alloc, out, text, journal, place, event, entry),
        Outcome::OpenWriters(entry) => {
            push_open_writers(alloc, out, text, journal, place, event, entry)
        }
        Outcome::Granted(grant) => push_granted(out, text, event, grant),
        Outcome::LabelledDropped => push_labelled(out, text, event),
        Outcome::Bytes(_) => push_stale(out, text, journal, place, event),
        _ => push_refused(out, text, event),
    }
}
