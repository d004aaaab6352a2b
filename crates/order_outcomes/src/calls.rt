// What the journals of a run say of one call.

ghost use Rattle.std.specs.Prelude.{◌≡◌, if◌then◌else◌, ◌&&◌, ◌||◌, Some, IfOk, OnOk};
ghost use Rattle.report_text.specs.model.events.NewestFirst.{newest_first};
ghost use Rattle.report_text.specs.model.events.State.{content_after};
ghost use Rattle.report_text.specs.model.events.pages.Content.{overwritten};
ghost use Rattle.order_outcomes.specs.Calls.{is_by, is_listed, is_read, listed_in, listed_of, place_told, shows, shows_at, verdict_by, verdict_in, verdict_of, verdict_told};

use ima_templates::{Entry, Placed};
use inode_events::{Deed, EndedInode, Event, Told};
use inode_hashing::digest_of_content;
use inode_pages::{Content, PageErr};
use label_values::Verdict;
use std::alloc::{AllocError as OutOfMemory, Global};

fn is_by(event: &Event, task: usize, call: usize) -> bool
    ensures { result ≡ is_by task call event.now }
{
    event.who.task as usize == task && event.who.call as usize == call
}

// ---- verdicts

fn verdict_told(told: &Told) -> Option<Verdict>
    ensures { result ≡ verdict_told told.now }
{
    match told {
        Told::Grant(grant) => grant.verdict,
        _ => None,
    }
}

fn verdict_by(event: &Event, task: usize, call: usize) -> Option<Verdict>
    ensures { result ≡ verdict_by task call event.now }
{
    if is_by(event, task, call) {
        verdict_told(&event.told)
    } else {
        None
    }
}

fn verdict_in(journal: &[Event], task: usize, call: usize) -> Option<Verdict>
    ensures { result ≡ verdict_in task call journal.now }
{
    for event in journal {
        if let Some(verdict) = verdict_by(event, task, call) {
            return Some(verdict);
        }
    }
    None
}

/// The verdict of the call's grant, if it had one.
pub fn verdict_of(inodes: &[EndedInode], task: usize, call: usize) -> Option<Verdict>
    ensures { result ≡ verdict_of task call inodes.now }
{
    for inode in inodes {
        if let Some(verdict) = verdict_in(inode.journal.as_slice(), task, call) {
            return Some(verdict);
        }
    }
    None
}

// ---- reads

/// The place in the list that the outcome reports.
pub fn place_told(told: &Told) -> Option<u64>
    ensures { result ≡ place_told told.now }
{
    match told {
        Told::Grant(grant) => match grant.placed {
            Some(Placed::Added(place)) => Some(place),
            Some(Placed::Already(place)) => Some(place),
            None => None,
        },
        _ => None,
    }
}

// Whether the entry isn't a violation, and has the digest of the content.
fn shows(entry: &Entry, content: &Content) -> bool
    ensures { result ≡ shows content.now (Some entry.now) }
{
    let digest = digest_of_content(entry.digest.algo(), content);
    !entry.violation && entry.digest.as_slice() == digest.as_slice()
}

// Whether the entry at this place does.
fn shows_at(list: &[Entry], content: &Content, place: Option<u64>) -> bool
    ensures { result ≡ shows_at list.now content.now place }
{
    let Some(place) = place else {
        return false;
    };
    match list.get(place as usize) {
        Some(entry) => shows(entry, content),
        None => false,
    }
}

// Whether the content was listed, or the event's grant has added or found an entry for it.
fn listed_with(list: &[Entry], content: &Content, event: &Event, listed: bool) -> bool
    ensures { result
        ≡ (listed || shows_at list.now content.now (place_told event.now.told)) }
{
    if listed {
        return true;
    }
    shows_at(list, content, place_told(&event.told))
}

// Whether a grant of these events has added or found an entry with the digest of the content.
fn is_listed(list: &[Entry], content: &Content, before: &[Event]) -> bool
    ensures { result ≡ is_listed list.now content.now (newest_first before.now) }
{
    let mut listed = false;
    for event in before {
        listed = listed_with(list, content, event, listed);
    }
    listed
}

// Overwrites the content, also with no bytes: then it is still as long as the offset.
fn overwrite(alloc: Global, content: &mut Content, from: u64, bytes: &[u8]) -> Result<(), PageErr>
    ensures { OnOk result (content.new ≡ overwritten content.old from bytes.now) }
{
    if !bytes.is_empty() {
        content.write(alloc, from, bytes)
    } else if content.len() < from {
        content.resize(alloc, from)
    } else {
        Ok(())
    }
}

/// Changes the content as the event did.
pub fn follow(alloc: Global, content: &mut Content, event: &Event) -> Result<(), OutOfMemory>
    ensures { OnOk result (content.new ≡ content_after event.now.deed event.now.told content.old) }
{
    match (&event.deed, &event.told) {
        (Deed::Birth, Told::Image(image)) => {
            *content = image.get().content.share(alloc)?;
            Ok(())
        }
        // The errors must be memory: what was done isn't too long.
        (Deed::Write { from, bytes, .. }, Told::Done) => {
            match overwrite(alloc, content, *from, bytes.as_slice()) {
                Ok(()) => Ok(()),
                Err(_) => Err(OutOfMemory),
            }
        }
        (Deed::Trunc { len, .. }, Told::Done) => match content.resize(alloc, *len) {
            Ok(()) => Ok(()),
            Err(_) => Err(OutOfMemory),
        },
        _ => Ok(()),
    }
}

/// Whether the deed is a read.
pub fn is_read(deed: &Deed) -> bool
    ensures { result ≡ is_read deed.now }
{
    match deed {
        Deed::Read { .. } => true,
        _ => false,
    }
}

// Whether the content is listed, if the event is a read by the call, and else as it was.
fn listed_at(
    list: &[Entry],
    content: &Content,
    before: &[Event],
    event: &Event,
    task: usize,
    call: usize,
    old: Option<bool>,
) -> Option<bool>
    ensures { result ≡ (if is_by task call event.now && is_read event.now.deed
        then Some (is_listed list.now content.now (newest_first before.now)) else old) }
{
    if is_by(event, task, call) && is_read(&event.deed) {
        Some(is_listed(list, content, before))
    } else {
        old
    }
}

fn listed_in(
    alloc: Global,
    list: &[Entry],
    journal: &[Event],
    task: usize,
    call: usize,
) -> Result<Option<bool>, OutOfMemory>
    ensures { IfOk result
        (λ listed. listed ≡ listed_in list.now task call (newest_first journal.now)) }
{
    let mut content = Content::new(alloc);
    let mut listed = None;
    for (place, event) in journal.iter().enumerate() {
        let (before, _) = journal.split_at(place);
        listed = listed_at(list, &content, before, event, task, call, listed);
        follow(alloc, &mut content, event)?;
    }
    Ok(listed)
}

/// Of a read: whether the list had the content that was read.
pub fn listed_of(
    alloc: Global,
    list: &[Entry],
    inodes: &[EndedInode],
    task: usize,
    call: usize,
) -> Result<Option<bool>, OutOfMemory>
    ensures { IfOk result (λ listed. listed ≡ listed_of list.now task call inodes.now) }
{
    for inode in inodes {
        if let Some(listed) = listed_in(alloc, list, inode.journal.as_slice(), task, call)? {
            return Ok(Some(listed));
        }
    }
    Ok(None)
}
