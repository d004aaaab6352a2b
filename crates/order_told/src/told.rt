// What calls were told in two journals of an inode.

ghost use Rattle.std.specs.Prelude.{◌≡◌, ◌<◌, ◌++◌, length, option_to_list, reverse, slice_get, All, IfOk, IsTrue, OnOk, Some, true};
ghost use Rattle.inode_events.specs.NewestFirst.{newest_first};
ghost use Rattle.order_outcomes.specs.alike.Alike.{places_in};
ghost use Rattle.order_outcomes.specs.Calls.{is_read, listed_of, verdict_of};
ghost use Rattle.order_told.specs.Told.{AreEntriesSame, IsAt, IsCallSame, IsThere, are_checks_below, is_check_below, is_grant};

use crate::same::Same;
use inode_events::templates::Entry;
use inode_events::{Deed, EndedInode, Event, Told};
use order_outcomes::{is_read, listed_of, place_told, verdict_of};
use std::alloc::{AllocError as OutOfMemory, Global};

// ---- checks

fn is_check_below(event: &Event, end: u64) -> bool
    ensures { result ≡ is_check_below end event.now.deed }
{
    match &event.deed {
        Deed::Check { file, .. } => *file < end,
        _ => true,
    }
}

/// Whether the checks are of files that have a place in the journal.
pub fn are_checks_below(journal: &[Event]) -> bool
    ensures { result ≡ are_checks_below (length journal.now) journal.now }
{
    let end = journal.len() as u64;
    journal.iter().all(|event| is_check_below(event, end))
}

// ---- places

fn push_place(places: &mut Vec<u64>, place: Option<u64>) -> Result<(), OutOfMemory>
    ensures { OnOk result (places.new.items ≡ places.old.items ++ option_to_list place) }
{
    match place {
        Some(place) => {
            places.push(place)?;
            Ok(())
        }
        None => Ok(()),
    }
}

// The places in the list that the grants report, oldest first.
fn places_in(alloc: Global, journal: &[Event]) -> Result<Vec<u64>, OutOfMemory>
    ensures { IfOk result (λ places. reverse places.items ≡ places_in (newest_first journal.now)) }
{
    let mut places = Vec::new(alloc);
    for event in journal {
        push_place(&mut places, place_told(&event.told))?;
    }
    Ok(places)
}

fn are_below(places: &[u64], end: u64) -> bool
    ensures { IsTrue result → All (λ place. place < end) places.now }
{
    places.iter().all(|place| *place < end)
}

// Whether the entry is at the place.
fn is_entry_at(list: &[Entry], place: u64, entry: &Entry) -> bool
    ensures { IsTrue result → (slice_get list.now place ≡ Some entry.now) }
{
    match list.get(place as usize) {
        Some(other) => other.is_same(entry),
        None => false,
    }
}

// Whether it is at one of these places.
fn is_at(list: &[Entry], places: &[u64], entry: &Entry) -> bool
    ensures { IsTrue result → IsAt list.now places.now entry.now }
{
    for place in places {
        if is_entry_at(list, *place, entry) {
            return true;
        }
    }
    false
}

// Whether the entry at the place of the other list is at one of these places.
fn is_there(list: &[Entry], places: &[u64], other: &[Entry], place: u64) -> bool
    ensures { IsTrue result → IsThere list.now places.now other.now place }
{
    match other.get(place as usize) {
        Some(entry) => is_at(list, places, entry),
        None => true,
    }
}

// Whether all entries at the others' places are.
fn are_there(list: &[Entry], places: &[u64], other: &[Entry], others: &[u64]) -> bool
    ensures { IsTrue result → All (IsThere list.now places.now other.now) others.now }
{
    for place in others {
        if !is_there(list, places, other, *place) {
            return false;
        }
    }
    true
}

/// Whether the grants report the same entries of the lists, in any order.
pub fn same_entries(
    alloc: Global,
    list: &[Entry],
    other: &[Entry],
    a: &[Event],
    b: &[Event],
) -> Result<bool, OutOfMemory>
    ensures { IfOk result (λ same. IsTrue same
        → AreEntriesSame list.now other.now a.now b.now) }
{
    let places = places_in(alloc, a)?;
    let others = places_in(alloc, b)?;
    let here = places.as_slice();
    let there = others.as_slice();
    if !are_below(here, list.len() as u64) {
        return Ok(false);
    }
    if !are_below(there, other.len() as u64) {
        return Ok(false);
    }
    if !are_there(other, there, list, here) {
        return Ok(false);
    }
    Ok(are_there(list, here, other, there))
}

// ---- calls

fn is_grant(told: &Told) -> bool
    ensures { result ≡ is_grant told.now }
{
    match told {
        Told::Grant(_) => true,
        _ => false,
    }
}

fn same_verdict(a: &[EndedInode], b: &[EndedInode], event: &Event) -> bool
    ensures { IsTrue result → is_grant event.now.told ≡ true → (verdict_of event.now.who.task
        event.now.who.call b.now ≡ verdict_of event.now.who.task event.now.who.call a.now) }
{
    let task = event.who.task as usize;
    let call = event.who.call as usize;
    !is_grant(&event.told) || verdict_of(b, task, call) == verdict_of(a, task, call)
}

fn same_listed(
    alloc: Global,
    list: &[Entry],
    other: &[Entry],
    a: &[EndedInode],
    b: &[EndedInode],
    event: &Event,
) -> Result<bool, OutOfMemory>
    ensures { IfOk result (λ same. IsTrue same → is_read event.now.deed ≡ true
        → (listed_of other.now event.now.who.task event.now.who.call b.now
        ≡ listed_of list.now event.now.who.task event.now.who.call a.now)) }
{
    if !is_read(&event.deed) {
        return Ok(true);
    }
    let task = event.who.task as usize;
    let call = event.who.call as usize;
    let there = listed_of(alloc, other, b, task, call)?;
    let here = listed_of(alloc, list, a, task, call)?;
    Ok(there == here)
}

/// Whether the inodes say the same of the calls that have events in the journal.
pub fn same_calls(
    alloc: Global,
    list: &[Entry],
    other: &[Entry],
    a: &[EndedInode],
    b: &[EndedInode],
    journal: &[Event],
) -> Result<bool, OutOfMemory>
    ensures { IfOk result (λ same. IsTrue same
        → All (IsCallSame list.now other.now a.now b.now) journal.now) }
{
    for event in journal {
        if !same_verdict(a, b, event) {
            return Ok(false);
        }
        if !same_listed(alloc, list, other, a, b, event)? {
            return Ok(false);
        }
    }
    Ok(true)
}
