// Which places of a journal are drawn.

ghost use Rattle.std.specs.Prelude.{◌≡◌, ◌≤◌, ◌<◌, ◌^◌, length, IfOk};
ghost use Rattle.std.specs.List.{list_any};
ghost use Rattle.view_journal.specs.Notes as notes;
ghost use Rattle.view_journal.specs.Windows as spec;

use report_read::{Deed, Event, Grant, Outcome, Verdict};
use std::alloc::{AllocError as OutOfMemory, Global};

/// The places from the first to the last.
#[derive(Clone, Copy)]
pub struct Window {
    pub first: u32,
    pub last: u32,
}

// So many places are drawn on either side of one that is of interest.
const NEAR: u32 = 8;

/// The windows of a journal: all of it if it has at most so many events, else places around what is
/// of interest, as long as they are at most so many.
pub fn windows(alloc: Global, most: u32, journal: &[Event]) -> Result<Vec<Window>, OutOfMemory>
    requires { length journal.now < 2 ^ 32 }
    ensures { IfOk result (λ v. v.items ≡ spec.windows most journal.now) }
{
    let events = journal.len();
    if events as u64 <= u64::from(most) {
        return whole(alloc, events);
    }
    let places = of_interest(alloc, journal)?;
    windows_around(alloc, most, (events - 1) as u32, &places)
}

fn whole(alloc: Global, events: usize) -> Result<Vec<Window>, OutOfMemory>
    requires { events < 2 ^ 32 }
    ensures { IfOk result (λ v. v.items ≡ spec.whole events) }
{
    let mut windows = Vec::new(alloc);
    if events == 0 {
        return Ok(windows);
    }
    windows.push(Window {
        first: 0,
        last: (events - 1) as u32,
    })?;
    Ok(windows)
}

// The last window so far, and how many places are used.
#[derive(Clone, Copy)]
struct Growth {
    window: Window,
    used: u64,
    // Whether more places may be used.
    more: bool,
    // Whether the last window doesn't meet the one before it.
    parted: bool,
}

fn windows_around(
    alloc: Global,
    most: u32,
    last: u32,
    places: &[u32],
) -> Result<Vec<Window>, OutOfMemory>
    ensures { IfOk result (λ v. v.items ≡ spec.windows_around most last places.now) }
{
    let mut windows = Vec::new(alloc);
    let mut growth = first_window(last);
    for place in places {
        let next = grow(most, growth, around(last, *place));
        if next.parted {
            windows.push(growth.window)?;
        }
        growth = next;
    }
    windows.push(growth.window)?;
    Ok(windows)
}

fn first_window(last: u32) -> Growth
    ensures is { result ≡ spec.first_window last }
    ensures small { result.used ≤ 4294967296 }
{
    let window = around(last, 0);
    Growth {
        window,
        used: width(window),
        more: true,
        parted: false,
    }
}

fn grow(most: u32, growth: Growth, near: Window) -> Growth
    requires { growth.used ≤ 4294967296 }
    ensures is { result ≡ spec.grow most growth near }
    ensures small { result.used ≤ 4294967296 }
{
    if !growth.more {
        return closed(growth);
    }
    if u64::from(near.first) <= u64::from(growth.window.last) + 2 {
        let both = joined(growth.window, near);
        let used = growth.used + u64::from(both.last.saturating_sub(growth.window.last));
        return grown_to(most, growth, both, used, false);
    }
    grown_to(most, growth, near, growth.used + width(near), true)
}

fn grown_to(most: u32, growth: Growth, window: Window, used: u64, parted: bool) -> Growth
    requires { growth.used ≤ 4294967296 }
    ensures is { result ≡ spec.grown_to most growth window used parted }
    ensures small { result.used ≤ 4294967296 }
{
    if used > u64::from(most) {
        return closed(growth);
    }
    Growth {
        window,
        used,
        more: true,
        parted,
    }
}

fn closed(growth: Growth) -> Growth
    ensures { result ≡ spec.closed growth }
{
    Growth {
        more: false,
        parted: false,
        ..growth
    }
}

// The window around a place of a journal whose last place is this.
fn around(last: u32, place: u32) -> Window
    ensures { result ≡ spec.around last place }
{
    let after = if place < last { last - place } else { 0 };
    let to = if after < NEAR { last } else { place + NEAR };
    Window {
        first: place.saturating_sub(NEAR).min(last),
        last: to.min(last),
    }
}

fn joined(window: Window, other: Window) -> Window
    ensures { result ≡ spec.joined window other }
{
    Window {
        first: window.first,
        last: window.last.max(other.last),
    }
}

/// How many places a window has.
pub fn width(window: Window) -> u64
    ensures is { result ≡ spec.width window }
    ensures small { result ≤ 4294967296 }
{
    (u64::from(window.last) + 1).saturating_sub(u64::from(window.first))
}

fn of_interest(alloc: Global, journal: &[Event]) -> Result<Vec<u32>, OutOfMemory>
    requires { length journal.now < 2 ^ 32 }
    ensures { IfOk result (λ v. v.items ≡ spec.of_interest journal.now) }
{
    let mut places = Vec::new(alloc);
    for (place, event) in journal.iter().enumerate() {
        if is_marked(*event) {
            places.push(place as u32)?;
        }
    }
    places.push(journal.len().saturating_sub(1) as u32)?;
    Ok(places)
}

/// Whether windows are drawn around an event: a violation, a denial or a label.
pub fn is_marked(event: Event) -> bool
    ensures { result ≡ notes.is_marked event }
{
    is_marked_by(event.deed, event.outcome)
}

fn is_marked_by(deed: Deed, outcome: Outcome) -> bool
    ensures { result ≡ list_any notes.is_grave (notes.notes_by deed outcome) }
{
    match (deed, outcome) {
        (_, Outcome::ToMToU(_) | Outcome::OpenWriters(_)) => true,
        (_, Outcome::Granted(grant)) => is_marked_grant(grant),
        (_, Outcome::LabelledDropped) => true,
        (Deed::Count { .. }, Outcome::NotFound | Outcome::TextBusy) => true,
        (Deed::SetAttr | Deed::RemoveAttr | Deed::SetMeta, Outcome::Done) => false,
        (Deed::SetAttr | Deed::RemoveAttr | Deed::SetMeta, _) => true,
        _ => false,
    }
}

fn is_marked_grant(grant: Grant) -> bool
    ensures { result ≡ list_any notes.is_grave (notes.grant_notes grant) }
{
    match (grant.placed, grant.verdict) {
        (_, Verdict::Deny) => true,
        (_, _) => grant.labelled,
    }
}
