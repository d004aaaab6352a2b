// Which windows of which journals a page draws.

ghost use Rattle.std.specs.Prelude.{◌≡◌, ◌++◌, take, IfOk, OnOk};
ghost use Rattle.view_plan.specs.Plan as spec;

use crate::slots::At;
use report_read::{Event, Inode};
use std::alloc::{AllocError as OutOfMemory, Global};
use view_journal::{Window, width, windows};

/// A window of an inode's journal that a page draws.
#[derive(Clone, Copy)]
pub struct Shown {
    pub inode: u64,
    pub window: Window,
}

// A journal of at most as many events is drawn whole, and of a longer one windows.
const MOST_DRAWN: u32 = 120;

// A page draws at most as many events.
const MOST_PLACES: u64 = 3000;

// A page shows at most as many inodes.
const MOST_SECTIONS: usize = 200;

/// The windows of a journal: none if it has no event but its birth.
pub fn windows_of(alloc: Global, journal: &[Event]) -> Result<Vec<Window>, OutOfMemory>
    ensures { IfOk result (λ v. v.items ≡ spec.windows_of journal.now) }
{
    if journal.len() > 1 && journal.len() < 4_294_967_296 {
        windows(alloc, MOST_DRAWN, journal)
    } else {
        Ok(Vec::new(alloc))
    }
}

// How many places the windows have.
fn places_of(windows: &[Window]) -> u64
    ensures { result ≡ spec.places_of windows.now }
{
    let mut n: u64 = 0;
    for window in windows {
        n = n.saturating_add(width(*window));
    }
    n
}

// The windows of a journal if there is room for so many places.
fn fitting(alloc: Global, room: u64, journal: &[Event]) -> Result<Vec<Window>, OutOfMemory>
    ensures { IfOk result (λ v. v.items ≡ spec.fitting room journal.now) }
{
    let windows = windows_of(alloc, journal)?;
    if places_of(&windows) <= room {
        Ok(windows)
    } else {
        Ok(Vec::new(alloc))
    }
}

fn push_windows(out: &mut Vec<Shown>, inode: u64, windows: &[Window]) -> Result<(), OutOfMemory>
    ensures { OnOk result
        (out.new.items ≡ out.old.items ++ spec.shown_of inode windows.now) }
{
    for window in windows {
        let window = *window;
        out.push(Shown { inode, window })?;
    }
    Ok(())
}

// Appends the windows of a journal if there is room for so many places, and gives the room after.
fn push_fitting(
    alloc: Global,
    out: &mut Vec<Shown>,
    room: u64,
    inode: u64,
    journal: &[Event],
) -> Result<u64, OutOfMemory>
    ensures room { IfOk result (λ n. n ≡ spec.room_after room journal.now) }
    ensures windows { OnOk result (out.new.items
        ≡ out.old.items ++ spec.shown_of inode (spec.fitting room journal.now)) }
{
    let windows = fitting(alloc, room, journal)?;
    push_windows(out, inode, &windows)?;
    Ok(room.saturating_sub(places_of(&windows)))
}

fn journal_at(inodes: &[Inode], number: usize) -> &[Event]
    ensures { result.now ≡ spec.journal_at inodes.now number }
{
    match inodes.get(number) {
        Some(inode) => &inode.events,
        None => &[],
    }
}

/// The numbers of the inodes that a page shows.
pub fn first_of(order: &[usize]) -> &[usize]
    ensures { result.now ≡ take spec.most_sections order.now }
{
    &order[..order.len().min(MOST_SECTIONS)]
}

/// How many inodes a page doesn't show.
pub fn beyond(order: &[usize]) -> u64
    ensures { result ≡ spec.beyond order.now }
{
    order.len().saturating_sub(MOST_SECTIONS) as u64
}

/// The windows that a page draws of the inodes of these numbers.
pub fn planned(alloc: Global, inodes: &[Inode], order: &[usize]) -> Result<Vec<Shown>, OutOfMemory>
    ensures { IfOk result (λ v. v.items ≡ spec.planned inodes.now order.now) }
{
    let mut shown = Vec::new(alloc);
    let mut room = MOST_PLACES;
    for number in order {
        let journal = journal_at(inodes, *number);
        room = push_fitting(alloc, &mut shown, room, *number as u64, journal)?;
    }
    Ok(shown)
}

/// The windows of an inode.
pub fn windows_in(alloc: Global, shown: &[Shown], inode: u64) -> Result<Vec<Window>, OutOfMemory>
    ensures { IfOk result (λ v. v.items ≡ spec.windows_in inode shown.now) }
{
    let mut windows = Vec::new(alloc);
    for part in shown {
        if part.inode == inode {
            windows.push(part.window)?;
        }
    }
    Ok(windows)
}

fn covers(part: Shown, at: At) -> bool
    ensures { result ≡ spec.covers at part }
{
    part.inode == u64::from(at.inode)
        && part.window.first <= at.place
        && at.place <= part.window.last
}

/// Whether the event is drawn.
pub fn is_drawn(shown: &[Shown], at: At) -> bool
    ensures { result ≡ spec.is_drawn at shown.now }
{
    for part in shown {
        if covers(*part, at) {
            return true;
        }
    }
    false
}
