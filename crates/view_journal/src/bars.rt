// The bars of open files.

ghost use Rattle.std.specs.Prelude.{◌≡◌, ℕ, ◌+◌, ◌≤◌, ◌<◌, ◌^◌, length, slice_index, IfOk, OnOk};
ghost use Rattle.std.specs.List.{list_any};
ghost use Rattle.view_journal.specs.Bars as spec;
ghost use Rattle.view_journal.specs.Files.{dropped, opened};

use crate::frame::Extent;
use crate::walk::{dropped, opened};
use crate::window::Window;
use report_read::{Event, Kind};
use std::alloc::{AllocError as OutOfMemory, Global};

/// An open file, from its count to its drop.
#[derive(Clone, Copy)]
pub struct Bar {
    /// The place of the count.
    pub file: u32,
    pub kind: Kind,
    pub task: u32,
    /// The last place at which it is drawn.
    pub last: u32,
    /// Whether the file is open at the end of the journal.
    pub still: bool,
}

// At most as many bars are drawn.
const MOST_BARS: usize = 240;

/// The bars of a journal of which these windows show a part, in the order of their counts: at most
/// 240, those of the files that were opened last.
pub fn shown_bars(
    alloc: Global,
    windows: &[Window],
    journal: &[Event],
) -> Result<Vec<Bar>, OutOfMemory>
    requires { length journal.now < 2 ^ 32 }
    ensures is { IfOk result (λ v. v.items ≡ spec.shown_bars windows.now journal.now) }
    ensures few { IfOk result (λ v. length v.items ≤ 240) }
{
    let mut drops = no_drops(alloc, journal.len())?;
    let mut bars = Vec::new(alloc);
    let mut place = journal.len();
    while place > 0 {
        place -= 1;
        step(&mut drops, &mut bars, windows, journal, place)?;
    }
    bars.reverse();
    Ok(bars)
}

// The first drops of the files of so many events, none of which is known. The birth, at place 0,
// drops no file, so 0 stands for none: a slot takes 4 bytes.
fn no_drops(alloc: Global, events: usize) -> Result<Vec<u32>, OutOfMemory>
    ensures each { IfOk result (λ v. length v.items ≡ events) }
    ensures none { IfOk result (λ v. (f : ℕ) → slice_index v.items f ≡ 0) }
{
    let mut drops = Vec::with_capacity(alloc, events)?;
    while drops.len() < events {
        drops.push(0)?;
    }
    Ok(drops)
}

// The drop that a slot has.
fn drop_in(slot: u32) -> Option<u32>
    ensures { result ≡ spec.drop_in slot }
{
    if slot == 0 { None } else { Some(slot) }
}

// Goes on from the end to this place.
fn step(
    drops: &mut [u32],
    bars: &mut Vec<Bar>,
    windows: &[Window],
    journal: &[Event],
    place: usize,
) -> Result<(), OutOfMemory>
    requires few { length journal.now < 2 ^ 32 }
    requires within { place < length journal.now }
    requires walked { spec.IsWalked windows.now journal.now (place + 1) drops.old
        bars.old.items }
    requires room { length bars.old.items ≤ 240 }
    ensures walked { OnOk result
        (spec.IsWalked windows.now journal.now place drops.new bars.new.items) }
    ensures few { OnOk result (length bars.new.items ≤ 240) }
{
    let event = journal[place];
    let last = (journal.len() - 1) as u32;
    push_bar(
        bars,
        windows,
        place as u32,
        event,
        drop_in(drops[place]),
        last,
    )?;
    set_drop(drops, event, place as u32);
    Ok(())
}

// The bar of an event, if it has one; the bars are in the reverse order.
fn push_bar(
    bars: &mut Vec<Bar>,
    windows: &[Window],
    place: u32,
    event: Event,
    drop: Option<u32>,
    last: u32,
) -> Result<(), OutOfMemory>
    requires { length bars.old.items ≤ 240 }
    ensures is { OnOk result (bars.new.items ≡ spec.with_reversed windows.now place event
        (opened event.deed event.outcome) drop last bars.old.items) }
    ensures few { OnOk result (length bars.new.items ≤ 240) }
{
    let Some(kind) = opened(event.deed, event.outcome) else {
        return Ok(());
    };
    let bar = Bar {
        file: place,
        kind,
        task: event.who.task,
        last: drop.unwrap_or(last),
        still: drop.is_none(),
    };
    if meets_any(windows, bar) && bars.len() < MOST_BARS {
        bars.push(bar)?;
    }
    Ok(())
}

// The file that the event drops was dropped here.
fn set_drop(drops: &mut [u32], event: Event, place: u32)
    ensures { drops.new
        ≡ spec.with_drop drops.old (dropped event.deed event.outcome) place }
{
    if let Some(file) = dropped(event.deed, event.outcome) {
        let at = file as usize;
        if at < drops.len() {
            drops[at] = place;
        }
    }
}

fn meets_any(windows: &[Window], bar: Bar) -> bool
    ensures { result ≡ list_any (spec.meets bar) windows.now }
{
    for window in windows {
        if window.first <= bar.last && bar.file <= window.last {
            return true;
        }
    }
    false
}

/// The bars of a task, in their order.
pub fn own(alloc: Global, task: u32, bars: &[Bar]) -> Result<Vec<Bar>, OutOfMemory>
    ensures is { IfOk result (λ v. v.items ≡ spec.own task bars.now) }
    ensures few { IfOk result (λ v. length v.items ≤ length bars.now) }
{
    let mut own = Vec::new(alloc);
    for bar in bars {
        if bar.task == task {
            own.push(*bar)?;
        }
    }
    Ok(own)
}

/// The places of bars.
pub fn extents(alloc: Global, bars: &[Bar]) -> Result<Vec<Extent>, OutOfMemory>
    ensures is { IfOk result (λ v. v.items ≡ spec.extents bars.now) }
    ensures each { IfOk result (λ v. length v.items ≡ length bars.now) }
{
    let mut extents = Vec::new(alloc);
    for bar in bars {
        extents.push(Extent {
            from: u64::from(bar.file),
            to: u64::from(bar.last),
        })?;
    }
    Ok(extents)
}
