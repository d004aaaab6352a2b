// Columns, and rows of bars and of flags.

ghost use Rattle.std.specs.Prelude.{◌≡◌, ◌<◌, ◌≤◌, ◌+◌, length, All, IfOk, OnOk};
ghost use Rattle.view_journal.specs.Frame as spec;

use crate::window::{Window, width};
use std::alloc::{AllocError as OutOfMemory, Global};

// The width of an event's column, of a gap between windows, and of the margin with the names.
const COLUMN: u64 = 30;

const GAP: u64 = 90;

const MARGIN: u64 = 96;

// No drawing is wider.
const WIDEST: u64 = 4_294_967_296;

/// The left edge of the column of a place, if the place is drawn.
pub fn column_of(windows: &[Window], place: u32) -> Option<u32>
    ensures { result ≡ spec.column_of windows.now place }
{
    let mut next: u64 = 0;
    let mut x = MARGIN;
    for window in windows {
        if place < window.first {
            return None;
        }
        let start = window_start(next, x, *window);
        if place <= window.last {
            return within(start + COLUMN * u64::from(place - window.first));
        }
        next = u64::from(window.last) + 1;
        x = start + COLUMN * width(*window);
        if x >= WIDEST {
            return None;
        }
    }
    None
}

fn window_start(next: u64, x: u64, window: Window) -> u64
    requires { x < 4294967296 }
    ensures is { result ≡ spec.window_start next x window }
    ensures small { result ≤ x + 90 }
{
    if u64::from(window.first) == next {
        x
    } else {
        x + GAP
    }
}

fn within(x: u64) -> Option<u32>
    ensures { result ≡ spec.within x }
{
    if x < WIDEST { Some(x as u32) } else { None }
}

/// A bar or a flag, by its first and its last place or pixel.
#[derive(Clone, Copy)]
pub struct Extent {
    pub from: u64,
    pub to: u64,
}

/// The row of each bar of a lane: the first one whose last bar ended before, or a new one. The bars
/// are given in the order of their beginnings.
pub fn rows(alloc: Global, bars: &[Extent]) -> Result<Vec<usize>, OutOfMemory>
    ensures is { IfOk result (λ v. v.items ≡ spec.rows bars.now) }
    ensures each { IfOk result (λ v. length v.items ≡ length bars.now) }
    ensures small { IfOk result (λ v. All (λ r. r < length bars.now) v.items) }
{
    let mut ends = Vec::new(alloc);
    let mut rows = Vec::new(alloc);
    for bar in bars {
        let row = first_free(bar.from, &ends);
        end_row(&mut ends, row, bar.from, bar.to)?;
        rows.push(row)?;
    }
    Ok(rows)
}

// The first row whose last bar ended before this place, or a new one.
fn first_free(from: u64, ends: &[u64]) -> usize
    ensures is { result ≡ spec.first_free from ends.now }
    ensures within { result ≤ length ends.now }
{
    for (row, end) in ends.iter().enumerate() {
        if *end < from {
            return row;
        }
    }
    ends.len()
}

// The last bar of the row ends here.
fn end_row(ends: &mut Vec<u64>, row: usize, from: u64, to: u64) -> Result<(), OutOfMemory>
    requires { row ≡ spec.first_free from ends.old.items }
    ensures is { OnOk result (ends.new.items ≡ spec.ends_with from to ends.old.items) }
    ensures few { OnOk result (length ends.new.items ≤ length ends.old.items + 1) }
{
    if row < ends.len() {
        ends[row] = to;
        return Ok(());
    }
    ends.push(to)?;
    Ok(())
}
