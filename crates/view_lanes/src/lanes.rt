// The lanes of tasks, and where their bars stand.

ghost use Rattle.std.specs.Prelude.{◌≡◌, ◌≤◌, ◌<◌, ◌+◌, ◌*◌, ◌++◌, length, All, IfOk, OnOk};
ghost use Rattle.view_journal.specs.Bars.{extents};
ghost use Rattle.view_journal.specs.Frame.{rows};
ghost use Rattle.view_lanes.specs.Lanes as spec;

use std::alloc::{AllocError as OutOfMemory, Global};
use view_journal::{Bar, extents, own, rows};

/// The lane of a task.
#[derive(Clone, Copy)]
pub struct Lane {
    pub task: u32,
    pub top: u32,
    /// The top of its first row.
    pub row: u32,
    pub height: u32,
}

/// A bar, and the top of its row.
#[derive(Clone, Copy)]
pub struct Seat {
    pub bar: Bar,
    pub y: u32,
}

const ROW_HEIGHT: u32 = 22;

const BETWEEN: u32 = 8;

// The lanes begin below the strips.
pub const LANES_TOP: u32 = 68;

/// Appends the lanes of these tasks, and where the bars stand in them. The result is the bottom of
/// the last lane.
pub fn push_lanes(
    alloc: Global,
    lanes: &mut Vec<Lane>,
    seats: &mut Vec<Seat>,
    bars: &[Bar],
    tasks: &[u32],
) -> Result<u32, OutOfMemory>
    requires bars { length bars.now ≤ 240 }
    requires tasks { length tasks.now ≤ 1000 }
    ensures lanes { IfOk result (λ y. lanes.new.items
        ≡ lanes.old.items ++ spec.lanes_from spec.lanes_top bars.now tasks.now) }
    ensures seats { IfOk result (λ y. seats.new.items
        ≡ seats.old.items ++ spec.seats_from spec.lanes_top bars.now tasks.now) }
    ensures bottom { IfOk result (λ y. y ≡ spec.bottom_from spec.lanes_top bars.now tasks.now) }
{
    let mut top = LANES_TOP;
    for task in tasks {
        let height = push_seats(alloc, seats, top, *task, bars)?;
        lanes.push(Lane {
            task: *task,
            top,
            row: top + 4,
            height,
        })?;
        top += height;
    }
    Ok(top)
}

// The bars of a task. The result is the height of its lane.
fn push_seats(
    alloc: Global,
    seats: &mut Vec<Seat>,
    top: u32,
    task: u32,
    bars: &[Bar],
) -> Result<u32, OutOfMemory>
    requires top { top ≤ 2000000000 }
    requires bars { length bars.now ≤ 240 }
    ensures is { IfOk result (λ h. seats.new.items
        ≡ seats.old.items ++ spec.lane_seats top task bars.now) }
    ensures height { IfOk result (λ h. h ≡ spec.lane_height task bars.now) }
    ensures small { IfOk result (λ h. h ≤ 5500) }
{
    let own = own(alloc, task, bars)?;
    push_own(alloc, seats, top, &own)
}

// Bars that are all of one task. The result is the height of its lane.
fn push_own(
    alloc: Global,
    seats: &mut Vec<Seat>,
    top: u32,
    bars: &[Bar],
) -> Result<u32, OutOfMemory>
    requires top { top ≤ 2000000000 }
    requires bars { length bars.now ≤ 240 }
    ensures is { IfOk result (λ h. seats.new.items
        ≡ seats.old.items ++ spec.seats_of top bars.now (rows (extents bars.now))) }
    ensures height { IfOk result (λ h. h ≡ spec.height_of (rows (extents bars.now))) }
    ensures small { IfOk result (λ h. h ≤ 5500) }
{
    let rows = rows_of(alloc, bars)?;
    push_rows(seats, top, bars, &rows)?;
    Ok(height_of(&rows))
}

// The rows in which these bars stand.
fn rows_of(alloc: Global, bars: &[Bar]) -> Result<Vec<usize>, OutOfMemory>
    ensures is { IfOk result (λ v. v.items ≡ rows (extents bars.now)) }
    ensures each { IfOk result (λ v. length v.items ≡ length bars.now) }
    ensures small { IfOk result (λ v. All (λ r. r < length bars.now) v.items) }
{
    let extents = extents(alloc, bars)?;
    rows(alloc, &extents)
}

fn push_rows(
    seats: &mut Vec<Seat>,
    top: u32,
    bars: &[Bar],
    rows: &[usize],
) -> Result<(), OutOfMemory>
    requires top { top ≤ 2000000000 }
    requires each { length rows.now ≡ length bars.now }
    requires small { All (λ r. r < 240) rows.now }
    ensures { OnOk result (seats.new.items
        ≡ seats.old.items ++ spec.seats_of top bars.now rows.now) }
{
    for (at, bar) in bars.iter().enumerate() {
        let row = rows[at] as u32;
        seats.push(Seat {
            bar: *bar,
            y: top + 4 + ROW_HEIGHT * row,
        })?;
    }
    Ok(())
}

fn height_of(rows: &[usize]) -> u32
    requires { All (λ r. r < 240) rows.now }
    ensures is { result ≡ spec.height_of rows.now }
    ensures small { result ≤ 5500 }
{
    let mut least: usize = 1;
    for row in rows {
        least = least.max(*row + 1);
    }
    ROW_HEIGHT * least as u32 + BETWEEN
}
