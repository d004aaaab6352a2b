// What stands after the events of a drawing.

ghost use Rattle.std.specs.Prelude.{◌≡◌, ◌++◌, ◌==◌, ◌<◌, ◌^◌, OnOk};
ghost use Rattle.std.specs.List.{flat_map, list_any};
ghost use Rattle.view_layout.specs.Drawing as spec;

use crate::flags::{Flag, guide_of};
use crate::items::push;
use crate::strips::{middle, right_edge};
use std::alloc::AllocError as OutOfMemory;
use view_journal::{Area, Bar, Column, Guide, Item, Look, is_write};
use view_lanes::{Lane, Seat};

/// Appends the lanes and their names.
pub fn push_lane_items(
    items: &mut Vec<Item>,
    columns: &[Column],
    lanes: &[Lane],
) -> Result<(), OutOfMemory>
    ensures { OnOk result (items.new.items
        ≡ items.old.items ++ flat_map (spec.lane_items (spec.end_of columns.now)) lanes.now) }
{
    for lane in lanes {
        push_lane(items, end_of(columns), *lane)?;
    }
    Ok(())
}

/// The right edge of the last column.
pub fn end_of(columns: &[Column]) -> u64
    ensures is { result ≡ spec.end_of columns.now }
    ensures small { result < 2 ^ 33 }
{
    let mut x: u64 = 96;
    for column in columns {
        x = right_edge(*column);
    }
    x
}

fn push_lane(items: &mut Vec<Item>, end: u64, lane: Lane) -> Result<(), OutOfMemory>
    ensures { OnOk result (items.new.items ≡ items.old.items ++ spec.lane_items end lane) }
{
    let area = Area {
        x: 96,
        y: u64::from(lane.top),
        width: end.saturating_sub(96),
        height: u64::from(lane.height),
    };
    let name = Item::LaneName {
        y: u64::from(lane.top) + 19,
        task: lane.task,
    };
    push(items, Item::Block(lane_look(lane.task), area))?;
    push(items, name)
}

fn lane_look(task: u32) -> Look
    ensures { result ≡ spec.lane_look task }
{
    if task % 2 == 0 {
        Look::Lane
    } else {
        Look::OtherLane
    }
}

/// Appends what marks the columns of these places as different.
pub fn push_differing(
    items: &mut Vec<Item>,
    differs: &[u32],
    bottom: u32,
    columns: &[Column],
) -> Result<(), OutOfMemory>
    ensures { OnOk result (items.new.items
        ≡ items.old.items ++ flat_map (spec.differing_items differs.now bottom) columns.now) }
{
    for column in columns {
        push_differing_at(items, differs, bottom, *column)?;
    }
    Ok(())
}

fn push_differing_at(
    items: &mut Vec<Item>,
    differs: &[u32],
    bottom: u32,
    column: Column,
) -> Result<(), OutOfMemory>
    ensures { OnOk result (items.new.items
        ≡ items.old.items ++ spec.differing_items differs.now bottom column) }
{
    if !is_among(column.place, differs) {
        return Ok(());
    }
    let area = Area {
        x: u64::from(column.x),
        y: 0,
        width: 30,
        height: u64::from(bottom),
    };
    push(items, Item::Block(Look::Differs, area))
}

fn is_among(place: u32, places: &[u32]) -> bool
    ensures { result ≡ list_any (λ p. p == place) places.now }
{
    for other in places {
        if *other == place {
            return true;
        }
    }
    false
}

/// Appends the line before the place at which two journals part.
pub fn push_parting(
    items: &mut Vec<Item>,
    parts: Option<u32>,
    bottom: u32,
    columns: &[Column],
) -> Result<(), OutOfMemory>
    ensures { OnOk result (items.new.items
        ≡ items.old.items ++ flat_map (spec.parting_items parts bottom) columns.now) }
{
    for column in columns {
        push_parting_at(items, parts, bottom, *column)?;
    }
    Ok(())
}

fn push_parting_at(
    items: &mut Vec<Item>,
    parts: Option<u32>,
    bottom: u32,
    column: Column,
) -> Result<(), OutOfMemory>
    ensures { OnOk result
        (items.new.items ≡ items.old.items ++ spec.parting_items parts bottom column) }
{
    if !is_place(parts, column.place) {
        return Ok(());
    }
    let guide = Item::Guide {
        guide: Guide::Parting,
        x: u64::from(column.x),
        up: 4,
        down: u64::from(bottom) + 4,
    };
    push(items, guide)
}

fn is_place(parts: Option<u32>, place: u32) -> bool
    ensures { result ≡ spec.is_place parts place }
{
    match parts {
        Some(part) => part == place,
        None => false,
    }
}

/// Appends the guides of writes and truncations.
pub fn push_writes(
    items: &mut Vec<Item>,
    bottom: u32,
    columns: &[Column],
) -> Result<(), OutOfMemory>
    ensures { OnOk result
        (items.new.items ≡ items.old.items ++ flat_map (spec.write_items bottom) columns.now) }
{
    for column in columns {
        push_write(items, bottom, *column)?;
    }
    Ok(())
}

fn push_write(items: &mut Vec<Item>, bottom: u32, column: Column) -> Result<(), OutOfMemory>
    ensures { OnOk result (items.new.items ≡ items.old.items ++ spec.write_items bottom column) }
{
    if !is_write(column.event.deed, column.event.outcome) {
        return Ok(());
    }
    let guide = Item::Guide {
        guide: Guide::Write,
        x: middle(column),
        up: 0,
        down: u64::from(bottom),
    };
    push(items, guide)
}

/// Appends the guides of flags.
pub fn push_guides(items: &mut Vec<Item>, bottom: u32, flags: &[Flag]) -> Result<(), OutOfMemory>
    ensures { OnOk result
        (items.new.items ≡ items.old.items ++ flat_map (spec.guide_items bottom) flags.now) }
{
    for flag in flags {
        push_guide(items, bottom, *flag)?;
    }
    Ok(())
}

fn push_guide(items: &mut Vec<Item>, bottom: u32, flag: Flag) -> Result<(), OutOfMemory>
    ensures { OnOk result (items.new.items ≡ items.old.items ++ spec.guide_items bottom flag) }
{
    match guide_of(flag.note) {
        None => Ok(()),
        Some(guide) => {
            let guide = Item::Guide {
                guide,
                x: u64::from(flag.x) + 15,
                up: u64::from(flag.up),
                down: u64::from(bottom),
            };
            push(items, guide)
        }
    }
}

/// Appends the bars of open files.
pub fn push_bars(
    items: &mut Vec<Item>,
    columns: &[Column],
    seats: &[Seat],
) -> Result<(), OutOfMemory>
    ensures { OnOk result
        (items.new.items ≡ items.old.items ++ flat_map (spec.bar_items columns.now) seats.now) }
{
    for seat in seats {
        push_bar(items, columns, *seat)?;
    }
    Ok(())
}

fn push_bar(items: &mut Vec<Item>, columns: &[Column], seat: Seat) -> Result<(), OutOfMemory>
    ensures { OnOk result
        (items.new.items ≡ items.old.items ++ spec.bar_items columns.now seat) }
{
    let left = left_of(seat.bar.file, columns);
    let right = right_of(seat.bar.still, seat.bar.last, columns);
    let area = Area {
        x: left,
        y: u64::from(seat.y) + 3,
        width: right.saturating_sub(left),
        height: 16,
    };
    push(items, Item::Block(bar_look(seat.bar), area))
}

fn bar_look(bar: Bar) -> Look
    ensures { result ≡ spec.bar_look bar }
{
    if bar.still {
        Look::StillOpen(bar.kind)
    } else {
        Look::Bar(bar.kind)
    }
}

fn left_of(file: u32, columns: &[Column]) -> u64
    ensures { result ≡ spec.left_of file columns.now }
{
    for column in columns {
        if column.place >= file {
            return left_at(file, *column);
        }
    }
    0
}

fn left_at(file: u32, column: Column) -> u64
    ensures { result ≡ spec.left_at file column }
{
    if column.place == file {
        middle(column)
    } else {
        u64::from(column.x)
    }
}

fn right_of(still: bool, last: u32, columns: &[Column]) -> u64
    ensures { result ≡ spec.right_from 0 still last columns.now }
{
    let mut x = 0;
    for column in columns {
        if column.place <= last {
            x = right_at(still, last, *column);
        }
    }
    x
}

fn right_at(still: bool, last: u32, column: Column) -> u64
    ensures { result ≡ spec.right_at still last column }
{
    if column.place == last && !still {
        middle(column)
    } else {
        u64::from(column.x) + 30
    }
}
