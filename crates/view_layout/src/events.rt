// The events of a drawing, their flags, and the gaps between them.

ghost use Rattle.std.specs.Prelude.{◌≡◌, ◌++◌, OnOk};
ghost use Rattle.std.specs.List.{flat_map};
ghost use Rattle.view_layout.specs.Drawing as spec;

use crate::flags::{Flag, flag_width};
use crate::items::push;
use crate::scenery::end_of;
use crate::strips::{middle, right_edge};
use std::alloc::AllocError as OutOfMemory;
use view_journal::{Area, Column, Item, Look, mark_of};
use view_lanes::{Lane, Seat, row_top, seat_of};

/// Appends the collections that go on after these events.
pub fn push_hashing(
    items: &mut Vec<Item>,
    seats: &[Seat],
    columns: &[Column],
) -> Result<(), OutOfMemory>
    ensures { OnOk result (items.new.items
        ≡ items.old.items
        ++ flat_map (spec.hashing_items (spec.end_of columns.now) seats.now) columns.now) }
{
    push_hashing_to(items, end_of(columns), seats, columns)
}

fn push_hashing_to(
    items: &mut Vec<Item>,
    end: u64,
    seats: &[Seat],
    columns: &[Column],
) -> Result<(), OutOfMemory>
    ensures { OnOk result (items.new.items
        ≡ items.old.items ++ flat_map (spec.hashing_items end seats.now) columns.now) }
{
    for column in columns {
        push_hashing_at(items, end, seats, *column)?;
    }
    Ok(())
}

fn push_hashing_at(
    items: &mut Vec<Item>,
    end: u64,
    seats: &[Seat],
    column: Column,
) -> Result<(), OutOfMemory>
    ensures { OnOk result
        (items.new.items ≡ items.old.items ++ spec.hashing_items end seats.now column) }
{
    match seat_of(column.hashing, seats) {
        None => Ok(()),
        Some(y) => {
            let x = middle(column);
            let area = Area {
                x,
                y: u64::from(y) + 6,
                width: end.saturating_sub(x).min(30),
                height: 10,
            };
            push(items, Item::Block(Look::Hashing, area))
        }
    }
}

/// Appends the marks of the events of these columns.
pub fn push_marks(
    items: &mut Vec<Item>,
    lanes: &[Lane],
    seats: &[Seat],
    columns: &[Column],
) -> Result<(), OutOfMemory>
    ensures { OnOk result (items.new.items
        ≡ items.old.items ++ flat_map (spec.mark_items lanes.now seats.now) columns.now) }
{
    for column in columns {
        push(items, mark_at(lanes, seats, *column))?;
    }
    Ok(())
}

fn mark_at(lanes: &[Lane], seats: &[Seat], column: Column) -> Item
    ensures { result ≡ spec.mark_at lanes.now seats.now column }
{
    Item::Mark {
        place: column.place,
        x: middle(column),
        y: u64::from(row_top(lanes, seats, column.place, column.event)) + 11,
        line: column.event.line,
        mark: mark_of(column.event),
    }
}

/// Appends the places and deeds of the events of these columns, below them.
pub fn push_axes(items: &mut Vec<Item>, bottom: u32, columns: &[Column]) -> Result<(), OutOfMemory>
    ensures { OnOk result
        (items.new.items ≡ items.old.items ++ flat_map (spec.axis_items bottom) columns.now) }
{
    for column in columns {
        push(items, axis_at(bottom, *column))?;
    }
    Ok(())
}

fn axis_at(bottom: u32, column: Column) -> Item
    ensures { result ≡ spec.axis_at bottom column }
{
    Item::Axis {
        x: middle(column),
        y: u64::from(bottom),
        place: column.place,
        event: column.event,
        mark: mark_of(column.event),
    }
}

/// Appends flags.
pub fn push_flag_items(items: &mut Vec<Item>, flags: &[Flag]) -> Result<(), OutOfMemory>
    ensures { OnOk result
        (items.new.items ≡ items.old.items ++ flat_map spec.flag_items flags.now) }
{
    for flag in flags {
        push(items, flag_at(*flag))?;
    }
    Ok(())
}

fn flag_at(flag: Flag) -> Item
    ensures { result ≡ spec.flag_at flag }
{
    Item::Flag {
        x: u64::from(flag.x) + 15,
        up: u64::from(flag.up),
        width: flag_width(flag.note),
        event: flag.event,
        note: flag.note,
    }
}

/// Appends what marks the places that aren't drawn, in a journal of so many events.
pub fn push_gaps(
    items: &mut Vec<Item>,
    bottom: u32,
    events: u64,
    columns: &[Column],
) -> Result<(), OutOfMemory>
    ensures { OnOk result
        (items.new.items ≡ items.old.items ++ spec.gaps_items bottom events columns.now) }
{
    let mut next: u64 = 0;
    let mut x: u64 = 96;
    for column in columns {
        push_gap(items, bottom, next, x, u64::from(column.place))?;
        next = u64::from(column.place) + 1;
        x = right_edge(*column);
    }
    push_gap(items, bottom, next, x, events)
}

fn push_gap(
    items: &mut Vec<Item>,
    bottom: u32,
    next: u64,
    x: u64,
    place: u64,
) -> Result<(), OutOfMemory>
    ensures { OnOk result
        (items.new.items ≡ items.old.items ++ spec.gap_between bottom next x place) }
{
    if next >= place {
        return Ok(());
    }
    let gap = Item::Gap {
        x,
        height: u64::from(bottom),
        events: place - next,
    };
    push(items, gap)
}
