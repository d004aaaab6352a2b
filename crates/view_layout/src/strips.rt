// The strips of a drawing: the counts, and what is known of the content.

ghost use Rattle.std.specs.Prelude.{◌≡◌, ◌==◌, ◌&&◌, ◌+◌, ◌++◌, ◌<◌, ◌^◌, OnOk};
ghost use Rattle.std.specs.List.{list_any};
ghost use Rattle.view_layout.specs.Drawing as spec;
ghost use Rattle.view_journal.specs.Frame.{middle};

use crate::items::push;
use std::alloc::AllocError as OutOfMemory;
use view_journal::{Column, Freshness, Item, State, Strip};

/// Appends the strips.
pub fn push_strips(items: &mut Vec<Item>, columns: &[Column]) -> Result<(), OutOfMemory>
    ensures { OnOk result (items.new.items ≡ items.old.items ++ spec.strips_items columns.now) }
{
    push_strip(items, Strip::Readers, columns)?;
    push_strip(items, Strip::Writers, columns)?;
    push_execs(items, columns)?;
    push_strip(items, Strip::Content, columns)
}

// The strip of those that execute the file, if there are any at one of the columns.
fn push_execs(items: &mut Vec<Item>, columns: &[Column]) -> Result<(), OutOfMemory>
    ensures { OnOk result (items.new.items ≡ items.old.items ++ spec.execs_items columns.now) }
{
    if is_executed(columns) {
        push_strip(items, Strip::Execs, columns)?;
    }
    Ok(())
}

fn is_executed(columns: &[Column]) -> bool
    ensures { result ≡ list_any spec.is_executed columns.now }
{
    for column in columns {
        if column.state.execs > 0 {
            return true;
        }
    }
    false
}

fn push_strip(items: &mut Vec<Item>, strip: Strip, columns: &[Column]) -> Result<(), OutOfMemory>
    ensures { OnOk result
        (items.new.items ≡ items.old.items ++ spec.strip_items strip columns.now) }
{
    push(items, Item::StripName(strip))?;
    match columns {
        [] => Ok(()),
        [first, rest @ ..] => push_segments(items, strip, *first, rest),
    }
}

fn push_segments(
    items: &mut Vec<Item>,
    strip: Strip,
    first: Column,
    rest: &[Column],
) -> Result<(), OutOfMemory>
    ensures { OnOk result (items.new.items ≡ items.old.items
        ++ spec.segments_from strip (middle first.x) (spec.middle_end first.x)
        (spec.shown_in strip first.state) rest.now) }
{
    let mut from = middle(first);
    let mut to = from + 30;
    let mut shown = shown_in(strip, first.state);
    for column in rest {
        let x = middle(*column);
        let next = shown_in(strip, column.state);
        if !goes_on(next, x, shown, to) {
            push(items, segment(strip, from, to, shown))?;
            from = x;
            shown = next;
        }
        to = x + 30;
    }
    push(items, segment(strip, from, to.saturating_sub(15), shown))
}

// The segment goes on in a column that begins at x.
fn goes_on(next: u64, x: u64, shown: u64, to: u64) -> bool
    ensures { result ≡ (next == shown && x == to) }
{
    next == shown && x == to
}

fn segment(strip: Strip, from: u64, to: u64, shown: u64) -> Item
    ensures { result ≡ spec.segment strip from to shown }
{
    Item::Segment {
        strip,
        x: from,
        width: to.saturating_sub(from),
        shown,
    }
}

/// The middle of a column.
pub fn middle(column: Column) -> u64
    ensures is { result ≡ middle column.x }
    ensures small { result < 2 ^ 33 }
{
    u64::from(column.x) + 15
}

/// The right edge of a column.
pub fn right_edge(column: Column) -> u64
    ensures is { result ≡ column.x + 30 }
    ensures small { result < 2 ^ 33 }
{
    u64::from(column.x) + 30
}

fn shown_in(strip: Strip, state: State) -> u64
    ensures { result ≡ spec.shown_in strip state }
{
    match strip {
        Strip::Readers => state.readers,
        Strip::Writers => state.writers,
        Strip::Execs => state.execs,
        Strip::Content => fresh_number(state.freshness),
    }
}

fn fresh_number(freshness: Freshness) -> u64
    ensures { result ≡ spec.fresh_number freshness }
{
    match freshness {
        Freshness::NotHashed => 0,
        Freshness::AsHashed => 1,
        Freshness::Written => 2,
    }
}
