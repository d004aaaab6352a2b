// The drawing of a journal, as a list of items.

ghost use Rattle.std.specs.Prelude.{◌≡◌, ◌++◌, ◌+◌, ◌≤◌, ◌<◌, ◌^◌, length, IfOk, OnOk};
ghost use Rattle.view_layout.specs.Drawing as spec;
ghost use Rattle.view_layout.specs.SketchView.{parts_in, sketch_in};

use crate::events::{push_axes, push_flag_items, push_gaps, push_hashing, push_marks};
use crate::flags::{Flag, flags};
use crate::scenery::{
    push_bars, push_differing, push_guides, push_lane_items, push_parting, push_writes,
};
use crate::strips::push_strips;
use report_read::Event;
use std::alloc::{AllocError as OutOfMemory, Global};
use view_journal::{Bar, Column, Item, Window, columns, shown_bars};
use view_lanes::{Lane, Seat, push_lanes, tasks};

/// The parts of which a drawing is made.
#[derive(Drop)]
pub struct Sketch {
    pub columns: Vec<Column>,
    pub flags: Vec<Flag>,
    pub lanes: Vec<Lane>,
    pub seats: Vec<Seat>,
    /// Where the axis begins, below the top of the strips.
    pub bottom: u32,
    pub events: u64,
}

/// The parts of a journal's drawing.
pub fn draft(alloc: Global, windows: &[Window], journal: &[Event]) -> Result<Sketch, OutOfMemory>
    requires { length journal.now < 2 ^ 32 }
    ensures { IfOk result (λ s. sketch_in s ≡ spec.sketch_of windows.now journal.now) }
{
    let columns = columns(alloc, windows, journal)?;
    let bars = shown_bars(alloc, windows, journal)?;
    sketch_by(alloc, columns, &bars, journal.len() as u64)
}

// The parts, by the columns and the bars of a journal of so many events.
fn sketch_by(
    alloc: Global,
    columns: Vec<Column>,
    bars: &[Bar],
    events: u64,
) -> Result<Sketch, OutOfMemory>
    requires columns { length columns.items ≤ 1000 }
    requires bars { length bars.now ≤ 240 }
    ensures { IfOk result (λ s. sketch_in s ≡ spec.sketch_by columns.items bars.now events) }
{
    let flags = flags(alloc, &columns)?;
    let tasks = tasks(alloc, &columns)?;
    let mut lanes = Vec::new(alloc);
    let mut seats = Vec::new(alloc);
    let bottom = push_lanes(alloc, &mut lanes, &mut seats, bars, &tasks)?;
    Ok(Sketch {
        columns,
        flags,
        lanes,
        seats,
        bottom,
        events,
    })
}

impl Sketch {
    /// The parts that are drawn.
    pub fn parts(&self) -> Parts<'_>
        ensures { parts_in result ≡ sketch_in self.now }
    {
        Parts {
            columns: &self.columns,
            flags: &self.flags,
            lanes: &self.lanes,
            seats: &self.seats,
            bottom: self.bottom,
            events: self.events,
        }
    }
}

/// The parts of a drawing.
#[derive(Clone, Copy)]
pub struct Parts<'a> {
    pub columns: &'a [Column],
    pub flags: &'a [Flag],
    pub lanes: &'a [Lane],
    pub seats: &'a [Seat],
    pub bottom: u32,
    pub events: u64,
}

/// Appends the drawing, in the order of painting. `differs` are the places whose columns are marked
/// as different, and `parting` is the place before which two journals part.
pub fn push_items(
    items: &mut Vec<Item>,
    parts: Parts<'_>,
    differs: &[u32],
    parting: Option<u32>,
) -> Result<(), OutOfMemory>
    ensures { OnOk result (items.new.items
        ≡ items.old.items ++ spec.items_of (parts_in parts.entry) differs.now parting) }
{
    push_back(items, parts, differs, parting)?;
    push_middle(items, parts)?;
    push_front(items, parts)
}

fn push_back(
    items: &mut Vec<Item>,
    parts: Parts<'_>,
    differs: &[u32],
    parting: Option<u32>,
) -> Result<(), OutOfMemory>
    ensures { OnOk result (items.new.items
        ≡ items.old.items ++ spec.back_items (parts_in parts.entry) differs.now parting) }
{
    push_lane_items(items, parts.columns, parts.lanes)?;
    push_differing(items, differs, parts.bottom, parts.columns)?;
    push_parting(items, parting, parts.bottom, parts.columns)
}

fn push_middle(items: &mut Vec<Item>, parts: Parts<'_>) -> Result<(), OutOfMemory>
    ensures { OnOk result
        (items.new.items ≡ items.old.items ++ spec.middle_items (parts_in parts.entry)) }
{
    push_strips(items, parts.columns)?;
    push_writes(items, parts.bottom, parts.columns)?;
    push_guides(items, parts.bottom, parts.flags)?;
    push_bars(items, parts.columns, parts.seats)?;
    push_hashing(items, parts.seats, parts.columns)
}

fn push_front(items: &mut Vec<Item>, parts: Parts<'_>) -> Result<(), OutOfMemory>
    ensures { OnOk result
        (items.new.items ≡ items.old.items ++ spec.front_items (parts_in parts.entry)) }
{
    push_marks(items, parts.lanes, parts.seats, parts.columns)?;
    push_axes(items, parts.bottom, parts.columns)?;
    push_flag_items(items, parts.flags)?;
    push_gaps(items, parts.bottom, parts.events, parts.columns)
}

/// The height of the flags above the strips.
pub fn highest(flags: &[Flag]) -> u32
    ensures { result ≡ spec.highest flags.now }
{
    let mut y = 0;
    for flag in flags {
        y = flag.up.max(y);
    }
    y
}
