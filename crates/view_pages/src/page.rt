// The page of a report, and that of one inode.

ghost use Rattle.std.specs.Prelude.{◌≡◌, IfOk, OnOk};
ghost use Rattle.view_pages.specs.Page as spec;
ghost use Rattle.view_page.specs.Parts.{Pushed};

use crate::section::{Detail, push_section, view_of};
use crate::sections::push_sections;
use report_read::{Event, Inode, Report, Span, Task};
use std::alloc::{AllocError as OutOfMemory, Global};
use view_journal::Window;
use view_page::{Frame, Part, Section, Side, push_more, push_parts};
use view_plan::order::order;
use view_plan::{Asked, At, Shown, beyond, fill, first_of, planned, windows_of};
use view_tables::{push_calls, push_entries, push_head, push_registers, push_rules, push_tiles};

/// Appends the page of a report, which was read from `text`.
pub fn push_page(
    alloc: Global,
    out: &mut Vec<u8>,
    text: &[u8],
    report: &Report,
) -> Result<(), OutOfMemory>
    ensures { OnOk result (Pushed text.now out.old.items out.new.items
        (spec.report_parts text.now report.now)) }
{
    let order = order(alloc, &report.inodes)?;
    push_ordered(alloc, out, text, report, &order)
}

// The page, with the inodes in this order.
fn push_ordered(
    alloc: Global,
    out: &mut Vec<u8>,
    text: &[u8],
    report: &Report,
    order: &[usize],
) -> Result<(), OutOfMemory>
    ensures { OnOk result (Pushed text.now out.old.items out.new.items
        (spec.ordered_parts text.now order.now report.now)) }
{
    let first = first_of(order);
    let shown = planned(alloc, &report.inodes, first)?;
    push_planned(alloc, out, text, report, &shown, first, beyond(order))
}

// The page with these inodes and windows, and without so many other inodes.
fn push_planned(
    alloc: Global,
    out: &mut Vec<u8>,
    text: &[u8],
    report: &Report,
    shown: &[Shown],
    order: &[usize],
    beyond: u64,
) -> Result<(), OutOfMemory>
    ensures { OnOk result (Pushed text.now out.old.items out.new.items
        (spec.planned_parts text.now shown.now order.now beyond report.now)) }
{
    push_head(out, text, Frame::OneRun)?;
    push_tiles(out, text, report)?;
    push_sections(alloc, out, text, Side::Alone, shown, &report.inodes, order)?;
    push_more(
        out,
        text,
        Part::Section(Section::MoreInodes),
        beyond,
        Part::Section(Section::MoreInodesEnd),
    )?;
    push_tables(alloc, out, text, Side::Alone, shown, report)?;
    push_parts(out, text, &[Part::Frame(Frame::End)])
}

/// Appends the page of one inode, or of a range of its journal. `number` is its index in the
/// report, which was read from `text`.
pub fn push_inode_page(
    alloc: Global,
    out: &mut Vec<u8>,
    text: &[u8],
    number: u64,
    inode: &Inode,
    range: Option<Window>,
) -> Result<(), OutOfMemory>
    ensures { OnOk result (Pushed text.now out.old.items out.new.items
        (spec.inode_page_parts text.now number inode.now range)) }
{
    let windows = windows_or(alloc, range, &inode.events)?;
    push_inode_in(alloc, out, text, number, inode, &windows)
}

fn push_inode_in(
    alloc: Global,
    out: &mut Vec<u8>,
    text: &[u8],
    number: u64,
    inode: &Inode,
    windows: &[Window],
) -> Result<(), OutOfMemory>
    ensures { OnOk result (Pushed text.now out.old.items out.new.items
        (spec.inode_parts text.now number inode.now windows.now)) }
{
    let view = view_of(Side::Alone, number);
    push_head(out, text, Frame::OneRun)?;
    push_section(alloc, out, text, Detail::Overview, view, windows, inode)?;
    push_parts(out, text, &[Part::Frame(Frame::End)])
}

fn windows_or(
    alloc: Global,
    range: Option<Window>,
    journal: &[Event],
) -> Result<Vec<Window>, OutOfMemory>
    ensures { IfOk result (λ v. v.items ≡ spec.windows_or range journal.now) }
{
    match range {
        None => windows_of(alloc, journal),
        Some(window) => {
            let mut windows = Vec::new(alloc);
            windows.push(window)?;
            Ok(windows)
        }
    }
}

/// Appends what stands below the inodes: the list, the registers, the appended rules and the calls
/// of a report. Events that none of the windows shows have no link.
pub fn push_tables(
    alloc: Global,
    out: &mut Vec<u8>,
    text: &[u8],
    side: Side,
    shown: &[Shown],
    report: &Report,
) -> Result<(), OutOfMemory>
    ensures { OnOk result (Pushed text.now out.old.items out.new.items
        (spec.tables text.now side shown.now report.now)) }
{
    push_tables_by(
        alloc,
        out,
        text,
        side,
        shown,
        &report.inodes,
        &report.entries,
        &report.registers,
        &report.rules,
        &report.tasks,
    )
}

fn push_tables_by(
    alloc: Global,
    out: &mut Vec<u8>,
    text: &[u8],
    side: Side,
    shown: &[Shown],
    inodes: &[Inode],
    entries: &[Span],
    registers: &[Span],
    rules: &[Span],
    tasks: &[Task],
) -> Result<(), OutOfMemory>
    ensures { OnOk result (Pushed text.now out.old.items out.new.items (spec.tables_by
        text.now side shown.now inodes.now entries.now registers.now rules.now tasks.now)) }
{
    push_list(alloc, out, text, side, shown, inodes, entries)?;
    push_registers(out, text, registers)?;
    push_rules(out, text, rules)?;
    push_calls(alloc, out, text, side, shown, inodes, tasks)
}

// For each of so many entries, the event that added it.
fn added(alloc: Global, n: usize, inodes: &[Inode]) -> Result<Vec<Option<At>>, OutOfMemory>
    ensures { IfOk result (λ v. v.items ≡ spec.added n inodes.now) }
{
    let mut table = Vec::new(alloc);
    table.resize(n, None)?;
    fill(&mut table, Asked::Entries, inodes);
    Ok(table)
}

pub fn push_list(
    alloc: Global,
    out: &mut Vec<u8>,
    text: &[u8],
    side: Side,
    shown: &[Shown],
    inodes: &[Inode],
    lines: &[Span],
) -> Result<(), OutOfMemory>
    ensures { OnOk result (Pushed text.now out.old.items out.new.items
        (spec.list_parts text.now side shown.now inodes.now lines.now)) }
{
    let added = added(alloc, lines.len(), inodes)?;
    push_entries(out, text, side, shown, &added, lines)
}
