// The sections of a page, one for each inode that it shows.

ghost use Rattle.std.specs.Prelude.{◌≡◌, drop, slice_get, take, OnOk};
ghost use Rattle.view_page.specs.Parts.{Pushed};
ghost use Rattle.view_pages.specs.Sections as spec;

use crate::section::{Detail, push_section, view_of};
use report_read::Inode;
use std::alloc::{AllocError as OutOfMemory, Global};
use view_journal::Window;
use view_page::{Side, View, push_parts};
use view_plan::{Shown, windows_in};

// At most as many sections of a page have an overview.
const MOST_OVERVIEWS: usize = 16;

fn push_section_if(
    alloc: Global,
    out: &mut Vec<u8>,
    text: &[u8],
    detail: Detail,
    view: View,
    windows: &[Window],
    inodes: &[Inode],
    number: usize,
) -> Result<(), OutOfMemory>
    ensures { OnOk result (Pushed text.now out.old.items out.new.items
        (spec.section_if text.now detail view windows.now (slice_get inodes.now number))) }
{
    match inodes.get(number) {
        Some(inode) => push_section(alloc, out, text, detail, view, windows, inode),
        None => push_parts(out, text, &[]),
    }
}

fn push_section_at(
    alloc: Global,
    out: &mut Vec<u8>,
    text: &[u8],
    detail: Detail,
    side: Side,
    shown: &[Shown],
    inodes: &[Inode],
    number: usize,
) -> Result<(), OutOfMemory>
    ensures { OnOk result (Pushed text.now out.old.items out.new.items
        (spec.section_at text.now detail side shown.now inodes.now number)) }
{
    let view = view_of(side, number as u64);
    let windows = windows_in(alloc, shown, number as u64)?;
    push_section_if(alloc, out, text, detail, view, &windows, inodes, number)
}

// The sections of the inodes of these numbers.
fn push_sections_of(
    alloc: Global,
    out: &mut Vec<u8>,
    text: &[u8],
    detail: Detail,
    side: Side,
    shown: &[Shown],
    inodes: &[Inode],
    order: &[usize],
) -> Result<(), OutOfMemory>
    ensures { OnOk result (Pushed text.now out.old.items out.new.items
        (spec.sections_of text.now detail side shown.now inodes.now order.now)) }
{
    for number in order {
        push_section_at(alloc, out, text, detail, side, shown, inodes, *number)?;
    }
    Ok(())
}

fn first_of(order: &[usize]) -> &[usize]
    ensures { result.now ≡ take spec.most_overviews order.now }
{
    &order[..order.len().min(MOST_OVERVIEWS)]
}

fn others_of(order: &[usize]) -> &[usize]
    ensures { result.now ≡ drop spec.most_overviews order.now }
{
    &order[order.len().min(MOST_OVERVIEWS)..]
}

/// Appends the sections of the inodes of these numbers, each with the windows that are its own.
pub fn push_sections(
    alloc: Global,
    out: &mut Vec<u8>,
    text: &[u8],
    side: Side,
    shown: &[Shown],
    inodes: &[Inode],
    order: &[usize],
) -> Result<(), OutOfMemory>
    ensures { OnOk result (Pushed text.now out.old.items out.new.items
        (spec.sections text.now side shown.now inodes.now order.now)) }
{
    let first = first_of(order);
    let others = others_of(order);
    push_sections_of(
        alloc,
        out,
        text,
        Detail::Overview,
        side,
        shown,
        inodes,
        first,
    )?;
    push_sections_of(
        alloc,
        out,
        text,
        Detail::Windows,
        side,
        shown,
        inodes,
        others,
    )
}
