// The page of two reports of one script.

ghost use Rattle.std.specs.Prelude.{◌≡◌, ◌<◌, ◌++◌, [], ◌∷◌, length, OnOk};
ghost use Rattle.view_page.specs.declared.html.Section.TheVariants as section;
ghost use Rattle.view_page.specs.declared.part.Part.TheVariants as part;
ghost use Rattle.view_page.specs.journals.Windows.{windows};
ghost use Rattle.view_pages.specs.Pair as spec;
ghost use Rattle.view_pages.specs.Section.{heading, marked};
ghost use Rattle.view_page.specs.Parts.{Pushed};
ghost use Rattle.view_plan.specs.Plan.{most_drawn};

use crate::chosen::{MOST_PAIRS, numbers, parted_of, room_after, shown};
use crate::page::push_tables;
use crate::section::{push_at_end, push_drawing, push_heading, push_marked, push_not_drawn};
use report_read::{Event, Inode, InodeHead, Report, Span};
use std::alloc::{AllocError as OutOfMemory, Global};
use view_journal::{Window, windows};
use view_page::{Frame, Part, Section, Side, View, push_more, push_parts};
use view_plan::planned;
use view_sentences::{differing, push_sentences};
use view_tables::{push_head, push_tiles};

// A journal of at most as many events is drawn whole, and of a longer one windows.
const MOST_DRAWN: u32 = 120;

fn which(side: Side) -> Part
    ensures { result ≡ spec.which side }
{
    match side {
        Side::First => Part::Section(Section::IsFirst),
        _ => Part::Section(Section::IsSecond),
    }
}

fn push_compared(
    alloc: Global,
    out: &mut Vec<u8>,
    text: &[u8],
    view: View,
    mine: &[Event],
    other: &[Event],
    windows: &[Window],
) -> Result<(), OutOfMemory>
    requires { length mine.now < 4294967296 }
    ensures { OnOk result (Pushed text.now out.old.items out.new.items
        (spec.compared text.now view mine.now other.now windows.now)) }
{
    let differs = differing(alloc, text, mine, other, windows)?;
    push_drawing(alloc, out, text, view, mine, windows, &differs)?;
    push_sentences(alloc, out, text, view, mine, windows)
}

// The same of the windows of a journal.
fn push_compared_in(
    alloc: Global,
    out: &mut Vec<u8>,
    text: &[u8],
    view: View,
    mine: &[Event],
    other: &[Event],
) -> Result<(), OutOfMemory>
    requires { length mine.now < 4294967296 }
    ensures { OnOk result (Pushed text.now out.old.items out.new.items
        (spec.compared text.now view mine.now other.now (windows most_drawn mine.now))) }
{
    let windows = windows(alloc, MOST_DRAWN, mine)?;
    push_compared(alloc, out, text, view, mine, other, &windows)
}

fn push_compared_by(
    alloc: Global,
    out: &mut Vec<u8>,
    text: &[u8],
    view: View,
    mine: &[Event],
    other: &[Event],
) -> Result<(), OutOfMemory>
    ensures { OnOk result (Pushed text.now out.old.items out.new.items
        (spec.compared_by text.now view mine.now other.now)) }
{
    if mine.len() < 4_294_967_296 {
        push_compared_in(alloc, out, text, view, mine, other)
    } else {
        push_not_drawn(out, text, view.inode)
    }
}

// The heading of a side, up to its drawing.
fn push_side_heading(
    out: &mut Vec<u8>,
    text: &[u8],
    view: View,
    head: InodeHead,
    journal: &[Event],
) -> Result<(), OutOfMemory>
    ensures { OnOk result (Pushed text.now out.old.items out.new.items
        (heading text.now view.inode (length journal.now) head ++ marked journal.now
        ++ spec.which view.side ∷ part.Section section.Close ∷ [])) }
{
    push_heading(out, text, view.inode, journal.len() as u64, head)?;
    push_marked(out, text, journal)?;
    push_parts(
        out,
        text,
        &[which(view.side), Part::Section(Section::Close)],
    )
}

fn push_side_by(
    alloc: Global,
    out: &mut Vec<u8>,
    text: &[u8],
    view: View,
    head: InodeHead,
    attrs: &[Span],
    mine: &[Event],
    other: &[Event],
) -> Result<(), OutOfMemory>
    ensures { OnOk result (Pushed text.now out.old.items out.new.items
        (spec.side_by text.now view head attrs.now mine.now other.now)) }
{
    push_side_heading(out, text, view, head, mine)?;
    push_compared_by(alloc, out, text, view, mine, other)?;
    push_at_end(out, text, head, attrs)
}

// The section of an inode of one report, next to the journal that it has in the other one.
fn push_side(
    alloc: Global,
    out: &mut Vec<u8>,
    text: &[u8],
    view: View,
    inode: &Inode,
    other: &Inode,
) -> Result<(), OutOfMemory>
    ensures { OnOk result (Pushed text.now out.old.items out.new.items
        (spec.side_of text.now view inode.now other.now.events)) }
{
    push_side_by(
        alloc,
        out,
        text,
        view,
        inode.head,
        &inode.attrs,
        &inode.events,
        &other.events,
    )
}

fn view_at(side: Side, number: u64, place: usize) -> View
    ensures { result ≡ spec.view_at side number place }
{
    View {
        side,
        inode: number,
        parts: Some(place.min(4_294_967_295) as u32),
    }
}

fn push_both(
    alloc: Global,
    out: &mut Vec<u8>,
    text: &[u8],
    number: u64,
    place: usize,
    first: &Inode,
    second: &Inode,
) -> Result<(), OutOfMemory>
    ensures { OnOk result (Pushed text.now out.old.items out.new.items
        (spec.both text.now number place first.now second.now)) }
{
    let above = view_at(Side::First, number, place);
    push_side(alloc, out, text, above, first, second)?;
    let below = view_at(Side::Second, number, place);
    push_side(alloc, out, text, below, second, first)
}

fn push_same_by(
    out: &mut Vec<u8>,
    text: &[u8],
    number: u64,
    head: InodeHead,
    journal: &[Event],
) -> Result<(), OutOfMemory>
    ensures { OnOk result (Pushed text.now out.old.items out.new.items
        (spec.same text.now number (length journal.now) head)) }
{
    let same = [Part::Section(Section::Same), Part::Section(Section::Close)];
    push_heading(out, text, number, journal.len() as u64, head)?;
    push_parts(out, text, &same)
}

// One line, if the journals are the same.
fn push_same(out: &mut Vec<u8>, text: &[u8], number: u64, inode: &Inode) -> Result<(), OutOfMemory>
    ensures { OnOk result (Pushed text.now out.old.items out.new.items
        (spec.same text.now number (length inode.now.events) inode.now.head)) }
{
    push_same_by(out, text, number, inode.head, &inode.events)
}

fn push_undrawn_by(
    out: &mut Vec<u8>,
    text: &[u8],
    number: u64,
    head: InodeHead,
    journal: &[Event],
) -> Result<(), OutOfMemory>
    ensures { OnOk result (Pushed text.now out.old.items out.new.items
        (spec.without_drawing text.now number (length journal.now) head)) }
{
    push_heading(out, text, number, journal.len() as u64, head)?;
    push_parts(out, text, &[Part::Section(Section::Close)])?;
    push_not_drawn(out, text, number)
}

// Two lines, if no more inodes are drawn.
fn push_undrawn(
    out: &mut Vec<u8>,
    text: &[u8],
    number: u64,
    inode: &Inode,
) -> Result<(), OutOfMemory>
    ensures { OnOk result (Pushed text.now out.old.items out.new.items
        (spec.without_drawing text.now number (length inode.now.events) inode.now.head)) }
{
    push_undrawn_by(out, text, number, inode.head, &inode.events)
}

fn push_pair_by(
    alloc: Global,
    out: &mut Vec<u8>,
    text: &[u8],
    number: u64,
    room: u64,
    parted: Option<usize>,
    first: &Inode,
    second: &Inode,
) -> Result<(), OutOfMemory>
    ensures { OnOk result (Pushed text.now out.old.items out.new.items
        (spec.pair_by text.now number room parted first.now second.now)) }
{
    match parted {
        None => push_same(out, text, number, first),
        Some(place) => {
            if room > 0 {
                push_both(alloc, out, text, number, place, first, second)
            } else {
                push_undrawn(out, text, number, first)
            }
        }
    }
}

// The inodes of two reports, as many of each.
fn push_pairs_of(
    alloc: Global,
    out: &mut Vec<u8>,
    text: &[u8],
    first: &[Inode],
    second: &[Inode],
) -> Result<(), OutOfMemory>
    requires { length first.now ≡ length second.now }
    ensures { OnOk result (Pushed text.now out.old.items out.new.items
        (spec.pairs_from text.now 0 spec.most_pairs first.now second.now)) }
{
    let mut room = MOST_PAIRS;
    for number in 0..first.len() {
        let inode = &first[number];
        let other = &second[number];
        let parted = parted_of(text, inode, other);
        push_pair_by(alloc, out, text, number as u64, room, parted, inode, other)?;
        room = room_after(parted, room);
    }
    Ok(())
}

fn push_pairs(
    alloc: Global,
    out: &mut Vec<u8>,
    text: &[u8],
    first: &[Inode],
    second: &[Inode],
) -> Result<(), OutOfMemory>
    ensures { OnOk result (Pushed text.now out.old.items out.new.items
        (spec.pairs text.now first.now second.now)) }
{
    let n = shown(first, second);
    let more = first.len().max(second.len()) - n;
    push_pairs_of(alloc, out, text, &first[..n], &second[..n])?;
    push_more(
        out,
        text,
        Part::Section(Section::MoreInodes),
        more as u64,
        Part::Section(Section::MoreInodesEnd),
    )
}

fn push_both_tiles(
    out: &mut Vec<u8>,
    text: &[u8],
    first: &Report,
    second: &Report,
) -> Result<(), OutOfMemory>
    ensures { OnOk result (Pushed text.now out.old.items out.new.items
        (spec.both_tiles first.now second.now)) }
{
    push_parts(out, text, &[Part::Frame(Frame::First)])?;
    push_tiles(out, text, first)?;
    push_parts(out, text, &[Part::Frame(Frame::Second)])?;
    push_tiles(out, text, second)
}

// What stands below the inodes of one report, with links to the events of these inodes.
fn push_side_tables(
    alloc: Global,
    out: &mut Vec<u8>,
    text: &[u8],
    side: Side,
    numbers: &[usize],
    report: &Report,
) -> Result<(), OutOfMemory>
    ensures { OnOk result (Pushed text.now out.old.items out.new.items
        (spec.side_tables text.now side numbers.now report.now)) }
{
    let shown = planned(alloc, &report.inodes, numbers)?;
    push_tables(alloc, out, text, side, &shown, report)
}

// The lists and the calls, side by side.
fn push_both_tables(
    alloc: Global,
    out: &mut Vec<u8>,
    text: &[u8],
    numbers: &[usize],
    first: &Report,
    second: &Report,
) -> Result<(), OutOfMemory>
    ensures { OnOk result (Pushed text.now out.old.items out.new.items
        (spec.both_tables text.now numbers.now first.now second.now)) }
{
    push_parts(out, text, &[Part::Frame(Frame::Both)])?;
    push_side_tables(alloc, out, text, Side::First, numbers, first)?;
    push_parts(out, text, &[Part::Frame(Frame::Beside)])?;
    push_side_tables(alloc, out, text, Side::Second, numbers, second)?;
    push_parts(out, text, &[Part::Frame(Frame::BothEnd)])
}

// The same, with links to the events of the inodes that are drawn.
fn push_linked_tables(
    alloc: Global,
    out: &mut Vec<u8>,
    text: &[u8],
    first: &Report,
    second: &Report,
    inodes: &[Inode],
    others: &[Inode],
) -> Result<(), OutOfMemory>
    ensures { OnOk result (Pushed text.now out.old.items out.new.items (spec.both_tables
        text.now (spec.numbers text.now inodes.now others.now) first.now second.now)) }
{
    let numbers = numbers(alloc, text, inodes, others)?;
    push_both_tables(alloc, out, text, &numbers, first, second)
}

fn push_pair_by_inodes(
    alloc: Global,
    out: &mut Vec<u8>,
    text: &[u8],
    first: &Report,
    second: &Report,
    inodes: &[Inode],
    others: &[Inode],
) -> Result<(), OutOfMemory>
    ensures { OnOk result (Pushed text.now out.old.items out.new.items
        (spec.pair_of text.now first.now second.now inodes.now others.now)) }
{
    push_head(out, text, Frame::TwoRuns)?;
    push_both_tiles(out, text, first, second)?;
    push_pairs(alloc, out, text, inodes, others)?;
    push_linked_tables(alloc, out, text, first, second, inodes, others)?;
    push_parts(out, text, &[Part::Frame(Frame::End)])
}

/// Appends the page of two reports, which were read from `text`: the inodes whose journals differ,
/// first above second, and both lists.
pub fn push_pair(
    alloc: Global,
    out: &mut Vec<u8>,
    text: &[u8],
    first: &Report,
    second: &Report,
) -> Result<(), OutOfMemory>
    ensures { OnOk result (Pushed text.now out.old.items out.new.items
        (spec.pair_parts text.now first.now second.now)) }
{
    push_pair_by_inodes(
        alloc,
        out,
        text,
        first,
        second,
        &first.inodes,
        &second.inodes,
    )
}
