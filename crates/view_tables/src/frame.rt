// The frame of a page: its head, and the tiles with the numbers of a report.

ghost use Rattle.std.specs.Prelude.{◌≡◌, OnOk};
ghost use Rattle.view_tables.specs.Frame as spec;
ghost use Rattle.view_page.specs.Parts.{Pushed};

use report_read::{Inode, Reply, Report, RunEnd, Task};
use std::alloc::AllocError as OutOfMemory;
use view_page::{Frame, Own, Part, Piece, push_parts};

/// Appends what stands before the body's own parts, under this heading.
pub fn push_head(out: &mut Vec<u8>, text: &[u8], heading: Frame) -> Result<(), OutOfMemory>
    ensures { OnOk result
        (Pushed text.now out.old.items out.new.items (spec.head heading)) }
{
    let parts = [
        Part::Frame(Frame::Begin),
        Part::Style,
        Part::Drawn(Piece::Own(Own::Rules)),
        Part::Frame(Frame::Body),
        Part::Frame(heading),
        Part::Legend,
    ];
    push_parts(out, text, &parts)
}

/// Appends the tiles of a report.
pub fn push_tiles(out: &mut Vec<u8>, text: &[u8], report: &Report) -> Result<(), OutOfMemory>
    ensures { OnOk result
        (Pushed text.now out.old.items out.new.items (spec.tiles report.now)) }
{
    push_parts(out, text, &[Part::Frame(Frame::Tiles)])?;
    push_run(out, text, report.run)?;
    push_counts(out, text, report)?;
    push_parts(out, text, &[Part::Frame(Frame::TilesEnd)])
}

fn push_run(out: &mut Vec<u8>, text: &[u8], run: RunEnd) -> Result<(), OutOfMemory>
    ensures { OnOk result
        (Pushed text.now out.old.items out.new.items (spec.run_tile run)) }
{
    let parts = [
        tile_by(!is_done(run)),
        Part::Frame(Frame::Run),
        Part::Frame(run_word(run)),
        Part::Frame(Frame::TileEnd),
    ];
    push_parts(out, text, &parts)
}

fn push_counts(out: &mut Vec<u8>, text: &[u8], report: &Report) -> Result<(), OutOfMemory>
    ensures { OnOk result
        (Pushed text.now out.old.items out.new.items (spec.counts report.now)) }
{
    let violations = u64::from(report.violations);
    let refused = refused(&report.tasks);
    let events = events(&report.inodes);
    push_tile(
        out,
        text,
        false,
        report.entries.len() as u64,
        Frame::Entries,
    )?;
    push_tile(out, text, violations > 0, violations, Frame::Violations)?;
    push_tile(out, text, refused > 0, refused, Frame::Refused)?;
    push_tile(out, text, false, report.inodes.len() as u64, Frame::Inodes)?;
    push_tile(out, text, false, report.tasks.len() as u64, Frame::Tasks)?;
    push_tile(out, text, false, events, Frame::Events)
}

fn push_tile(
    out: &mut Vec<u8>,
    text: &[u8],
    hot: bool,
    number: u64,
    name: Frame,
) -> Result<(), OutOfMemory>
    ensures { OnOk result
        (Pushed text.now out.old.items out.new.items (spec.tile hot number name)) }
{
    let parts = [
        tile_by(hot),
        Part::Frame(name),
        Part::Number(number),
        Part::Frame(Frame::TileEnd),
    ];
    push_parts(out, text, &parts)
}

fn tile_by(hot: bool) -> Part
    ensures { result ≡ spec.tile_by hot }
{
    if hot {
        Part::Frame(Frame::Hot)
    } else {
        Part::Frame(Frame::Tile)
    }
}

fn is_done(run: RunEnd) -> bool
    ensures { result ≡ spec.is_done run }
{
    match run {
        RunEnd::Done => true,
        RunEnd::Unfinished | RunEnd::Stuck => false,
    }
}

fn run_word(run: RunEnd) -> Frame
    ensures { result ≡ spec.run_word run }
{
    match run {
        RunEnd::Done => Frame::Done,
        RunEnd::Unfinished => Frame::Unfinished,
        RunEnd::Stuck => Frame::Stuck,
    }
}

// How many calls were refused.
fn refused(tasks: &[Task]) -> u64
    ensures { result ≡ spec.refused tasks.now }
{
    let mut n = 0;
    for task in tasks {
        n = refused_in(n, &task.replies);
    }
    n
}

fn refused_in(so_far: u64, replies: &[Reply]) -> u64
    ensures { result ≡ spec.refused_in so_far replies.now }
{
    let mut n = so_far;
    for reply in replies {
        n = n.saturating_add(if reply.ok { 0 } else { 1 });
    }
    n
}

// How many events the journals have.
fn events(inodes: &[Inode]) -> u64
    ensures { result ≡ spec.events inodes.now }
{
    let mut n: u64 = 0;
    for inode in inodes {
        n = n.saturating_add(inode.events.len() as u64);
    }
    n
}
