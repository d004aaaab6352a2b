// The drawing of an inode.

ghost use Rattle.std.specs.Prelude.{◌≡◌, ◌++◌, ◌∷◌, ◌<◌, ◌^◌, [], length, IfOk, OnOk};
ghost use Rattle.view_layout.specs.Drawing.{items_of};
ghost use Rattle.view_layout.specs.SketchView.{parts_in};
ghost use Rattle.view_drawing.specs.Drawing as spec;
ghost use Rattle.view_page.specs.Pieces.{page_of};

use crate::items::{add, push_item};
use report_read::Event;
use std::alloc::{AllocError as OutOfMemory, Global};
use view_journal::{Item, Window, windows};
use view_layout::{Parts, draft, end_of, highest, push_items};
use view_page::{Own, Piece, Side, View, push_pieces};

// A journal of at most as many events is drawn whole.
const MOST_DRAWN: u32 = 120;

/// Appends the drawing of an inode's journal: an `svg` element with a column for each place of the
/// windows. `differs` are the places whose columns are marked as different.
pub fn push_inode(
    alloc: Global,
    out: &mut Vec<u8>,
    text: &[u8],
    view: View,
    journal: &[Event],
    windows: &[Window],
    differs: &[u32],
) -> Result<(), OutOfMemory>
    requires { length journal.now < 2 ^ 32 }
    ensures { OnOk result (out.new.items ≡ out.old.items ++ page_of text.now
        (spec.inode_pieces view journal.now windows.now differs.now)) }
{
    let sketch = draft(alloc, windows, journal)?;
    let pieces = pieces_of(alloc, view, &[], sketch.parts(), differs)?;
    push_pieces(out, text, &pieces)
}

/// One file with the drawing of an inode's journal: of the places of a range, or of its windows.
pub fn svg(
    alloc: Global,
    text: &[u8],
    inode: u64,
    journal: &[Event],
    range: Option<Window>,
) -> Result<Vec<u8>, OutOfMemory>
    requires { length journal.now < 2 ^ 32 }
    ensures { IfOk result (λ v. v.items ≡ page_of text.now (spec.svg_of inode journal.now range)) }
{
    let windows = windows_or(alloc, range, journal)?;
    let sketch = draft(alloc, &windows, journal)?;
    file_of(alloc, text, inode, sketch.parts())
}

// The file of a drawing with these parts.
fn file_of(alloc: Global, text: &[u8], inode: u64, parts: Parts<'_>) -> Result<Vec<u8>, OutOfMemory>
    ensures { IfOk result (λ v. v.items ≡ page_of text.now
        (spec.sketch_pieces (spec.view_alone inode) spec.rules_pieces (parts_in parts.entry) [])) }
{
    let rules = [
        Piece::Own(Own::Style),
        Piece::Own(Own::Rules),
        Piece::Own(Own::StyleEnd),
    ];
    let pieces = pieces_of(alloc, view_alone(inode), &rules, parts, &[])?;
    let mut out = Vec::new(alloc);
    push_pieces(&mut out, text, &pieces)?;
    Ok(out)
}

fn view_alone(inode: u64) -> View
    ensures { result ≡ spec.view_alone inode }
{
    View {
        side: Side::Alone,
        inode,
        parts: None,
    }
}

fn windows_or(
    alloc: Global,
    range: Option<Window>,
    journal: &[Event],
) -> Result<Vec<Window>, OutOfMemory>
    requires { length journal.now < 2 ^ 32 }
    ensures { IfOk result (λ v. v.items ≡ spec.windows_or range journal.now) }
{
    match range {
        None => windows(alloc, MOST_DRAWN, journal),
        Some(window) => {
            let mut windows = Vec::new(alloc);
            windows.push(window)?;
            Ok(windows)
        }
    }
}

// The pieces of a drawing with these parts.
fn pieces_of(
    alloc: Global,
    view: View,
    extra: &[Piece],
    parts: Parts<'_>,
    differs: &[u32],
) -> Result<Vec<Piece>, OutOfMemory>
    ensures { IfOk result (λ v. v.items
        ≡ spec.sketch_pieces view extra.now (parts_in parts.entry) differs.now) }
{
    let items = items_of(alloc, parts, differs, view.parts)?;
    let mut pieces = Vec::new(alloc);
    push_drawn(&mut pieces, view, extra, parts, &items)?;
    Ok(pieces)
}

fn items_of(
    alloc: Global,
    parts: Parts<'_>,
    differs: &[u32],
    parting: Option<u32>,
) -> Result<Vec<Item>, OutOfMemory>
    ensures { IfOk result (λ v. v.items ≡ items_of (parts_in parts.entry) differs.now parting) }
{
    let mut items = Vec::new(alloc);
    push_items(&mut items, parts, differs, parting)?;
    Ok(items)
}

fn push_drawn(
    out: &mut Vec<Piece>,
    view: View,
    extra: &[Piece],
    parts: Parts<'_>,
    items: &[Item],
) -> Result<(), OutOfMemory>
    ensures { OnOk result (out.new.items ≡ out.old.items ++ (spec.head (parts_in parts.entry)
        ++ (extra.now ++ (spec.items_pieces view items.now ++ Piece.Own Own.SvgEnd ∷ [])))) }
{
    push_head(out, parts)?;
    add(out, extra)?;
    add_items(out, view, items)?;
    add(out, &[Piece::Own(Own::SvgEnd)])
}

fn add_items(out: &mut Vec<Piece>, view: View, items: &[Item]) -> Result<(), OutOfMemory>
    ensures { OnOk result (out.new.items ≡ out.old.items ++ spec.items_pieces view items.now) }
{
    for item in items {
        push_item(out, view, *item)?;
    }
    Ok(())
}

fn push_head(out: &mut Vec<Piece>, parts: Parts<'_>) -> Result<(), OutOfMemory>
    ensures { OnOk result (out.new.items ≡ out.old.items ++ spec.head (parts_in parts.entry)) }
{
    let width = end_of(parts.columns) + 190;
    let up = u64::from(highest(parts.flags)) + 4;
    let height = up + u64::from(parts.bottom) + 120;
    let pieces = [
        Piece::Own(Own::Svg),
        Piece::Number(width),
        Piece::Own(Own::SvgHeight),
        Piece::Number(height),
        Piece::Own(Own::SvgBox),
        Piece::Number(up),
        Piece::Own(Own::Space),
        Piece::Number(width),
        Piece::Own(Own::Space),
        Piece::Number(height),
        Piece::Own(Own::SvgOpen),
    ];
    add(out, &pieces)
}
