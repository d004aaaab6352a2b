// The parts of which a page is made.

ghost use Rattle.std.specs.Prelude.{◌≡◌, ◌++◌, OnOk};
ghost use Rattle.view_page.specs.Parts as spec;

use crate::escape::push_all;
use crate::html::{Frame, Section, Table, frame_bytes, section_bytes, table_bytes};
use crate::look::{push_legend, push_style};
use crate::own::Side;
use crate::pieces::{Piece, push_piece};
use crate::told::{Overview, Told, overview_bytes, told_bytes};
use report_read::Span;
use std::alloc::AllocError as OutOfMemory;

/// A part of a page.
#[derive(Clone, Copy)]
pub enum Part {
    Frame(Frame),
    Section(Section),
    Table(Table),
    Told(Told),
    Overview(Overview),
    /// What the identifiers of a report begin with.
    Side(Side),
    /// The rules of the page's classes, without those of drawings.
    Style,
    Legend,
    /// In decimal digits.
    Number(u64),
    /// A text of the report, escaped.
    Text(Span),
    /// A piece of a drawing.
    Drawn(Piece),
}

/// Appends parts of a page, with the texts of this report.
pub fn push_parts(out: &mut Vec<u8>, text: &[u8], parts: &[Part]) -> Result<(), OutOfMemory>
    ensures { OnOk result (spec.Pushed text.now out.old.items out.new.items parts.now) }
{
    for part in parts {
        push_part(out, text, *part)?;
    }
    Ok(())
}

fn push_part(out: &mut Vec<u8>, text: &[u8], part: Part) -> Result<(), OutOfMemory>
    ensures { OnOk result (out.new.items ≡ out.old.items ++ spec.bytes_of text.now part) }
{
    match part {
        Part::Frame(frame) => push_all(out, frame_bytes(frame)),
        Part::Section(section) => push_all(out, section_bytes(section)),
        Part::Table(table) => push_all(out, table_bytes(table)),
        Part::Told(told) => push_all(out, told_bytes(told)),
        Part::Overview(overview) => push_all(out, overview_bytes(overview)),
        Part::Side(side) => push_all(out, side_bytes(side)),
        Part::Style => push_style(out),
        Part::Legend => push_legend(out),
        Part::Number(number) => push_piece(out, text, Piece::Number(number)),
        Part::Text(span) => push_piece(out, text, Piece::Text(span)),
        Part::Drawn(piece) => push_piece(out, text, piece),
    }
}

/// The part after a number: this one after 1, and else the other.
pub fn by_count(n: u64, one: Part, many: Part) -> Part
    ensures { result ≡ spec.by_count n one many }
{
    if n == 1 { one } else { many }
}

/// Appends how many there are beyond what is shown, if there are any.
pub fn push_more(
    out: &mut Vec<u8>,
    text: &[u8],
    before: Part,
    n: u64,
    after: Part,
) -> Result<(), OutOfMemory>
    ensures { OnOk result
        (spec.Pushed text.now out.old.items out.new.items (spec.more before n after)) }
{
    if n > 0 {
        push_parts(out, text, &[before, Part::Number(n), after])
    } else {
        push_parts(out, text, &[])
    }
}

fn side_bytes(side: Side) -> &'static [u8]
    ensures { result.now ≡ spec.side_bytes side }
{
    match side {
        Side::Alone => b"",
        Side::First => b"a-",
        Side::Second => b"b-",
    }
}
