// The list in a page.

ghost use Rattle.std.specs.Prelude.{◌≡◌, slice_get, OnOk};
ghost use Rattle.view_tables.specs.Entries as spec;
ghost use Rattle.view_page.specs.Parts.{Pushed};

use report_read::Span;
use std::alloc::AllocError as OutOfMemory;
use view_page::{Part, Side, Table, after_word, cut, first_word, push_parts, text_at};
use view_plan::{At, Shown, counted, is_drawn};

/// Of long lists the first of these many are shown.
pub const FIRST_SHOWN: u64 = 50;

// No more violations are shown beyond these.
const MOST_VIOLATIONS: u64 = 150;

/// The words of a line, counted from 0.
pub(crate) fn word_1(text: &[u8], line: Span) -> Span
    ensures { result ≡ spec.word_1 text.now line }
{
    first_word(text, after_word(text, line))
}

pub(crate) fn word_2(text: &[u8], line: Span) -> Span
    ensures { result ≡ spec.word_2 text.now line }
{
    word_1(text, after_word(text, line))
}

pub(crate) fn word_3(text: &[u8], line: Span) -> Span
    ensures { result ≡ spec.word_3 text.now line }
{
    word_2(text, after_word(text, line))
}

fn word_4(text: &[u8], line: Span) -> Span
    ensures { result ≡ spec.word_4 text.now line }
{
    word_3(text, after_word(text, line))
}

// All are the digit 0.
fn is_zeros(digits: &[u8]) -> bool
    ensures { result ≡ spec.is_zeros digits.now }
{
    for digit in digits {
        if *digit != b'0' {
            return false;
        }
    }
    true
}

// The entry of a violation has a template digest of zeros.
fn is_violation(text: &[u8], line: Span) -> bool
    ensures { result ≡ spec.is_violation text.now line }
{
    is_zeros(text_at(text, word_1(text, line)))
}

/// Appends a link to an event.
pub fn push_link(out: &mut Vec<u8>, text: &[u8], side: Side, at: At) -> Result<(), OutOfMemory>
    ensures { OnOk result (Pushed text.now out.old.items out.new.items (spec.link side at)) }
{
    let inode = Part::Number(u64::from(at.inode));
    let place = Part::Number(u64::from(at.place));
    let parts = [
        Part::Table(Table::Link),
        Part::Side(side),
        Part::Table(Table::I),
        inode,
        Part::Table(Table::E),
        place,
        Part::Table(Table::LinkIs),
        inode,
        Part::Table(Table::LinkPlace),
        place,
        Part::Table(Table::LinkEnd),
    ];
    push_parts(out, text, &parts)
}

fn push_named(out: &mut Vec<u8>, text: &[u8], at: At) -> Result<(), OutOfMemory>
    ensures { OnOk result (Pushed text.now out.old.items out.new.items (spec.named at)) }
{
    let parts = [
        Part::Table(Table::Inode),
        Part::Number(u64::from(at.inode)),
        Part::Table(Table::LinkPlace),
        Part::Number(u64::from(at.place)),
    ];
    push_parts(out, text, &parts)
}

// A link to the event if the page draws it, else its inode and place.
fn push_event(
    out: &mut Vec<u8>,
    text: &[u8],
    side: Side,
    shown: &[Shown],
    at: At,
) -> Result<(), OutOfMemory>
    ensures { OnOk result
        (Pushed text.now out.old.items out.new.items (spec.event side shown.now at)) }
{
    if is_drawn(shown, at) {
        push_link(out, text, side, at)
    } else {
        push_named(out, text, at)
    }
}

// The event, and its line.
fn push_by_event(
    out: &mut Vec<u8>,
    text: &[u8],
    side: Side,
    shown: &[Shown],
    at: At,
) -> Result<(), OutOfMemory>
    ensures { OnOk result
        (Pushed text.now out.old.items out.new.items (spec.by_event text.now side shown.now at)) }
{
    push_event(out, text, side, shown, at)?;
    push_said(out, text, cut(80, after_word(text, at.line)))
}

/// Appends what an event or a call says.
pub fn push_said(out: &mut Vec<u8>, text: &[u8], said: Span) -> Result<(), OutOfMemory>
    ensures { OnOk result (Pushed text.now out.old.items out.new.items (spec.said said)) }
{
    let parts = [
        Part::Table(Table::Said),
        Part::Text(said),
        Part::Table(Table::SpanEnd),
    ];
    push_parts(out, text, &parts)
}

// Who added the entry at this place.
fn push_by(
    out: &mut Vec<u8>,
    text: &[u8],
    side: Side,
    shown: &[Shown],
    place: u64,
    at: Option<At>,
) -> Result<(), OutOfMemory>
    ensures { OnOk result
        (Pushed text.now out.old.items out.new.items (spec.by text.now side shown.now place at)) }
{
    if place == 0 {
        push_parts(out, text, &[Part::Table(Table::Boot)])
    } else {
        push_added(out, text, side, shown, at)
    }
}

fn push_added(
    out: &mut Vec<u8>,
    text: &[u8],
    side: Side,
    shown: &[Shown],
    at: Option<At>,
) -> Result<(), OutOfMemory>
    ensures { OnOk result
        (Pushed text.now out.old.items out.new.items (spec.by_added text.now side shown.now at)) }
{
    match at {
        Some(at) => push_by_event(out, text, side, shown, at),
        None => push_parts(out, text, &[Part::Table(Table::ByNone)]),
    }
}

fn push_digest(
    out: &mut Vec<u8>,
    text: &[u8],
    violates: bool,
    digest: Span,
) -> Result<(), OutOfMemory>
    ensures { OnOk result
        (Pushed text.now out.old.items out.new.items (spec.digest violates digest)) }
{
    if violates {
        return push_parts(out, text, &[Part::Table(Table::Violation)]);
    }
    let parts = [
        Part::Table(Table::TitleCell),
        Part::Text(cut(1024, digest)),
        Part::Table(Table::Shown),
        Part::Text(cut(23, digest)),
    ];
    push_parts(out, text, &parts)
}

fn row_is(violates: bool) -> Part
    ensures { result ≡ spec.row_is violates }
{
    if violates {
        Part::Table(Table::RowViolates)
    } else {
        Part::Table(Table::RowIs)
    }
}

fn push_row_head(
    out: &mut Vec<u8>,
    text: &[u8],
    side: Side,
    violates: bool,
    place: u64,
    line: Span,
) -> Result<(), OutOfMemory>
    ensures { OnOk result (Pushed text.now out.old.items out.new.items
        (spec.row_head text.now side violates place line)) }
{
    let parts = [
        Part::Table(Table::Row),
        Part::Side(side),
        Part::Table(Table::Entry),
        Part::Number(place),
        row_is(violates),
        Part::Number(place),
        Part::Table(Table::Cell),
        Part::Text(cut(80, first_word(text, line))),
        Part::Table(Table::Cell),
        Part::Text(cut(80, word_2(text, line))),
    ];
    push_parts(out, text, &parts)
}

fn push_row_name(out: &mut Vec<u8>, text: &[u8], line: Span) -> Result<(), OutOfMemory>
    ensures { OnOk result
        (Pushed text.now out.old.items out.new.items (spec.row_name text.now line)) }
{
    let parts = [
        Part::Table(Table::HexCell),
        Part::Text(cut(80, word_4(text, line))),
        Part::Table(Table::Cell),
    ];
    push_parts(out, text, &parts)
}

fn push_row(
    out: &mut Vec<u8>,
    text: &[u8],
    side: Side,
    shown: &[Shown],
    violates: bool,
    place: u64,
    at: Option<At>,
    line: Span,
) -> Result<(), OutOfMemory>
    ensures { OnOk result (Pushed text.now out.old.items out.new.items
        (spec.row text.now side shown.now violates place at line)) }
{
    push_row_head(out, text, side, violates, place, line)?;
    push_digest(out, text, violates, word_3(text, line))?;
    push_row_name(out, text, line)?;
    push_by(out, text, side, shown, place, at)?;
    push_parts(out, text, &[Part::Table(Table::RowEnd)])
}

/// Of a long list the first 50 are shown, and the first so many of those that are marked.
pub fn is_shown(most: u64, place: u64, marks: u64, marked: bool) -> bool
    ensures { result ≡ spec.is_shown most place marks marked }
{
    if place < FIRST_SHOWN {
        true
    } else if marked {
        marks < most
    } else {
        false
    }
}

/// What a table has at this place.
pub fn added_at(added: &[Option<At>], place: usize) -> Option<At>
    ensures { result ≡ spec.joined (slice_get added.now place) }
{
    match added.get(place) {
        Some(at) => *at,
        None => None,
    }
}

// The row at a place, after so many violations, if it is shown.
fn push_row_at(
    out: &mut Vec<u8>,
    text: &[u8],
    side: Side,
    shown: &[Shown],
    added: &[Option<At>],
    marks: u64,
    place: usize,
    line: Span,
) -> Result<(), OutOfMemory>
    ensures { OnOk result (Pushed text.now out.old.items out.new.items
        (spec.row_at text.now side shown.now added.now marks place line)) }
{
    let violates = is_violation(text, line);
    if is_shown(MOST_VIOLATIONS, place as u64, marks, violates) {
        let at = added_at(added, place);
        push_row(out, text, side, shown, violates, place as u64, at, line)
    } else {
        push_parts(out, text, &[])
    }
}

fn push_rows(
    out: &mut Vec<u8>,
    text: &[u8],
    side: Side,
    shown: &[Shown],
    added: &[Option<At>],
    lines: &[Span],
) -> Result<(), OutOfMemory>
    ensures { OnOk result (Pushed text.now out.old.items out.new.items
        (spec.rows_from text.now side shown.now added.now 0 0 lines.now)) }
{
    let mut marks = 0;
    for (place, line) in lines.iter().enumerate() {
        push_row_at(out, text, side, shown, added, marks, place, *line)?;
        marks = counted(is_violation(text, *line), marks);
    }
    Ok(())
}

fn push_hidden(out: &mut Vec<u8>, text: &[u8], n: u64) -> Result<(), OutOfMemory>
    ensures { OnOk result (Pushed text.now out.old.items out.new.items (spec.hidden n)) }
{
    if n > FIRST_SHOWN {
        let parts = [
            Part::Table(Table::Hidden),
            Part::Number(n),
            Part::Table(Table::HiddenEnd),
        ];
        push_parts(out, text, &parts)
    } else {
        push_parts(out, text, &[])
    }
}

/// Appends the list, with the events that added its entries.
pub fn push_entries(
    out: &mut Vec<u8>,
    text: &[u8],
    side: Side,
    shown: &[Shown],
    added: &[Option<At>],
    lines: &[Span],
) -> Result<(), OutOfMemory>
    ensures { OnOk result (Pushed text.now out.old.items out.new.items
        (spec.entries text.now side shown.now added.now lines.now)) }
{
    push_parts(out, text, &[Part::Table(Table::List)])?;
    push_rows(out, text, side, shown, added, lines)?;
    push_parts(out, text, &[Part::Table(Table::ListEnd)])?;
    push_hidden(out, text, lines.len() as u64)
}
