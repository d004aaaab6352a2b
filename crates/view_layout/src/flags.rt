// Flags above the strips: of the notes of drawn events.

ghost use Rattle.std.specs.Prelude.{◌≡◌, ◌≤◌, ◌<◌, ◌++◌, length, map, All, IfOk, OnOk};
ghost use Rattle.view_layout.specs.Flags as spec;

use report_read::Event;
use std::alloc::{AllocError as OutOfMemory, Global};
use view_journal::{Column, Extent, Guide, Note, push_notes, rows};

/// A note of an event whose column begins at x.
#[derive(Clone, Copy)]
pub struct Noted {
    pub x: u32,
    pub event: Event,
    pub note: Note,
}

/// A flag, so many pixels above the strips.
#[derive(Clone, Copy)]
pub struct Flag {
    pub x: u32,
    pub event: Event,
    pub note: Note,
    pub up: u32,
}

const MOST_FLAGS: usize = 3000;

const FLAG_HEIGHT: u32 = 17;

/// The flags of the events of these columns.
pub fn flags(alloc: Global, columns: &[Column]) -> Result<Vec<Flag>, OutOfMemory>
    ensures { IfOk result (λ v. v.items ≡ spec.flags_of columns.now) }
{
    let noted = notes_of(alloc, columns)?;
    raised_all(alloc, &noted)
}

fn notes_of(alloc: Global, columns: &[Column]) -> Result<Vec<Noted>, OutOfMemory>
    ensures is { IfOk result (λ v. v.items ≡ spec.notes_of columns.now) }
    ensures few { IfOk result (λ v. length v.items ≤ 3000) }
{
    let mut noted = Vec::new(alloc);
    for column in columns {
        push_noted(alloc, &mut noted, *column)?;
    }
    noted.truncate(MOST_FLAGS);
    Ok(noted)
}

fn push_noted(alloc: Global, noted: &mut Vec<Noted>, column: Column) -> Result<(), OutOfMemory>
    ensures { OnOk result (noted.new.items ≡ noted.old.items ++ spec.noted_at column) }
{
    let mut notes = Vec::new(alloc);
    push_notes(&mut notes, column.event)?;
    push_at(noted, column.x, column.event, &notes)
}

fn push_at(noted: &mut Vec<Noted>, x: u32, event: Event, notes: &[Note]) -> Result<(), OutOfMemory>
    ensures { OnOk result
        (noted.new.items ≡ noted.old.items ++ map (spec.noted x event) notes.now) }
{
    for note in notes {
        noted.push(Noted {
            x,
            event,
            note: *note,
        })?;
    }
    Ok(())
}

fn raised_all(alloc: Global, noted: &[Noted]) -> Result<Vec<Flag>, OutOfMemory>
    requires { length noted.now ≤ 3000 }
    ensures { IfOk result (λ v. v.items ≡ spec.raised_all noted.now) }
{
    let extents = flag_extents(alloc, noted)?;
    let rows = rows(alloc, &extents)?;
    raised(alloc, noted, &rows)
}

fn flag_extents(alloc: Global, noted: &[Noted]) -> Result<Vec<Extent>, OutOfMemory>
    ensures is { IfOk result (λ v. v.items ≡ spec.flag_extents noted.now) }
    ensures each { IfOk result (λ v. length v.items ≡ length noted.now) }
{
    let mut extents = Vec::new(alloc);
    for flag in noted {
        let from = u64::from(flag.x) + 15;
        extents.push(Extent {
            from,
            to: from + flag_width(flag.note) + 2,
        })?;
    }
    Ok(extents)
}

fn raised(alloc: Global, noted: &[Noted], rows: &[usize]) -> Result<Vec<Flag>, OutOfMemory>
    requires each { length rows.now ≡ length noted.now }
    requires small { All (λ r. r < 3000) rows.now }
    ensures { IfOk result (λ v. v.items ≡ spec.raised noted.now rows.now) }
{
    let mut flags = Vec::new(alloc);
    for (at, flag) in noted.iter().enumerate() {
        let row = rows[at] as u32;
        flags.push(Flag {
            x: flag.x,
            event: flag.event,
            note: flag.note,
            up: FLAG_HEIGHT * (row + 1),
        })?;
    }
    Ok(flags)
}

/// The width of a flag.
pub fn flag_width(note: Note) -> u64
    ensures is { result ≡ spec.flag_width note }
    ensures small { result ≤ 1000 }
{
    7 * characters(note) + 10
}

fn characters(note: Note) -> u64
    ensures is { result ≡ spec.characters note }
    ensures small { result ≤ 31 }
{
    match note {
        Note::ToMToU(entry) => 15 + digits(entry),
        Note::OpenWriters(entry) => 21 + digits(entry),
        Note::Denied => 22,
        Note::Labelled => 8,
        Note::Added(entry) => 6 + digits(entry),
        Note::Already(entry) => 14 + digits(entry),
        Note::Passed => 4,
    }
}

fn digits(number: u32) -> u64
    ensures is { result ≡ spec.digits number }
    ensures small { result ≤ 10 }
{
    if number < 10 {
        1
    } else if number < 100 {
        2
    } else if number < 1000 {
        3
    } else if number < 10000 {
        4
    } else if number < 100000 {
        5
    } else {
        10
    }
}

/// The line from a flag down to the axis.
pub fn guide_of(note: Note) -> Option<Guide>
    ensures { result ≡ spec.guide_of note }
{
    match note {
        Note::ToMToU(_) | Note::OpenWriters(_) => Some(Guide::Violation),
        Note::Denied => Some(Guide::Denial),
        Note::Added(_) => Some(Guide::Added),
        Note::Already(_) | Note::Passed | Note::Labelled => None,
    }
}
