// The entries of the list, as two sets of lines.

ghost use Rattle.std.specs.Prelude.{◌≡◌, ◌++◌, IfOk, OnOk};
ghost use Rattle.std.specs.List.{concat};
ghost use Rattle.order_outcomes.specs.Outcome.{entry_line, is_of, kind_text, lines_of, lines_text, with_line};

use crate::sets::add_text;
use ima_templates::Entry;
use report_text::{push_entries, push_number};
use std::alloc::{AllocError as OutOfMemory, Global};
use std::slice;
use xattr_store::Bytes;

/// The two kinds of entries.
#[derive(Clone, Copy)]
pub enum Kind {
    /// Entries that aren't violations.
    Measurements,
    /// Entries for files that were measured while they could change.
    Violations,
}

fn is_of(kind: Kind, entry: &Entry) -> bool
    ensures { result ≡ is_of kind entry.now }
{
    match kind {
        Kind::Measurements => !entry.violation,
        Kind::Violations => entry.violation,
    }
}

// The line of the entry in `ascii_runtime_measurements`.
fn entry_line(alloc: Global, entry: &Entry) -> Result<Bytes, OutOfMemory>
    ensures { IfOk result (λ line. line ≡ entry_line entry.now) }
{
    let mut line = Vec::new(alloc);
    push_entries(&mut line, slice::from_ref(entry))?;
    Ok(Bytes::from_vec(line))
}

// Adds the line of the entry, if it is of the kind.
fn add_line(
    alloc: Global,
    lines: &mut Vec<Bytes>,
    kind: Kind,
    entry: &Entry,
) -> Result<(), OutOfMemory>
    ensures { OnOk result (lines.new.items ≡ with_line kind lines.old.items entry.now) }
{
    if is_of(kind, entry) {
        add_text(lines, entry_line(alloc, entry)?)?;
    }
    Ok(())
}

// The lines of the entries of this kind, as a set.
fn lines_of(alloc: Global, kind: Kind, list: &[Entry]) -> Result<Vec<Bytes>, OutOfMemory>
    ensures { IfOk result (λ lines. lines.items ≡ lines_of kind list.now) }
{
    let mut lines = Vec::new(alloc);
    for entry in list {
        add_line(alloc, &mut lines, kind, entry)?;
    }
    Ok(lines)
}

fn push_kind(out: &mut Vec<u8>, kind: Kind) -> Result<(), OutOfMemory>
    ensures { OnOk result (out.new.items ≡ out.old.items ++ kind_text kind) }
{
    match kind {
        Kind::Measurements => out.extend_from_slice(b"measured "),
        Kind::Violations => out.extend_from_slice(b"violations "),
    }
}

fn push_all(out: &mut Vec<u8>, lines: &[Bytes]) -> Result<(), OutOfMemory>
    ensures { OnOk result (out.new.items ≡ out.old.items ++ concat lines.now) }
{
    for line in lines {
        out.extend_from_slice(line.as_slice())?;
    }
    Ok(())
}

/// Prints how many lines the entries of this kind have, and the lines.
pub fn push_lines(
    alloc: Global,
    out: &mut Vec<u8>,
    kind: Kind,
    list: &[Entry],
) -> Result<(), OutOfMemory>
    ensures { OnOk result (out.new.items
        ≡ out.old.items ++ lines_text kind (lines_of kind list.now)) }
{
    let lines = lines_of(alloc, kind, list)?;
    push_kind(out, kind)?;
    push_number(out, lines.len() as u64)?;
    out.extend_from_slice(b"\n")?;
    push_all(out, lines.as_slice())?;
    Ok(())
}
