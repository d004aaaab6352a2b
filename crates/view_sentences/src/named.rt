// The holders of a file that a sentence names.

ghost use Rattle.std.specs.Prelude.{◌≡◌, ◌++◌, ◌≤◌, ◌<◌, length, take, OnOk};
ghost use Rattle.view_page.specs.Parts.{Pushed};
ghost use Rattle.view_sentences.specs.Sentences as spec;

use crate::alike::opener;
use crate::holders::holders;
use report_read::{Deed, Event, Kind};
use std::alloc::{AllocError as OutOfMemory, Global};
use view_page::{Part, Told, push_more, push_parts};

// At most as many holders are named.
const MOST_NAMED: usize = 4;

fn kind_word(kind: Kind) -> Told
    ensures { result ≡ spec.kind_word kind }
{
    match kind {
        Kind::Read => Told::Reading,
        Kind::Write => Told::Writing,
        Kind::ReadWrite => Told::ReadingAndWriting,
        Kind::Exec => Told::Execution,
    }
}

fn use_by(deed: Deed) -> Told
    ensures { result ≡ spec.use_by deed }
{
    match deed {
        Deed::Count { kind, .. } => kind_word(kind),
        _ => Told::Use,
    }
}

/// What the event opened its file for.
pub fn use_of(event: Option<Event>) -> Told
    ensures { result ≡ spec.use_of event }
{
    match event {
        Some(event) => use_by(event.deed),
        None => Told::Use,
    }
}

fn push_holder_by(
    out: &mut Vec<u8>,
    text: &[u8],
    file: u32,
    event: Option<Event>,
) -> Result<(), OutOfMemory>
    ensures { OnOk result (Pushed text.now out.old.items out.new.items (spec.holder_by file event)) }
{
    let Some(event) = event else {
        return push_parts(out, text, &[]);
    };
    let parts = [
        Part::Told(Told::Task),
        Part::Number(u64::from(event.who.task)),
        Part::Told(Told::Holds),
        Part::Told(use_by(event.deed)),
        Part::Told(Told::Since),
        Part::Number(u64::from(file)),
        Part::Told(Told::HoldsEnd),
    ];
    push_parts(out, text, &parts)
}

// The task that holds the file, what for, and since when.
fn push_holder(
    out: &mut Vec<u8>,
    text: &[u8],
    journal: &[Event],
    file: u32,
) -> Result<(), OutOfMemory>
    ensures { OnOk result
        (Pushed text.now out.old.items out.new.items (spec.holder journal.now file)) }
{
    push_holder_by(out, text, file, opener(journal, Some(file)))
}

fn push_comma(out: &mut Vec<u8>, text: &[u8], n: usize) -> Result<(), OutOfMemory>
    ensures { OnOk result (Pushed text.now out.old.items out.new.items (spec.comma_by n)) }
{
    if n == 0 {
        push_parts(out, text, &[])
    } else {
        push_parts(out, text, &[Part::Told(Told::Comma)])
    }
}

fn push_after_comma(
    out: &mut Vec<u8>,
    text: &[u8],
    journal: &[Event],
    n: usize,
    file: u32,
) -> Result<(), OutOfMemory>
    ensures { OnOk result (Pushed text.now out.old.items out.new.items
        (spec.comma_by n ++ spec.holder journal.now file)) }
{
    push_comma(out, text, n)?;
    push_holder(out, text, journal, file)
}

fn push_named(
    out: &mut Vec<u8>,
    text: &[u8],
    journal: &[Event],
    files: &[u32],
) -> Result<(), OutOfMemory>
    ensures { OnOk result
        (Pushed text.now out.old.items out.new.items (spec.named_from journal.now 0 files.now)) }
{
    for (n, file) in files.iter().enumerate() {
        push_after_comma(out, text, journal, n, *file)?;
    }
    Ok(())
}

fn first_of(files: &[u32]) -> &[u32]
    ensures { result.now ≡ take spec.most_named files.now }
{
    &files[..files.len().min(MOST_NAMED)]
}

// The holders of a file, the first of which are named.
fn push_holders(
    out: &mut Vec<u8>,
    text: &[u8],
    journal: &[Event],
    files: &[u32],
) -> Result<(), OutOfMemory>
    ensures { OnOk result
        (Pushed text.now out.old.items out.new.items (spec.named journal.now files.now)) }
{
    let more = files.len().saturating_sub(MOST_NAMED) as u64;
    push_named(out, text, journal, first_of(files))?;
    push_more(
        out,
        text,
        Part::Told(Told::And),
        more,
        Part::Told(Told::More),
    )
}

/// Appends the holders of the file at a violation.
pub fn push_holders_at(
    alloc: Global,
    out: &mut Vec<u8>,
    text: &[u8],
    journal: &[Event],
    place: usize,
    event: Event,
) -> Result<(), OutOfMemory>
    requires within { place ≤ length journal.now }
    requires few { length journal.now < 4294967296 }
    ensures { OnOk result (Pushed text.now out.old.items out.new.items
        (spec.named journal.now (spec.holders_at journal.now place event))) }
{
    let files = holders(alloc, &journal[..place], event)?;
    push_holders(out, text, journal, &files)
}
