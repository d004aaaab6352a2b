// Whether an event fits the list and the events before it.

ghost use Rattle.std.specs.Prelude.{◌≡◌, slice_get};
ghost use Rattle.report_draft.specs.Draft as spec;

use report_words::{Deed, Event, Outcome, Placed};

/// Whether the file was opened by an earlier event of the journal, and the entry is in the list.
pub(crate) fn fits(entries: usize, before: &[Event], event: Event) -> bool
    ensures { result ≡ spec.fits entries before.now event }
{
    file_fits(before, file_of(event.deed)) && entry_fits(entries, entry_of(event.outcome))
}

fn file_fits(before: &[Event], file: Option<u32>) -> bool
    ensures { result ≡ spec.file_fits before.now file }
{
    match file {
        Some(file) => opens(before, file as usize),
        None => true,
    }
}

// Whether the event of this place is a count whose file is held.
fn opens(before: &[Event], place: usize) -> bool
    ensures { result ≡ spec.opens (slice_get before.now place) }
{
    match before.get(place) {
        Some(event) => is_held(event.outcome),
        None => false,
    }
}

fn is_held(outcome: Outcome) -> bool
    ensures { result ≡ spec.is_held outcome }
{
    match outcome {
        Outcome::Held => true,
        _ => false,
    }
}

// The file of a deed.
fn file_of(deed: Deed) -> Option<u32>
    ensures { result ≡ spec.file_of deed }
{
    match deed {
        Deed::Check(file) => Some(file),
        Deed::Take(file) => Some(file),
        Deed::Chunk(file) => Some(file),
        Deed::Finish(file) => Some(file),
        Deed::Read { file, .. } => Some(file),
        Deed::Write { file, .. } => Some(file),
        Deed::Trunc { file, .. } => Some(file),
        Deed::Close(file) => Some(file),
        Deed::CloseTake(file) => Some(file),
        Deed::CloseChunk(file) => Some(file),
        Deed::CloseFinish(file) => Some(file),
        _ => None,
    }
}

fn entry_fits(entries: usize, entry: Option<u32>) -> bool
    ensures { result ≡ spec.entry_fits entries entry }
{
    match entry {
        Some(place) => (place as usize) < entries,
        None => true,
    }
}

fn entry_placed(placed: Placed, entry: u32) -> Option<u32>
    ensures { result ≡ spec.entry_placed placed entry }
{
    match placed {
        Placed::Added => Some(entry),
        Placed::Already => Some(entry),
        Placed::NotMeasured => None,
    }
}

// The entry that an outcome names.
fn entry_of(outcome: Outcome) -> Option<u32>
    ensures { result ≡ spec.entry_of outcome }
{
    match outcome {
        Outcome::OpenWriters(place) => Some(place),
        Outcome::ToMToU(place) => Some(place),
        Outcome::Granted(grant) => entry_placed(grant.placed, grant.entry),
        _ => None,
    }
}
