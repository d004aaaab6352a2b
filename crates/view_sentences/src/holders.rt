// The holders of a file at a violation.

ghost use Rattle.std.specs.Prelude.{◌≡◌, ◌<◌, ◌++◌, [], ◌∷◌, length, reverse, if◌then◌else◌, IfOk, OnOk};
ghost use Rattle.view_page.specs.journals.Files.{files};
ghost use Rattle.view_page.specs.journals.Sentences.{held_by, holders};
ghost use Rattle.view_page.specs.journals.Walk.{start};
ghost use Rattle.view_page.specs.journals.WalkView.{walk_of};
ghost use Rattle.view_sentences.specs.Holders as spec;

use report_read::{Deed, Event, Kind, Outcome};
use std::alloc::{AllocError as OutOfMemory, Global};
use view_journal::{Walk, is_reader, is_writer};

/// Who holds a file at a violation.
#[derive(Clone, Copy)]
pub enum Holding {
    Readers,
    Writers,
}

fn holds(holding: Holding, kind: Kind) -> bool
    ensures { result ≡ spec.holds holding kind }
{
    match holding {
        Holding::Readers => is_reader(kind),
        Holding::Writers => is_writer(kind),
    }
}

fn is_holder(holding: Holding, file: u32, place: u32, kind: Option<Kind>) -> bool
    ensures { result ≡ spec.is_holder holding file place kind }
{
    match kind {
        Some(kind) => holds(holding, kind) && place != file,
        None => false,
    }
}

// The walk over these events.
fn walked(alloc: Global, journal: &[Event]) -> Result<Walk, OutOfMemory>
    requires { length journal.now < 4294967296 }
    ensures { IfOk result (λ w. walk_of w ≡ spec.walked_all start journal.now) }
{
    let mut walk = Walk::new(alloc);
    for event in journal {
        walk.step(*event)?;
    }
    Ok(walk)
}

/// Appends the place if it counts.
pub fn add_if(counts: bool, places: &mut Vec<u32>, place: u32) -> Result<(), OutOfMemory>
    ensures { OnOk result (places.new.items
        ≡ (if counts then places.old.items ++ place ∷ [] else places.old.items)) }
{
    if counts {
        places.push(place)?;
    }
    Ok(())
}

// The open files that count, other than the file itself, in the order in which they were opened.
fn holders_in(
    alloc: Global,
    holding: Holding,
    file: u32,
    held: &[Option<Kind>],
) -> Result<Vec<u32>, OutOfMemory>
    requires { length held.now < 4294967296 }
    ensures { IfOk result (λ v. v.items
        ≡ reverse (held_by (spec.holds holding) file (spec.held_files held.now))) }
{
    let mut holders = Vec::new(alloc);
    for (place, kind) in held.iter().enumerate() {
        let place = place as u32;
        add_if(is_holder(holding, file, place, *kind), &mut holders, place)?;
    }
    Ok(holders)
}

fn holders_by(
    alloc: Global,
    holding: Holding,
    file: u32,
    journal: &[Event],
) -> Result<Vec<u32>, OutOfMemory>
    requires { length journal.now < 4294967296 }
    ensures { IfOk result (λ v. v.items
        ≡ reverse (held_by (spec.holds holding) file (files (reverse journal.now)))) }
{
    let walk = walked(alloc, journal)?;
    holders_in(alloc, holding, file, walk.held())
}

/// The holders of the file at a violation after these events, in the order in which they opened
/// it.
pub fn holders(alloc: Global, journal: &[Event], event: Event) -> Result<Vec<u32>, OutOfMemory>
    requires { length journal.now < 4294967296 }
    ensures { IfOk result (λ v. v.items ≡ reverse (holders event (reverse journal.now))) }
{
    match (event.deed, event.outcome) {
        (Deed::Check(file), Outcome::ToMToU(_)) => {
            holders_by(alloc, Holding::Readers, file, journal)
        }
        (Deed::Check(file), Outcome::OpenWriters(_)) => {
            holders_by(alloc, Holding::Writers, file, journal)
        }
        _ => Ok(Vec::new(alloc)),
    }
}
