// The places that the grants of all calls name, by one pass over the journals.

ghost use Rattle.std.specs.Prelude.{◌≡◌, ℕ, ◌<◌, None, Some, length, replicate, slice_get, slice_set, get_or, IfOk};
ghost use Rattle.std.specs.Option.{option_or};
ghost use Rattle.kernel_read.specs.Places.{HasPlaces, HasShape, calls_in, cell, named_by, noted, reads};
ghost use Rattle.run_laws.specs.kernel_reads.Reads.{place_of_call};

use crate::calls::{is_read, placed_by};
use inode_events::templates::Placed;
use inode_events::{EndedInode, Event};
use script_text::TaskBlock;
use std::alloc::{AllocError as OutOfMemory, Global};
use std::marker::Model;

// The places of the calls of one task, in order. Contracts see the list.
#[derive(Drop)]
pub struct Row {
    places: Vec<Option<Placed>>,
}

impl Model for Row {
    ghost use Rattle.std.specs.Prelude.{List, Option};
    ghost use Rattle.script_text.specs.steps.templates.declared.entry.Placed.{Placed};

    ghost Value = { List (Option Placed) };

    ghost view = { λ r. r.places.items };
}

impl Row {
    fn new(alloc: Global, calls: usize) -> Result<Row, OutOfMemory>
        ensures { IfOk result (λ row. row ≡ replicate calls None) }
    {
        let places = vec![in alloc; None; calls]?;
        Ok(Row { places })
    }

    // The place of the call.
    pub fn at(&self, call: usize) -> Option<Placed>
        requires { call < length self.now }
        ensures { slice_get self.now call ≡ Some result }
    {
        self.places[call]
    }

    // Notes the place of a call that has none yet.
    fn note(&mut self, call: usize, placed: Placed)
        requires { call < length self.old }
        ensures { self.new ≡ slice_set self.old call
            (option_or (get_or self.old call None) (Some placed)) }
    {
        if self.places[call].is_none() {
            self.places[call] = Some(placed);
        }
    }
}

// Notes the place that the event names, if the kernel reads the inode by the event's call.
fn note_event(rows: &mut [Row], tasks: &[TaskBlock], inode: usize, event: &Event)
    requires { HasShape (calls_in tasks.now) rows.old }
    ensures shape { HasShape (calls_in tasks.now) rows.new }
    ensures cells { (n k : ℕ) → cell rows.new n k ≡ noted (reads (calls_in tasks.now) n k inode)
        (cell rows.old n k) (named_by n k event.now) }
{
    let Some(placed) = placed_by(event) else {
        return;
    };
    let task = event.who.task as usize;
    let call = event.who.call as usize;
    if is_read(tasks, task, call, inode) {
        rows[task].note(call, placed);
    }
}

// Notes the places that the journal names, of the calls by which the kernel reads the inode.
fn note_journal(rows: &mut [Row], tasks: &[TaskBlock], inode: usize, journal: &[Event])
    requires { HasShape (calls_in tasks.now) rows.old }
    ensures shape { HasShape (calls_in tasks.now) rows.new }
    ensures cells { (n k : ℕ) → cell rows.new n k ≡ noted (reads (calls_in tasks.now) n k inode)
        (cell rows.old n k) (place_of_call n k journal.now) }
{
    for event in journal {
        note_event(rows, tasks, inode, event);
    }
}

// A table with no places.
fn no_places(alloc: Global, tasks: &[TaskBlock]) -> Result<Vec<Row>, OutOfMemory>
    ensures shape { IfOk result (λ rows. HasShape (calls_in tasks.now) rows.items) }
    ensures none { IfOk result (λ rows. (n k : ℕ) → cell rows.items n k ≡ None) }
{
    let mut rows = Vec::new(alloc);
    for task in tasks {
        rows.push(Row::new(alloc, task.calls.as_slice().len())?)?;
    }
    Ok(rows)
}

// The places of all calls.
pub fn places(
    alloc: Global,
    tasks: &[TaskBlock],
    inodes: &[EndedInode],
) -> Result<Vec<Row>, OutOfMemory>
    ensures { IfOk result (λ rows. HasPlaces (calls_in tasks.now) inodes.now rows.items) }
{
    let mut rows = no_places(alloc, tasks)?;
    for (number, inode) in inodes.iter().enumerate() {
        note_journal(rows.as_mut_slice(), tasks, number, inode.journal.as_slice());
    }
    Ok(rows)
}
