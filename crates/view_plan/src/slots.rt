// Which event added an entry of the list, and which was the first of a call.

ghost use Rattle.std.specs.Prelude.{◌≡◌, ◌≤◌, length, take};
ghost use Rattle.view_plan.specs.Slots as spec;

use report_read::{Deed, Event, Inode, Outcome, Placed, Span};

/// An event: its inode, its place in the journal, and its line.
#[derive(Clone, Copy)]
pub struct At {
    pub inode: u32,
    pub place: u32,
    pub line: Span,
}

// A table has a slot for each entry, or for each call of a task.
const _: () = prove!(size_of::<Option<At>>() == 20);

// A report has fewer inodes, and fewer events of each, since its text is shorter.
const MOST: usize = 4_294_967_296;

/// What a table says of its slots: which event added the entry, or which was the first of the call
/// of this task.
#[derive(Clone, Copy)]
pub enum Asked {
    Entries,
    Calls(u64),
}

fn placed_entry(placed: Placed, entry: u32) -> Option<u32>
    ensures { result ≡ spec.placed_entry placed entry }
{
    match placed {
        Placed::Added => Some(entry),
        Placed::Already | Placed::NotMeasured => None,
    }
}

fn added_entry(outcome: Outcome) -> Option<u32>
    ensures { result ≡ spec.added_entry outcome }
{
    match outcome {
        Outcome::ToMToU(entry) => Some(entry),
        Outcome::OpenWriters(entry) => Some(entry),
        Outcome::Granted(grant) => placed_entry(grant.placed, grant.entry),
        _ => None,
    }
}

fn call_of(task: u64, event: Event) -> Option<u32>
    ensures { result ≡ spec.call_of task event event.deed }
{
    match event.deed {
        Deed::Birth => None,
        _ => {
            if u64::from(event.who.task) == task {
                Some(event.who.call)
            } else {
                None
            }
        }
    }
}

fn slot(asked: Asked, event: Event) -> Option<u32>
    ensures { result ≡ spec.slot asked event }
{
    match asked {
        Asked::Entries => added_entry(event.outcome),
        Asked::Calls(task) => call_of(task, event),
    }
}

fn put(table: &mut [Option<At>], slot: Option<u32>, at: At)
    ensures { table.new ≡ spec.put table.old slot at }
{
    if let Some(slot) = slot {
        let k = slot as usize;
        if let Some(None) = table.get(k) {
            table[k] = Some(at);
        }
    }
}

fn fill_events(table: &mut [Option<At>], asked: Asked, inode: u32, journal: &[Event])
    requires { length journal.now ≤ spec.most }
    ensures { table.new ≡ spec.after_events asked table.old inode 0 journal.now }
{
    for (place, event) in journal.iter().enumerate() {
        let at = At {
            inode,
            place: place as u32,
            line: event.line,
        };
        put(table, slot(asked, *event), at);
    }
}

fn first_events(journal: &[Event]) -> &[Event]
    ensures is { result.now ≡ take spec.most journal.now }
    ensures few { length result.now ≤ spec.most }
{
    &journal[..journal.len().min(MOST)]
}

fn first_inodes(inodes: &[Inode]) -> &[Inode]
    ensures is { result.now ≡ take spec.most inodes.now }
    ensures few { length result.now ≤ spec.most }
{
    &inodes[..inodes.len().min(MOST)]
}

fn fill_inodes(table: &mut [Option<At>], asked: Asked, inodes: &[Inode])
    requires { length inodes.now ≤ spec.most }
    ensures { table.new ≡ spec.after_inodes asked table.old 0 inodes.now }
{
    for (number, inode) in inodes.iter().enumerate() {
        fill_events(table, asked, number as u32, first_events(&inode.events));
    }
}

/// Fills a table by the events of these inodes.
pub fn fill(table: &mut [Option<At>], asked: Asked, inodes: &[Inode])
    ensures { table.new ≡ spec.filled asked table.old inodes.now }
{
    fill_inodes(table, asked, first_inodes(inodes));
}
