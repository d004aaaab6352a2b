ghost use Rattle.std.specs.Prelude.{◌≡◌, ℕ, ◌+◌, ◌<◌, ◌^◌, [], All, IfOk, length, map};
ghost use Rattle.grow_list.specs.Shown.{Passed};
ghost use Rattle.ima_templates.specs.declared.entry.Entry.{Entry as AnyEntry};
ghost use Rattle.world_close.specs.worlds.Tasks.{PassesValue};
ghost use Rattle.world_close.specs.worlds.World.{AreRulesOf, AreSignalsOf, IsBookOf};
ghost use Rattle.world_close.specs.Closed.{AreSpares, AreWorldInodes};
ghost use Rattle.world_close.specs.Parts.{consts_of_parts, state_of_parts};
ghost use Rattle.world_start.specs.Start.{AreConstsOf, AreFirstPasses, Begins};
ghost use Rattle.world_start.specs.Started.{AreRows, AreStarted, IsFile};

use crate::cells::start_cells;
use crate::gathering::{Columns, gather};
use crate::seats::Seats;
use crate::world_inodes::start_world_inodes;
use grow_list::Pass;
use ima_templates::Entry;
use inode_events::{Event, Image, Settings};
use policy_cell::RuleEntry;
use policy_rules::{Policy, Super};
use std::alloc::{AllocError as OutOfMemory, Global};
use world_close::Parts;
use world_close::worlds::{Passes, WorldInode};
use xattr_store::Bytes;

/// What a world starts with: its parts, and the passes of its tasks, in order.
#[derive(Drop)]
pub struct Start {
    /// The lists and the constants: the measurement list has the first entry (`boot`) alone, no
    /// semaphore has a post, and no rule has been appended. There is one spare pass of the rules if
    /// there is neither a task nor an inode, else none.
    pub parts: Parts,
    /// The passes of each task, in the order of the tasks.
    pub passes: Vec<Passes>,
}

// Starts all inodes, and collects the passes of each task, to which those of the other lists are
// given in order.
fn start_inodes(
    alloc: Global,
    settings: &Settings,
    tasks: u32,
    inodes: Vec<(Bytes, Image)>,
    seats: Seats,
    signal_passes: Vec<Pass<Event>>,
    list_passes: Vec<Pass<Entry>>,
    appenders: Vec<Pass<RuleEntry>>,
) -> Result<(Vec<WorldInode>, Vec<Passes>), OutOfMemory>
    requires tasks { tasks + 1 < 2 ^ 32 }
    requires files { All IsFile inodes.items }
    requires places { length seats.places ≡ length inodes.items }
    requires list_passes { length seats.list_passes ≡ length inodes.items }
    requires rule_passes { length seats.rule_passes ≡ length inodes.items }
    requires unused { All (λ (q : Passed AnyEntry). q.mine ≡ []) seats.list_passes }
    requires signal_passes { length signal_passes.items ≡ tasks }
    requires task_list_passes { length list_passes.items ≡ tasks }
    requires appenders { length appenders.items ≡ tasks }
    ensures world_inodes { IfOk result (λ r. AreStarted settings.now tasks inodes.items seats
        r.0.items) }
    ensures rows { IfOk result (λ r. AreRows r.0.items tasks
        (map (λ (p : PassesValue). p.inodes) r.1.items)) }
    ensures sems { IfOk result (λ r. map (λ (p : PassesValue). p.sems) r.1.items
        ≡ signal_passes.items) }
    ensures book { IfOk result (λ r. map (λ (p : PassesValue). p.book) r.1.items
        ≡ list_passes.items) }
    ensures rules { IfOk result (λ r. map (λ (p : PassesValue). p.rules) r.1.items
        ≡ appenders.items) }
{
    let (world_inodes, rows) = start_world_inodes(alloc, settings, tasks, inodes, seats)?;
    let columns = Columns::new(rows, signal_passes, list_passes, appenders);
    let passes = gather(alloc, columns)?;
    Ok((world_inodes, passes))
}

/// Starts the lists of a world with these files, each on the file system of the number at its
/// place, and the passes of this many tasks.
pub fn start_lists(
    alloc: Global,
    settings: Settings,
    boot: Entry,
    inodes: Vec<(Bytes, Image)>,
    supers: Vec<Super>,
    places: Vec<u32>,
    rules: Policy,
    tasks: u32,
) -> Result<Start, OutOfMemory>
    requires files { All IsFile inodes.items }
    requires even { length places.items ≡ length inodes.items }
    requires places { All (λ place. place < length supers.items) places.items }
    requires callers { length inodes.items + tasks + 1 < 2 ^ 32 }
    ensures consts { IfOk result (λ r. AreConstsOf settings boot inodes.items supers.items
        places.items rules tasks (consts_of_parts r.parts)) }
    ensures world_inodes { IfOk result (λ r. AreWorldInodes (consts_of_parts r.parts)
        r.parts.world_inodes.items) }
    ensures book { IfOk result (λ r. IsBookOf (consts_of_parts r.parts) r.parts.book) }
    ensures sems { IfOk result (λ r. AreSignalsOf (consts_of_parts r.parts) r.parts.sems) }
    ensures rules { IfOk result (λ r. AreRulesOf (consts_of_parts r.parts) r.parts.rules) }
    ensures spares { IfOk result (λ r. AreSpares (consts_of_parts r.parts) r.parts.spares.items) }
    ensures begins { IfOk result (λ r. Begins (consts_of_parts r.parts) (state_of_parts r.parts)) }
    ensures passes { IfOk result (λ r. AreFirstPasses (consts_of_parts r.parts) r.passes.items) }
{
    let count = inodes.len() as u32;
    let cells = start_cells(alloc, boot, rules, count, tasks)?;
    let seats = Seats::new(places, cells.list_passes, cells.rule_passes);
    let (world_inodes, passes) = start_inodes(
        alloc,
        &settings,
        tasks,
        inodes,
        seats,
        cells.task_signal_passes,
        cells.task_list_passes,
        cells.task_appenders,
    )?;
    let parts = Parts {
        world_inodes,
        book: cells.book,
        sems: cells.sems,
        rules: cells.rules,
        spares: cells.spares,
        supers,
        settings,
        tasks,
        alloc,
    };
    Ok(Start { parts, passes })
}
