// The inodes of a new world.
ghost use Rattle.std.specs.Prelude.{◌≡◌, ℕ, ◌+◌, ◌<◌, ◌^◌, [], ◌∷◌, ◌++◌, All, IfOk, OnOk, List, length, Some, slice_get};
ghost use Rattle.grow_list.specs.Shown.{Passed};
ghost use Rattle.ima_templates.specs.declared.entry.Entry.{Entry as AnyEntry};
ghost use Rattle.inode_events.specs.declared.told.Event.{Event as AnyEvent};
ghost use Rattle.world_start.specs.Started.{AreRows, AreStarted, IsFile, IsStarted, file_of, list_pass_of, named_by, pass_of};

use crate::rows::{Row, share_out};
use crate::seats::{Seat, Seats};
use inode_events::{Image, Settings};
use std::alloc::{AllocError as OutOfMemory, Global};
use std::collections::VecDeque;
use world_close::worlds::WorldInode;
use world_close::worlds::inodes::InodeCell;
use xattr_store::Bytes;

// Starts one inode, and gives each row its pass of the inode's journal.
fn start_world_inode(
    alloc: Global,
    file: (Bytes, Image),
    settings: &Settings,
    tasks: u32,
    seat: Seat,
    rows: &mut Vec<Row>,
) -> Result<WorldInode, OutOfMemory>
    requires file { IsFile file }
    requires tasks { tasks + 1 < 2 ^ 32 }
    requires listed { seat.listed.mine ≡ [] }
    requires rows { length rows.old.items ≡ tasks }
    ensures world_inode { IfOk result (λ r. IsStarted settings.now tasks r) }
    ensures file { IfOk result (λ r. file_of r ≡ file) }
    ensures place { IfOk result (λ r. r.place ≡ seat.place) }
    ensures listed { IfOk result (λ r. list_pass_of r ≡ named_by seat.listed) }
    ensures counted { IfOk result (λ r. r.rules ≡ seat.counted) }
    ensures count { OnOk result (length rows.new.items ≡ length rows.old.items) }
    ensures given { IfOk result (λ r. (k : ℕ) (row : List (Passed AnyEvent))
        → slice_get rows.old.items k ≡ Some row
        → slice_get rows.new.items k ≡ Some (row ++ pass_of r k ∷ [])) }
{
    let (path, image) = file;
    let Seat {
        place,
        listed,
        counted,
    } = seat;
    let copy = settings.copy()?;
    let (cell, passes) = InodeCell::start(alloc, path.as_slice(), image, copy, tasks, listed)?;
    let world_inode = WorldInode {
        cell,
        rules: counted,
        place,
    };
    share_out(rows, &world_inode, VecDeque::from(passes))?;
    Ok(world_inode)
}

// Starts all inodes, in order, and a row of passes for each task.
pub(crate) fn start_world_inodes(
    alloc: Global,
    settings: &Settings,
    tasks: u32,
    inodes: Vec<(Bytes, Image)>,
    seats: Seats,
) -> Result<(Vec<WorldInode>, Vec<Row>), OutOfMemory>
    requires tasks { tasks + 1 < 2 ^ 32 }
    requires files { All IsFile inodes.items }
    requires places { length seats.places ≡ length inodes.items }
    requires list_passes { length seats.list_passes ≡ length inodes.items }
    requires rule_passes { length seats.rule_passes ≡ length inodes.items }
    requires unused { All (λ (q : Passed AnyEntry). q.mine ≡ []) seats.list_passes }
    ensures world_inodes { IfOk result (λ r. AreStarted settings.now tasks inodes.items seats
        r.0.items) }
    ensures rows { IfOk result (λ r. AreRows r.0.items tasks r.1.items) }
{
    let mut seats = seats;
    let mut left = VecDeque::from(inodes);
    let mut world_inodes = Vec::new(alloc);
    let mut rows = empty_rows(alloc, tasks)?;
    while let Some(file) = left.pop_front() {
        let seat = seats.next();
        let world_inode = start_world_inode(alloc, file, settings, tasks, seat, &mut rows)?;
        world_inodes.push(world_inode)?;
    }
    Ok((world_inodes, rows))
}

// Makes an empty row of passes for each task.
fn empty_rows(alloc: Global, tasks: u32) -> Result<Vec<Row>, OutOfMemory>
    ensures count { IfOk result (λ rows. length rows.items ≡ tasks) }
    ensures empty { IfOk result (λ rows. All (λ (row : List (Passed AnyEvent)). row ≡ [])
        rows.items) }
{
    let mut rows = Vec::new(alloc);
    for _ in 0..tasks {
        rows.push(Row::new(Vec::new(alloc)))?;
    }
    Ok(rows)
}
