// The passes of the journals, one of which goes to each task.
ghost use Rattle.std.specs.Prelude.{◌≡◌, ℕ, ◌<◌, [], ◌∷◌, ◌++◌, Some, List, length, OnOk, get_or, slice_get, slice_set};
ghost use Rattle.grow_list.specs.Shown.{Passed};
ghost use Rattle.inode_events.specs.declared.told.Event.{Event as AnyEvent};
ghost use Rattle.world_start.specs.Started.{pass_of};

use grow_list::Pass;
use inode_events::Event;
use std::alloc::AllocError as OutOfMemory;
use std::collections::VecDeque;
use std::marker::Model;
use world_close::worlds::WorldInode;

// The passes of one task: one for each inode's journal, in order.
#[derive(Drop)]
pub(crate) struct Row {
    passes: Vec<Pass<Event>>,
}

impl Model for Row {
    ghost use Rattle.std.specs.Prelude.{List};
    ghost use Rattle.grow_list.specs.Shown.{Passed};
    ghost use Rattle.inode_events.specs.declared.told.Event.{Event};

    ghost Value = { List (Passed Event) };

    ghost view = { λ r. r.passes.items };
}

impl Row {
    pub(crate) fn new(passes: Vec<Pass<Event>>) -> Row
        ensures { result ≡ passes.items }
    {
        Row { passes }
    }

    pub(crate) fn into_passes(self) -> Vec<Pass<Event>>
        ensures { result.items ≡ self }
    {
        let Row { passes } = self;
        passes
    }

    fn push(&mut self, pass: Pass<Event>) -> Result<(), OutOfMemory>
        ensures { OnOk result (self.new ≡ self.old ++ pass ∷ []) }
    {
        self.passes.push(pass)?;
        Ok(())
    }
}

// Gives a pass to the row of this number.
fn give(rows: &mut Vec<Row>, k: usize, pass: Pass<Event>) -> Result<(), OutOfMemory>
    requires { k < length rows.old.items }
    ensures { OnOk result (rows.new.items
        ≡ slice_set rows.old.items k (get_or rows.old.items k [] ++ pass ∷ [])) }
{
    let row = &mut rows[k];
    row.push(pass)
}

// Gives each row its pass of the inode's journal.
pub(crate) fn share_out(
    rows: &mut Vec<Row>,
    world_inode: &WorldInode,
    column: VecDeque<Pass<Event>>,
) -> Result<(), OutOfMemory>
    requires even { length column.items ≡ length rows.old.items }
    requires column { (k : ℕ) → k < length column.items
        → slice_get column.items k ≡ Some (pass_of world_inode.now k) }
    ensures count { OnOk result (length rows.new.items ≡ length rows.old.items) }
    ensures given { OnOk result ((k : ℕ) (row : List (Passed AnyEvent))
        → slice_get rows.old.items k ≡ Some row
        → slice_get rows.new.items k ≡ Some (row ++ pass_of world_inode.now k ∷ [])) }
{
    let mut column = column;
    for k in 0..rows.len() {
        let Some(pass) = column.pop_front() else {
            unreachable!()
        };
        give(rows, k, pass)?;
    }
    Ok(())
}
