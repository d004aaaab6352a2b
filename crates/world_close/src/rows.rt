// The passes of the tasks, handed back to the journals that they belong to.
ghost use Rattle.std.specs.Prelude.{◌≡◌, ℕ, ◌+◌, ◌<◌, [], ◌∷◌, ◌++◌, length, IfOk, OnOk, MatchOption};
ghost use Rattle.grow_list.specs.Shown.{ListName};
ghost use Rattle.world_close.specs.Rows.{ColumnFits, RowsFit, RowsMid};

use grow_list::Pass;
use inode_events::Event;
use std::alloc::{AllocError as OutOfMemory, Global};
use std::marker::Model;

// The passes of one task: one for each inode's journal, in order.
#[derive(Drop)]
pub(crate) struct Row {
    passes: Vec<Pass<Event>>,
}

impl Model for Row {
    ghost use Rattle.std.specs.Prelude.{List};
    ghost use Rattle.grow_list.specs.Shown.{Passed};
    ghost use Rattle.inode_events.specs.declared.told.Event.{Event};

    ghost Value = { List (Passed Event) };

    ghost view = { λ r. r.passes.items };
}

impl Row {
    pub(crate) fn new(passes: Vec<Pass<Event>>) -> Row
        ensures { result ≡ passes.items }
    {
        Row { passes }
    }

    // Removes the last pass and returns it.
    fn pop(&mut self) -> Option<Pass<Event>>
        ensures { MatchOption result (self.old ≡ []) (λ q. self.old ≡ self.new ++ q ∷ []) }
    {
        self.passes.pop()
    }
}

// Takes the last pass of one row.
fn take_one(
    rows: &mut Vec<Row>,
    column: &mut Vec<Pass<Event>>,
    k: usize,
    number: usize,
) -> Result<(), OutOfMemory>
    ghost names: { ℕ → ListName }
    requires below { k < length rows.old.items }
    requires mid { RowsMid k number names rows.old.items column.old.items }
    ensures mid { OnOk result (RowsMid (k + 1) number names rows.new.items column.new.items) }
    ensures count { length rows.new.items ≡ length rows.old.items }
{
    let row = &mut rows[k];
    let Some(pass) = row.pop() else {
        unreachable!()
    };
    let Ok(()) = column.push(pass) else {
        return Err(OutOfMemory);
    };
    Ok(())
}

// Takes the last pass of each row. Together they are the passes of one journal.
pub(crate) fn take_last(
    alloc: Global,
    rows: &mut Vec<Row>,
    number: usize,
) -> Result<Vec<Pass<Event>>, OutOfMemory>
    ghost names: { ℕ → ListName }
    requires fit { RowsFit (number + 1) names rows.old.items }
    ensures column { IfOk result (λ column. ColumnFits (names number) column.items
        × (length column.items ≡ length rows.old.items)) }
    ensures fit { OnOk result (RowsFit number names rows.new.items) }
    ensures count { OnOk result (length rows.new.items ≡ length rows.old.items) }
{
    let mut column = Vec::new(alloc);
    for k in 0..rows.len() {
        take_one(rows, &mut column, k, number)?;
    }
    Ok(column)
}
