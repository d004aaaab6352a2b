// The inodes of a world, closed from the last one to the first.
ghost use Rattle.std.specs.Prelude.{◌≡◌, ℕ, ◌+◌, [], ◌∷◌, ◌++◌, length, reverse, IfOk, OnOk};
ghost use Rattle.grow_list.specs.Shown.{ListName};
ghost use Rattle.world_close.specs.Closed.{AreClosed, IsPushed, ended_world_inode};
ghost use Rattle.world_close.specs.Rows.{AreNamed, RowsFit};

use crate::rows::{Row, take_last};
use grow_list::Pass;
use ima_templates::Entry;
use inode_events::{EndedInode, Event};
use policy_cell::RuleEntry;
use std::alloc::{AllocError as OutOfMemory, Global};
use std::marker::Model;
use world_model::WorldInode;

// The closed inodes, in order, and their passes of the other lists.
#[derive(Drop)]
pub(crate) struct Closed {
    pub(crate) inodes: Vec<EndedInode>,
    pub(crate) book: Vec<Pass<Entry>>,
    pub(crate) rules: Vec<Pass<RuleEntry>>,
}

impl Model for Closed {
    ghost use Rattle.world_close.specs.Closed.{ClosedValue};

    ghost Value = { ClosedValue };

    ghost view = { λ c. record {
      inodes = c.inodes.items;
      book = c.book.items;
      rules = c.rules.items;
    } };
}

impl Closed {
    // Appends one more closed inode and its passes.
    fn push(
        &mut self,
        inode: EndedInode,
        listed: Pass<Entry>,
        pass: Pass<RuleEntry>,
    ) -> Result<(), OutOfMemory>
        ensures inodes { OnOk result (self.new.inodes ≡ self.old.inodes ++ inode ∷ []) }
        ensures book { OnOk result (self.new.book ≡ self.old.book ++ listed ∷ []) }
        ensures rules { OnOk result (self.new.rules ≡ self.old.rules ++ pass ∷ []) }
    {
        if let Ok(()) = self.inodes.push(inode)
            && let Ok(()) = self.book.push(listed)
            && let Ok(()) = self.rules.push(pass)
        {
            Ok(())
        } else {
            Err(OutOfMemory)
        }
    }

    fn reverse(&mut self)
        ensures { self.new ≡ record {
          inodes = reverse self.old.inodes;
          book = reverse self.old.book;
          rules = reverse self.old.rules;
        } }
    {
        self.inodes.reverse();
        self.book.reverse();
        self.rules.reverse();
    }
}

// Closes the last inode with the last pass of each row.
fn close_last(
    alloc: Global,
    world_inode: WorldInode,
    number: usize,
    rows: &mut Vec<Row>,
    closed: &mut Closed,
) -> Result<(), OutOfMemory>
    ghost names: { ℕ → ListName }
    requires fit { RowsFit (number + 1) names rows.old.items }
    requires name { world_inode.cell.journal ≡ names number }
    requires callers { world_inode.cell.callers ≡ length rows.old.items + 1 }
    ensures fit { OnOk result (RowsFit number names rows.new.items) }
    ensures count { OnOk result (length rows.new.items ≡ length rows.old.items) }
    ensures inodes { OnOk result
        (closed.new.inodes ≡ closed.old.inodes ++ ended_world_inode world_inode ∷ []) }
    ensures book { OnOk result (IsPushed world_inode closed.old.book closed.new.book) }
    ensures rules { OnOk result (closed.new.rules ≡ closed.old.rules ++ world_inode.rules ∷ []) }
{
    let WorldInode {
        cell,
        rules,
        place: _,
    } = world_inode;
    let column = take_last(alloc, rows, number)?;
    let (inode, listed) = cell.close(column);
    closed.push(inode, listed, rules)
}

// Closes the inodes of a world with the passes of its tasks.
pub(crate) fn close_world_inodes(
    alloc: Global,
    world_inodes: Vec<WorldInode>,
    rows: Vec<Row>,
) -> Result<Closed, OutOfMemory>
    ghost names: { ℕ → ListName }
    requires fit { RowsFit (length world_inodes.items) names rows.items }
    requires named { AreNamed names (length rows.items) world_inodes.items }
    ensures { IfOk result (λ c. AreClosed world_inodes.items c.inodes c.book c.rules) }
{
    let mut left = world_inodes;
    let mut rows = rows;
    let mut closed = Closed {
        inodes: Vec::new(alloc),
        book: Vec::new(alloc),
        rules: Vec::new(alloc),
    };
    while let Some(world_inode) = left.pop() {
        let number = left.len();
        close_last(alloc, world_inode, number, &mut rows, &mut closed)?;
    }
    closed.reverse();
    Ok(closed)
}
