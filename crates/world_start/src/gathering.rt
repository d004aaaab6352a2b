// The passes of each task, collected from the passes of each list.
ghost use Rattle.std.specs.Prelude.{◌≡◌, ℕ, IfNone, IfOk, IfSome, length, map};
ghost use Rattle.world_close.specs.worlds.Tasks.{PassesValue};
ghost use Rattle.world_start.specs.Started.{HasTaken};

use crate::rows::Row;
use grow_list::Pass;
use ima_templates::Entry;
use inode_events::Event;
use policy_cell::RuleEntry;
use std::alloc::{AllocError as OutOfMemory, Global};
use std::collections::VecDeque;
use std::marker::Model;
use world_close::worlds::Passes;

// The passes of all tasks, sorted by the list that each belongs to.
#[derive(Drop)]
pub(crate) struct Columns {
    rows: VecDeque<Row>,
    sems: VecDeque<Pass<Event>>,
    book: VecDeque<Pass<Entry>>,
    rules: VecDeque<Pass<RuleEntry>>,
}

impl Model for Columns {
    ghost use Rattle.world_start.specs.Started.{ColumnsValue};

    ghost Value = { ColumnsValue };

    ghost view = { λ c. record {
      rows = c.rows.items;
      sems = c.sems.items;
      book = c.book.items;
      rules = c.rules.items;
    } };
}

impl Columns {
    pub(crate) fn new(
        rows: Vec<Row>,
        sems: Vec<Pass<Event>>,
        book: Vec<Pass<Entry>>,
        rules: Vec<Pass<RuleEntry>>,
    ) -> Columns
        ensures rows { result.rows ≡ rows.items }
        ensures sems { result.sems ≡ sems.items }
        ensures book { result.book ≡ book.items }
        ensures rules { result.rules ≡ rules.items }
    {
        Columns {
            rows: VecDeque::from(rows),
            sems: VecDeque::from(sems),
            book: VecDeque::from(book),
            rules: VecDeque::from(rules),
        }
    }

    // Takes the passes of the next task.
    fn next(&mut self) -> Option<Passes>
        requires sems { length self.old.sems ≡ length self.old.rows }
        requires book { length self.old.book ≡ length self.old.rows }
        requires rules { length self.old.rules ≡ length self.old.rows }
        ensures none { IfNone result (length self.old.rows ≡ 0) }
        ensures some { IfSome result (λ p. HasTaken self.old self.new p) }
    {
        let Some(row) = self.rows.pop_front() else {
            return None;
        };
        let Some(sems) = self.sems.pop_front() else {
            unreachable!()
        };
        let Some(book) = self.book.pop_front() else {
            unreachable!()
        };
        let Some(rules) = self.rules.pop_front() else {
            unreachable!()
        };
        Some(Passes {
            inodes: row.into_passes(),
            sems,
            book,
            rules,
        })
    }
}

// Collects the passes of each task, in the order of the tasks.
pub(crate) fn gather(alloc: Global, columns: Columns) -> Result<Vec<Passes>, OutOfMemory>
    requires sems { length columns.sems ≡ length columns.rows }
    requires book { length columns.book ≡ length columns.rows }
    requires rules { length columns.rules ≡ length columns.rows }
    ensures rows { IfOk result (λ r. map (λ (p : PassesValue). p.inodes) r.items ≡ columns.rows) }
    ensures sems { IfOk result (λ r. map (λ (p : PassesValue). p.sems) r.items ≡ columns.sems) }
    ensures book { IfOk result (λ r. map (λ (p : PassesValue). p.book) r.items ≡ columns.book) }
    ensures rules { IfOk result (λ r. map (λ (p : PassesValue). p.rules) r.items
        ≡ columns.rules) }
{
    let mut columns = columns;
    let mut passes = Vec::new(alloc);
    while let Some(own) = columns.next() {
        passes.push(own)?;
    }
    Ok(passes)
}
