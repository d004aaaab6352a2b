ghost use Rattle.std.specs.Prelude.{◌≡◌, ℕ, ◌+◌, [], ◌∷◌, ◌++◌, length, map, All, IfOk, OnOk, Some, slice_get};
ghost use Rattle.measure_book.specs.Replay.{banks_of};
ghost use Rattle.world_model.specs.WorldConsts.{WorldConsts};
ghost use Rattle.world_model.specs.Tasks.{ArePassesOf, PassesValue};
ghost use Rattle.world_model.specs.World.{AreRulesOf, AreSignalsOf, IsBookOf};
ghost use Rattle.world_close.specs.Closed.{AreReturned, AreSpares, AreWorldInodes, WorldClosed, ended_world_inode};

use crate::parts::Parts;
use crate::rows::Row;
use crate::world_inodes::{Closed, close_world_inodes};
use grow_list::Pass;
use ima_templates::Entry;
use inode_events::{EndedInode, Event};
use measure_book::registers::Banks;
use policy_cell::RuleEntry;
use std::alloc::{AllocError as OutOfMemory, Global};
use std::marker::Model;
use world_model::{Passes, WorldInode};

/// The closed lists of a world. Contracts see a record of the fields, with each vector as a list.
#[derive(Drop)]
pub struct Lists {
    /// The inodes with their journals, in order.
    pub inodes: Vec<EndedInode>,
    /// The entries of the measurement list.
    pub list: Vec<Entry>,
    /// The registers that the measurement list extends.
    pub banks: Banks,
    /// The appended rules, in order.
    pub rules: Vec<RuleEntry>,
}

impl Model for Lists {
    ghost use Rattle.world_close.specs.Closed.{ListsValue};

    ghost Value = { ListsValue };

    ghost view = { λ l. record {
      inodes = l.inodes.items;
      list = l.list.items;
      banks = l.banks;
      rules = l.rules.items;
    } };
}

// The passes of all tasks, sorted by the list that each belongs to.
#[derive(Drop)]
struct PassesByList {
    rows: Vec<Row>,
    sems: Vec<Pass<Event>>,
    book: Vec<Pass<Entry>>,
    rules: Vec<Pass<RuleEntry>>,
}

impl PassesByList {
    // Appends the passes of one more task.
    fn push(&mut self, one: Passes) -> Result<(), OutOfMemory>
        ensures rows { OnOk result (self.new.rows.items ≡ self.old.rows.items ++ one.inodes ∷ []) }
        ensures sems { OnOk result (self.new.sems.items ≡ self.old.sems.items ++ one.sems ∷ []) }
        ensures book { OnOk result (self.new.book.items ≡ self.old.book.items ++ one.book ∷ []) }
        ensures rules { OnOk result
            (self.new.rules.items ≡ self.old.rules.items ++ one.rules ∷ []) }
    {
        let Passes {
            inodes,
            sems,
            book,
            rules,
        } = one;
        if let Ok(()) = self.rows.push(Row::new(inodes))
            && let Ok(()) = self.sems.push(sems)
            && let Ok(()) = self.book.push(book)
            && let Ok(()) = self.rules.push(rules)
        {
            Ok(())
        } else {
            Err(OutOfMemory)
        }
    }
}

fn split_by_list(alloc: Global, passes: Vec<Passes>) -> Result<PassesByList, OutOfMemory>
    ensures rows { IfOk result (λ p. p.rows.items
        ≡ map (λ (q : PassesValue). q.inodes) passes.items) }
    ensures sems { IfOk result (λ p. p.sems.items
        ≡ map (λ (q : PassesValue). q.sems) passes.items) }
    ensures book { IfOk result (λ p. p.book.items
        ≡ map (λ (q : PassesValue). q.book) passes.items) }
    ensures rules { IfOk result (λ p. p.rules.items
        ≡ map (λ (q : PassesValue). q.rules) passes.items) }
{
    let mut by_list = PassesByList {
        rows: Vec::new(alloc),
        sems: Vec::new(alloc),
        book: Vec::new(alloc),
        rules: Vec::new(alloc),
    };
    for one in passes {
        by_list.push(one)?;
    }
    Ok(by_list)
}

// The closed inodes, and all passes of the other lists, each list's in the order of their numbers.
#[derive(Drop)]
struct Returned {
    inodes: Vec<EndedInode>,
    list_passes: Vec<Pass<Entry>>,
    signals: Vec<Pass<Event>>,
    appenders: Vec<Pass<RuleEntry>>,
}

fn join_list_passes(
    inodes: Vec<Pass<Entry>>,
    tasks: Vec<Pass<Entry>>,
) -> Result<Vec<Pass<Entry>>, OutOfMemory>
    ensures { IfOk result (λ v. v.items ≡ inodes.items ++ tasks.items) }
{
    let mut all = inodes;
    let mut tasks = tasks;
    all.append(&mut tasks)?;
    Ok(all)
}

fn join_appenders(
    tasks: Vec<Pass<RuleEntry>>,
    inodes: Vec<Pass<RuleEntry>>,
    spares: Vec<Pass<RuleEntry>>,
) -> Result<Vec<Pass<RuleEntry>>, OutOfMemory>
    ensures { IfOk result (λ v. v.items ≡ tasks.items ++ inodes.items ++ spares.items) }
{
    let mut all = tasks;
    let mut inodes = inodes;
    let mut spares = spares;
    all.append(&mut inodes)?;
    all.append(&mut spares)?;
    Ok(all)
}

// Closes the inodes, and collects the passes of the other lists.
fn take_back(
    alloc: Global,
    world_inodes: Vec<WorldInode>,
    spares: Vec<Pass<RuleEntry>>,
    passes: Vec<Passes>,
) -> Result<Returned, OutOfMemory>
    ghost consts: { WorldConsts }
    requires world_inodes { AreWorldInodes consts world_inodes.items }
    requires count { length passes.items ≡ consts.tasks }
    requires passes { (n : ℕ) (p : PassesValue) → slice_get passes.items n ≡ Some p
        → ArePassesOf consts n p }
    ensures { IfOk result
        (λ r. AreReturned world_inodes.items spares.items passes.items r.inodes.items
        r.list_passes.items r.signals.items r.appenders.items) }
{
    let by_list = split_by_list(alloc, passes)?;
    let PassesByList {
        rows,
        sems: signals,
        book: tasks,
        rules: appenders,
    } = by_list;
    let closed = close_world_inodes(alloc, world_inodes, rows)?;
    let Closed {
        inodes,
        book: list_passes,
        rules: rule_passes,
    } = closed;
    let list_passes = join_list_passes(list_passes, tasks)?;
    let appenders = join_appenders(appenders, rule_passes, spares)?;
    Ok(Returned {
        inodes,
        list_passes,
        signals,
        appenders,
    })
}

/// Closes all lists of a world, to which the tasks' passes are returned.
pub fn close_lists(parts: Parts, passes: Vec<Passes>) -> Result<Lists, OutOfMemory>
    ghost consts: { WorldConsts }
    requires world_inodes { AreWorldInodes consts parts.world_inodes.items }
    requires book { IsBookOf consts parts.book }
    requires sems { AreSignalsOf consts parts.sems }
    requires rules { AreRulesOf consts parts.rules }
    requires spares { AreSpares consts parts.spares.items }
    requires count { length passes.items ≡ consts.tasks }
    requires passes { (n : ℕ) (p : PassesValue) → slice_get passes.items n ≡ Some p
        → ArePassesOf consts n p }
    ensures inodes { IfOk result (λ r. r.inodes ≡ map ended_world_inode parts.world_inodes.items) }
    ensures list { IfOk result (λ r. r.list ≡ parts.book.list) }
    ensures banks { IfOk result (λ r. r.banks ≡ banks_of parts.book.list) }
    ensures rules { IfOk result (λ r. r.rules ≡ parts.rules.appended.list) }
    ensures closed { IfOk result (λ r. WorldClosed consts parts.world_inodes.items parts.book.list
        parts.sems.list parts.rules.appended.list passes.items) }
{
    let Parts {
        world_inodes,
        book,
        sems,
        rules,
        spares,
        supers: _,
        settings: _,
        tasks: _,
        alloc,
    } = parts;
    let back = take_back(alloc, world_inodes, spares, passes)?;
    let Returned {
        inodes,
        list_passes,
        signals,
        appenders,
    } = back;
    let (list, banks) = book.close(list_passes);
    let _signals = sems.close(signals);
    let rules = rules.close(appenders);
    Ok(Lists {
        inodes,
        list,
        banks,
        rules,
    })
}
