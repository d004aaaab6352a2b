//! A step of a task on one inode: the task looks at the journal, and then does the deed.

ghost use Rattle.inode_events.specs.declared.deed.Deed.TheVariants as Deed;
ghost use Rattle.std.specs.Prelude.{◌≡◌, ◌+◌, List, length, Some, IfOk};
ghost use Rattle.world_model.specs.inodes.Acts.{MayBy};
ghost use Rattle.inode_events.specs.Asked.{outcome};
ghost use Rattle.inode_events.specs.Checks.{no_action};
ghost use Rattle.inode_events.specs.NewestFirst.{newest_first};
ghost use Rattle.inode_events.specs.State.{metadata};
ghost use Rattle.task_state.specs.matching.Decision.{access_of, decide_of};
ghost use Rattle.ima_templates.specs.declared.entry.Entry.{Entry as AnyEntry};
ghost use Rattle.task_steps.specs.Hashed.{IsAloneDeed, goes_on};
ghost use Rattle.world_model.specs.Tasks.{HashesBefore};
ghost use Rattle.world_model.specs.Due.{HashesTold};
ghost use Rattle.task_steps.specs.Leaving.{Leaves, told_by, told_in};
ghost use Rattle.world_model.specs.Ready.{HasLooked, IsReady};
ghost use Rattle.task_state.specs.Steps.{deed_in};

use crate::collecting::collect;
use crate::listed::{self, Checks};
use crate::plain::apply_plain;
use grow_list::Pass;
use inode_events::{Event, Told};
use inode_meta::{Cred, Slot, Who};
use measure_book::Book;
use policy_cell::matching::Index;
use policy_rules::{Action, Super};
use std::alloc::AllocError as OutOfMemory;
use task_state::DueDeed;
use world_model::HashState;
use world_model::inodes::InodeCell;

/// What a task knows about itself when it does a deed.
#[derive(Clone, Copy, Drop)]
pub struct Actor<'a> {
    /// The place of the step: its task, its call, and its number within the call.
    pub who: Who,
    /// The task's credentials.
    pub cred: &'a Cred,
    /// The action of the task's last check.
    pub action: Action,
    /// The slot of a take, if one is due.
    pub slot: Slot,
}

// Does a deed that is ready and doesn't consult the measurement list.
fn dispatch_alone(
    cell: &mut InodeCell,
    pass: &mut Pass<Event>,
    actor: &Actor<'_>,
    due: DueDeed<'_>,
    hash_state: &mut HashState,
) -> Result<Option<Told>, OutOfMemory>
    requires name { pass.old.name ≡ cell.old.journal }
    requires number { pass.old.number ≡ actor.now.who.task + 1 }
    requires seen { pass.old.seen ≡ cell.old.list }
    requires may { MayBy cell.old pass.old.number (deed_in due) }
    requires hashes { HashesBefore cell.old.inode cell.old.list hash_state.old (deed_in due) }
    requires alone { IsAloneDeed (deed_in due) }
    ensures leaves { (list : List AnyEntry) → Leaves cell.old cell.new list list pass.old pass.new
        actor.now.who (deed_in due.entry) (told_in result) }
    ensures told { IfOk result (λ o. (list : List AnyEntry)
        → o ≡ outcome cell.old.inode list (deed_in due.entry) (newest_first cell.old.list)) }
    ensures hashes { HashesTold cell.old.inode cell.new.list hash_state.old hash_state.new
        (deed_in due.entry) (told_in result) }
{
    if goes_on(&due) {
        collect(cell, pass, actor.who, due, hash_state)
    } else {
        apply_plain(cell, pass, actor.who, due, actor.cred)
    }
}

// Whether the deed begins, continues or ends a collection, and doesn't consult the measurement
// list.
fn goes_on(due: &DueDeed<'_>) -> bool
    ensures { result ≡ goes_on (deed_in due.now) }
{
    matches!(
        due,
        DueDeed::Chunk(_) | DueDeed::CloseTake(_) | DueDeed::CloseChunk(_) | DueDeed::CloseFinish(_)
    )
}

// Does a deed that is ready.
fn dispatch(
    cell: &mut InodeCell,
    pass: &mut Pass<Event>,
    actor: &Actor<'_>,
    due: DueDeed<'_>,
    book: &mut Book,
    hash_state: &mut HashState,
) -> Result<Option<Told>, OutOfMemory>
    requires name { pass.old.name ≡ cell.old.journal }
    requires number { pass.old.number ≡ actor.now.who.task + 1 }
    requires book_name { cell.old.book ≡ book.old.name }
    requires seen { pass.old.seen ≡ cell.old.list }
    requires ready { IsReady cell.old.inode pass.old.number cell.old.list hash_state.old
        actor.now.action actor.now.slot (deed_in due) }
    ensures leaves { Leaves cell.old cell.new book.old.list book.new.list pass.old pass.new
        actor.now.who (deed_in due.entry) (told_in result) }
    ensures told { IfOk result (λ o. o
        ≡ outcome cell.old.inode book.old.list (deed_in due.entry) (newest_first cell.old.list)) }
    ensures hashes { HashesTold cell.old.inode cell.new.list hash_state.old hash_state.new
        (deed_in due.entry) (told_in result) }
    ensures book { (book.new.name ≡ book.old.name) × (book.new.callers ≡ book.old.callers) }
{
    let who = actor.who;
    match due {
        DueDeed::Take(file) => {
            listed::take(
                cell,
                pass,
                who,
                file,
                actor.slot,
                &actor.action,
                book,
                hash_state,
            )
        }
        DueDeed::Finish(file) => listed::finish(cell, pass, who, file, book, hash_state),
        _ => dispatch_alone(cell, pass, actor, due, hash_state),
    }
}

/// Looks at the journal, then does the deed. `None` means that it is blocked.
pub fn look_and_apply(
    cell: &mut InodeCell,
    pass: &mut Pass<Event>,
    actor: &Actor<'_>,
    due: DueDeed<'_>,
    book: &mut Book,
    hash_state: &mut HashState,
) -> Result<Option<Told>, OutOfMemory>
    requires name { pass.old.name ≡ cell.old.journal }
    requires number { pass.old.number ≡ actor.now.who.task + 1 }
    requires book_name { cell.old.book ≡ book.old.name }
    requires ready { HasLooked cell.old.inode pass.old.number pass.old.seen cell.old.list
        pass.old.mine
        → IsReady cell.old.inode pass.old.number cell.old.list hash_state.old actor.now.action
        actor.now.slot (deed_in due) }
    ensures looked { HasLooked cell.old.inode pass.old.number pass.old.seen cell.old.list
        pass.old.mine }
    ensures leaves { Leaves cell.old cell.new book.old.list book.new.list pass.old pass.new
        actor.now.who (deed_in due.entry) (told_in result) }
    ensures told { IfOk result (λ o. o
        ≡ outcome cell.old.inode book.old.list (deed_in due.entry) (newest_first cell.old.list)) }
    ensures hashes { HashesTold cell.old.inode cell.new.list hash_state.old hash_state.new
        (deed_in due.entry) (told_in result) }
    ensures book { (book.new.name ≡ book.old.name) × (book.new.callers ≡ book.old.callers) }
{
    cell.look(pass);
    dispatch(cell, pass, actor, due, book, hash_state)
}

/// Looks at the journal, then does a deed that doesn't consult the measurement list, whatever that
/// list holds. `None` means that it is blocked.
pub fn look_and_apply_alone(
    cell: &mut InodeCell,
    pass: &mut Pass<Event>,
    actor: &Actor<'_>,
    due: DueDeed<'_>,
    hash_state: &mut HashState,
) -> Result<Option<Told>, OutOfMemory>
    requires name { pass.old.name ≡ cell.old.journal }
    requires number { pass.old.number ≡ actor.now.who.task + 1 }
    requires ready { HasLooked cell.old.inode pass.old.number pass.old.seen cell.old.list
        pass.old.mine
        → IsReady cell.old.inode pass.old.number cell.old.list hash_state.old actor.now.action
        actor.now.slot (deed_in due) }
    requires alone { IsAloneDeed (deed_in due) }
    ensures looked { HasLooked cell.old.inode pass.old.number pass.old.seen cell.old.list
        pass.old.mine }
    ensures leaves { (list : List AnyEntry) → Leaves cell.old cell.new list list pass.old pass.new
        actor.now.who (deed_in due.entry) (told_in result) }
    ensures told { IfOk result (λ o. (list : List AnyEntry)
        → o ≡ outcome cell.old.inode list (deed_in due.entry) (newest_first cell.old.list)) }
    ensures hashes { HashesTold cell.old.inode cell.new.list hash_state.old hash_state.new
        (deed_in due.entry) (told_in result) }
{
    cell.look(pass);
    dispatch_alone(cell, pass, actor, due, hash_state)
}

// Makes a check that is ready.
fn dispatch_check(
    cell: &mut InodeCell,
    pass: &mut Pass<Event>,
    actor: &Actor<'_>,
    asked: Checks,
    rules: &Index,
    place: &Super,
    book: &mut Book,
) -> Result<(Told, Action), OutOfMemory>
    requires name { pass.old.name ≡ cell.old.journal }
    requires number { pass.old.number ≡ actor.now.who.task + 1 }
    requires book_name { cell.old.book ≡ book.old.name }
    requires seen { pass.old.seen ≡ cell.old.list }
    requires ready { MayBy cell.old pass.old.number
        (Deed.Check asked.file asked.func no_action 0) }
    ensures leaves { let action = decide_of rules.now (access_of actor.now.cred.now place.now
        (metadata (newest_first cell.old.list)) asked.func asked.mask) in
        Leaves cell.old cell.new book.old.list book.new.list pass.old pass.new actor.now.who
        (Deed.Check asked.file asked.func action (length rules.now)) (told_by (λ r. r.0) result) }
    ensures action { IfOk result (λ r. r.1 ≡ decide_of rules.now
        (access_of actor.now.cred.now place.now (metadata (newest_first cell.old.list)) asked.func
        asked.mask)) }
    ensures told { IfOk result (λ r. Some r.0 ≡ outcome cell.old.inode book.old.list
        (Deed.Check asked.file asked.func r.1 (length rules.now)) (newest_first cell.old.list)) }
    ensures book { (book.new.name ≡ book.old.name) × (book.new.callers ≡ book.old.callers) }
{
    listed::check(cell, pass, actor.who, asked, rules, actor.cred, place, book)
}

/// Looks at the journal, then checks by these rules. Returns the outcome and the action.
pub fn look_and_check(
    cell: &mut InodeCell,
    pass: &mut Pass<Event>,
    actor: &Actor<'_>,
    asked: Checks,
    rules: &Index,
    place: &Super,
    book: &mut Book,
) -> Result<(Told, Action), OutOfMemory>
    requires name { pass.old.name ≡ cell.old.journal }
    requires number { pass.old.number ≡ actor.now.who.task + 1 }
    requires book_name { cell.old.book ≡ book.old.name }
    requires ready { HasLooked cell.old.inode pass.old.number pass.old.seen cell.old.list
        pass.old.mine
        → MayBy cell.old pass.old.number (Deed.Check asked.file asked.func no_action 0) }
    ensures looked { HasLooked cell.old.inode pass.old.number pass.old.seen cell.old.list
        pass.old.mine }
    ensures leaves { let action = decide_of rules.now (access_of actor.now.cred.now place.now
        (metadata (newest_first cell.old.list)) asked.func asked.mask) in
        Leaves cell.old cell.new book.old.list book.new.list pass.old pass.new actor.now.who
        (Deed.Check asked.file asked.func action (length rules.now)) (told_by (λ r. r.0) result) }
    ensures action { IfOk result (λ r. r.1 ≡ decide_of rules.now
        (access_of actor.now.cred.now place.now (metadata (newest_first cell.old.list)) asked.func
        asked.mask)) }
    ensures told { IfOk result (λ r. Some r.0 ≡ outcome cell.old.inode book.old.list
        (Deed.Check asked.file asked.func r.1 (length rules.now)) (newest_first cell.old.list)) }
    ensures book { (book.new.name ≡ book.old.name) × (book.new.callers ≡ book.old.callers) }
{
    cell.look(pass);
    dispatch_check(cell, pass, actor, asked, rules, place, book)
}
