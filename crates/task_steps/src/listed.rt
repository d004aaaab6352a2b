//! Deeds that may add to the measurement list.

ghost use Rattle.inode_events.specs.declared.deed.Deed.TheVariants as Deed;
ghost use Rattle.std.specs.Prelude.{◌≡◌, ℕ, ◌+◌, List, length, Some, IfOk, OnErr};
ghost use Rattle.world_model.specs.inodes.Acts.{Acts, MayBy, Stays};
ghost use Rattle.inode_events.specs.Checks.{no_action};
ghost use Rattle.inode_events.specs.NewestFirst.{newest_first};
ghost use Rattle.inode_events.specs.State.{metadata};
ghost use Rattle.task_state.specs.matching.Decision.{access_of, decide_of};
ghost use Rattle.world_model.specs.Due.{HashesTold};
ghost use Rattle.world_model.specs.Tasks.{HashesBefore};
ghost use Rattle.world_model.specs.Ready.{AsksBy};

use crate::gathering::sums;
use grow_list::Pass;
use inode_events::{Event, Told};
use inode_hashing::Hashing;
use inode_meta::{Cred, Slot, Who};
use measure_book::Book;
use policy_cell::matching::Index;
use policy_rules::{Action, Func, Super};
use std::alloc::AllocError as OutOfMemory;
use world_model::HashState;
use world_model::inodes::answers::found_told;
use world_model::inodes::{InodeCell, Taken};

/// A take: grants the file if a digest is in force, else begins a collection. `None` means that it
/// is blocked.
pub fn take(
    cell: &mut InodeCell,
    pass: &mut Pass<Event>,
    who: Who,
    file: u64,
    slot: Slot,
    action: &Action,
    book: &mut Book,
    hash_state: &mut HashState,
) -> Result<Option<Told>, OutOfMemory>
    requires name { pass.old.name ≡ cell.old.journal }
    requires number { pass.old.number ≡ who.task + 1 }
    requires book_name { cell.old.book ≡ book.old.name }
    requires may { MayBy cell.old pass.old.number (Deed.Take file) }
    requires asks { AsksBy cell.old.list action.now slot (Deed.Take file) }
    ensures acts { IfOk result (λ o. Acts cell.old cell.new book.old.list book.new.list
        pass.old pass.new who (Deed.Take file) o) }
    ensures hashes { IfOk result (λ o. HashesTold cell.old.inode cell.new.list hash_state.old
        hash_state.new (Deed.Take file) o) }
    ensures book { (book.new.name ≡ book.old.name) × (book.new.callers ≡ book.old.callers) }
    ensures err { OnErr result (Stays cell.old cell.new pass.old pass.new) }
    ensures err_book { OnErr result (book.new.list ≡ book.old.list) }
    ensures kept { OnErr result (hash_state.new ≡ hash_state.old) }
{
    match cell.take(pass, who, file, slot, action, book)? {
        Taken::Begun(algo) => {
            *hash_state = HashState::Running(Hashing::begin(algo));
            Ok(Some(Told::Begun))
        }
        Taken::Answer(grant) => Ok(Some(Told::Grant(grant))),
        Taken::Blocked => Ok(None),
    }
}

/// Ends a take's collection.
pub fn finish(
    cell: &mut InodeCell,
    pass: &mut Pass<Event>,
    who: Who,
    file: u64,
    book: &mut Book,
    hash_state: &HashState,
) -> Result<Option<Told>, OutOfMemory>
    requires name { pass.old.name ≡ cell.old.journal }
    requires number { pass.old.number ≡ who.task + 1 }
    requires book_name { cell.old.book ≡ book.old.name }
    requires may { MayBy cell.old pass.old.number (Deed.Finish file) }
    requires hashes { HashesBefore cell.old.inode cell.old.list hash_state.now (Deed.Finish file) }
    ensures acts { IfOk result (λ o. Acts cell.old cell.new book.old.list book.new.list
        pass.old pass.new who (Deed.Finish file) o) }
    ensures hashes { IfOk result (λ o. HashesTold cell.old.inode cell.new.list hash_state.now
        hash_state.now (Deed.Finish file) o) }
    ensures book { (book.new.name ≡ book.old.name) × (book.new.callers ≡ book.old.callers) }
    ensures err { OnErr result (Stays cell.old cell.new pass.old pass.new) }
    ensures err_book { OnErr result (book.new.list ≡ book.old.list) }
{
    let Some(sums) = sums(hash_state) else {
        unreachable!()
    };
    Ok(Some(Told::Grant(cell.finish(pass, who, file, sums, book)?)))
}

/// The arguments of a check.
#[derive(Clone, Copy)]
pub struct Checks {
    /// The number of the file.
    pub file: u64,
    /// The function by which rules are matched.
    pub func: Func,
    /// The bits of the requested access.
    pub mask: u8,
}

/// Makes a check by these rules. Returns the outcome and the action.
pub fn check(
    cell: &mut InodeCell,
    pass: &mut Pass<Event>,
    who: Who,
    asked: Checks,
    rules: &Index,
    cred: &Cred,
    place: &Super,
    book: &mut Book,
) -> Result<(Told, Action), OutOfMemory>
    requires name { pass.old.name ≡ cell.old.journal }
    requires number { pass.old.number ≡ who.task + 1 }
    requires book_name { cell.old.book ≡ book.old.name }
    requires may { MayBy cell.old pass.old.number
        (Deed.Check asked.file asked.func no_action 0) }
    ensures action { IfOk result (λ r. r.1 ≡ decide_of rules.now (access_of cred.now place.now
        (metadata (newest_first cell.old.list)) asked.func asked.mask)) }
    ensures acts { IfOk result (λ r. Acts cell.old cell.new book.old.list book.new.list
        pass.old pass.new who (Deed.Check asked.file asked.func r.1 (length rules.now))
        (Some r.0)) }
    ensures book { (book.new.name ≡ book.old.name) × (book.new.callers ≡ book.old.callers) }
    ensures err { OnErr result (Stays cell.old cell.new pass.old pass.new) }
    ensures err_book { OnErr result (book.new.list ≡ book.old.list) }
{
    let Checks { file, func, mask } = asked;
    let checked = cell.check(pass, who, file, rules, cred, place, func, mask, book)?;
    Ok((found_told(checked.found), checked.action))
}
