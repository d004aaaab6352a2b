//! Deeds that hash much take the inode's lock alone, and a page that a collection took is hashed
//! after the lock is released.

ghost use Rattle.inode_events.specs.declared.deed.Deed.TheVariants as Deed;
ghost use Rattle.std.specs.Prelude.{◌≡◌, ◌+◌, List, Some, IfOk, OnErr, length};
ghost use Rattle.ima_templates.specs.declared.entry.Entry.{Entry as AnyEntry};
ghost use Rattle.inode_cell.specs.Acts.{Acts, MayBy, Stays};
ghost use Rattle.inode_cell.specs.answers.Answers.{piece_told};
ghost use Rattle.inode_events.specs.Asked.{outcome};
ghost use Rattle.inode_events.specs.Integrity.{Collection as AnyCollection, collecting};
ghost use Rattle.inode_events.specs.NewestFirst.{newest_first};
ghost use Rattle.inode_events.specs.State.{content};
ghost use Rattle.inode_events.specs.pages.Content.{piece_at};
ghost use Rattle.task_steps.specs.Hashed.{IsPageDeed};
ghost use Rattle.task_steps.specs.Leaving.{Leaves, told_by};
ghost use Rattle.task_steps.specs.worlds.Ready.{HasLooked};
ghost use Rattle.task_state.specs.Steps.{deed_in};
ghost use Rattle.world_locks.specs.Pages.{taken_in};

use grow_list::Pass;
use inode_cell::{InodeCell, Piece};
use inode_events::Event;
use inode_meta::Who;
use inode_pages::Page;
use std::alloc::AllocError as OutOfMemory;
use task_state::DueDeed;

/// A page that a collection took.
#[derive(Drop)]
pub struct TakenPage {
    /// The index of its event in the journal.
    pub place: u64,
    /// Whether it is the last page of the collection.
    pub piece: Piece,
    /// The bytes of the page.
    pub page: Page,
}

// The page that was taken, with the place of its event.
pub(crate) fn taken_at(
    place: u64,
    taken: Result<(Piece, Page), OutOfMemory>,
) -> Result<TakenPage, OutOfMemory>
    ensures { result ≡ taken_in place taken }
{
    match taken {
        Ok((piece, page)) => Ok(TakenPage { place, piece, page }),
        Err(err) => Err(err),
    }
}

// Takes the next page of the collection that the deed continues.
fn next_page(
    cell: &mut InodeCell,
    pass: &mut Pass<Event>,
    who: Who,
    due: DueDeed<'_>,
) -> Result<(Piece, Page), OutOfMemory>
    requires name { pass.old.name ≡ cell.old.journal }
    requires number { pass.old.number ≡ who.task + 1 }
    requires may { MayBy cell.old pass.old.number (deed_in due) }
    requires page { IsPageDeed (deed_in due) }
    ensures acts { IfOk result (λ r. (list : List AnyEntry) → Acts cell.old cell.new list list
        pass.old pass.new who (deed_in due.entry) (Some (piece_told r.0))) }
    ensures page { IfOk result (λ r. (c : AnyCollection)
        → collecting cell.old.inode (newest_first cell.old.list) ≡ Some c
        → r.1 ≡ piece_at (content (newest_first cell.old.list)) c.pieces) }
    ensures err { OnErr result (Stays cell.old cell.new pass.old pass.new) }
{
    match due {
        DueDeed::Chunk(file) => cell.chunk(pass, who, file),
        DueDeed::CloseChunk(file) => cell.close_chunk(pass, who, file),
        _ => unreachable!(),
    }
}

// Looks at the journal, and takes the page.
pub(crate) fn take_page(
    cell: &mut InodeCell,
    pass: &mut Pass<Event>,
    who: Who,
    due: DueDeed<'_>,
) -> Result<(Piece, Page), OutOfMemory>
    requires name { pass.old.name ≡ cell.old.journal }
    requires number { pass.old.number ≡ who.task + 1 }
    requires may { HasLooked cell.old.inode pass.old.number pass.old.seen cell.old.list
        pass.old.mine → MayBy cell.old pass.old.number (deed_in due) }
    requires page { IsPageDeed (deed_in due) }
    ensures looked { HasLooked cell.old.inode pass.old.number pass.old.seen cell.old.list
        pass.old.mine }
    ensures leaves { (list : List AnyEntry) → Leaves cell.old cell.new list list pass.old pass.new
        who (deed_in due.entry) (told_by (λ r. piece_told r.0) result) }
    ensures told { IfOk result (λ r. (list : List AnyEntry) → Some (piece_told r.0)
        ≡ outcome cell.old.inode list (deed_in due.entry) (newest_first cell.old.list)) }
    ensures page { IfOk result (λ r. (c : AnyCollection)
        → collecting cell.old.inode (newest_first cell.old.list) ≡ Some c
        → r.1 ≡ piece_at (content (newest_first cell.old.list)) c.pieces) }
{
    cell.look(pass);
    next_page(cell, pass, who, due)
}
