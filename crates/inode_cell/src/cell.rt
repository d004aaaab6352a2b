ghost use Rattle.std.specs.Prelude.{◌≡◌, ◌≤◌, List, None, Some, OnErr, OnOk};
ghost use Rattle.std.specs.Option.{option_copied};
ghost use Rattle.grow_list.specs.Shown.{IsSameList};
ghost use Rattle.ima_templates.specs.declared.entry.Entry.{Entry as AnyEntry};
ghost use Rattle.inode_events.specs.Callers.{caller_in};
ghost use Rattle.inode_events.specs.Asked.{outcome};
ghost use Rattle.inode_events.specs.NewestFirst.{newest_first};
ghost use Rattle.inode_events.specs.declared.deed.Deed.{Deed as AnyDeed};
ghost use Rattle.inode_meta.specs.declared.step.Who.{Who as AnyWho};
ghost use Rattle.inode_cell.specs.Acts.{Acts, IsChange, IsPlain, Stays};
ghost use Rattle.inode_answers.specs.Changes.{IsRewriting};
ghost use Rattle.inode_cell.specs.Value.{IsSameCell};

use grow_list::Pass;
use hash_algos::Digest;
use ima_templates::Entry;
use inode_answers::rewrite;
use inode_events::{Deed, Event, Told};
use inode_meta::Who;
use inode_pages::Content;
use inode_state::{Facts, InodeJournal};
use measure_book::Book;
use std::alloc::{AllocError as OutOfMemory, Global};
use std::marker::Model;
use xattr_store::Attrs;

/// One inode: its journal, its content and attributes, and its pass of the measurement list.
#[derive(Drop)]
pub struct InodeCell {
    pub(crate) kept: InodeJournal,
    pub(crate) book: Pass<Entry>,
    pub(crate) content: Content,
    pub(crate) attrs: Attrs,
    pub(crate) alloc: Global,
}

impl Model for InodeCell {
    ghost use Rattle.inode_cell.specs.Value.{CellValue};

    ghost Value = { CellValue };

    ghost use Rattle.inode_cell.specs.Fields.{IsCell, value_of};

    ghost view = { value_of };

    ghost invariant = { IsCell };
}

impl InodeCell {
    // A step that adds nothing to the measurement list and leaves content and attributes.
    pub(crate) fn step(
        &mut self,
        pass: &mut Pass<Event>,
        who: Who,
        deed: Deed,
        told: Told,
        facts: &Facts,
    )
        requires name { pass.old.name ≡ self.old.journal }
        requires number { pass.old.number ≡ caller_in who.task deed }
        requires room { 1 ≤ self.old.spare }
        requires plain { IsPlain self.old.inode (newest_first self.old.list) who deed told
            facts.now }
        ensures { (list : List AnyEntry) → Acts self.old self.new list list pass.old pass.new who
            deed (Some told) }
    {
        self.kept.enter(pass, Event { who, deed, told }, facts);
    }

    // A step that adds nothing to the measurement list, leaves the content and rewrites attributes.
    // At a close, `digest` is the one for the label.
    pub(crate) fn step_with(
        &mut self,
        pass: &mut Pass<Event>,
        who: Who,
        deed: Deed,
        told: Told,
        facts: &Facts,
        digest: Option<&Digest>,
    ) -> Result<(), OutOfMemory>
        requires name { pass.old.name ≡ self.old.journal }
        requires number { pass.old.number ≡ caller_in who.task deed }
        requires room { 1 ≤ self.old.spare }
        requires rewriting { IsRewriting deed (option_copied digest) }
        requires changes { IsChange self.old.inode (newest_first self.old.list) who deed
            told facts.now (option_copied digest) }
        ensures acts { OnOk result ((list : List AnyEntry) → Acts self.old self.new list list
            pass.old pass.new who deed (Some told)) }
        ensures err { OnErr result (Stays self.old self.new pass.old pass.new) }
    {
        let event = Event { who, deed, told };
        let meta = self.kept.state().meta;
        let evm = &self.kept.settings().evm;
        rewrite(evm, &mut self.attrs, &meta, &event.deed, digest)?;
        self.kept.enter(pass, event, facts);
        Ok(())
    }

    // Makes room for the next event.
    pub(crate) fn reserve(&mut self) -> Result<(), OutOfMemory>
        ensures room { OnOk result (1 ≤ self.new.spare) }
        ensures list { self.new.list ≡ self.old.list }
        ensures same { IsSameCell self.old self.new }
    {
        self.kept.reserve()
    }

    // Makes room for the next event and for the next entry of the measurement list.
    pub(crate) fn reserve_with(&mut self, book: &mut Book) -> Result<(), OutOfMemory>
        ensures room { OnOk result (1 ≤ self.new.spare) }
        ensures book_room { OnOk result (1 ≤ book.new.spare) }
        ensures list { self.new.list ≡ self.old.list }
        ensures same { IsSameCell self.old self.new }
        ensures book { IsSameList book.old book.new }
    {
        self.reserve()?;
        book.reserve()
    }

    // A blocked step: the pass sees the journal, and nothing else happens.
    pub(crate) fn block(&mut self, pass: &mut Pass<Event>)
        requires { pass.old.name ≡ self.old.journal }
        ensures { (list : List AnyEntry) (who : AnyWho) (d : AnyDeed)
            → outcome self.old.inode list d (newest_first self.old.list) ≡ None
            → Acts self.old self.new list list pass.old pass.new who d None }
    {
        self.kept.look(pass);
    }
}
