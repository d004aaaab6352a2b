//! An inode with the invariant that it is the one of its number, and the steps on it.

ghost use Rattle.inode_events.specs.declared.deed.Deed.TheVariants as Deed;
ghost use Rattle.std.specs.Prelude.{◌≡◌, ◌+◌};
ghost use Rattle.grow_list.specs.Shown.{Passed as AnyPass};
ghost use Rattle.ima_templates.specs.declared.entry.Entry.{Entry as AnyEntry};
ghost use Rattle.inode_events.specs.Checks.{no_action};
ghost use Rattle.world_close.specs.worlds.World.{IsWorldInode};
ghost use Rattle.world_close.specs.worlds.declared.hash_state.HashState.{HashState as AnyHashState};
ghost use Rattle.task_state.specs.Steps.{deed_in};
ghost use Rattle.task_steps.specs.Hashed.{IsAloneDeed, IsListedDeed, IsPageDeed};
ghost use Rattle.world_locks.specs.Tagged.{AskMet, DeedMet, IsPassAt, IsReadyBy};
ghost use Rattle.world_locks.specs.Pages.{MayByLook, PageMet};

use crate::name::Name;
use crate::pages::{TakenPage, take_page, taken_at};
use crate::tagged::TaggedBook;
use crate::tagged_rules::TaggedRules;
use grow_list::Pass;
use ima_templates::Entry;
use inode_events::Event;
use inode_meta::Who;
use policy_cell::RuleEntry;
use policy_rules::Super;
use std::alloc::AllocError as OutOfMemory;
use std::marker::{Model, PhantomData};
use task_state::DueDeed;
use task_steps::{Actor, Checks, StepResult, apply_alone_at, apply_at, check_at};
use world_close::worlds::{HashState, WorldInode};

/// An inode with its number, and the invariant that it belongs to the constants that `N` names.
pub struct TaggedWorldInode<N: Name> {
    number: u32,
    world_inode: WorldInode,
    of: PhantomData<N>,
}

// Written out, so that the drop is proved here once, and not again in each crate above.
impl<N: Name> Drop for TaggedWorldInode<N> {
    fn drop(self) {
        let TaggedWorldInode {
            number: _,
            world_inode: _,
            of: _,
        } = self;
    }
}

impl<N: Name> Model for TaggedWorldInode<N> {
    ghost use Rattle.world_close.specs.worlds.World.{IsWorldInode};
    ghost use Rattle.world_locks.specs.Tagged.{NumberedWorldInode};

    ghost Value = { NumberedWorldInode };

    ghost view = { λ s. record { number = s.number; world_inode = s.world_inode } };

    ghost invariant = { λ s. IsWorldInode N.consts s.number s.world_inode };
}

impl<N: Name> TaggedWorldInode<N> {
    /// Wraps the inode of this number.
    pub fn new(number: u32, world_inode: WorldInode) -> TaggedWorldInode<N>
        requires { IsWorldInode N.consts number world_inode }
        ensures { result.number ≡ number }
    {
        TaggedWorldInode {
            number,
            world_inode,
            of: PhantomData,
        }
    }

    /// The inode's number.
    pub fn number(&self) -> u32
        ensures { result ≡ self.now.number }
    {
        self.number
    }

    /// Returns the inode.
    pub fn open(self) -> WorldInode
        ensures { IsWorldInode N.consts self.number result }
    {
        let TaggedWorldInode {
            number: _,
            world_inode,
            of: _,
        } = self;
        world_inode
    }

    /// Does a deed that may add to the measurement list, through the task's passes of the journal
    /// and of that list. `None` means that it is blocked.
    pub fn apply(
        &mut self,
        pass: &mut Pass<Event>,
        book: &mut TaggedBook<N>,
        listed: &mut Pass<Entry>,
        actor: &Actor<'_>,
        due: DueDeed<'_>,
        hash_state: &mut HashState,
    ) -> Result<Option<StepResult>, OutOfMemory>
        requires pass { IsPassAt N.consts self.old.number actor.now.who.task pass.old }
        requires listed { listed.old.name ≡ N.consts.book }
        requires ready { IsReadyBy N.consts self.old.number actor.now.who.task pass.old
            hash_state.old actor.now.action actor.now.slot (deed_in due) }
        requires adds { IsListedDeed (deed_in due) }
        ensures number { self.new.number ≡ self.old.number }
        ensures met { DeedMet N.consts self.old.number pass.old pass.new listed.old listed.new
            actor.now.who (deed_in due.entry) hash_state.old hash_state.new result }
    {
        apply_at(
            &mut self.world_inode,
            pass,
            &mut book.book,
            listed,
            actor,
            due,
            hash_state,
        )
    }

    /// Does a deed that doesn't consult the measurement list, through the task's pass of the
    /// journal. To each pass of that list it is as if the list were the one that the pass has seen.
    /// `None` means that it is blocked.
    pub fn apply_alone(
        &mut self,
        pass: &mut Pass<Event>,
        actor: &Actor<'_>,
        due: DueDeed<'_>,
        hash_state: &mut HashState,
    ) -> Result<Option<StepResult>, OutOfMemory>
        requires pass { IsPassAt N.consts self.old.number actor.now.who.task pass.old }
        requires ready { IsReadyBy N.consts self.old.number actor.now.who.task pass.old
            hash_state.old actor.now.action actor.now.slot (deed_in due) }
        requires alone { IsAloneDeed (deed_in due) }
        ensures number { self.new.number ≡ self.old.number }
        ensures met { (listed : AnyPass AnyEntry) → DeedMet N.consts self.old.number pass.old
            pass.new listed listed actor.now.who (deed_in due.entry) hash_state.old hash_state.new
            result }
    {
        apply_alone_at(&mut self.world_inode, pass, actor, due, hash_state)
    }

    /// Takes the next page of the collection that the deed continues.
    pub fn take_page(
        &mut self,
        pass: &mut Pass<Event>,
        who: Who,
        due: DueDeed<'_>,
    ) -> Result<TakenPage, OutOfMemory>
        requires pass { IsPassAt N.consts self.old.number who.task pass.old }
        requires may { MayByLook N.consts self.old.number who.task pass.old (deed_in due) }
        requires page { IsPageDeed (deed_in due) }
        ensures number { self.new.number ≡ self.old.number }
        ensures met { PageMet N.consts self.old.number pass.old pass.new who (deed_in due.entry)
            result }
    {
        let world_inode = &mut self.world_inode;
        let place = world_inode.cell.len();
        taken_at(place, take_page(&mut world_inode.cell, pass, who, due))
    }

    /// Checks the inode by all rules in force; the task's pass and the inode's look at them first.
    pub fn check(
        &mut self,
        pass: &mut Pass<Event>,
        rules: &mut TaggedRules<N>,
        own: &mut Pass<RuleEntry>,
        book: &mut TaggedBook<N>,
        listed: &mut Pass<Entry>,
        actor: &Actor<'_>,
        asked: Checks,
        supers: &[Super],
    ) -> Result<Option<StepResult>, OutOfMemory>
        requires pass { IsPassAt N.consts self.old.number actor.now.who.task pass.old }
        requires own { own.old.name ≡ N.consts.rules }
        requires listed { listed.old.name ≡ N.consts.book }
        requires supers { supers.now ≡ N.consts.supers }
        requires ready { (g : AnyHashState) → IsReadyBy N.consts self.old.number actor.now.who.task
            pass.old g actor.now.action actor.now.slot
            (Deed.Check asked.file asked.func no_action 0) }
        ensures number { self.new.number ≡ self.old.number }
        ensures met { AskMet N.consts self.old.number pass.old pass.new own.old own.new listed.old
            listed.new actor.now.who actor.now.cred.now asked result }
    {
        let world_inode = &mut self.world_inode;
        rules.look_by_both(&mut world_inode.rules, own);
        let place = &supers[world_inode.place as usize];
        check_at(
            world_inode,
            pass,
            &mut book.book,
            listed,
            actor,
            asked,
            rules.in_force(),
            place,
        )
    }
}
