ghost use Rattle.std.specs.Prelude.{◌≡◌, ℕ, ◌+◌, ◌<◌, ◌≤◌, ◌^◌, All, [], ◌∷◌, ◌++◌, count_by, false, length, map, option_copied, slice_get, IfOk, OnOk, Some};
ghost use mathlib.Core.List.{IsPrefix};
ghost use Rattle.grow_list.specs.Entries.{entries_of, has_place};
ghost use Rattle.inode_events.specs.Callers.{caller_of};
ghost use Rattle.inode_events.specs.Files.{held};
ghost use Rattle.inode_events.specs.Legal.{Legal, May};
ghost use Rattle.inode_events.specs.Stage.{is_gone, stage};
ghost use Rattle.inode_events.specs.Says.{placed_in, says};
ghost use Rattle.inode_events.specs.NewestFirst.{newest_first};
ghost use Rattle.inode_state.specs.Facts.{AreFacts};
ghost use Rattle.inode_state.specs.State.{IsState};
ghost use Rattle.journal_laws.specs.OwnLaws.{TellsByMine};
ghost use Rattle.journal_laws.specs.Own.{IsBy, IsOwned};
ghost use Rattle.inode_state.specs.Value.{HasOthers, IsSameJournal, beside_own, birth_of, new_pass};

use crate::beginning::begun;
use crate::{Facts, State, counted};
use grow_list::{Grow, Pass};
use inode_events::{Event, How, Image, Settings};
use std::alloc::{AllocError as OutOfMemory, Global};
use std::marker::Model;
use xattr_store::Bytes;

/// The journal of one inode, with the inode's state after its last event.
pub struct InodeJournal {
    path: Bytes,
    settings: Settings,
    journal: Grow<Event>,
    own: Pass<Event>,
    state: State,
}

// Written out, so that the drop is proved here once, and not again in each crate above.
impl Drop for InodeJournal {
    fn drop(self) {
        let InodeJournal {
            path: _,
            settings: _,
            journal: _,
            own: _,
            state: _,
        } = self;
    }
}

impl Model for InodeJournal {
    ghost use Rattle.inode_state.specs.Value.{JournalValue};

    ghost Value = { JournalValue };

    ghost use Rattle.inode_state.specs.Fields.{FieldsAgree, value_of};

    ghost view = { value_of };

    ghost invariant = { FieldsAgree };
}

impl InodeJournal {
    /// The path of the inode, in bytes.
    pub fn path(&self) -> &[u8]
        ensures { result.now ≡ self.now.inode.path }
    {
        self.path.as_slice()
    }

    /// The settings that the script gives all inodes.
    pub fn settings(&self) -> &Settings
        ensures { result.now ≡ self.now.inode.settings }
    {
        &self.settings
    }

    /// The state of the inode after the last event.
    pub fn state(&self) -> &State
        ensures kept { IsState self.now.inode (newest_first self.now.list) result.now }
        ensures legal { Legal self.now.inode (newest_first self.now.list) }
    {
        &self.state
    }

    /// The number of events in the journal.
    pub fn len(&self) -> u64
        ensures { result ≡ length self.now.list }
    {
        self.journal.len()
    }

    /// The event at a place, counted from 0. `None` from `len` on.
    pub fn at(&self, place: u64) -> Option<&Event>
        ensures { option_copied result ≡ slice_get self.now.list place }
    {
        self.journal.at(place)
    }

    /// How the file was opened, if it isn't dropped yet. `file` is the place of its count in the
    /// journal.
    pub fn how_at(&self, file: u64) -> Option<How>
        ensures { is_gone (stage self.now.inode file (newest_first self.now.list)) ≡ false
            → result ≡ held file (newest_first self.now.list) }
    {
        match self.journal.at(file) {
            Some(e) => counted(e),
            None => None,
        }
    }

    /// Makes room for the next event. The journal is unchanged, even if memory runs out.
    pub fn reserve(&mut self) -> Result<(), OutOfMemory>
        ensures room { OnOk result (1 ≤ self.new.spare) }
        ensures same { IsSameJournal self.old self.new }
    {
        self.journal.reserve(1)?;
        self.state.verdicts.reserve()
    }

    /// Adds an event in room that was reserved, and updates the state to match. The pass is that of
    /// the event's caller, and has then seen the journal.
    pub fn enter(&mut self, pass: &mut Pass<Event>, event: Event, facts: &Facts)
        requires name { pass.old.name ≡ self.old.name }
        requires number { pass.old.number ≡ caller_of event }
        requires room { 1 ≤ self.old.spare }
        requires may { May self.old.inode (newest_first self.old.list) event.deed }
        requires told { says self.old.inode (newest_first self.old.list)
            (placed_in event.told) event.deed ≡ Some event.told }
        requires by { IsBy (caller_of event) event.deed (newest_first self.old.list) }
        requires facts { AreFacts self.old.inode (newest_first self.old.list) event facts.now }
        ensures list { self.new.list ≡ self.old.list ++ event ∷ [] }
        ensures inode { self.new.inode ≡ self.old.inode }
        ensures same { (self.new.name ≡ self.old.name) × (self.new.callers ≡ self.old.callers) }
        ensures before { IsPrefix pass.old.seen self.old.list }
        ensures seen { pass.new.seen ≡ self.new.list }
        ensures mine { pass.new.mine ≡ pass.old.mine ++ (length self.old.list, event) ∷ [] }
        ensures pass { (pass.new.name ≡ pass.old.name) × (pass.new.number ≡ pass.old.number) }
    {
        self.journal.push(pass, event);
        let place = self.journal.len() - 1;
        match self.journal.at(place) {
            Some(event) => self.state.advance(event, place, facts),
            None => unreachable!(),
        }
    }

    /// Shows the journal to one of its passes. The events with the pass's number are then its own.
    pub fn look(&mut self, pass: &mut Pass<Event>)
        requires { pass.old.name ≡ self.old.name }
        ensures same { IsSameJournal self.old self.new }
        ensures before { IsPrefix pass.old.seen self.old.list }
        ensures seen { pass.new.seen ≡ self.new.list }
        ensures mine { pass.new.mine ≡ pass.old.mine }
        ensures pass { (pass.new.name ≡ pass.old.name) × (pass.new.number ≡ pass.old.number) }
        ensures tells { TellsByMine self.old.inode pass.new.number pass.old.seen self.old.list
            pass.new.mine }
        ensures own { entries_of pass.new.number (map caller_of self.old.list) self.old.list
            ≡ pass.new.mine }
        ensures legal { Legal self.old.inode (newest_first self.old.list) }
        ensures owned { IsOwned (newest_first self.old.list) }
        ensures within { All (λ e. caller_of e < self.old.callers) self.old.list }
    {
        self.journal.look(pass);
    }

    /// Creates the journal of a new inode, with a pass for each task: the pass of task t has the
    /// number t + 1, has seen the birth and has no event of its own. The birth is by the journal's
    /// own pass, which has the number 0.
    pub fn start(
        alloc: Global,
        path: Bytes,
        settings: Settings,
        image: Image,
        tasks: u32,
    ) -> Result<(InodeJournal, Vec<Pass<Event>>), OutOfMemory>
        requires { tasks + 1 < 2 ^ 32 }
        ensures inode { IfOk result (λ r. r.0.inode ≡ record {
          path = path;
          settings = settings;
          birth = image;
        }) }
        ensures list { IfOk result (λ r. r.0.list ≡ birth_of image ∷ []) }
        ensures callers { IfOk result (λ r. r.0.callers ≡ tasks + 1) }
        ensures count { IfOk result (λ r. length r.1.items ≡ tasks) }
        ensures passes { IfOk result (λ r. (k : ℕ) → k < tasks
            → slice_get r.1.items k ≡ Some (new_pass r.0.name r.0.list (k + 1))) }
        ensures others { IfOk result (λ r. HasOthers r.0 r.1.items) }
    {
        let state = State::born(alloc, &image);
        let (journal, own, passes) = begun(alloc, image, tasks)?;
        let kept = InodeJournal {
            path,
            settings,
            journal,
            own,
            state,
        };
        Ok((kept, passes))
    }

    /// Returns the path, the events and the state, and consumes the passes that `start` returned.
    /// What each pass saw is a prefix of the journal, the events with its number are its own, and
    /// each event except the birth belongs to exactly one pass.
    pub fn close(self, passes: Vec<Pass<Event>>) -> (Bytes, Vec<Event>, State)
        requires { HasOthers self passes.items }
        ensures path { result.0 ≡ self.inode.path }
        ensures list { result.1.items ≡ self.list }
        ensures state { IsState self.inode (newest_first self.list) result.2 }
        ensures seen { All (λ p. IsPrefix p.seen self.list) passes.items }
        ensures own { All (λ p. entries_of p.number (map caller_of self.list) self.list ≡ p.mine)
            passes.items }
        ensures places { (k : ℕ) → k < length self.list
            → count_by (λ p. has_place k p.mine) passes.items ≡ beside_own k }
        ensures legal { Legal self.inode (newest_first self.list) }
        ensures owned { IsOwned (newest_first self.list) }
        ensures within { All (λ e. caller_of e < self.callers) self.list }
    {
        let InodeJournal {
            path,
            settings: _,
            journal,
            own,
            state,
        } = self;
        (path, journal.close_with(own, passes), state)
    }
}
