// Creating a cell, and what it returns at the end.
ghost use Rattle.std.specs.Prelude.{◌≡◌, ℕ, ◌+◌, ◌<◌, ◌≤◌, ◌^◌, All, [], ◌∷◌, count_by, length, map, option_copied, slice_get, IfOk, Some};
ghost use mathlib.Core.List.{IsPrefix};
ghost use Rattle.inode_state.specs.laws_of_journals.Booked.{IsBooked};
ghost use Rattle.grow_list.specs.Entries.{entries_of, has_place};
ghost use Rattle.ima_templates.specs.Path.{IsMeasuredPath};
ghost use Rattle.inode_events.specs.Callers.{caller_of};
ghost use Rattle.inode_events.specs.EndedInode.{ended_inode};
ghost use Rattle.inode_events.specs.Integrity.{attributes};
ghost use Rattle.inode_events.specs.Legal.{Legal};
ghost use Rattle.inode_events.specs.NewestFirst.{newest_first};
ghost use Rattle.inode_events.specs.State.{content};
ghost use Rattle.inode_pages.specs.Content.{most_bytes};
ghost use Rattle.inode_meta.specs.declared.measurement.Template.TheVariants.{Ima};
ghost use Rattle.inode_state.specs.State.{IsState};
ghost use Rattle.inode_state.specs.Value.{beside_own, birth_of, new_pass};
ghost use Rattle.inode_state.specs.laws_of_journals.OwnLaws.{TellsByMine};
ghost use Rattle.inode_state.specs.laws_of_journals.Own.{IsOwned};
ghost use Rattle.inode_cell.specs.Ending.{HasPasses};
ghost use Rattle.inode_cell.specs.Value.{IsSameCell};

use crate::cell::InodeCell;
use grow_list::Pass;
use ima_templates::Entry;
use inode_answers::copies;
use inode_events::{EndedInode, Event, Image, Settings};
use inode_pages::Content;
use inode_state::{InodeJournal, State, digest_in};
use std::alloc::{AllocError as OutOfMemory, Global};
use xattr_store::Attrs;

impl InodeCell {
    /// Creates an inode from an image, with a pass for each task: the pass of task t has the number
    /// t + 1, has seen the birth and has no event of its own. `book` is the cell's pass of the
    /// measurement list, and has no entry of its own yet.
    pub fn start(
        alloc: Global,
        path: &[u8],
        image: Image,
        settings: Settings,
        tasks: u32,
        book: Pass<Entry>,
    ) -> Result<(InodeCell, Vec<Pass<Event>>), OutOfMemory>
        requires path { IsMeasuredPath Ima path.now }
        requires content { length image.content ≤ most_bytes }
        requires tasks { tasks + 1 < 2 ^ 32 }
        requires book { book.mine ≡ [] }
        ensures inode { IfOk result (λ r. r.0.inode ≡ record {
          path = path.now;
          settings =
              settings;
          birth = image;
        }) }
        ensures list { IfOk result (λ r. r.0.list ≡ birth_of image ∷ []) }
        ensures callers { IfOk result (λ r. r.0.callers ≡ tasks + 1) }
        ensures book { IfOk result (λ r. (r.0.book ≡ book.name) × (r.0.booked ≡ book.number)) }
        ensures count { IfOk result (λ r. length r.1.items ≡ tasks) }
        ensures passes { IfOk result (λ r. (k : ℕ) → k < tasks
            → slice_get r.1.items k ≡ Some (new_pass r.0.journal r.0.list (k + 1))) }
        ensures others { IfOk result (λ r. HasPasses r.0 r.1.items) }
    {
        let (path, content, attrs) = copies(alloc, path, &image)?;
        let (kept, passes) = InodeJournal::start(alloc, path, settings, image, tasks)?;
        let cell = InodeCell {
            kept,
            book,
            content,
            attrs,
            alloc,
        };
        Ok((cell, passes))
    }

    /// The number of events in the journal.
    pub fn len(&self) -> u64
        ensures { result ≡ length self.now.list }
    {
        self.kept.len()
    }

    /// The event at a place of the journal, counted from 0. `None` from `len` on.
    pub fn at(&self, place: u64) -> Option<&Event>
        ensures { option_copied result ≡ slice_get self.now.list place }
    {
        self.kept.at(place)
    }

    /// What follows from the journal, but for content and attributes.
    pub fn state(&self) -> &State
        ensures { IsState self.now.inode (newest_first self.now.list) result.now }
    {
        self.kept.state()
    }

    /// The content after the journal.
    pub fn content(&self) -> &Content
        ensures { result.now ≡ content (newest_first self.now.list) }
    {
        &self.content
    }

    /// The extended attributes after the journal.
    pub fn attrs(&self) -> &Attrs
        ensures { result.now ≡ attributes self.now.inode (newest_first self.now.list) }
    {
        &self.attrs
    }

    /// Shows the journal to one of the cell's passes. What the pass's own entries imply then holds
    /// of the journal: a deed that they allow may be done, the last check of a file is theirs, and
    /// an open collection of theirs is as the pass last saw it. The journal is legal, and its
    /// events with the pass's number are those entries.
    pub fn look(&mut self, pass: &mut Pass<Event>)
        requires { pass.old.name ≡ self.old.journal }
        ensures list { self.new.list ≡ self.old.list }
        ensures same { IsSameCell self.old self.new }
        ensures before { IsPrefix pass.old.seen self.old.list }
        ensures seen { pass.new.seen ≡ self.new.list }
        ensures mine { pass.new.mine ≡ pass.old.mine }
        ensures pass { (pass.new.name ≡ pass.old.name) × (pass.new.number ≡ pass.old.number) }
        ensures tells { TellsByMine self.old.inode pass.new.number pass.old.seen self.old.list
            pass.new.mine }
        ensures own { entries_of pass.new.number (map caller_of self.old.list) self.old.list
            ≡ pass.new.mine }
        ensures legal { Legal self.old.inode (newest_first self.old.list) }
        ensures owned { IsOwned (newest_first self.old.list) }
        ensures within { All (λ e. caller_of e < self.old.callers) self.old.list }
    {
        self.kept.look(pass);
    }

    /// Returns the inode's journal and final values, and the cell's pass of the measurement list,
    /// and consumes the passes that `start` returned. What each pass saw is a prefix of the
    /// journal, the events with its number are its own, and each event except the birth belongs to
    /// exactly one pass.
    pub fn close(self, passes: Vec<Pass<Event>>) -> (EndedInode, Pass<Entry>)
        requires { HasPasses self passes.items }
        ensures ended { result.0 ≡ ended_inode self.inode self.list }
        ensures seen { All (λ p. IsPrefix p.seen self.list) passes.items }
        ensures own { All (λ p. entries_of p.number (map caller_of self.list) self.list ≡ p.mine)
            passes.items }
        ensures places { (k : ℕ) → k < length self.list
            → count_by (λ p. has_place k p.mine) passes.items ≡ beside_own k }
        ensures legal { Legal self.inode (newest_first self.list) }
        ensures owned { IsOwned (newest_first self.list) }
        ensures within { All (λ e. caller_of e < self.callers) self.list }
        ensures book { (result.1.name ≡ self.book) × (result.1.number ≡ self.booked) }
        ensures booked { IsBooked self.inode (newest_first self.list) result.1.seen result.1.mine }
    {
        let InodeCell {
            kept,
            book,
            content: _,
            attrs,
            alloc: _,
        } = self;
        let (path, journal, state) = kept.close(passes);
        let State {
            counts,
            marks: _,
            writes: _,
            meta: _,
            collecting: _,
            in_force,
            verdicts: _,
        } = state;
        let ended = EndedInode {
            path,
            journal,
            force: digest_in(in_force),
            attrs,
            writers: counts.writers,
            readers: counts.readers,
            execs: counts.execs,
        };
        (ended, book)
    }
}
