ghost use Rattle.std.specs.Prelude.{◌≡◌, ℕ, ◌+◌, ◌<◌, ◌≤◌, [], ◌++◌, length, map, option_map, All, IfOk, IfSome, OnOk, count_by, replicate, slice_get};
ghost use mathlib.Core.List.{IsPrefix};
ghost use Rattle.grow_list.specs.Entries.{has_place};
ghost use Rattle.grow_list.specs.Others.{HasOthers};
ghost use Rattle.grow_list.specs.Shown.{IsSameList, HasItsOwn, fresh};
ghost use Rattle.inode_events.specs.Asked.{entered, made};
ghost use Rattle.inode_events.specs.Callers.{caller_of};
ghost use Rattle.inode_events.specs.NewestFirst.{newest_first};
ghost use Rattle.inode_events.specs.Semaphores.{LegalSemaphores, left, semaphore_says};

use grow_list::{Grow, Pass};
use inode_events::{Deed, Event, Told};
use inode_meta::Who;
use std::alloc::{AllocError as OutOfMemory, Global};
use std::marker::Model;

/// The semaphores, each of which starts at 0, with the journal of the posts and waits on them.
/// Contracts see the growing list of these events. The value of a semaphore is always its posts
/// minus its waits in the journal. The journal is legal, and task n is its caller n + 1.
pub struct SemaphoreCell {
    journal: Grow<Event>,
    own: Pass<Event>,
    left: [u64; 256],
}

// Written out, so that the drop is proved here once, and not again in each crate above.
impl Drop for SemaphoreCell {
    fn drop(self) {
        let SemaphoreCell {
            journal: _,
            own: _,
            left: _,
        } = self;
    }
}

impl Model for SemaphoreCell {
    ghost use Rattle.grow_list.specs.Shown.{Grown};
    ghost use Rattle.inode_events.specs.declared.told.Event.{Event};

    ghost Value = { Grown Event };

    ghost use Rattle.semaphore_cell.specs.Fields.{IsSemaphores, journal_of};

    ghost view = { journal_of };

    ghost invariant = { IsSemaphores };
}

impl SemaphoreCell {
    /// Creates the semaphores at 0, with a pass for each task. The cell keeps pass 0 for itself and
    /// returns the others in the order of their numbers.
    pub fn start(
        alloc: Global,
        callers: u32,
    ) -> Result<(SemaphoreCell, Vec<Pass<Event>>), OutOfMemory>
        requires { 1 ≤ callers }
        ensures list { IfOk result (λ r. (r.0.list ≡ []) × (r.0.numbers ≡ [])) }
        ensures callers { IfOk result (λ r. r.0.callers ≡ callers) }
        ensures count { IfOk result (λ r. length r.1.items + 1 ≡ callers) }
        ensures passes { IfOk result (λ r. (k : ℕ) → k < length r.1.items
            → slice_get r.1.items k ≡ Some (fresh r.0.name (k + 1))) }
        ensures others { IfOk result (λ r. HasOthers r.0 r.1.items) }
    {
        let (journal, mut passes) = Grow::start(alloc, callers)?;
        let own = passes.remove(0);
        let cell = SemaphoreCell {
            journal,
            own,
            left: zeros(),
        };
        Ok((cell, passes))
    }

    /// Makes room for the next event. The journal is unchanged, even if memory runs out.
    pub fn reserve(&mut self) -> Result<(), OutOfMemory>
        ensures room { OnOk result (1 ≤ self.new.spare) }
        ensures kept { self.old.spare ≤ self.new.spare }
        ensures list { IsSameList self.old self.new }
    {
        self.journal.reserve(1)
    }

    /// Posts to a semaphore or waits for one, through the pass of the step's task, in room that was
    /// reserved. Returns the place of the event, counted from 0. `None` means blocked: the
    /// semaphore to wait for is at 0, or the deed isn't on a semaphore. The pass has seen the
    /// journal in either case.
    pub fn signal(&mut self, pass: &mut Pass<Event>, who: Who, deed: Deed) -> Option<u64>
        requires room { 1 ≤ self.old.spare }
        requires name { pass.old.name ≡ self.old.name }
        requires number { pass.old.number ≡ who.task + 1 }

        ensures says { option_map (λ _. Told.Done) result
            ≡ semaphore_says (newest_first self.old.list) deed }
        ensures place { IfSome result (λ place. place ≡ length self.old.list) }
        ensures list { self.new.list
            ≡ self.old.list ++ made who deed (semaphore_says (newest_first self.old.list) deed) }
        ensures kept { (self.new.name ≡ self.old.name) × (self.new.callers ≡ self.old.callers) }
        ensures spare { self.old.spare ≤ self.new.spare + 1 }

        ensures before { IsPrefix pass.old.seen self.old.list }
        ensures seen { pass.new.seen ≡ self.new.list }
        ensures mine { pass.new.mine ≡ pass.old.mine
            ++ entered (length self.old.list) who deed
            (semaphore_says (newest_first self.old.list) deed) }
        ensures own { HasItsOwn self.new pass.new }
        ensures below { All (λ x. x.0 < length self.new.list) pass.new.mine }
        ensures number { pass.new.number < self.new.callers }
        ensures numbers { self.new.numbers ≡ map caller_of self.new.list }
        ensures same_pass { (pass.new.name ≡ pass.old.name) × (pass.new.number ≡ pass.old.number) }
    {
        match deed {
            Deed::Post(sem) => {
                let place = self.journal.push(
                    pass,
                    Event {
                        who,
                        deed: Deed::Post(sem),
                        told: Told::Done,
                    },
                );
                // The value of a semaphore is at most the length of the journal, which is a u64.
                let _len = self.journal.len();
                self.left[sem as usize] += 1;
                Some(place)
            }
            Deed::Wait(sem) if self.left[sem as usize] > 0 => {
                self.left[sem as usize] -= 1;
                Some(
                    self.journal.push(
                        pass,
                        Event {
                            who,
                            deed: Deed::Wait(sem),
                            told: Told::Done,
                        },
                    ),
                )
            }
            _ => {
                self.journal.look(pass);
                None
            }
        }
    }

    /// The value of the semaphore: its posts minus its waits.
    pub fn left(&self, sem: u8) -> u64
        ensures { result ≡ left sem (newest_first self.now.list) }
    {
        self.left[sem as usize]
    }

    /// Shows the journal to one of this cell's passes.
    pub fn look(&mut self, pass: &mut Pass<Event>)
        requires { pass.old.name ≡ self.old.name }

        ensures list { IsSameList self.old self.new }
        ensures spare { self.old.spare ≤ self.new.spare }

        ensures before { IsPrefix pass.old.seen self.old.list }
        ensures seen { pass.new.seen ≡ self.new.list }
        ensures mine { pass.new.mine ≡ pass.old.mine }
        ensures own { HasItsOwn self.new pass.new }
        ensures below { All (λ x. x.0 < length self.new.list) pass.new.mine }
        ensures number { pass.new.number < self.new.callers }
        ensures numbers { self.new.numbers ≡ map caller_of self.new.list }
        ensures same_pass { (pass.new.name ≡ pass.old.name) × (pass.new.number ≡ pass.old.number) }
        ensures legal { LegalSemaphores (newest_first self.new.list) }
        ensures signed { All (λ e. (0 < caller_of e) × (caller_of e < self.new.callers))
            self.new.list }
    {
        self.journal.look(pass);
    }

    /// Returns the journal, and consumes the passes that `start` returned. What each pass saw is a
    /// prefix of the journal, the events with its number are its own, and each place belongs to
    /// exactly one pass.
    pub fn close(self, passes: Vec<Pass<Event>>) -> Vec<Event>
        requires { HasOthers self passes.items }
        ensures list { result.items ≡ self.list }
        ensures numbers { self.numbers ≡ map caller_of self.list }
        ensures seen { All (λ p. IsPrefix p.seen self.list) passes.items }
        ensures own { All (λ p. HasItsOwn self p) passes.items }
        ensures places { (k : ℕ) → k < length self.list
            → count_by (λ p. has_place k p.mine) passes.items ≡ 1 }
        ensures legal { LegalSemaphores (newest_first self.list) }
        ensures signed { All (λ e. (0 < caller_of e) × (caller_of e < self.callers)) self.list }
    {
        let SemaphoreCell {
            journal,
            own,
            left: _,
        } = self;
        journal.close_with(own, passes)
    }
}

// The values at the start, one for each of the 256 semaphores.
fn zeros() -> [u64; 256]
    ensures { result ≡ replicate 256 0 }
{
    [0; 256]
}
