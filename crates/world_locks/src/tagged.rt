//! The measurement list and the semaphores, each with the invariant that it belongs to the
//! constants that `N` names.

ghost use Rattle.std.specs.Prelude.{◌≡◌, ◌+◌};
ghost use Rattle.world_close.specs.worlds.World.{AreSignalsOf, IsBookOf};
ghost use Rattle.world_locks.specs.Tagged.{SignalMet, signalled_at};

use crate::name::Name;
use grow_list::Pass;
use inode_events::{Deed, Event, Told};
use inode_meta::Who;
use measure_book::Book;
use std::alloc::AllocError as OutOfMemory;
use std::marker::{Model, PhantomData};
use task_steps::StepResult;
use world_close::semaphores::SemaphoreCell;

/// The measurement list, with the invariant that it belongs to the constants that `N` names.
pub struct TaggedBook<N: Name> {
    pub(crate) book: Book,
    pub(crate) of: PhantomData<N>,
}

// Written out, so that the drop is proved here once, and not again in each crate above.
impl<N: Name> Drop for TaggedBook<N> {
    fn drop(self) {
        let TaggedBook { book: _, of: _ } = self;
    }
}

impl<N: Name> Model for TaggedBook<N> {
    ghost use Rattle.grow_list.specs.Shown.{Grown};
    ghost use Rattle.ima_templates.specs.declared.entry.Entry.{Entry};
    ghost use Rattle.world_close.specs.worlds.World.{IsBookOf};

    ghost Value = { Grown Entry };

    ghost view = { λ b. b.book };

    ghost invariant = { λ b. IsBookOf N.consts b.book };
}

impl<N: Name> TaggedBook<N> {
    /// Wraps the measurement list of these constants.
    pub fn new(book: Book) -> TaggedBook<N>
        requires { IsBookOf N.consts book }
        ensures { result ≡ book }
    {
        TaggedBook {
            book,
            of: PhantomData,
        }
    }

    /// Returns the measurement list.
    pub fn open(self) -> Book
        ensures kept { IsBookOf N.consts result }
        ensures value { result ≡ self }
    {
        let TaggedBook { book, of: _ } = self;
        book
    }
}

/// The semaphores, with the invariant that they belong to the constants that `N` names.
pub struct TaggedSemaphores<N: Name> {
    sems: SemaphoreCell,
    of: PhantomData<N>,
}

// Written out, so that the drop is proved here once, and not again in each crate above.
impl<N: Name> Drop for TaggedSemaphores<N> {
    fn drop(self) {
        let TaggedSemaphores { sems: _, of: _ } = self;
    }
}

impl<N: Name> Model for TaggedSemaphores<N> {
    ghost use Rattle.grow_list.specs.Shown.{Grown};
    ghost use Rattle.inode_events.specs.declared.told.Event.{Event};
    ghost use Rattle.world_close.specs.worlds.World.{AreSignalsOf};

    ghost Value = { Grown Event };

    ghost view = { λ s. s.sems };

    ghost invariant = { λ s. AreSignalsOf N.consts s.sems };
}

impl<N: Name> TaggedSemaphores<N> {
    /// Wraps the semaphores of these constants.
    pub fn new(sems: SemaphoreCell) -> TaggedSemaphores<N>
        requires { AreSignalsOf N.consts sems }
        ensures { result ≡ sems }
    {
        TaggedSemaphores {
            sems,
            of: PhantomData,
        }
    }

    /// Returns the semaphores.
    pub fn open(self) -> SemaphoreCell
        ensures kept { AreSignalsOf N.consts result }
        ensures value { result ≡ self }
    {
        let TaggedSemaphores { sems, of: _ } = self;
        sems
    }

    /// Posts to a semaphore or waits for one. `None` means that it is blocked.
    pub fn signal(
        &mut self,
        pass: &mut Pass<Event>,
        who: Who,
        deed: Deed,
    ) -> Result<Option<StepResult>, OutOfMemory>
        requires name { pass.old.name ≡ N.consts.signals }
        requires number { pass.old.number ≡ who.task + 1 }
        ensures { SignalMet pass.old pass.new who deed result }
    {
        self.sems.reserve()?;
        Ok(signalled(self.sems.signal(pass, who, deed)))
    }
}

// The answer to a post or a wait whose event is at this place. `None` means that it is blocked.
fn signalled(place: Option<u64>) -> Option<StepResult>
    ensures { result ≡ signalled_at place }
{
    match place {
        Some(place) => Some(StepResult {
            place,
            told: Told::Done,
            action: None,
        }),
        None => None,
    }
}
