//! The measurement list under its lock, with the invariant that it is the one that the callers have
//! passes of.

ghost use Rattle.std.specs.Prelude.{◌≡◌, IfOk};
ghost use Rattle.buffer_measure.specs.Answers.{answer_of};
ghost use Rattle.buffer_measure.specs.Workers.{IsBookOf};
ghost use Rattle.buffer_measure.specs.Answered.{IsAdded, IsSamePass};

use crate::answer::Answer;
use ima_templates::{Entry, Placed};
use measure_book::{Book, Pass};
use std::alloc::AllocError as OutOfMemory;
use std::marker::{Brand, Model, PhantomData};

/// Names the constants of a list under a lock: the list itself, and the text whose callers share
/// it.
pub trait Name: Send + Sync {
    ghost use Rattle.buffer_measure.specs.Workers.{Constants};

    ghost constants: { Constants };
}

impl Name for Brand {
    ghost use Rattle.buffer_measure.specs.Workers.{no_constants};

    ghost constants = { no_constants };
}

/// The measurement list, with the invariant that it belongs to the constants that `N` names.
#[derive(Drop)]
pub struct TaggedBook<N: Name> {
    book: Book,
    of: PhantomData<N>,
}

impl<N: Name> Model for TaggedBook<N> {
    ghost use Rattle.report_text.specs.model.growing.Shown.{Grown};
    ghost use Rattle.script_text.specs.steps.templates.declared.entry.Entry.{Entry};
    ghost use Rattle.buffer_measure.specs.Workers.{IsBookOf};

    ghost Value = { Grown Entry };

    ghost view = { λ b. b.book };

    ghost invariant = { λ b. IsBookOf N.constants b.book };
}

impl<N: Name> TaggedBook<N> {
    /// Wraps the list of these constants.
    pub fn new(book: Book) -> TaggedBook<N>
        requires { IsBookOf N.constants book }
        ensures { result ≡ book }
    {
        TaggedBook {
            book,
            of: PhantomData,
        }
    }

    /// Returns the list.
    pub fn open(self) -> Book
        ensures kept { IsBookOf N.constants result }
        ensures value { result ≡ self }
    {
        let TaggedBook { book, of: _ } = self;
        book
    }

    /// Adds the entry by a pass of this list, or finds the first entry that is the same. If memory
    /// runs out, nothing was added.
    pub fn add(&mut self, pass: &mut Pass<Entry>, entry: Entry) -> Result<Answer, OutOfMemory>
        requires name { pass.old.name ≡ N.constants.name }
        ensures same { IsSamePass pass.old pass.new }
        ensures added { IfOk result (λ a. IsAdded pass.old pass.new entry a) }
    {
        self.book.reserve()?;
        Ok(answer_of(self.book.add(pass, entry)))
    }
}

fn answer_of(placed: Placed) -> Answer
    ensures { result ≡ answer_of placed }
{
    match placed {
        Placed::Added(place) => Answer::Added(place),
        Placed::Already(place) => Answer::Already(place),
    }
}
