ghost use Rattle.std.specs.Prelude.{◌≡◌, ◌∷◌, ◌++◌, [], OnOk};

use crate::answer::Answer;
use std::alloc::{AllocError as OutOfMemory, Global};
use std::marker::Model;

/// The answers to a caller's buffers, in order. Contracts see the list.
#[derive(Drop)]
pub struct Answers {
    answers: Vec<Answer>,
}

impl Model for Answers {
    ghost use Rattle.std.specs.Prelude.{List};
    ghost use Rattle.buffer_measure.specs.declared.answer.Answer.{Answer};

    ghost Value = { List Answer };

    ghost view = { λ a. a.answers.items };
}

impl Answers {
    /// No answers.
    pub fn new(alloc: Global) -> Answers
        ensures { result ≡ [] }
    {
        Answers {
            answers: Vec::new(alloc),
        }
    }

    /// The answers in the vector, which is consumed.
    pub fn from_vec(answers: Vec<Answer>) -> Answers
        ensures { result ≡ answers.items }
    {
        Answers { answers }
    }

    /// The answers as a vector.
    pub fn into_vec(self) -> Vec<Answer>
        ensures { result.items ≡ self }
    {
        self.answers
    }

    /// Appends an answer.
    pub fn push(&mut self, answer: Answer) -> Result<(), OutOfMemory>
        ensures { OnOk result (self.new ≡ self.old ++ answer ∷ []) }
    {
        self.answers.push(answer)?;
        Ok(())
    }

    /// The answers as a slice, in order.
    pub fn as_slice(&self) -> &[Answer]
        ensures { result.now ≡ self.now }
    {
        self.answers.as_slice()
    }
}
