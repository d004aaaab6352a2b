use crate::answers::Answers;
use ima_templates::Entry;
use measure_book::registers::Banks;
use std::marker::Model;

/// The outcome of a run of buffers. Contracts see a record of these fields, with each vector as a
/// list.
#[derive(Drop)]
pub struct BufferRun {
    /// The entries of the measurement list.
    pub list: Vec<Entry>,
    /// The registers that the list extends.
    pub banks: Banks,
    /// The answers of the callers, in the order of their blocks.
    pub answers: Vec<Answers>,
}

impl Model for BufferRun {
    ghost use Rattle.buffer_measure.specs.Run.{RunValue};

    ghost Value = { RunValue };

    ghost view = { λ r. record {
      list = r.list.items;
      banks = r.banks;
      answers = r.answers.items;
    } };
}
