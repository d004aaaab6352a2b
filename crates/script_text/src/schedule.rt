//! The line of a schedule, which may have a million words.

ghost use Rattle.std.specs.Option.{option_copied};
ghost use Rattle.script_words.specs.Gives.{LineMakes};
ghost use Rattle.script_words.specs.Line.{all_fields};
ghost use Rattle.script_text.specs.Tasks.{with_schedule};

use crate::draft::Draft;
use call_steps::{Ending, Turns};
use script_fields::turns_of;
use script_words::LineErr;
use std::alloc::Global;

impl Draft {
    /// Reads the line `schedule` with the numbers of tasks, which ends the script.
    #[tactic(auto, unfolding(crate::specs::Tasks::with_schedule))]
    pub fn with_schedule(&mut self, alloc: Global, text: Option<&[u8]>) -> Result<(), LineErr>
        ensures { LineMakes result (with_schedule (all_fields (option_copied text.entry)) self.old)
            self.new }
    {
        let turns = match text {
            Some(numbers) => turns_of(alloc, self.tasks.len(), numbers)?,
            None => Turns::from_vec(Vec::new(alloc)),
        };
        self.end_with(Ending::Schedule(turns));
        Ok(())
    }
}
