ghost use Rattle.std.specs.Prelude.{◌≡◌};
ghost use Rattle.std.specs.Option.{option_copied};
ghost use Rattle.call_steps.specs.Steps.{first, plan_of, told_of};

use crate::ask::Ask;
use crate::call::Call;
use crate::course::Course;
use crate::due::{Due, Next};
use crate::first::first;
use crate::held::Hand;
use crate::next::next_by;
use crate::reply::Reply;
use inode_events::{Action, Mode, Told};

/// A call in progress. It is of no further use once the call is answered.
#[derive(Clone, Copy)]
pub struct Plan {
    /// The course of the call's steps.
    pub course: Course,
    /// The appraisal mode of the run.
    pub mode: Mode,
    /// The next step, and the reply so far.
    pub due: Due,
}

impl Plan {
    /// The plan of a call, given what the task holds and whether it may administer.
    pub fn start(call: &Call, hand: Hand, mode: Mode) -> Plan
        ensures { result ≡ plan_of mode call.now (first call.now hand) }
    {
        Plan {
            course: Course::of(call),
            mode,
            due: first(call, hand),
        }
    }

    /// The step that the call makes next.
    pub fn next(&self) -> Ask
        ensures { result ≡ self.now.due.ask }
    {
        self.due.ask
    }

    /// Takes the outcome of the step, and for a check its action. The reply comes exactly with the
    /// call's last step.
    pub fn told(&mut self, t: &Told, action: Option<&Action>) -> Option<Reply>
        ensures { (self.new, result) ≡ told_of self.old t.now (option_copied action.entry) }
    {
        let Due { ask, reply } = self.due;
        match next_by(self.mode, self.course, ask, reply, t, action) {
            Next::On(due) => {
                self.due = due;
                None
            }
            Next::Over(reply) => Some(reply),
        }
    }
}
