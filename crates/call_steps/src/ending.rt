ghost use Rattle.std.specs.Prelude.{◌≡◌, ℕ, List};

use std::marker::Model;

/// The numbers of the tasks that get one turn each, in order. Contracts see the list of numbers.
pub struct Turns {
    tasks: Vec<u32>,
}

// Written out, so that the drop is proved here once, and not again in each crate above.
impl Drop for Turns {
    fn drop(self) {
        let Turns { tasks: _ } = self;
    }
}

impl Model for Turns {
    ghost Value = { List ℕ };

    ghost view = { λ turns. turns.tasks.items };
}

impl Turns {
    /// The turns of these tasks, in the order of the vector.
    pub fn from_vec(tasks: Vec<u32>) -> Turns
        ensures { result ≡ tasks.items }
    {
        Turns { tasks }
    }

    /// The task numbers, in the order of their turns.
    pub fn as_slice(&self) -> &[u32]
        ensures { result.now ≡ self.now }
    {
        self.tasks.as_slice()
    }
}

/// How the tasks of a script run, and when they stop.
#[derive(Drop)]
pub enum Ending {
    /// One turn of each task that the schedule names, in order. The run may stop anywhere.
    Schedule(Turns),
    /// Rounds of one turn of each task, until a round moves no task.
    Rounds,
    /// This number of threads, from 1 to 16, until no task can move.
    Threads(u32),
}
