ghost use Rattle.std.specs.Prelude.{◌≡◌, length, IfOk};
ghost use Rattle.run_model.specs.History.{start};
ghost use Rattle.task_core.specs.TaskFields.{who_of};
ghost use Rattle.world_model.specs.WorldConsts.{WorldConsts};
ghost use Rattle.world_model.specs.Tasks.{AreCallsOf, ArePassesOf, AreUnused, IsTask};

use call_steps::Call;
use inode_meta::{Cred, Who};
use std::alloc::{AllocError as OutOfMemory, Global};
use std::marker::Model;
use task_state::TaskState;
use world_model::{HashState, Passes};

/// A task. Contracts see its number, its state, what it has hashed, and its passes.
#[derive(Drop)]
pub struct Task {
    pub(crate) number: u32,
    pub(crate) task_state: TaskState,
    pub(crate) hash_state: HashState,
    pub(crate) passes: Passes,
}

impl Model for Task {
    ghost use Rattle.world_model.specs.Tasks.{Tasked};

    ghost Value = { Tasked };

    ghost use Rattle.task_core.specs.TaskFields.{tasked_of};

    ghost view = { tasked_of };
}

impl Task {
    /// A task before its first call. It is a task of each world that issued these passes, none of
    /// which has an entry of its own, if each call has the form of a script's. A program of more
    /// than 4,294,967,295 calls fails as if memory had run out.
    pub fn new(
        alloc: Global,
        number: u32,
        cred: Cred,
        program: Vec<Call>,
        passes: Passes,
    ) -> Result<Task, OutOfMemory>
        ensures number { IfOk result (λ t. t.number ≡ number) }
        ensures program { IfOk result (λ t. t.task_state.program ≡ record {
          cred = cred;
          calls = program.items;
        }) }
        ensures position { IfOk result (λ t. t.task_state.position ≡ start) }
        ensures passes { IfOk result (λ t. t.passes ≡ passes) }
        ensures task { IfOk result (λ t. (consts : WorldConsts) → ArePassesOf consts number passes
            → AreUnused passes → AreCallsOf (length consts.each_inode) program.items
            → IsTask consts t) }
    {
        let task_state = TaskState::new(alloc, cred, program)?;
        Ok(Task {
            number,
            task_state,
            hash_state: HashState::Idle,
            passes,
        })
    }

    /// The place (`Who`) of the step that the next turn is to make; `None` exactly if the program
    /// is over.
    pub fn who(&self) -> Option<Who>
        ensures { result ≡ who_of self.now }
    {
        if self.task_state.is_over() {
            return None;
        }
        Some(self.task_state.who(self.number))
    }
}
