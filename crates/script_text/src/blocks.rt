ghost use Rattle.std.specs.Prelude.{◌≡◌, ◌++◌, ◌∷◌, [], IfOk};

use call_steps::Call;
use call_steps::events::Image;
use inode_meta::Cred;
use std::alloc::AllocError as OutOfMemory;
use std::marker::Model;
use xattr_store::Bytes;

/// A file of a script.
#[derive(Drop)]
pub struct FileBlock {
    /// The path of the file.
    pub path: Bytes,
    /// The number of the file's file system.
    pub fs: u32,
    /// The inode as the run begins.
    pub image: Image,
}

/// The calls of a task, in order. Contracts see the list.
pub struct Calls {
    calls: Vec<Call>,
}

// Written out, so that the drop is proved here once, and not again in each crate above.
impl Drop for Calls {
    fn drop(self) {
        let Calls { calls: _ } = self;
    }
}

impl Model for Calls {
    ghost use Rattle.std.specs.Prelude.{List};
    ghost use Rattle.call_steps.specs.declared.call.Call.{Call};

    ghost Value = { List Call };

    ghost view = { λ c. c.calls.items };
}

impl Calls {
    /// The calls in the vector, which is consumed.
    pub fn from_vec(calls: Vec<Call>) -> Calls
        ensures { result ≡ calls.items }
    {
        Calls { calls }
    }

    /// The calls as a vector.
    pub fn into_vec(self) -> Vec<Call>
        ensures { result.items ≡ self }
    {
        let Calls { calls } = self;
        calls
    }

    /// The calls with one more at the end.
    pub fn with(self, call: Call) -> Result<Calls, OutOfMemory>
        ensures { IfOk result (λ calls. calls ≡ self ++ call ∷ []) }
    {
        let mut calls = self;
        calls.calls.push(call)?;
        Ok(calls)
    }

    /// The calls as a slice, in order.
    pub fn as_slice(&self) -> &[Call]
        ensures { result.now ≡ self.now }
    {
        self.calls.as_slice()
    }
}

/// A task of a script.
#[derive(Drop)]
pub struct TaskBlock {
    /// The credentials of the task.
    pub cred: Cred,
    /// The calls of the task, in order.
    pub calls: Calls,
}
