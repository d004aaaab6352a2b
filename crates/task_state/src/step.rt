//! The step that is due, with the arguments that the call gives it.

ghost use Rattle.std.specs.Prelude.{◌≡◌};
ghost use Rattle.run_model.specs.steps.CallState.{deed_of, plain_step, step_by};
ghost use Rattle.task_state.specs.Value.{progress_in};
ghost use Rattle.task_state.specs.Steps.{deed_in, step_in};

use crate::progress::Progress;
use rule_match::policy::{Func, Rule};
use run_model::steps::events::{BoxedBytes, BoxedValue, Change, Deed, How};
use run_model::steps::{Ask, Call};

/// An event on an inode, before it has happened. Bytes are borrowed from the call.
#[derive(Clone, Copy, Drop)]
pub enum DueDeed<'a> {
    /// Create the inode. This isn't a step of any call.
    Birth,
    /// Count a file, for an open or an execution.
    Count(How),
    /// Ask for the digest in force.
    Take(u64),
    /// Take the next piece into the collection of a take.
    Chunk(u64),
    /// End the collection of a take.
    Finish(u64),
    /// Read at most `len` bytes, starting at the byte `from`.
    Read {
        file: u64,
        from: u64,
        len: u64,
    },
    /// Write `bytes`, starting at the byte `from`.
    Write {
        file: u64,
        from: u64,
        bytes: &'a BoxedBytes,
    },
    /// Set the length of the content, adding zeros if it was shorter.
    Trunc {
        file: u64,
        len: u64,
    },
    /// Set an attribute, or remove it if there is no value.
    SetAttr {
        name: &'a BoxedBytes,
        value: &'a BoxedValue,
        admin: bool,
    },
    /// Change the mode, or the owner and group.
    SetMeta(Change),
    /// Drop a file that isn't open for writing.
    Close(u64),
    /// Begin the close of a file that is open for writing.
    CloseTake(u64),
    /// Take the next piece into the collection of a close.
    CloseChunk(u64),
    /// End the collection of a close, and drop the file.
    CloseFinish(u64),
}

/// A step of a task's call.
#[derive(Clone, Copy, Drop)]
pub enum Step<'a> {
    /// Do nothing.
    Nothing,
    /// Make an event on an inode.
    Does {
        inode: u32,
        due: DueDeed<'a>,
    },
    /// Check an access to an inode. The rules are to give the action.
    Checks {
        inode: u32,
        file: u64,
        func: Func,
        mask: u8,
    },
    /// Post to a semaphore.
    Posts(u8),
    /// Wait for a semaphore.
    Waits(u8),
    /// Append a rule to those in force.
    Appends(&'a Rule),
}

// The event of a call that writes, or changes attributes or metadata.
fn due_deed_of<'a>(admin: bool, call: &'a Call, file: u64) -> DueDeed<'a>
    ensures { deed_in result ≡ deed_of admin call.now file }
{
    match call {
        Call::Write { from, bytes, .. } => DueDeed::Write {
            file,
            from: *from,
            bytes,
        },
        Call::SetAttr { name, value, .. } => DueDeed::SetAttr { name, value, admin },
        Call::SetMeta { change, .. } => DueDeed::SetMeta(*change),
        _ => DueDeed::Birth,
    }
}

// The step of a call that needs no event on an inode.
fn plain_step<'a>(admin: bool, call: &'a Call) -> Step<'a>
    ensures { step_in result ≡ plain_step admin call.now }
{
    match call {
        Call::Post { sem } => Step::Posts(*sem),
        Call::Wait { sem } => Step::Waits(*sem),
        Call::AddRule { rule } if admin => Step::Appends(rule.get()),
        _ => Step::Nothing,
    }
}

/// The next step of a call in progress.
pub fn step_by<'a>(admin: bool, call: &'a Call, progress: Progress) -> Step<'a>
    ensures { step_in result ≡ step_by admin call.now (progress_in progress) progress.due.ask }
{
    let inode = progress.inode;
    let file = progress.file;
    let due = match progress.due.ask {
        Ask::Plain => return plain_step(admin, call),
        Ask::Check { func, mask } => {
            return Step::Checks {
                inode,
                file,
                func,
                mask,
            };
        }
        Ask::Count => DueDeed::Count(progress.how),
        Ask::Take { .. } => DueDeed::Take(file),
        Ask::Chunk => DueDeed::Chunk(file),
        Ask::Finish => DueDeed::Finish(file),
        Ask::Read { from, len } => DueDeed::Read { file, from, len },
        Ask::Write | Ask::SetAttr | Ask::SetMeta => due_deed_of(admin, call, file),
        Ask::Trunc { len } => DueDeed::Trunc { file, len },
        Ask::Close => DueDeed::Close(file),
        Ask::CloseTake => DueDeed::CloseTake(file),
        Ask::CloseChunk => DueDeed::CloseChunk(file),
        Ask::CloseFinish => DueDeed::CloseFinish(file),
    };
    Step::Does { inode, due }
}
