//! How a call begins.

ghost use Rattle.std.specs.Prelude.{◌≡◌};
ghost use Rattle.run_model.specs.steps.CallState.{begun, file_of, how_held, inode_of};
ghost use Rattle.task_state.specs.Value.{progress_in};

use crate::handles::hand_of;
use inode_meta::Mode;
use run_model::steps::events::How;
use run_model::steps::{Call, Course, Due, Handle, Held, Plan};

/// The progress of a call between two steps.
#[derive(Clone, Copy)]
pub struct Progress {
    /// The next step, and the reply that comes with the last one unless a later step decides
    /// another.
    pub due: Due,
    /// The number of the next step within the call, counted from 0.
    pub step: u32,
    /// The inode of the file that the steps act on.
    pub inode: u32,
    /// The file that the steps act on, named by the place of its count.
    pub file: u64,
    /// How the file is counted.
    pub how: How,
}

fn inode_of(call: &Call, held: Option<Held>) -> u32
    ensures { result ≡ inode_of call.now held }
{
    match call {
        Call::Open { inode, .. }
        | Call::Exec { inode, .. }
        | Call::SetAttr { inode, .. }
        | Call::SetMeta { inode, .. }
        | Call::Module { inode }
        | Call::Firmware { inode } => *inode,
        _ => match held {
            Some(held) => held.inode,
            None => 0,
        },
    }
}

fn file_of(held: Option<Held>) -> u64
    ensures { result ≡ file_of held }
{
    match held {
        Some(held) => held.file,
        None => 0,
    }
}

fn how_held(call: &Call, held: Option<Held>) -> How
    ensures { result ≡ how_held call.now held }
{
    match held {
        Some(held) => held.how,
        None => Course::of(call).how(),
    }
}

/// The progress of a call before its first step.
pub fn begun(admin: bool, handles: &[Handle], call: &Call) -> Progress
    ensures { progress_in result ≡ begun admin handles.now call.now }
{
    let hand = hand_of(admin, handles, call);
    Progress {
        due: Plan::start(call, hand, Mode::Off).due,
        step: 0,
        inode: inode_of(call, hand.held),
        file: file_of(hand.held),
        how: how_held(call, hand.held),
    }
}
