// How much a run has made.

ghost use Rattle.std.specs.Prelude.{◌≡◌, ◌↔◌, IsTrue};
ghost use Rattle.order_outcomes.specs.Made.{events_in, made_of, replies_in};

use inode_events::EndedInode;
use run_model::{Ended, EndedTask};

/// How much a run has made. A turn that moves its task makes it more, and no other turn changes it.
#[derive(Clone, Copy)]
pub struct Made {
    /// The number of the inodes' events.
    pub events: u128,
    /// The number of replies.
    pub replies: u128,
}

impl Made {
    /// Whether as much is made.
    pub fn is_same(self, other: Made) -> bool
        ensures { IsTrue result ↔ (self ≡ other) }
    {
        self.events == other.events && self.replies == other.replies
    }
}

fn events_in(inodes: &[EndedInode]) -> u128
    ensures { result ≡ events_in inodes.now }
{
    let mut events = 0u128;
    for k in 0..inodes.len() {
        let inode = &inodes[k];
        events += inode.journal.len() as u128;
    }
    events
}

fn replies_in(tasks: &[EndedTask]) -> u128
    ensures { result ≡ replies_in tasks.now }
{
    let mut replies = 0u128;
    for k in 0..tasks.len() {
        let task = &tasks[k];
        replies += task.replies.len() as u128;
    }
    replies
}

/// How much the run has made that left this state.
pub fn made_of(ended: &Ended) -> Made
    ensures { result ≡ made_of ended.now }
{
    Made {
        events: events_in(ended.inodes.as_slice()),
        replies: replies_in(ended.tasks.as_slice()),
    }
}
