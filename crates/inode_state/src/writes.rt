// The last write to an inode.
ghost use Rattle.std.specs.Prelude.{◌≡◌, List, ◌∷◌, length};
ghost use Rattle.inode_events.specs.Files.{writers};
ghost use Rattle.inode_events.specs.State.{raises_writers};
ghost use Rattle.inode_events.specs.declared.told.Event.{Event as AnyEvent};
ghost use Rattle.inode_state.specs.Writes.{AreWrites, reaches};

use crate::counts::{Kind, counts_as};
use crate::events::{counted, modifies};
use inode_events::Event;

/// Summary of the writes and truncations that were done.
#[derive(Clone, Copy)]
pub struct Writes {
    /// The place of the last write or truncation.
    pub last: Option<u64>,
    /// Whether one was done since the number of writers last rose from 0.
    pub in_span: bool,
}

// Whether the event counts the first writer. `count` is the number of writers before it.
fn raises_writers(e: &Event, count: u64) -> bool
    ensures { (p : List AnyEvent) → count ≡ writers p
        → result ≡ raises_writers e.now.deed e.now.told p }
{
    counts_as(Kind::Writer, counted(e)) && count == 0
}

impl Writes {
    /// Whether a write or truncation was done at the place or after it.
    pub fn since(self, place: u64) -> bool
        ensures { result ≡ reaches place self.last }
    {
        match self.last {
            Some(last) => place <= last,
            None => false,
        }
    }

    /// The summary after the event `e` at `place`. `count` is the number of writers before it.
    pub fn after(self, e: &Event, place: u64, count: u64) -> Writes
        ensures { (p : List AnyEvent) → AreWrites p self → place ≡ length p → count ≡ writers p
            → AreWrites (e.now ∷ p) result }
    {
        let written = modifies(e);
        Writes {
            last: if written { Some(place) } else { self.last },
            in_span: !raises_writers(e, count) && (written || self.in_span),
        }
    }
}
