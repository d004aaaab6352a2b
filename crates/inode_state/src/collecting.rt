// The open collection, and how each event changes it.
ghost use Rattle.std.specs.Prelude.{◌≡◌, ◌+◌, ◌<◌, ◌^◌, List, ◌∷◌, length, Some};
ghost use Rattle.inode_events.specs.Inode.{Inode as AnyInode};
ghost use Rattle.inode_events.specs.Integrity.{collecting};
ghost use Rattle.inode_events.specs.declared.told.Event.{Event as AnyEvent};
ghost use Rattle.inode_state.specs.Collecting.{Asks, Chooses, asked_in, begun_seen, collecting_next, more_seen, pieces_taken, shortened, shorts_seen};

use crate::facts::Facts;
use hash_algos::Algo;
use inode_events::{Deed, Event, Told};
use inode_meta::Slot;
use policy_rules::Action;

/// What a check asked of a file.
#[derive(Drop)]
pub struct Asked {
    /// The slot of the check's hook.
    pub slot: Slot,
    /// The action that the rules gave the check.
    pub action: Action,
}

/// A collection under way. Its bytes are with the task that hashes them.
#[derive(Drop)]
pub struct Collecting {
    /// The file that is hashed, named by the place of its count.
    pub file: u64,
    /// What the file's last check asked for, or `None` if a writer's close began the collection.
    pub asked: Option<Asked>,
    /// The algorithm of the collection's digest.
    pub algo: Algo,
    /// The place of the event that began it.
    pub begin: u64,
    /// The number of pieces that it has taken.
    pub pieces: u64,
    /// Whether it has taken the last piece.
    pub complete: bool,
}

impl Asked {
    /// A copy of what a check asked.
    pub fn copy(&self) -> Asked
        ensures { result ≡ self.now }
    {
        Asked {
            slot: self.slot,
            action: self.action,
        }
    }
}

fn copied(asked: &Option<Asked>) -> Option<Asked>
    ensures { result ≡ asked.now }
{
    match asked {
        None => None,
        Some(asked) => Some(asked.copy()),
    }
}

/// A copy of what was asked for the open collection, if a check asked for it.
pub fn asked_in(collecting: &Option<Collecting>) -> Option<Asked>
    ensures { result ≡ asked_in collecting.now }
{
    match collecting {
        None => None,
        Some(collecting) => copied(&collecting.asked),
    }
}

fn begun(file: u64, asked: Option<Asked>, algo: Algo, place: u64) -> Option<Collecting>
    ensures { result ≡ begun_seen file asked algo place }
{
    Some(Collecting {
        file,
        asked,
        algo,
        begin: place,
        pieces: 0,
        complete: false,
    })
}

fn more(old: Option<Collecting>, complete: bool) -> Option<Collecting>
    requires { pieces_taken old + 1 < 2 ^ 64 }
    ensures { result ≡ more_seen complete old }
{
    match old {
        None => None,
        Some(c) => Some(Collecting {
            file: c.file,
            asked: c.asked,
            algo: c.algo,
            begin: c.begin,
            pieces: c.pieces + 1,
            complete,
        }),
    }
}

/// The open collection after the event `e` at `place`.
pub fn collecting_after(
    e: &Event,
    place: u64,
    facts: &Facts,
    old: Option<Collecting>,
) -> Option<Collecting>
    requires { pieces_taken old + 1 < 2 ^ 64 }
    ensures { result ≡ collecting_next e.now.deed e.now.told place facts.now.algo facts.now.asked
        old }
{
    match (&e.deed, &e.told) {
        (Deed::Take { file }, Told::Begun) => {
            begun(*file, copied(&facts.asked), facts.algo, place)
        }
        (Deed::CloseTake { file }, Told::Begun) => begun(*file, None, facts.algo, place),
        (Deed::Chunk { .. } | Deed::CloseChunk { .. }, Told::More) => more(old, false),
        (Deed::Chunk { .. } | Deed::CloseChunk { .. }, Told::Last) => more(old, true),
        (Deed::Finish { .. }, Told::Grant(_)) => None,
        (Deed::CloseFinish { .. }, Told::Dropped | Told::LabelledDropped) => None,
        _ => old,
    }
}
