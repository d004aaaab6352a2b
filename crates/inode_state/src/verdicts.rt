// The verdicts in force, and how each event changes them.
ghost use Rattle.std.specs.Prelude.{◌≡◌, ◌+◌, ◌≤◌, [], ◌∷◌, ◌++◌, OnOk, OnErr, find, vec_len, vec_capacity};
ghost use Rattle.std.specs.Option.{option_map};
ghost use Rattle.inode_state.specs.Verdicts.{found, given_under, kept_with, key_seen, voids_all, verdicts_after, verdicts_next};

use crate::collecting::Asked;
use crate::keys::{Key, key_of, same_key};
use inode_events::labels::Verdict;
use inode_events::{Deed, Event, Told};
use std::alloc::{AllocError as OutOfMemory, Global};

/// A verdict in force, with its key.
#[derive(Clone, Copy)]
pub struct KeyedVerdict {
    /// The slot, label and algorithms for which the verdict was given.
    pub key: Key,
    /// The outcome of the appraisal.
    pub verdict: Verdict,
}

/// The verdicts in force. There is at most one for each key under which the inode was granted since
/// its verdicts were last voided.
#[derive(Drop)]
pub struct Verdicts {
    /// In the order in which they were given, each key once.
    pub kept: Vec<KeyedVerdict>,
}

// Whether the event voids all verdicts. `voids` says whether it voids the digest in force.
fn voids_all(e: &Event, voids: bool) -> bool
    ensures { result ≡ voids_all e.now.deed e.now.told voids }
{
    match (&e.deed, &e.told) {
        (Deed::SetMeta { .. }, Told::Done) => true,
        _ => voids,
    }
}

impl Verdicts {
    /// The verdicts of an inode that was just created: none.
    pub fn new(alloc: Global) -> Verdicts
        ensures { result.kept.items ≡ [] }
    {
        Verdicts {
            kept: Vec::new(alloc),
        }
    }

    /// The verdict under the key, if one is in force.
    pub fn get(&self, key: Key) -> Option<Verdict>
        ensures { result ≡ found (key_seen key) self.now.kept.items }
    {
        self.kept
            .iter()
            .find(|x| same_key(key, x.key))
            .map(|x| x.verdict)
    }

    /// Makes room for one more verdict.
    pub fn reserve(&mut self) -> Result<(), OutOfMemory>
        ensures room { OnOk result (vec_len self.new.kept + 1 ≤ vec_capacity self.new.kept) }
        ensures same { self.new.kept.items ≡ self.old.kept.items }
    {
        self.kept.reserve(1)
    }

    // Keeps a verdict, unless there is one under the key.
    fn keep(&mut self, key: Key, verdict: Option<Verdict>)
        requires { vec_len self.old.kept + 1 ≤ vec_capacity self.old.kept }
        ensures { self.new.kept.items ≡ kept_with key verdict self.old.kept.items }
    {
        if let Some(verdict) = verdict
            && self.get(key).is_none()
        {
            self.kept.push_reserved(KeyedVerdict { key, verdict });
        }
    }

    // Keeps a verdict under the key for what was asked.
    fn keep_for(&mut self, asked: &Option<Asked>, verdict: Option<Verdict>)
        requires { vec_len self.old.kept + 1 ≤ vec_capacity self.old.kept }
        ensures { self.new.kept.items ≡ given_under asked.now verdict self.old.kept.items }
    {
        if let Some(asked) = asked {
            self.keep(key_of(asked), verdict);
        }
    }

    // Keeps the verdict that the event gives, if any.
    fn keep_given(&mut self, e: &Event, asked: &Option<Asked>)
        requires { vec_len self.old.kept + 1 ≤ vec_capacity self.old.kept }
        ensures { self.new.kept.items ≡ verdicts_next e.now.deed e.now.told asked.now
            self.old.kept.items }
    {
        match (&e.deed, &e.told) {
            (Deed::Take { .. }, Told::Grant(grant)) => self.keep_for(asked, grant.verdict),
            (Deed::Finish { .. }, Told::Grant(grant)) => self.keep_for(asked, grant.verdict),
            _ => {}
        }
    }

    /// Updates the verdicts by an event. `voids` says whether the event voids the digest in force.
    pub fn advance(&mut self, e: &Event, voids: bool, asked: &Option<Asked>)
        requires { vec_len self.old.kept + 1 ≤ vec_capacity self.old.kept }
        ensures { self.new.kept.items ≡ verdicts_after e.now.deed e.now.told voids asked.now
            self.old.kept.items }
    {
        if voids_all(e, voids) {
            self.kept.clear();
        } else {
            self.keep_given(e, asked);
        }
    }
}
