// The digest in force, and how each event changes it.
ghost use Rattle.std.specs.Prelude.{◌≡◌, ◌||◌, ◌&&◌, not};
ghost use Rattle.inode_state.specs.InForce.{digest_in, in_force_after_lem, in_force_next, given_now, stale_now, voids_now};

use crate::collecting::Collecting;
use crate::writes::Writes;
use hash_algos::Digest;
use inode_events::{Deed, Event, Told};

/// The digests that a collection yields.
#[derive(Drop)]
pub struct Sums {
    /// The digest by the collection's algorithm.
    pub digest: Digest,
    /// The SHA-1 digest of the same bytes.
    pub sha1: Digest,
}

/// A digest in force, with the start of its collection.
#[derive(Drop)]
pub struct InForce {
    /// The digests by the collection's algorithm and by SHA-1.
    pub sums: Sums,
    /// The place of the take that began its collection.
    pub begin: u64,
}

impl Sums {
    /// A copy of the digests.
    pub fn copy(&self) -> Sums
        ensures { result ≡ self.now }
    {
        Sums {
            digest: self.digest,
            sha1: self.sha1,
        }
    }
}

/// The digest in force by its collection's algorithm.
pub fn digest_in(in_force: Option<InForce>) -> Option<Digest>
    ensures { result ≡ digest_in in_force }
{
    match in_force {
        None => None,
        Some(digests) => Some(digests.sums.digest),
    }
}

/// Whether there was a write since the collection of the digest in force began.
pub fn is_stale(in_force: &Option<InForce>, writes: Writes) -> bool
    ensures { result ≡ stale_now in_force.now writes.last }
{
    match in_force {
        None => false,
        Some(digests) => writes.since(digests.begin),
    }
}

/// Whether the event voids the digest in force. `drop` says whether it drops the last writer, and
/// `changed` whether the content then counts as changed.
pub fn voids_digest(e: &Event, drop: bool, changed: bool) -> bool
    ensures { result ≡ voids_now e.now.deed e.now.told drop changed }
{
    match (&e.deed, &e.told) {
        (Deed::SetAttr { .. }, Told::Done) => true,
        (Deed::Take { .. }, Told::Grant(grant)) => grant.labelled,
        (Deed::Finish { .. }, Told::Grant(grant)) => grant.labelled,
        (Deed::CloseFinish { .. }, Told::LabelledDropped) => true,
        _ => drop && changed,
    }
}

fn given(collecting: &Option<Collecting>, sums: &Option<Sums>) -> Option<InForce>
    ensures { result ≡ given_now collecting.now sums.now }
{
    match (collecting, sums) {
        (Some(c), Some(sums)) => Some(InForce {
            sums: sums.copy(),
            begin: c.begin,
        }),
        _ => None,
    }
}

fn in_force_next(
    e: &Event,
    collecting: &Option<Collecting>,
    sums: &Option<Sums>,
    old: Option<InForce>,
) -> Option<InForce>
    ensures { result ≡ in_force_next e.now.deed e.now.told collecting.now sums.now old }
{
    match (&e.deed, &e.told) {
        (Deed::Finish { .. }, Told::Grant(_)) => given(collecting, sums),
        _ => old,
    }
}

/// The digest in force after an event. `voids` says whether the event voids it.
pub fn in_force_after(
    e: &Event,
    voids: bool,
    collecting: &Option<Collecting>,
    sums: &Option<Sums>,
    old: Option<InForce>,
) -> Option<InForce>
    ensures { result ≡ in_force_after_lem e.now.deed e.now.told voids collecting.now sums.now old }
{
    if voids {
        None
    } else {
        in_force_next(e, collecting, sums, old)
    }
}
