//! The hashing of a task's collection.

ghost use Rattle.std.specs.Prelude.{◌≡◌, ◌++◌, Some};
ghost use Rattle.hash_algos.specs.Digest.{digest_of};
ghost use Rattle.hash_algos.specs.declared.algo.Algo.TheVariants.{Sha1};
ghost use Rattle.inode_events.specs.Integrity.{Collection, digest_from};
ghost use Rattle.task_steps.specs.Hashed.{HasGathered, sums_in};
ghost use Rattle.world_model.specs.Tasks.{HasSummed, HasTakenIn};

use hash_algos::Digest;
use inode_hashing::Hashing;
use inode_pages::Page;
use std::mem;
use world_model::HashState;
use world_model::inodes::Piece;

// Hashes the piece, and computes the digests after the last one.
fn hashed(mut hashing: Hashing, piece: Piece, page: &Page) -> HashState
    ensures { (c : Collection) → HasTakenIn (HashState.Running hashing) c
        → HasGathered piece result (record c { bytes = c.bytes ++ page.now }) }
{
    hashing.next_page(page);
    match piece {
        Piece::More => HashState::Running(hashing),
        Piece::Last => {
            let (chosen, sha1) = hashing.finish();
            HashState::Done(chosen, sha1)
        }
    }
}

/// Hashes the piece that the collection took.
pub fn gather(hash_state: &mut HashState, piece: Piece, page: &Page)
    ensures { (c : Collection) → HasTakenIn hash_state.old c
        → HasGathered piece hash_state.new (record c { bytes = c.bytes ++ page.now }) }
{
    if let HashState::Running(hashing) = mem::replace(hash_state, HashState::Idle) {
        *hash_state = hashed(hashing, piece, page);
    }
}

/// The digests of the collection; `None` if its last piece hasn't been taken.
pub fn sums(hash_state: &HashState) -> Option<(Digest, Digest)>
    ensures of { (c : Collection) → HasSummed hash_state.now c
        → result ≡ Some (digest_from c, digest_of Sha1 c.bytes) }
    ensures value { result ≡ sums_in hash_state.now }
{
    match hash_state {
        HashState::Done(chosen, sha1) => Some((*chosen, *sha1)),
        _ => None,
    }
}
