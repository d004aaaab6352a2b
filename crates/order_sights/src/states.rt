// The state of an inode in two moments.

ghost use Rattle.std.specs.Prelude.{◌≡◌, IsTrue};
ghost use Rattle.order_sights.specs.States.{AreCollectionsSame, IsStateSame, force_seen};

use inode_state::State;
use order_told::{Same, same_all};

// Whether the digests in force are the same, and both stale or neither.
fn same_force(a: &State, b: &State) -> bool
    ensures { IsTrue result → (force_seen b.now.writes.last b.now.in_force
        ≡ force_seen a.now.writes.last a.now.in_force) }
{
    match (&a.in_force, &b.in_force) {
        (None, None) => true,
        (Some(f), Some(g)) => {
            f.sums.is_same(&g.sums) && a.writes.since(f.begin) == b.writes.since(g.begin)
        }
        _ => false,
    }
}

// Whether no collection is open, or in both moments one that has taken as many pieces, and both are
// stale or neither.
fn same_collecting(a: &State, b: &State) -> bool
    ensures { IsTrue result → AreCollectionsSame a.now.writes.last b.now.writes.last
        a.now.collecting b.now.collecting }
{
    match (&a.collecting, &b.collecting) {
        (None, None) => true,
        (Some(c), Some(d)) => {
            c.asked.is_none() == d.asked.is_none()
                && c.algo == d.algo
                && c.pieces == d.pieces
                && c.complete == d.complete
                && a.writes.since(c.begin) == b.writes.since(d.begin)
        }
        _ => false,
    }
}

/// Whether the states are the same as the next steps see them, but for what an open collection has
/// taken.
pub fn same_state(a: &State, b: &State) -> bool
    ensures { IsTrue result → IsStateSame a.now b.now }
{
    a.counts == b.counts
        && a.marks.is_same(&b.marks)
        && a.writes.in_span == b.writes.in_span
        && a.meta == b.meta
        && same_force(a, b)
        && same_collecting(a, b)
        && same_all(a.verdicts.kept.as_slice(), b.verdicts.kept.as_slice())
}
