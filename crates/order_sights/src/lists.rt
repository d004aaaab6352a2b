// The measurement lists of two moments, in any order.

ghost use Rattle.std.specs.Prelude.{IsTrue};
ghost use Rattle.order_outcomes.specs.alike.Alike.{AreIn, IsIn};

use inode_events::templates::Entry;
use order_told::Same;

// Whether the list has the entry.
fn is_in(list: &[Entry], entry: &Entry) -> bool
    ensures { IsTrue result → IsIn list.now entry.now }
{
    for (place, other) in list.iter().enumerate() {
        if other.is_same(entry) {
            return true;
        }
    }
    false
}

/// Whether the list has all entries of the other one.
pub fn are_in(list: &[Entry], other: &[Entry]) -> bool
    ensures { IsTrue result → AreIn list.now other.now }
{
    for entry in other {
        if !is_in(list, entry) {
            return false;
        }
    }
    true
}
