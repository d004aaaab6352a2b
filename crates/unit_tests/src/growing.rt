ghost use Rattle.std.specs.Prelude.{◌≡◌, ℕ, ◌<◌, ◌∷◌, ◌++◌, [], length, All, Some, slice_get};

use grow_list::*;

/// A caller adds an entry, others then add any number of entries, and the caller looks. Its entry
/// is in the list, at the place that `push` returned, and no entries but its own have its number.
fn stays<E: Drop>(grow: &mut Grow<E>, me: &mut Pass<E>, entry: E, others: Vec<(Pass<E>, E)>) -> u64
    requires room { length others.items < grow.old.spare }
    requires mine { me.old.name ≡ grow.old.name }
    requires theirs { All (λ t. t.0.name ≡ grow.old.name) others.items }
    ensures stands { slice_get grow.new.list result ≡ Some entry }
    ensures alone { (k : ℕ) (x : E) → slice_get grow.new.list k ≡ Some x
        → slice_get grow.new.numbers k ≡ Some me.old.number
        → (i : ℕ) × (slice_get (me.old.mine ++ (result, entry) ∷ []) i ≡ Some (k, x)) }
{
    let place = grow.push(me, entry);
    for (mut other, entry) in others {
        grow.push(&mut other, entry);
    }
    grow.look(me);
    place
}
