// Showing a growing list to several passes.
ghost use Rattle.std.specs.Prelude.{◌≡◌, All, map};
ghost use Rattle.grow_list.specs.Shown.{IsSameList};
ghost use Rattle.inode_state.specs.Value.{having_seen};

use grow_list::{Grow, Pass};
use inode_events::Event;

/// Shows the list to each of the passes.
pub fn show(list: &mut Grow<Event>, passes: &mut Vec<Pass<Event>>)
    requires { All (λ p. p.name ≡ list.old.name) passes.old.items }
    ensures list { IsSameList list.old list.new }
    ensures passes { passes.new.items
        ≡ map (having_seen list.old.list) passes.old.items }
{
    for k in 0..passes.len() {
        list.look(&mut passes[k]);
    }
}
