// The metadata of an inode, and how each event changes it.
ghost use Rattle.std.specs.Prelude.{◌≡◌};
ghost use Rattle.inode_events.specs.State.{metadata_after};

use inode_events::{Deed, Event, Told, changed};
use inode_meta::Meta;

/// The metadata after an event. Only a birth and a change that was done affect it.
pub fn metadata_after(e: &Event, old: Meta) -> Meta
    ensures { result ≡ metadata_after e.now.deed e.now.told old }
{
    match (&e.deed, &e.told) {
        (Deed::Birth, Told::Image(image)) => image.get().meta,
        (Deed::SetMeta { change }, Told::Done) => changed(*change, old),
        _ => old,
    }
}
